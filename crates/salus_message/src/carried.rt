ghost use Rattle.std.specs.Prelude.{◌≡◌, ◌++◌, ◌<◌, ◌^◌, All, length, Ok, OnOk};
ghost use Rattle.std.specs.List.{flat_map};
ghost use Rattle.salus_types.specs.Outcome.{Gives};
ghost use Rattle.salus_codec.specs.Reading.{field_fault};
ghost use Rattle.salus_codec.specs.Formats.{times};
ghost use Rattle.client_tag.specs.Spelling.{record_bytes, base_bytes};
ghost use Rattle.client_tag.specs.Ranges.{IsRecord, IsBase, AreBlocks};
ghost use Rattle.client_tag.specs.Reading.{record_at, base_at};
ghost use Rattle.salus_message.specs.Spelling.{bases_bytes, records_bytes, gathered_bytes, dumped_bytes};
ghost use Rattle.salus_message.specs.Ranges.{IsHeld};
ghost use Rattle.salus_message.specs.Reading.{bases_at, records_at, gathered_at, dumped_at};

use client_tag::{read_base, read_blocks, read_record, write_base, write_blocks, write_record};
use salus_codec::{FieldError, Fields, put_u16, put_u32, put_u64};
use salus_types::{Base, Bases, Blocks, Held, Items, NoMemory, Record, Records};
use std::alloc::Global;

/// A batch's part in one region.
#[derive(Debug, Drop)]
pub struct Part {
    pub rec: Record,
}

/// All that a server holds.
#[derive(Debug, Drop)]
pub struct Gathered {
    pub session: u64,
    pub held: Held,
}

/// A region's base of a session to come.
#[derive(Debug, Drop)]
pub struct Stage {
    pub base: Base,
}

/// A region's blocks as of its number `at`.
#[derive(Debug, Drop)]
pub struct Dumped {
    pub session: u64,
    pub region: u16,
    pub at: u64,
    pub blocks: Blocks,
}

fn read_each_base(alloc: Global, count: u32, fields: &mut Fields) -> Result<Bases, FieldError>
    ensures { Gives (λ x. Ok (x, fields.new)) field_fault result (times base_at count fields.old) }
{
    let mut bases = Items::new(alloc);
    'each: for _ in 0..count {
        let base = read_base(alloc, fields)?;
        bases.push(base)?;
    }
    Ok(bases)
}

#[tactic(auto, unfolding(crate::specs::Reading::bases_at))]
fn read_bases(alloc: Global, fields: &mut Fields) -> Result<Bases, FieldError>
    ensures { Gives (λ x. Ok (x, fields.new)) field_fault result (bases_at fields.old) }
{
    let count = fields.u32_within(0, 1048576)?;
    read_each_base(alloc, count, fields)
}

fn read_each_record(alloc: Global, count: u32, fields: &mut Fields) -> Result<Records, FieldError>
    ensures { Gives (λ x. Ok (x, fields.new)) field_fault result (times record_at count fields.old) }
{
    let mut records = Items::new(alloc);
    'each: for _ in 0..count {
        let rec = read_record(alloc, fields)?;
        records.push(rec)?;
    }
    Ok(records)
}

#[tactic(auto, unfolding(crate::specs::Reading::records_at))]
fn read_records(alloc: Global, fields: &mut Fields) -> Result<Records, FieldError>
    ensures { Gives (λ x. Ok (x, fields.new)) field_fault result (records_at fields.old) }
{
    let count = fields.u32_within(0, 1048576)?;
    read_each_record(alloc, count, fields)
}

#[tactic(auto, unfolding(crate::specs::Reading::gathered_at))]
pub fn read_gathered(alloc: Global, fields: &mut Fields) -> Result<Gathered, FieldError>
    ensures { Gives (λ x. Ok (x, fields.new)) field_fault result (gathered_at fields.old) }
{
    let session = fields.u64()?;
    let served = fields.u64()?;
    let bases = read_bases(alloc, fields)?;
    let parts = read_records(alloc, fields)?;
    Ok(Gathered {
        session,
        held: Held {
            session: served,
            bases,
            parts,
        },
    })
}

#[tactic(auto, unfolding(crate::specs::Reading::dumped_at))]
pub fn read_dumped(alloc: Global, fields: &mut Fields) -> Result<Dumped, FieldError>
    ensures { Gives (λ x. Ok (x, fields.new)) field_fault result (dumped_at fields.old) }
{
    let session = fields.u64()?;
    let region = fields.u16()?;
    let at = fields.u64()?;
    let blocks = read_blocks(alloc, fields)?;
    Ok(Dumped {
        session,
        region,
        at,
        blocks,
    })
}

fn put_each_base(out: &mut Vec<u8>, bases: &[Base]) -> Result<(), NoMemory>
    requires { All IsBase bases.now }
    ensures { OnOk result (out.new.items ≡ out.old.items ++ flat_map base_bytes bases.now) }
{
    for base in bases {
        write_base(base, out)?;
    }
    Ok(())
}

#[tactic(auto, unfolding(crate::specs::Spelling::bases_bytes))]
fn put_bases(out: &mut Vec<u8>, bases: &Bases) -> Result<(), NoMemory>
    requires few { length bases.now < 2 ^ 32 }
    requires each { All IsBase bases.now }
    ensures { OnOk result (out.new.items ≡ out.old.items ++ bases_bytes bases.now) }
{
    put_u32(out, bases.len() as u32)?;
    put_each_base(out, bases.as_slice())
}

fn put_each_record(out: &mut Vec<u8>, records: &[Record]) -> Result<(), NoMemory>
    requires { All IsRecord records.now }
    ensures { OnOk result (out.new.items ≡ out.old.items ++ flat_map record_bytes records.now) }
{
    for rec in records {
        write_record(rec, out)?;
    }
    Ok(())
}

#[tactic(auto, unfolding(crate::specs::Spelling::records_bytes))]
fn put_records(out: &mut Vec<u8>, records: &Records) -> Result<(), NoMemory>
    requires few { length records.now < 2 ^ 32 }
    requires each { All IsRecord records.now }
    ensures { OnOk result (out.new.items ≡ out.old.items ++ records_bytes records.now) }
{
    put_u32(out, records.len() as u32)?;
    put_each_record(out, records.as_slice())
}

#[tactic(auto, unfolding(crate::specs::Spelling::gathered_bytes))]
pub fn put_gathered(out: &mut Vec<u8>, message: &Gathered) -> Result<(), NoMemory>
    requires { IsHeld message.now.held }
    ensures { OnOk result (out.new.items ≡ out.old.items ++ gathered_bytes message.now) }
{
    put_u64(out, message.session)?;
    put_u64(out, message.held.session)?;
    put_bases(out, &message.held.bases)?;
    put_records(out, &message.held.parts)
}

#[tactic(auto, unfolding(crate::specs::Spelling::dumped_bytes))]
pub fn put_dumped(out: &mut Vec<u8>, message: &Dumped) -> Result<(), NoMemory>
    requires { AreBlocks message.now.blocks }
    ensures { OnOk result (out.new.items ≡ out.old.items ++ dumped_bytes message.now) }
{
    put_u64(out, message.session)?;
    put_u16(out, message.region)?;
    put_u64(out, message.at)?;
    write_blocks(&message.blocks, out)
}
