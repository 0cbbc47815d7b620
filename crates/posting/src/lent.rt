ghost use Rattle.std.specs.Prelude.{◌≡◌, ◌++◌, ◌<◌, ◌^◌, All, length, IfOk, OnOk};
ghost use Rattle.std.specs.List.{flat_map};
ghost use Rattle.salus_message.specs.declared.wire.Message.TheVariants.{Part as APart, Gathered as AGathering, Stage as AStage, Dumped as ADump};
ghost use Rattle.client_tag.specs.Spelling.{base_bytes, blocks_bytes, joined, record_bytes, size_of};
ghost use Rattle.client_tag.specs.Ranges.{AreBlocks, IsBase, IsBetween, IsRecord};
ghost use Rattle.salus_message.specs.Spelling.{bases_bytes, message_bytes, records_bytes};
ghost use Rattle.salus_message.specs.Ranges.{IsHeld};

use client_tag::{write_base, write_record};
use salus_codec::{put_bytes, put_u16, put_u32, put_u64};
use salus_message::Kind;
use salus_types::{Base, Bytes, Held, NoMemory, Record};
use std::alloc::Global;

/// The bytes of a `Part` message with that record.
pub fn encode_part(alloc: Global, rec: &Record) -> Result<Vec<u8>, NoMemory>
    requires { IsRecord rec.now }
    ensures { IfOk result (λ out. out.items ≡ message_bytes (APart (record { rec = rec.now }))) }
{
    let mut out = Vec::with_capacity(alloc, 1024)?;
    out.push(Kind::Part.byte())?;
    write_record(rec, &mut out)?;
    Ok(out)
}

/// The bytes of a `Stage` message with that base.
pub fn encode_stage(alloc: Global, base: &Base) -> Result<Vec<u8>, NoMemory>
    requires { IsBase base.now }
    ensures { IfOk result (λ out. out.items ≡ message_bytes (AStage (record { base = base.now }))) }
{
    let mut out = Vec::with_capacity(alloc, 1024)?;
    out.push(Kind::Stage.byte())?;
    write_base(base, &mut out)?;
    Ok(out)
}

fn put_each_base(out: &mut Vec<u8>, bases: &[Base]) -> Result<(), NoMemory>
    requires { All IsBase bases.now }
    ensures { OnOk result (out.new.items ≡ out.old.items ++ flat_map base_bytes bases.now) }
{
    for base in bases {
        write_base(base, out)?;
    }
    Ok(())
}

/// A count of four bytes, and as many bases.
#[tactic(auto, unfolding(salus_message::specs::Spelling::bases_bytes))]
fn put_bases(out: &mut Vec<u8>, bases: &[Base]) -> Result<(), NoMemory>
    requires few { length bases.now < 2 ^ 32 }
    requires each { All IsBase bases.now }
    ensures { OnOk result (out.new.items ≡ out.old.items ++ bases_bytes bases.now) }
{
    put_u32(out, bases.len() as u32)?;
    put_each_base(out, bases)
}

fn put_each_record(out: &mut Vec<u8>, records: &[Record]) -> Result<(), NoMemory>
    requires { All IsRecord records.now }
    ensures { OnOk result (out.new.items ≡ out.old.items ++ flat_map record_bytes records.now) }
{
    for rec in records {
        write_record(rec, out)?;
    }
    Ok(())
}

/// A count of four bytes, and as many records.
#[tactic(auto, unfolding(salus_message::specs::Spelling::records_bytes))]
fn put_records(out: &mut Vec<u8>, records: &[Record]) -> Result<(), NoMemory>
    requires few { length records.now < 2 ^ 32 }
    requires each { All IsRecord records.now }
    ensures { OnOk result (out.new.items ≡ out.old.items ++ records_bytes records.now) }
{
    put_u32(out, records.len() as u32)?;
    put_each_record(out, records)
}

/// The bytes of a `Gathered` message of that session, with all that is held.
#[tactic(auto, unfolding(salus_message::specs::Spelling::gathered_bytes))]
pub fn encode_gathered(alloc: Global, session: u64, held: &Held) -> Result<Vec<u8>, NoMemory>
    requires { IsHeld held.now }
    ensures { IfOk result (λ out. out.items ≡ message_bytes (AGathering (record { session = session; held = held.now }))) }
{
    let mut out = Vec::with_capacity(alloc, 1024)?;
    out.push(Kind::Gathered.byte())?;
    put_u64(&mut out, session)?;
    put_u64(&mut out, held.session)?;
    put_bases(&mut out, held.bases.as_slice())?;
    put_records(&mut out, held.parts.as_slice())?;
    Ok(out)
}

fn put_each_block(out: &mut Vec<u8>, blocks: &[Bytes]) -> Result<(), NoMemory>
    ensures { OnOk result (out.new.items ≡ out.old.items ++ joined blocks.now) }
{
    for block in blocks {
        put_bytes(out, block.as_slice())?;
    }
    Ok(())
}

fn size_of_first(blocks: &[Bytes]) -> u16
    requires { All (λ block. IsBetween 1 4096 (length block)) blocks.now }
    ensures { result ≡ size_of blocks.now }
{
    match blocks {
        [] => 0,
        [block, ..] => block.len() as u16,
    }
}

/// A count of four bytes, the length of a block in two, and the blocks.
#[tactic(auto, unfolding(client_tag::specs::Spelling::blocks_bytes))]
fn put_blocks(out: &mut Vec<u8>, blocks: &[Bytes]) -> Result<(), NoMemory>
    requires { AreBlocks blocks.now }
    ensures { OnOk result (out.new.items ≡ out.old.items ++ blocks_bytes blocks.now) }
{
    put_u32(out, blocks.len() as u32)?;
    put_u16(out, size_of_first(blocks))?;
    put_each_block(out, blocks)
}

/// The bytes of a `Dumped` message: a region's blocks as of its number `at`, in that session.
#[tactic(auto, unfolding(salus_message::specs::Spelling::dumped_bytes))]
pub fn encode_dumped(
    alloc: Global,
    session: u64,
    region: u16,
    at: u64,
    blocks: &[Bytes],
) -> Result<Vec<u8>, NoMemory>
    requires { AreBlocks blocks.now }
    ensures { IfOk result (λ out. out.items ≡ message_bytes (ADump (record { session = session; region = region; at = at; blocks = blocks.now }))) }
{
    let mut out = Vec::with_capacity(alloc, 1024)?;
    out.push(Kind::Dumped.byte())?;
    put_u64(&mut out, session)?;
    put_u16(&mut out, region)?;
    put_u64(&mut out, at)?;
    put_blocks(&mut out, blocks)?;
    Ok(out)
}
