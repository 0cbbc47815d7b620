ghost use Rattle.std.specs.Prelude.{◌≡◌, ◌++◌, ◌<◌, ◌≤◌, ◌^◌, All, length, Ok, OnOk};
ghost use Rattle.std.specs.List.{flat_map, AllByRecursion};
ghost use Rattle.salus_types.specs.Outcome.{Gives};
ghost use Rattle.salus_codec.specs.Reading.{field_fault, bytes_at, u16_at};
ghost use Rattle.salus_codec.specs.Formats.{times, sized, within};
ghost use Rattle.client_tag.specs.Spelling.{write_bytes, writes_bytes};
ghost use Rattle.client_tag.specs.Ranges.{IsWrite, IsBetween};
ghost use Rattle.client_tag.specs.Reading.{write_at, writes_at};

use salus_codec::{FieldError, Fields, put_bytes, put_u8, put_u16};
use salus_types::{Bytes, Items, NoMemory, PlaceWrite, Writes};
use std::alloc::Global;

pub fn read_bytes(alloc: Global, count: usize, fields: &mut Fields) -> Result<Bytes, FieldError>
    ensures { Gives (λ x. Ok (x, fields.new)) field_fault result (bytes_at count fields.old) }
{
    let bytes = fields.bytes(count)?;
    let copy = Items::from_slice(alloc, bytes)?;
    Ok(copy)
}

fn read_block(alloc: Global, fields: &mut Fields) -> Result<Bytes, FieldError>
    ensures { Gives (λ x. Ok (x, fields.new)) field_fault result (sized (within 1 4096 u16_at) fields.old) }
{
    let count = fields.u16_within(1, 4096)?;
    read_bytes(alloc, count as usize, fields)
}

#[tactic(auto, unfolding(crate::specs::Reading::write_at))]
fn read_write(alloc: Global, fields: &mut Fields) -> Result<PlaceWrite, FieldError>
    ensures { Gives (λ x. Ok (x, fields.new)) field_fault result (write_at fields.old) }
{
    let place = fields.u16()?;
    let bytes = read_block(alloc, fields)?;
    Ok(PlaceWrite { place, bytes })
}

fn read_each_write(alloc: Global, count: u8, fields: &mut Fields) -> Result<Writes, FieldError>
    ensures { Gives (λ x. Ok (x, fields.new)) field_fault result (times write_at count fields.old) }
{
    let mut writes = Items::new(alloc);
    'each: for _ in 0..count {
        let write = read_write(alloc, fields)?;
        writes.push(write)?;
    }
    Ok(writes)
}

#[tactic(auto, unfolding(crate::specs::Reading::writes_at))]
pub fn read_writes(alloc: Global, fields: &mut Fields) -> Result<Writes, FieldError>
    ensures { Gives (λ x. Ok (x, fields.new)) field_fault result (writes_at fields.old) }
{
    let count = fields.u8_within(0, 64)?;
    read_each_write(alloc, count, fields)
}

#[tactic(auto, unfolding(crate::specs::Spelling::write_bytes))]
fn put_write(out: &mut Vec<u8>, write: &PlaceWrite) -> Result<(), NoMemory>
    requires { length write.now.bytes ≤ 4096 }
    ensures bytes { OnOk result (out.new.items ≡ out.old.items ++ write_bytes write.now) }
    ensures width { OnOk result (write.now.place < 2 ^ 16) }
{
    put_u16(out, write.place)?;
    put_u16(out, write.bytes.len() as u16)?;
    put_bytes(out, write.bytes.as_slice())
}

fn put_each_write(out: &mut Vec<u8>, writes: &[PlaceWrite]) -> Result<(), NoMemory>
    requires { All IsWrite writes.now }
    ensures bytes { OnOk result (out.new.items ≡ out.old.items ++ flat_map write_bytes writes.now) }
    ensures widths { OnOk result (AllByRecursion (λ w. w.place < 2 ^ 16) writes.now) }
{
    for write in writes {
        put_write(out, write)?;
    }
    Ok(())
}

#[tactic(auto, unfolding(crate::specs::Spelling::writes_bytes))]
pub fn put_writes(out: &mut Vec<u8>, writes: &Writes) -> Result<(), NoMemory>
    requires few { length writes.now < 2 ^ 8 }
    requires small { All IsWrite writes.now }
    ensures bytes { OnOk result (out.new.items ≡ out.old.items ++ writes_bytes writes.now) }
    ensures widths { OnOk result (AllByRecursion (λ w. w.place < 2 ^ 16) writes.now) }
{
    put_u8(out, writes.len() as u8)?;
    put_each_write(out, writes.as_slice())
}
