ghost use Rattle.std.specs.Prelude.{◌≡◌, ◌++◌, ◌≤◌, ◌<◌, All, List, ℕ, length, Ok, IfOk, OnOk};
ghost use Rattle.std.specs.List.{AllByRecursion};
ghost use Rattle.salus_types.specs.Outcome.{Gives};
ghost use Rattle.salus_codec.specs.Reading.{field_fault, bytes_at, u16_at};
ghost use Rattle.salus_codec.specs.Formats.{times, within};
ghost use Rattle.client_tag.specs.Spelling.{joined, size_of, blocks_bytes, base_bytes};
ghost use Rattle.client_tag.specs.Ranges.{AreBlocks, IsBase, IsBetween, IsTyped};
ghost use Rattle.client_tag.specs.Reading.{least_size, most_size, blocks_at, base_at};

use crate::part::read_bytes;
use crate::record_bytes::{RecordError, read_record, write_record};
use salus_codec::{Fields, put_bytes, put_u16, put_u32};
use salus_types::{Base, Blocks, Bytes, Items, NoMemory};
use std::alloc::Global;

fn read_each_block(
    alloc: Global,
    count: u32,
    size: u16,
    fields: &mut Fields,
) -> Result<Blocks, RecordError>
    ensures { Gives (λ x. Ok (x, fields.new)) field_fault result (times (bytes_at size) count fields.old) }
{
    let mut blocks = Items::new(alloc);
    'each: for _ in 0..count {
        let block = read_bytes(alloc, size as usize, fields)?;
        blocks.push(block)?;
    }
    Ok(blocks)
}

fn read_size(count: u32, fields: &mut Fields) -> Result<u16, RecordError>
    ensures { Gives (λ x. Ok (x, fields.new)) field_fault result (within (least_size count) (most_size count) u16_at fields.old) }
{
    if count == 0 {
        fields.u16_within(0, 0)
    } else {
        fields.u16_within(1, 4096)
    }
}

/// The blocks at the front of the fields. After an error the fields may stand anywhere.
#[tactic(auto, unfolding(crate::specs::Reading::blocks_at))]
pub fn read_blocks(alloc: Global, fields: &mut Fields) -> Result<Blocks, RecordError>
    ensures { Gives (λ x. Ok (x, fields.new)) field_fault result (blocks_at fields.old) }
{
    let count = fields.u32_within(0, 4096)?;
    let size = read_size(count, fields)?;
    read_each_block(alloc, count, size, fields)
}

/// The base at the front of the fields. After an error the fields may stand anywhere.
#[tactic(auto, unfolding(crate::specs::Reading::base_at))]
pub fn read_base(alloc: Global, fields: &mut Fields) -> Result<Base, RecordError>
    ensures { Gives (λ x. Ok (x, fields.new)) field_fault result (base_at fields.old) }
{
    let rec = read_record(alloc, fields)?;
    let blocks = read_blocks(alloc, fields)?;
    Ok(Base { rec, blocks })
}

fn put_each_block(out: &mut Vec<u8>, blocks: &[Bytes]) -> Result<(), NoMemory>
    ensures { OnOk result (out.new.items ≡ out.old.items ++ joined blocks.now) }
{
    for block in blocks {
        put_bytes(out, block.as_slice())?;
    }
    Ok(())
}

fn size_of_first(blocks: &[Bytes]) -> u16
    requires { All (λ block. IsBetween 1 4096 (length block)) blocks.now }
    ensures { result ≡ size_of blocks.now }
{
    match blocks {
        [] => 0,
        [block, ..] => block.len() as u16,
    }
}

/// Adds the blocks' bytes at the end. After an error some of them may be there.
#[tactic(auto, unfolding(crate::specs::Spelling::blocks_bytes))]
pub fn write_blocks(blocks: &Blocks, out: &mut Vec<u8>) -> Result<(), NoMemory>
    requires { AreBlocks blocks.now }
    ensures { OnOk result (out.new.items ≡ out.old.items ++ blocks_bytes blocks.now) }
{
    put_u32(out, blocks.len() as u32)?;
    put_u16(out, size_of_first(blocks.as_slice()))?;
    put_each_block(out, blocks.as_slice())
}

/// Adds the base's bytes at the end. After an error some of them may be there.
#[tactic(auto, unfolding(crate::specs::Spelling::base_bytes))]
pub fn write_base(base: &Base, out: &mut Vec<u8>) -> Result<(), NoMemory>
    requires { IsBase base.now }
    ensures bytes { OnOk result (out.new.items ≡ out.old.items ++ base_bytes base.now) }
    ensures typed { OnOk result (IsTyped base.now.rec) }
{
    write_record(&base.rec, out)?;
    write_blocks(&base.blocks, out)
}
