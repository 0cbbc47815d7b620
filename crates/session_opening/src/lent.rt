//! A `Stage` message from blocks that are lent.
ghost use Rattle.std.specs.Prelude.{◌≡◌, ◌++◌, ◌<◌, ◌^◌, All, length, IfOk, OnOk};
ghost use Rattle.salus_message.specs.declared.wire.Message.TheVariants.{Stage as AStage};
ghost use Rattle.client_tag.specs.Spelling.{base_bytes, blocks_bytes, joined, size_of};
ghost use Rattle.client_tag.specs.Ranges.{AreBlocks, IsBetween, IsRecord};
ghost use Rattle.salus_message.specs.Spelling.{message_bytes};

use client_tag::write_record;
use salus_codec::{put_bytes, put_u16, put_u32};
use salus_message::Kind;
use salus_types::{Bytes, NoMemory, Record};
use std::alloc::Global;

fn put_each_block(out: &mut Vec<u8>, blocks: &[Bytes]) -> Result<(), NoMemory>
    ensures { OnOk result (out.new.items ≡ out.old.items ++ joined blocks.now) }
{
    for block in blocks {
        put_bytes(out, block.as_slice())?;
    }
    Ok(())
}

fn size_of_first(blocks: &[Bytes]) -> u16
    requires { All (λ block. IsBetween 1 4096 (length block)) blocks.now }
    ensures { result ≡ size_of blocks.now }
{
    match blocks {
        [] => 0,
        [block, ..] => block.len() as u16,
    }
}

/// A count of four bytes, the length of a block in two, and the blocks.
#[tactic(auto, unfolding(client_tag::specs::Spelling::blocks_bytes))]
fn put_blocks(out: &mut Vec<u8>, blocks: &[Bytes]) -> Result<(), NoMemory>
    requires { AreBlocks blocks.now }
    ensures { OnOk result (out.new.items ≡ out.old.items ++ blocks_bytes blocks.now) }
{
    put_u32(out, blocks.len() as u32)?;
    put_u16(out, size_of_first(blocks))?;
    put_each_block(out, blocks)
}

/// Room for the bytes of a base, so that they are written without moving.
fn room_for(blocks: &[Bytes]) -> usize
    requires { AreBlocks blocks.now }
{
    let bytes = blocks.len().saturating_mul(size_of_first(blocks) as usize);
    bytes.saturating_add(1024)
}

/// The bytes of a `Stage` message with that record and these blocks.
#[tactic(auto, unfolding(client_tag::specs::Spelling::base_bytes))]
pub fn encode_base(alloc: Global, rec: &Record, blocks: &[Bytes]) -> Result<Vec<u8>, NoMemory>
    requires rec { IsRecord rec.now }
    requires blocks { AreBlocks blocks.now }
    ensures { IfOk result (λ out. out.items ≡ message_bytes (AStage (record { base = record { rec = rec.now; blocks = blocks.now } }))) }
{
    let mut out = Vec::with_capacity(alloc, room_for(blocks))?;
    out.push(Kind::Stage.byte())?;
    write_record(rec, &mut out)?;
    put_blocks(&mut out, blocks)?;
    Ok(out)
}
