ghost use Rattle.std.specs.Prelude.{◌≡◌, ◌↔◌, IsTrue};

use crate::items::{Blocks, Bytes};
use crate::records::{Base, Batch, Header, Record, Write, Writes};
use crate::strike::Strikes;

/// True exactly where the bytes are the same.
pub fn same_bytes(left: &Bytes, right: &Bytes) -> bool
    ensures { IsTrue result ↔ (left.now ≡ right.now) }
{
    left == right
}

/// True exactly where the blocks are the same.
pub fn same_blocks(left: &Blocks, right: &Blocks) -> bool
    ensures { IsTrue result ↔ (left.now ≡ right.now) }
{
    left == right
}

fn same_write(left: &Write, right: &Write) -> bool
    ensures { IsTrue result ↔ (left.now ≡ right.now) }
{
    left == right
}

/// True exactly where the strikes are the same, replica by replica.
pub fn same_strikes(left: &Strikes, right: &Strikes) -> bool
    ensures { IsTrue result ↔ (left.now ≡ right.now) }
{
    left == right
}

/// True exactly where the batches are the same writes in the same order.
pub fn same_batch(left: &Batch, right: &Batch) -> bool
    ensures { IsTrue result ↔ (left.now ≡ right.now) }
{
    left == right
}

/// True exactly where the parts are the same writes in the same order.
pub fn same_writes(left: &Writes, right: &Writes) -> bool
    ensures { IsTrue result ↔ (left.now ≡ right.now) }
{
    left == right
}

/// True exactly where the headers agree in every field.
pub fn same_header(left: &Header, right: &Header) -> bool
    ensures { IsTrue result ↔ (left.now ≡ right.now) }
{
    left == right
}

fn same_content(left: &Record, right: &Record) -> bool
    ensures { IsTrue result ↔ ((left.now.writes ≡ right.now.writes) × (left.now.run ≡ right.now.run) × (left.now.tag ≡ right.now.tag)) }
{
    same_writes(&left.writes, &right.writes) && left.run == right.run && left.tag == right.tag
}

/// True exactly where the records agree in every field, the tag too.
pub fn same_record(left: &Record, right: &Record) -> bool
    ensures { IsTrue result ↔ (left.now ≡ right.now) }
{
    same_header(&left.header, &right.header) && same_content(left, right)
}

/// True exactly where the bases have the same record and the same blocks.
pub fn same_base(left: &Base, right: &Base) -> bool
    ensures { IsTrue result ↔ (left.now ≡ right.now) }
{
    same_record(&left.rec, &right.rec) && same_blocks(&left.blocks, &right.blocks)
}
