ghost use Rattle.std.specs.Prelude.{◌≡◌, ◌≤◌, ◌<◌, ◌^◌, Some, length, IfOk, OnOk};
ghost use Rattle.client_tag.specs.Ranges.{IsRecord, IsBase, IsTyped};
ghost use Rattle.holding_model.specs.Holding.{OfPart, OfBase, ToSession, entry_of};

use client_tag::{write_base, write_record};
use salus_codec::put_u64;
use salus_types::{Base, NoMemory, Record};
use std::alloc::Global;

/// The entry of a part: the byte 1 and the record.
pub fn part_entry(alloc: Global, rec: &Record) -> Result<Vec<u8>, NoMemory>
    requires { IsRecord rec.now }
    ensures entry { IfOk result (λ bytes. entry_of bytes.items ≡ Some (OfPart rec.now)) }
    ensures short { IfOk result (λ bytes. length bytes.items ≤ 2 ^ 31) }
    ensures typed { OnOk result (IsTyped rec.now) }
{
    let mut bytes = Vec::from_slice(alloc, &[1])?;
    write_record(rec, &mut bytes)?;
    Ok(bytes)
}

/// The entry of a base: the byte 2, the record and the blocks.
pub fn base_entry(alloc: Global, base: &Base) -> Result<Vec<u8>, NoMemory>
    requires ranges { IsBase base.now }
    requires blocks { 0 < length base.now.blocks }
    ensures entry { IfOk result (λ bytes. entry_of bytes.items ≡ Some (OfBase base.now)) }
    ensures short { IfOk result (λ bytes. length bytes.items ≤ 2 ^ 31) }
    ensures typed { OnOk result (IsTyped base.now.rec) }
{
    let mut bytes = Vec::from_slice(alloc, &[2])?;
    write_base(base, &mut bytes)?;
    Ok(bytes)
}

/// The entry of a switch: the byte 3 and the session in eight bytes.
pub fn switch_entry(alloc: Global, session: u64) -> Result<Vec<u8>, NoMemory>
    ensures entry { IfOk result (λ bytes. entry_of bytes.items ≡ Some (ToSession session)) }
    ensures short { IfOk result (λ bytes. length bytes.items ≤ 2 ^ 31) }
{
    let mut bytes = Vec::from_slice(alloc, &[3])?;
    put_u64(&mut bytes, session)?;
    Ok(bytes)
}
