//! The bytes that a batch leaves in each block that it writes.
ghost use Rattle.std.specs.Prelude.{◌≡◌, ◌+◌, ◌≤◌, ◌<◌, ◌^◌, IfOk};
ghost use Rattle.std.specs.Ordering.{nat_cmp};
ghost use Rattle.std.specs.BTreeMap.{IsOrdered};
ghost use Rattle.volume_model.specs.Contents.{Batch as AnyBatch};
ghost use Rattle.volume_model.specs.Parts.{writes_in};
ghost use Rattle.client_window.specs.Written.{Leaves, writes_between};

use salus_types::{Bytes, Geometry, Items, NoMemory, PlaceWrite, TryClone, Write, Writes};
use std::alloc::Global;
use std::collections::BTreeMap;

/// The blocks that a batch writes, ascending, each with the last bytes that are written to it.
pub type LastWrites<'a> = BTreeMap<u64, &'a Bytes>;

/// The last bytes that the batch writes to each block.
pub fn last_writes<'a>(alloc: Global, batch: &'a [Write]) -> Result<LastWrites<'a>, NoMemory>
    ensures { IfOk result (λ last. Leaves batch.now last.entries) }
{
    let mut last = BTreeMap::new(alloc);
    'writes: for write in batch {
        let _ = last.insert(write.block, &write.bytes)?;
    }
    Ok(last)
}

/// Those of them in the blocks from `from` up to `to`, each at its distance from the first.
fn writes_between(
    alloc: Global,
    last: &LastWrites<'_>,
    from: u64,
    to: u64,
) -> Result<Writes, NoMemory>
    requires forward { from ≤ to }
    requires near { to < from + 2 ^ 16 }
    ensures writes { IfOk result (λ writes. writes ≡ writes_between from to last.now.entries) }
    ensures ordered { IsOrdered nat_cmp last.now }
{
    let mut writes = Items::new(alloc);
    'entries: for (block, bytes) in last.range(from..to) {
        writes.push(PlaceWrite {
            place: (*block - from) as u16,
            bytes: bytes.try_clone(alloc)?,
        })?;
    }
    Ok(writes)
}

/// The part in a region of the batch that leaves them: for each place that is written there, ascending, the last bytes.
pub fn writes_in(
    alloc: Global,
    geometry: &Geometry,
    last: &LastWrites<'_>,
    region: u16,
) -> Result<Writes, NoMemory>
    ensures { IfOk result (λ writes. (batch : AnyBatch) → Leaves batch last.now.entries → writes ≡ writes_in geometry.now batch region) }
{
    let blocks = u64::from(geometry.region_blocks());
    let first = u64::from(region) * blocks;
    writes_between(alloc, last, first, first + blocks)
}
