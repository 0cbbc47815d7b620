//! Which regions a batch touches, and which numbers they have after it.
ghost use Rattle.std.specs.Prelude.{◌≡◌, if◌then◌else◌, length, map, slice_index, IfOk};
ghost use Rattle.salus_types.specs.Volume.{regions};
ghost use Rattle.volume_model.specs.Contents.{all_regions, region_of};
ghost use Rattle.volume_model.specs.Parts.{leader_of, touched_by, touches};

use salus_types::{Batch, Geometry, Items, NoMemory, Numbers, Regions, Write};
use std::alloc::Global;

/// The region in which a block lies.
fn region_of(geometry: &Geometry, block: u64) -> u64
    ensures { result ≡ region_of geometry.now block }
{
    block / u64::from(geometry.region_blocks())
}

/// Whether the batch writes a block of the region.
fn touches(geometry: &Geometry, batch: &[Write], region: u16) -> bool
    ensures { result ≡ touches geometry.now batch.now region }
{
    'writes: for write in batch {
        if region_of(geometry, write.block) == u64::from(region) {
            return true;
        }
    }
    false
}

/// The regions that the batch touches, ascending.
pub fn touched_regions(
    alloc: Global,
    geometry: &Geometry,
    batch: &Batch,
) -> Result<Regions, NoMemory>
    ensures { IfOk result (λ touched. touched ≡ touched_by geometry.now batch.now) }
{
    let mut touched = Items::new(alloc);
    'regions: for region in 0..geometry.regions() as u16 {
        if touches(geometry, batch.as_slice(), region) {
            touched.push(region)?;
        }
    }
    Ok(touched)
}

fn number_after(touched: bool, next: u64, number: u64) -> u64
    ensures { result ≡ (if touched then next else number) }
{
    if touched { next } else { number }
}

/// Every region's number after batch `next`: its own where the batch doesn't touch it.
pub fn numbers_after(
    alloc: Global,
    geometry: &Geometry,
    batch: &Batch,
    next: u64,
    numbers: &Numbers,
) -> Result<Numbers, NoMemory>
    requires { length numbers.now ≡ regions geometry.now }
    ensures { IfOk result (λ after. after ≡ map (λ g. if touches geometry.now batch.now g then next else slice_index numbers.now g) (all_regions geometry.now)) }
{
    let mut after = Items::new(alloc);
    'regions: for region in 0..geometry.regions() as u16 {
        after.push(number_after(
            touches(geometry, batch.as_slice(), region),
            next,
            numbers.as_slice()[region as usize],
        ))?;
    }
    Ok(after)
}

/// The lowest region that a batch touches, 0 where there is none.
pub fn leader_of(touched: &Regions) -> u16
    ensures { result ≡ slice_index touched.now 0 }
{
    touched.get(0).copied().unwrap_or(0)
}
