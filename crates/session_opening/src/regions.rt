//! The regions of a volume, one after the other: their numbers and their blocks.
ghost use Rattle.std.specs.Prelude.{◌≡◌, ◌<◌, ◌^◌, length, IfOk};
ghost use Rattle.salus_types.specs.Volume.{blocks, regions};
ghost use Rattle.volume_model.specs.Contents.{all_regions, blocks_in};

use salus_types::{Bytes, Geometry, Items, NoMemory, Regions};
use std::alloc::Global;

/// The numbers of the regions.
pub fn all_regions(alloc: Global, geometry: &Geometry) -> Result<Regions, NoMemory>
    ensures { IfOk result (λ all. all ≡ all_regions geometry.now) }
{
    let mut all = Items::new(alloc);
    'regions: for region in 0..geometry.regions() as u16 {
        all.push(region)?;
    }
    Ok(all)
}

/// The blocks of a region, lent from those of the volume.
pub fn region_slice<'a>(geometry: &Geometry, contents: &'a [Bytes], region: u16) -> &'a [Bytes]
    requires count { length contents.now ≡ blocks geometry.now }
    requires region { region < regions geometry.now }
    ensures value { result.now ≡ blocks_in geometry.now contents.now region }
    ensures count { length result.now ≡ 2 ^ geometry.now.height }
{
    let size = geometry.region_blocks() as usize;
    let (_, rest) = contents.split_at(region as usize * size);
    let (here, _) = rest.split_at(size);
    here
}
