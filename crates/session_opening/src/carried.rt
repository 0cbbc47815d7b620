//! The blocks that the bases of a session carry to the nodes.
ghost use Rattle.std.specs.Prelude.{◌≡◌, ◌<◌, []};
ghost use Rattle.salus_types.specs.Volume.{regions};
ghost use Rattle.client_tag.specs.Ranges.{AreBlocks};
ghost use Rattle.session_opening.specs.Basing.{carried_by, IsLoaded};

use crate::regions::region_slice;
use salus_types::{Blocks, Bytes, Geometry};

/// Which blocks are carried.
#[derive(Debug, Drop)]
pub enum Carried {
    /// Those of the volume: each base has its region's.
    Volume(Blocks),
    /// Those of one region; the other bases have none.
    Region { region: u16, blocks: Blocks },
}

/// No block.
fn nothing(blocks: &[Bytes]) -> &[Bytes]
    ensures { result.now ≡ [] }
{
    let (none, _) = blocks.split_at(0);
    none
}

impl Carried {
    /// The blocks that a region's base carries, lent.
    pub fn of_region(&self, geometry: &Geometry, region: u16) -> &[Bytes]
        requires region { region < regions geometry.now }
        requires loaded { IsLoaded geometry.now self.now }
        ensures value { result.now ≡ carried_by geometry.now self.now region }
        ensures spelled { AreBlocks result.now }
    {
        let _count = geometry.region_blocks();
        let _size = geometry.block_size();
        match self {
            Carried::Volume(blocks) => region_slice(geometry, blocks.as_slice(), region),
            Carried::Region {
                region: own,
                blocks,
            } => {
                if region == *own {
                    blocks.as_slice()
                } else {
                    nothing(blocks.as_slice())
                }
            }
        }
    }
}
