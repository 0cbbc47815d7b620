//! Which regions a batch touches.
ghost use Rattle.std.specs.Prelude.{◌≡◌};
ghost use Rattle.volume_model.specs.Parts.{touches};

use crate::place::region_of;
use salus_types::{Geometry, Write};

/// Whether the batch writes a block of the region.
pub fn touches(geometry: &Geometry, batch: &[Write], region: u16) -> bool
    ensures { result ≡ touches geometry.now batch.now region }
{
    'writes: for write in batch {
        if region_of(geometry, write.block) == u64::from(region) {
            return true;
        }
    }
    false
}
