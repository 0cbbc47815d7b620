//! The roots of a volume that was never written.
ghost use Rattle.std.specs.Prelude.{◌≡◌, ◌^◌, length, replicate, IfOk};
ghost use Rattle.salus_types.specs.Volume.{regions};
ghost use Rattle.merkle_region.specs.Tree.{root_of};
ghost use Rattle.volume_model.specs.Contents.{roots_of, zero_contents};

use salus_hash::{Digest, leaf_digest, node_digest};
use salus_types::{Digests, Geometry, Items, NoMemory};
use std::alloc::Global;

/// The root over 2 ^ `height` blocks that are all equal: one hash a level.
fn root_of_equal(height: u32, block: &[u8]) -> Digest
    ensures { result ≡ root_of height (replicate (2 ^ height) block.now) }
{
    let mut digest = leaf_digest(block);
    'levels: for _ in 0..height {
        digest = node_digest(&digest, &digest);
    }
    digest
}

/// The root of each region of zero blocks.
pub fn zero_roots(alloc: Global, geometry: &Geometry) -> Result<Digests, NoMemory>
    ensures count { IfOk result (λ roots. length roots ≡ regions geometry.now) }
    ensures roots { IfOk result (λ roots. roots_of geometry.now (zero_contents geometry.now) ≡ roots) }
{
    let block = vec![in alloc; 0u8; geometry.block_size() as usize]?;
    let root = root_of_equal(geometry.height(), block.as_slice());
    let roots = vec![in alloc; root; geometry.regions() as usize]?;
    Ok(Items::from_vec(roots))
}
