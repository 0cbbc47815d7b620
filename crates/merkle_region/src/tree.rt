ghost use Rattle.std.specs.Prelude.{◌≡◌, ◌<◌, ◌^◌, length, IfOk};
ghost use Rattle.merkle_region.specs.Tree.{block_at, path_from, root_of, Verifies};

use salus_hash::{Digest, leaf_digest, node_digest};
use salus_types::{Bytes, Items, NoMemory, Path};
use std::alloc::Global;

/// The root over 2 ^ `height` blocks.
pub fn root(height: u32, blocks: &[Bytes]) -> Digest
    requires { length blocks.now ≡ 2 ^ height }
    ensures { result ≡ root_of height blocks.now }
{
    if height == 0 {
        return leaf_digest(blocks[0].as_slice());
    }
    let (left, right) = blocks.split_at(blocks.len() / 2);
    let left_root = root(height - 1, left);
    let right_root = root(height - 1, right);
    node_digest(&left_root, &right_root)
}

/// The path of the block at place `i` among 2 ^ `height` blocks: `height` digests, from the leaf upwards. It takes
/// memory for the path alone, and hashes each other block once.
pub fn path_of(alloc: Global, height: u32, blocks: &[Bytes], i: u32) -> Result<Path, NoMemory>
    requires len { length blocks.now ≡ 2 ^ height }
    requires within { i < 2 ^ height }
    ensures path { IfOk result (λ path. path ≡ path_from height blocks.now i) }
    ensures verifies { IfOk result (λ path. Verifies (root_of height blocks.now) height i (block_at blocks.now i) path) }
{
    siblings(alloc, height, blocks, i as usize)
}

fn siblings(alloc: Global, height: u32, blocks: &[Bytes], i: usize) -> Result<Path, NoMemory>
    requires len { length blocks.now ≡ 2 ^ height }
    requires within { i < 2 ^ height }
    ensures { IfOk result (λ path. path ≡ path_from height blocks.now i) }
{
    if height == 0 {
        return Ok(Items::new(alloc));
    }
    let (left, right) = blocks.split_at(blocks.len() / 2);
    if i < left.len() {
        let mut path = siblings(alloc, height - 1, left, i)?;
        path.push(root(height - 1, right))?;
        Ok(path)
    } else {
        let mut path = siblings(alloc, height - 1, right, i - left.len())?;
        path.push(root(height - 1, left))?;
        Ok(path)
    }
}
