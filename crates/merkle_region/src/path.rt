ghost use Rattle.std.specs.Prelude.{◌≡◌, ◌↔◌, IsTrue};
ghost use Rattle.merkle_region.specs.Tree.{Carries, climb, parent, verified, Verifies};

use salus_hash::{Digest, leaf_digest, node_digest};
use salus_types::Path;

fn parent_digest(i: u32, digest: &Digest, sibling: &Digest) -> Digest
    ensures { result ≡ parent i digest.now sibling.now }
{
    if i % 2 == 0 {
        node_digest(digest, sibling)
    } else {
        node_digest(sibling, digest)
    }
}

/// The digest that a leaf at place `i` reaches with a path of siblings from the leaf upwards. At each step the
/// lowest bit left of `i` says whether the digest so far is the right child (1) or the left one (0).
pub fn fold_path(i: u32, leaf: &Digest, path: &Path) -> Digest
    ensures { result ≡ climb i leaf.now path.now }
{
    let mut place = i;
    let mut digest = *leaf;
    'siblings: for sibling in path.as_slice() {
        digest = parent_digest(place, &digest, sibling);
        place /= 2;
    }
    digest
}

/// Whether the path has `height` digests and leads from the block at place `i` to the root.
pub fn verifies(root: &Digest, height: u32, i: u32, block: &[u8], path: &Path) -> bool
    ensures exact { IsTrue result ↔ Verifies root.now height i block.now path.now }
    ensures test { result ≡ verified root.now height i block.now path.now }
    // A path that verifies carries the block at its place, where no strings collide.
    ensures carries { IsTrue result → Carries root.now height i block.now path.now }
{
    path.len() == height as usize && fold_path(i, &leaf_digest(block), path) == *root
}
