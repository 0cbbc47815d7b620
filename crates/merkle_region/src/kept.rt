//! A tree that is kept while its blocks change: each change hashes along one path.
ghost use Rattle.std.specs.Prelude.{◌≡◌, ◌<◌, ◌≤◌, ◌^◌, ◌-◌, length, map, slice_get, slice_set, IfOk, Some};
ghost use Rattle.salus_hash.specs.Hash.{leaf};
ghost use Rattle.merkle_region.specs.Raised.{digest_at};
ghost use Rattle.merkle_region.specs.Tree.{block_at, path_from, root_of, Verifies};

use crate::raised::{put_leaf, raise, sibling};
use salus_hash::{Digest, leaf_digest};
use salus_types::{Blocks, Bytes, Items, NoMemory, Path};
use std::alloc::Global;
use std::marker::Model;
use std::mem;

/// The 2 ^ height blocks of a region with the digests of their tree. A contract sees the height and the blocks.
#[derive(Drop)]
pub struct Tree {
    height: u32,
    blocks: Vec<Bytes>,
    digests: Vec<Digest>,
}

impl Model for Tree {
    ghost use Rattle.merkle_region.specs.Kept.{Region, IsKept};

    ghost Value = { Region };

    ghost view = { λ t. record { height = t.height; blocks = t.blocks.items } };

    ghost invariant = { λ t. IsKept t.height t.blocks.items t.digests.items };
}

/// The digest of the block at place `i`. Where it equals the block before, whose digest is the last one, it isn't hashed
/// again.
fn next_leaf(blocks: &[Bytes], i: usize, digests: &[Digest]) -> Digest
    requires within { i < length blocks.now }
    requires count { length digests.now ≡ i }
    requires last { 0 < i → digest_at digests.now (i - 1) ≡ leaf (block_at blocks.now (i - 1)) }
    ensures { result ≡ leaf (block_at blocks.now i) }
{
    if i > 0 && blocks[i] == blocks[i - 1] {
        digests[i - 1]
    } else {
        leaf_digest(blocks[i].as_slice())
    }
}

/// The digest of each block, with room for all that stands above them. A block that equals the one before it is hashed
/// once.
fn leaves(alloc: Global, blocks: &[Bytes]) -> Result<Vec<Digest>, NoMemory>
    requires { length blocks.now ≤ 4096 }
    ensures { IfOk result (λ digests. digests.items ≡ map leaf blocks.now) }
{
    let mut digests = Vec::with_capacity(alloc, 2 * blocks.len())?;
    'each: for i in 0..blocks.len() {
        let digest = next_leaf(blocks, i, digests.as_slice());
        digests.push(digest)?;
    }
    Ok(digests)
}

impl Tree {
    /// The tree of 2 ^ `height` blocks, at most 4,096. Equal neighbours are hashed once, on each level: a region of
    /// zero blocks costs `height` + 1 hashes. After an error the blocks are gone.
    pub fn build(alloc: Global, height: u32, blocks: Blocks) -> Result<Tree, NoMemory>
        requires low { height ≤ 12 }
        requires count { length blocks ≡ 2 ^ height }
        ensures { IfOk result (λ tree. tree ≡ record { height = height; blocks = blocks }) }
    {
        let digests = raise(leaves(alloc, blocks.as_slice())?)?;
        Ok(Tree {
            height,
            blocks: blocks.into_vec(),
            digests,
        })
    }

    /// The height of the tree.
    pub fn height(&self) -> u32
        ensures value { result ≡ self.now.height }
        ensures bound { result ≤ 12 }
    {
        self.height
    }

    /// All blocks, one for each place.
    pub fn blocks(&self) -> &[Bytes]
        ensures value { result.now ≡ self.now.blocks }
        ensures count { length self.now.blocks ≡ 2 ^ self.now.height }
        ensures bound { length self.now.blocks ≤ 4096 }
    {
        self.blocks.as_slice()
    }

    /// The blocks without their tree.
    pub fn into_blocks(self) -> Blocks
        ensures { result ≡ self.blocks }
    {
        Items::from_vec(self.blocks)
    }

    /// The block at place `i`.
    pub fn block(&self, i: u32) -> &Bytes
        requires { i < 2 ^ self.now.height }
        ensures { slice_get self.now.blocks i ≡ Some result.now }
    {
        &self.blocks[i as usize]
    }

    /// Puts a block at place `i`, and gives the one that stood there. It takes no memory, and hashes the block and one
    /// digest a level.
    pub fn set(&mut self, i: u32, block: Bytes) -> Bytes
        requires { i < 2 ^ self.old.height }
        ensures height { self.new.height ≡ self.old.height }
        ensures blocks { self.new.blocks ≡ slice_set self.old.blocks i block }
        ensures replaced { result ≡ block_at self.old.blocks i }
    {
        let digest = leaf_digest(block.as_slice());
        let width = self.blocks.len();
        put_leaf(&mut self.digests, width, i as usize, digest);
        mem::replace(&mut self.blocks[i as usize], block)
    }

    /// The path of the block at place `i`: `height` digests, from the leaf upwards. It takes memory for the path alone,
    /// and hashes nothing.
    pub fn path(&self, alloc: Global, i: u32) -> Result<Path, NoMemory>
        requires { i < 2 ^ self.now.height }
        ensures path { IfOk result (λ path. path ≡ path_from self.now.height self.now.blocks i) }
        ensures verifies { IfOk result (λ path. Verifies (root_of self.now.height self.now.blocks) self.now.height i (block_at self.now.blocks i) path) }
    {
        let height = self.height as usize;
        let width = self.blocks.len();
        let mut path = Vec::with_capacity(alloc, height)?;
        let mut place = i as usize;
        'levels: while path.len() < height {
            path.push(self.digests[sibling(place)])?;
            place = width + place / 2;
        }
        Ok(Items::from_vec(path))
    }

    /// The root. It hashes nothing.
    pub fn root(&self) -> Digest
        ensures { result ≡ root_of self.now.height self.now.blocks }
    {
        self.digests[2 * self.blocks.len() - 2]
    }
}
