//! The blocks of a region that are fetched from its replicas, when the region is given to other servers: the first ones
//! that have the root that the client holds.
#![tactic(auto)]

ghost use Rattle.std.specs.Prelude.{◌≡◌, ◌==◌, ◌&&◌, ◌^◌, ℕ, bytes_eq, length, IsTrue};
ghost use Rattle.std.specs.List.{list_all};
ghost use Rattle.salus_types.specs.Volume.{region_blocks};
ghost use Rattle.merkle_region.specs.Tree.{root_of};
ghost use Rattle.holding_model.specs.Fitting.{has_shape};
ghost use Rattle.salus_model.specs.Opening.{is_fetched};

use merkle_region::root;
use salus_hash::Digest;
use salus_types::{Blocks, Bytes, Geometry, NodeName};
use std::marker::Model;

/// What is asked of a region's replicas: blocks of the region with this root.
#[derive(Clone, Copy, Debug, Drop)]
pub struct Fetch {
    geometry: Geometry,
    region: u16,
    root: Digest,
}

impl Model for Fetch {
    ghost use Rattle.region_reassign.specs.Wanted.{Wanted};

    ghost Value = { Wanted };

    ghost view = { λ f. record { shape = f.geometry; region = f.region; root = f.root } };

    ghost inverse = { λ w. record { geometry = w.shape; region = w.region; root = w.root } };
}

fn each_sized(blocks: &[Bytes], size: u32) -> bool
    ensures { result ≡ list_all (λ x. length x == size) blocks.now }
{
    blocks.iter().all(|block| block.len() == size as usize)
}

#[tactic(auto, unfolding(holding_model::specs::Fitting::has_shape))]
fn has_shape(geometry: &Geometry, blocks: &[Bytes]) -> bool
    ensures value { result ≡ has_shape geometry.now blocks.now }
    ensures count { IsTrue result → length blocks.now ≡ 2 ^ geometry.now.height }
{
    blocks.len() == geometry.region_blocks() as usize && each_sized(blocks, geometry.block_size())
}

impl Fetch {
    /// Nothing is fetched yet.
    pub fn new(geometry: Geometry, region: u16, root: Digest) -> Fetch
        ensures { result ≡ record { shape = geometry; region = region; root = root } }
    {
        Fetch {
            geometry,
            region,
            root,
        }
    }

    /// Whether these are the blocks: they come from a replica of the region's group, there is one for each place, each of
    /// the block's length, and they have the root. It takes no memory.
    pub fn take(&self, from: NodeName, blocks: &Blocks) -> bool
        ensures exact { result ≡ (from.region == self.now.region) && has_shape self.now.shape blocks.now && bytes_eq (root_of self.now.shape.height blocks.now) self.now.root }
        ensures fetched { (session at : ℕ) → result ≡ is_fetched self.now.shape session self.now.region self.now.root from (record { session = session; region = self.now.region; at = at; blocks = blocks.now }) }
    {
        let blocks = blocks.as_slice();
        from.region == self.region
            && has_shape(&self.geometry, blocks)
            && root(self.geometry.height(), blocks) == self.root
    }
}
