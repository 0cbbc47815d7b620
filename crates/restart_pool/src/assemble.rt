//! The contents of a volume, put together from a chain for each region.
ghost use Rattle.std.specs.Prelude.{◌≡◌, ◌<◌, ◌≤◌, ◌^◌, ℕ, if◌then◌else◌, bytes_eq, None, Some, ◌∷◌, ◌++◌, [], length, map, slice_index, IfOk, OnOk, MatchOption, IfSome};
ghost use Rattle.salus_types.specs.Volume.{regions};
ghost use Rattle.merkle_region.specs.Tree.{root_of, IsAmong, NoTwoCollide};
ghost use Rattle.merkle_volume.specs.Top.{top_of};
ghost use Rattle.volume_model.specs.Recovering.{blocks_up_to};
ghost use Rattle.restart_pool.specs.Assembled.{contents_of, session_strings, AreWhole, HasNoChain, IsAssembled, IsRecovered, NoTwoShare};

use crate::chain::chain_to;
use crate::pool::Pool;
use crate::replay::Whole;
use merkle_volume::top;
use salus_hash::Digest;
use salus_types::{Blocks, Digests, Header, Items, NoMemory};
use std::alloc::Global;

/// The contents of a volume, region by region, and the root of each region.
#[derive(Drop)]
pub struct Contents {
    pub roots: Digests,
    pub blocks: Blocks,
}

/// The number at this place, and 0 where there is none.
fn front_of(fronts: &[u64], region: u32) -> u64
    ensures { result ≡ slice_index fronts.now region }
{
    fronts.get(region as usize).copied().unwrap_or(0)
}

/// Adds a region's blocks and their root.
fn add_region(contents: &mut Contents, whole: Whole) -> Result<(), NoMemory>
    ensures roots { OnOk result (contents.new.roots ≡ contents.old.roots ++ whole.root ∷ []) }
    ensures blocks { OnOk result (contents.new.blocks ≡ contents.old.blocks ++ whole.blocks) }
{
    contents.roots.push(whole.root)?;
    contents.blocks.append(whole.blocks)?;
    Ok(())
}

/// The contents, if their roots have this top.
fn with_top(contents: Contents, held: &Digest) -> Option<Contents>
    requires { 0 < length contents.roots }
    ensures { (k : ℕ) → length contents.roots ≡ 2 ^ k → result ≡ (if bytes_eq (top_of k contents.roots) held.now then Some contents else None) }
{
    if top(contents.roots.as_slice()) == *held {
        Some(contents)
    } else {
        None
    }
}

impl Pool {
    /// The blocks of a chain of the session in a region that goes up to exactly the number `x`.
    fn region_blocks(
        &self,
        alloc: Global,
        session: u64,
        region: u32,
        x: u64,
    ) -> Result<Option<Whole>, NoMemory>
        requires { region < 65536 }
        ensures { IfOk result (λ found. MatchOption found (blocks_up_to self.now.shape self.now.held session region x ≡ []) (λ whole. IsAmong whole.blocks (blocks_up_to self.now.shape self.now.held session region x) × (whole.root ≡ root_of self.now.shape.height whole.blocks))) }
    {
        let lane = self.lane(session, region as u16);
        chain_to(alloc, &lane, x)
    }

    /// The contents and the roots, where each region has a chain of the session up to its front.
    fn contents(
        &self,
        alloc: Global,
        session: u64,
        fronts: &[u64],
    ) -> Result<Option<Contents>, NoMemory>
        ensures { IfOk result (λ found. MatchOption found (HasNoChain self.now session fronts.now) (AreWhole self.now session fronts.now (regions self.now.shape))) }
    {
        let mut contents = Contents {
            roots: Items::new(alloc),
            blocks: Items::new(alloc),
        };
        'regions: for region in 0..self.geometry().regions() {
            match self.region_blocks(alloc, session, region, front_of(fronts, region))? {
                Some(whole) => add_region(&mut contents, whole)?,
                None => return Ok(None),
            }
        }
        Ok(Some(contents))
    }

    /// The whole contents, one region after the other: Some exactly where each region has a chain of the session up to
    /// its front. A missing front is 0.
    pub fn assemble(
        &self,
        alloc: Global,
        session: u64,
        fronts: &[u64],
    ) -> Result<Option<Blocks>, NoMemory>
        ensures { IfOk result (λ found. MatchOption found (HasNoChain self.now session fronts.now) (IsAssembled self.now session fronts.now)) }
    {
        match self.contents(alloc, session, fronts)? {
            Some(contents) => Ok(Some(contents.blocks)),
            None => Ok(None),
        }
    }

    /// The contents that a header names, with their roots: those of a chain for each region up to its front, which have its top. Where no
    /// two different kept records share session, number and region, and no two strings of the chains collide, it is
    /// None exactly where there are none.
    pub fn recovered(&self, alloc: Global, header: &Header) -> Result<Option<Contents>, NoMemory>
        ensures sound { IfOk result (λ found. IfSome found (IsRecovered self.now header.now)) }
        ensures exact { IfOk result (λ found. NoTwoShare self.now.held → NoTwoCollide (session_strings self.now.shape self.now.held header.now.session) → found ≡ contents_of self.now header.now) }
    {
        self.is_sound();
        match self.contents(alloc, header.session, header.fronts.as_slice())? {
            Some(contents) => Ok(with_top(contents, &header.top)),
            None => Ok(None),
        }
    }
}
