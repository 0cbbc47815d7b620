ghost use Rattle.std.specs.Prelude.{◌≡◌, ◌<◌, ◌≤◌, ◌==◌, ◌&&◌, ◌^◌, ℕ, Option, IfOk, IsTrue, nat_lt, length};
ghost use Rattle.std.specs.Option.{ForSome, option_copied};
ghost use Rattle.std.specs.List.{list_all};
ghost use Rattle.salus_types.specs.declared.records.Header.{Header as AnyHeader};
ghost use Rattle.client_tag.specs.Ranges.{AreBlocks, IsBase, IsRecord};
ghost use Rattle.holding_model.specs.Fitting.{has_shape};
ghost use Rattle.merkle_region.specs.Tree.{root_of};
ghost use Rattle.datanode_store.specs.Meaning.{CanBeKept};
ghost use Rattle.replica_rules.specs.Nodes.{Memory, NodeState, base_held, stands_for};
ghost use Rattle.replica_rules.specs.Rules.{by_gather, by_stage, says_staged, says_switched, staged, staged_again, staged_anew, staged_from, staged_whole};
ghost use Rattle.replica_node.specs.Standing.{StandsIn};
ghost use Rattle.replica_node.specs.Planning.{node_with};
ghost use Rattle.replica_node.specs.Saying.{Says, StagesAbove};

use crate::planned::Planned;
use crate::telling::{ignored, tell, tell_bytes};
use merkle_region::root;
use open_session::{Session, is_same_record};
use posting::encode_gathered;
use region_view::RegionView;
use salus_hash::Digest;
use salus_message::{Message, Staged, Switched};
use salus_types::{Base, Blocks, Bytes, Geometry, Header, Held, Items, NoMemory, Record, TryClone};
use std::alloc::Global;

/// As many bases, or parts, as one message carries.
const MOST: usize = 1_048_576;

/// What is held, for the client. What one message doesn't carry isn't told.
pub fn plan_gather(alloc: Global, held: &Held, session: u64) -> Result<Planned, NoMemory>
    requires { CanBeKept held.now }
    ensures says { IfOk result (λ made. (memory : Option Memory) → Says (node_with held.now memory) made (by_gather (node_with held.now memory) session)) }
    ensures only { IfOk result (StagesAbove held.now.session) }
{
    if held.bases.len() > MOST {
        return ignored(alloc);
    }
    if held.parts.len() > MOST {
        return ignored(alloc);
    }
    let bytes = encode_gathered(alloc, session, held)?;
    let outs = tell_bytes(alloc, bytes)?;
    Ok(Planned::Told(outs))
}

fn each_sized(blocks: &[Bytes], size: u32) -> bool
    ensures { result ≡ list_all (λ x. length x == size) blocks.now }
{
    blocks.iter().all(|block| block.len() == size as usize)
}

#[tactic(auto, unfolding(holding_model::specs::Fitting::has_shape))]
fn has_shape(geometry: &Geometry, blocks: &[Bytes]) -> bool
    ensures value { result ≡ has_shape geometry.now blocks.now }
    ensures count { IsTrue result → length blocks.now ≡ 2 ^ geometry.now.height }
{
    blocks.len() == geometry.region_blocks() as usize && each_sized(blocks, geometry.block_size())
}

fn stands_for(geometry: &Geometry, region: u16, session: u64, base: &Base) -> bool
    ensures { result ≡ stands_for geometry.now region session base.now }
{
    base.rec.header.session == session
        && base.rec.header.region == region
        && has_shape(geometry, base.blocks.as_slice())
}

/// The first base of the session that counts.
pub fn base_held<'a>(
    geometry: &Geometry,
    region: u16,
    session: u64,
    held: &'a Held,
) -> Option<&'a Base>
    ensures { option_copied result ≡ base_held geometry.now region session held.now }
{
    held.bases
        .as_slice()
        .iter()
        .find(|base| stands_for(geometry, region, session, base))
}

// The session is staged, as it was told before.
fn say_staged(alloc: Global, session: u64) -> Result<Planned, NoMemory>
    ensures says { IfOk result (λ made. (node : NodeState) → Says node made (says_staged node session)) }
    ensures only { (low : ℕ) → IfOk result (StagesAbove low) }
{
    let outs = tell(alloc, &Message::Staged(Staged { session }))?;
    Ok(Planned::Told(outs))
}

// A base of that session is held already.
fn stage_again(alloc: Global, old: &Base, rec: &Record) -> Result<Planned, NoMemory>
    ensures says { IfOk result (λ made. (node : NodeState) → Says node made (staged_again node rec.now old.now)) }
    ensures only { (low : ℕ) → IfOk result (StagesAbove low) }
{
    if is_same_record(&old.rec, rec) {
        say_staged(alloc, rec.header.session)
    } else {
        ignored(alloc)
    }
}

// The base is stored.
fn stage(alloc: Global, base: Base) -> Result<Planned, NoMemory>
    requires ranges { IsBase base }
    requires some { 0 < length base.blocks }
    ensures says { IfOk result (λ made. (node : NodeState) → Says node made (staged node base.rec base.blocks)) }
    ensures only { (low : ℕ) → low < base.rec.header.session → IfOk result (StagesAbove low) }
{
    let session = base.rec.header.session;
    let outs = tell(alloc, &Message::Staged(Staged { session }))?;
    Ok(Planned::Staged { base, outs })
}

// Whether these are the blocks of the view.
fn is_viewed(view: &RegionView, blocks: &Blocks) -> bool
    ensures { IsTrue result → blocks.now ≡ view.now.view.blocks }
{
    blocks.as_slice() == view.blocks()
}

// The root of the blocks. Where they are those of the view, it is the view's, and they aren't hashed again.
fn root_beside(geometry: &Geometry, view: &RegionView, blocks: &Blocks) -> Digest
    requires shape { view.now.shape ≡ geometry.now }
    requires count { length blocks.now ≡ 2 ^ geometry.now.height }
    ensures { result ≡ root_of geometry.now.height blocks.now }
{
    if is_viewed(view, blocks) {
        view.root()
    } else {
        root(geometry.height(), blocks.as_slice())
    }
}

// The root of the blocks. Where they are those of the open session's view, they aren't hashed again.
fn root_here(geometry: &Geometry, session: &Option<Session>, blocks: &Blocks) -> Digest
    requires shape { ForSome session.now (λ kept. kept.shape ≡ geometry.now) }
    requires count { length blocks.now ≡ 2 ^ geometry.now.height }
    ensures { result ≡ root_of geometry.now.height blocks.now }
{
    match session {
        None => root(geometry.height(), blocks.as_slice()),
        Some(kept) => root_beside(geometry, kept.view(), blocks),
    }
}

// A base with blocks of its own: one for each place, with the record's root.
fn stage_whole(
    alloc: Global,
    geometry: &Geometry,
    session: &Option<Session>,
    base: Base,
) -> Result<Planned, NoMemory>
    requires ranges { IsBase base }
    requires shape { ForSome session.now (λ kept. kept.shape ≡ geometry.now) }
    requires some { 0 < length base.blocks }
    ensures says { IfOk result (λ made. (node : NodeState) → Says node made (staged_whole geometry.now node base)) }
    ensures only { (low : ℕ) → low < base.rec.header.session → IfOk result (StagesAbove low) }
{
    if !has_shape(geometry, base.blocks.as_slice()) {
        return ignored(alloc);
    }
    if root_here(geometry, session, &base.blocks) != base.rec.header.root {
        return ignored(alloc);
    }
    stage(alloc, base)
}

// Blocks, copied.
fn copy_all(alloc: Global, blocks: &[Bytes]) -> Result<Blocks, NoMemory>
    ensures { IfOk result (λ copy. copy ≡ blocks.now) }
{
    let mut copy = Items::new(alloc);
    'each: for block in blocks {
        let one = block.try_clone(alloc)?;
        copy.push(one)?;
    }
    Ok(copy)
}

// The blocks of a view, for a base.
fn copy_blocks(alloc: Global, view: &RegionView) -> Result<Blocks, NoMemory>
    ensures same { IfOk result (λ copy. copy ≡ view.now.view.blocks) }
    ensures ranges { IfOk result AreBlocks }
    ensures some { IfOk result (λ copy. 0 < length copy) }
{
    let geometry = view.geometry();
    let _count = geometry.region_blocks();
    let _size = geometry.block_size();
    let copy = copy_all(alloc, view.blocks())?;
    Ok(copy)
}

// A base with no blocks: those of the node's own view, where they have the record's root.
fn stage_from(alloc: Global, view: &RegionView, rec: Record) -> Result<Planned, NoMemory>
    requires { IsRecord rec }
    ensures says { (m : Memory) → m.replica.view ≡ view.now.view → IfOk result (λ made. (node : NodeState) → Says node made (staged_from view.now.shape node rec m)) }
    ensures only { (low : ℕ) → low < rec.header.session → IfOk result (StagesAbove low) }
{
    if view.root() != rec.header.root {
        return ignored(alloc);
    }
    let blocks = copy_blocks(alloc, view)?;
    stage(alloc, Base { rec, blocks })
}

// A base of a session of which none is held.
fn stage_anew(
    alloc: Global,
    geometry: &Geometry,
    session: &Option<Session>,
    base: Base,
) -> Result<Planned, NoMemory>
    requires ranges { IsBase base }
    requires shape { ForSome session.now (λ kept. kept.shape ≡ geometry.now) }
    ensures says { IfOk result (λ made. (node : NodeState) → StandsIn session.now node.memory → Says node made (staged_anew geometry.now node base)) }
    ensures only { (low : ℕ) → low < base.rec.header.session → IfOk result (StagesAbove low) }
{
    if !base.blocks.is_empty() {
        return stage_whole(alloc, geometry, session, base);
    }
    match session {
        None => ignored(alloc),
        Some(kept) => stage_from(alloc, kept.view(), base.rec),
    }
}

// Whether it is of a session above the open one, and of the region.
fn is_staged_here(region: u16, held: &Held, header: &Header) -> bool
    ensures { result ≡ nat_lt held.now.session header.now.session && (header.now.region == region) }
{
    held.session < header.session && header.region == region
}

/// A base is staged, for a session above the open one.
pub fn plan_stage(
    alloc: Global,
    geometry: &Geometry,
    region: u16,
    held: &Held,
    session: &Option<Session>,
    base: Base,
) -> Result<Planned, NoMemory>
    requires ranges { IsBase base }
    requires shape { ForSome session.now (λ kept. kept.shape ≡ geometry.now) }
    ensures says { IfOk result (λ made. (memory : Option Memory) → StandsIn session.now memory → Says (node_with held.now memory) made (by_stage geometry.now region (node_with held.now memory) base)) }
    ensures only { IfOk result (StagesAbove held.now.session) }
{
    if !is_staged_here(region, held, &base.rec.header) {
        return ignored(alloc);
    }
    match base_held(geometry, region, base.rec.header.session, held) {
        Some(old) => stage_again(alloc, old, &base.rec),
        None => stage_anew(alloc, geometry, session, base),
    }
}

/// The session is the open one: that is told again.
pub fn say_switched(alloc: Global, session: u64) -> Result<Planned, NoMemory>
    ensures says { IfOk result (λ made. (node : NodeState) → Says node made (says_switched node session)) }
    ensures only { (low : ℕ) → IfOk result (StagesAbove low) }
{
    let outs = tell(alloc, &Message::Switched(Switched { session }))?;
    Ok(Planned::Told(outs))
}
