//! The blocks that a record brings to a region's tree: all are copied first, then put into the tree one after another.
//! What stood in their places is kept in their stead, so that the way back takes no memory.
ghost use Rattle.std.specs.Prelude.{◌≡◌, ◌+◌, ◌^◌, ◌<◌, ◌≤◌, ◌++◌, ℕ, List, length, replicate, reverse, slice_set, IfOk, IsTrue, OnOk};
ghost use Rattle.merkle_region.specs.Tree.{block_at};
ghost use Rattle.holding_model.specs.Fitting.{blocks_after, blocks_written, record_fits};
ghost use Rattle.region_view.specs.Changes.{AreWithin, zero_writes};

use merkle_region::Tree;
use salus_types::{Bytes, Geometry, Items, NoMemory, PlaceWrite, Record, Trim, TryClone};
use std::alloc::Global;
use std::mem;

/// A block of `size` zero bytes.
fn zero_block(alloc: Global, size: usize) -> Result<Bytes, NoMemory>
    ensures { IfOk result (λ block. block ≡ replicate size 0) }
{
    Ok(Items::from_vec(vec![in alloc; 0; size]?))
}

/// Adds a block of `size` zero bytes for each place of a run.
fn add_zeros(
    alloc: Global,
    changes: &mut Vec<PlaceWrite>,
    run: Trim,
    size: usize,
) -> Result<(), NoMemory>
    requires low { run.log ≤ 10 }
    requires within { run.place + 2 ^ run.log ≤ 1024 }
    ensures { OnOk result (changes.new.items ≡ changes.old.items ++ zero_writes run.place (2 ^ run.log) size) }
{
    let count = 1u16 << run.log;
    changes.reserve(count as usize)?;
    'places: for i in 0..count {
        let bytes = zero_block(alloc, size)?;
        let place = run.place + i;
        changes.push(PlaceWrite { place, bytes })?;
    }
    Ok(())
}

/// The blocks that a record brings, each with its place: its writes in order, and then, where it has a run, a zero block
/// for each place of the run. This is all the memory that is taken for a record.
pub fn changes_of(
    alloc: Global,
    geometry: &Geometry,
    rec: &Record,
) -> Result<Vec<PlaceWrite>, NoMemory>
    requires { IsTrue (record_fits geometry.now rec.now) }
    ensures places { IfOk result (λ changes. AreWithin (2 ^ geometry.now.height) changes.items) }
    ensures blocks { (blocks : List (List ℕ)) → length blocks ≡ 2 ^ geometry.now.height → IfOk result (λ changes. blocks_written blocks changes.items ≡ blocks_after geometry.now blocks rec.now) }
{
    let mut changes = rec.writes.try_clone(alloc)?.into_vec();
    let _height = geometry.height(); // at most 10, so a run is short
    if let Some(run) = rec.run {
        add_zeros(alloc, &mut changes, run, geometry.block_size() as usize)?;
    }
    Ok(changes)
}

/// Puts a change's block into the tree, and keeps in its stead the block that stood there.
fn put(alloc: Global, tree: &mut Tree, change: &mut PlaceWrite)
    requires { change.old.place < 2 ^ tree.old.height }
    ensures height { tree.new.height ≡ tree.old.height }
    ensures blocks { tree.new.blocks ≡ slice_set tree.old.blocks change.old.place change.old.bytes }
    ensures change { change.new ≡ record change.old { bytes = block_at tree.old.blocks change.old.place } }
{
    let block = mem::replace(&mut change.bytes, Items::new(alloc));
    change.bytes = tree.set(change.place as u32, block);
}

/// Puts all changes into the tree, one after another. Each keeps in its block's stead the block that stood there: to put
/// them again, the last one first, leads back.
pub fn put_all(alloc: Global, tree: &mut Tree, changes: &mut [PlaceWrite])
    requires { AreWithin (2 ^ tree.old.height) changes.old }
    ensures height { tree.new.height ≡ tree.old.height }
    ensures blocks { tree.new.blocks ≡ blocks_written tree.old.blocks changes.old }
    ensures places { AreWithin (2 ^ tree.new.height) changes.new }
    ensures way_back { blocks_written tree.new.blocks (reverse changes.new) ≡ tree.old.blocks }
{
    'changes: for change in changes.iter_mut() {
        put(alloc, tree, change);
    }
}

/// Puts the blocks of the changes into the tree, the last one first. It takes no memory.
pub fn put_back(tree: &mut Tree, mut changes: Vec<PlaceWrite>)
    requires { AreWithin (2 ^ tree.old.height) changes.items }
    ensures height { tree.new.height ≡ tree.old.height }
    ensures blocks { tree.new.blocks ≡ blocks_written tree.old.blocks (reverse changes.items) }
{
    'changes: while let Some(change) = changes.pop() {
        let _ = tree.set(change.place as u32, change.bytes);
    }
}
