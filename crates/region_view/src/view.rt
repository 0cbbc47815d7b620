ghost use Rattle.std.specs.Prelude.{◌≡◌, ◌<◌, length, slice_get, IfErr, IfOk, IsTrue, OnErr, OnOk, Some};
ghost use Rattle.salus_types.specs.Volume.{region_blocks};
ghost use Rattle.merkle_region.specs.Tree.{block_at, path_from, Verifies};
ghost use Rattle.holding_model.specs.Fitting.{has_shape, record_fits};
ghost use Rattle.replica_rules.specs.Views.{is_accepted, view_after, view_of_base, view_root};
ghost use Rattle.region_view.specs.Refusing.{IsRefusalOf};

use crate::change::{changes_of, put_all, put_back};
use merkle_region::Tree;
use salus_hash::Digest;
use salus_types::{Base, Bytes, Geometry, NoMemory, Path, Record, TryClone};
use std::alloc::Global;
use std::marker::Model;

/// Why a record isn't applied.
#[derive(Clone, Copy, PartialEq, Eq, Debug, Drop)]
pub enum ApplyError {
    /// The record names the root `held`, and the blocks after it have the root `got`.
    RootDiffers { held: Digest, got: Digest },
    NoMemory,
}

impl From<NoMemory> for ApplyError {
    ghost use Rattle.region_view.specs.declared.view.ApplyError.TheVariants.{NoMemory as NoMemoryError};

    ghost from_gives = { λ _ e. e ≡ NoMemoryError };

    fn from(_error: NoMemory) -> ApplyError {
        ApplyError::NoMemory
    }
}

/// A block of a view, its path in the region's tree, and the number as of which both are.
#[derive(PartialEq, Eq, Debug, Drop)]
pub struct ViewAnswer {
    pub bytes: Bytes,
    pub path: Path,
    pub at: u64,
}

/// The blocks of a region, after the record of that number. A contract sees the volume's shape and a `View`, whose
/// blocks have that shape.
#[derive(Drop)]
pub struct RegionView {
    geometry: Geometry,
    number: u64,
    tree: Tree,
}

impl Model for RegionView {
    ghost use Rattle.region_view.specs.Kept.{KeptView, IsKept};

    ghost Value = { KeptView };

    ghost view = { λ v. record { shape = v.geometry; view = record { number = v.number; blocks = v.tree.blocks } } };

    ghost invariant = { λ v. IsKept v.geometry v.tree };
}

impl RegionView {
    /// The view of a base: its blocks, under its number.
    pub fn new(alloc: Global, geometry: &Geometry, base: &Base) -> Result<RegionView, NoMemory>
        requires { IsTrue (has_shape geometry.now base.now.blocks) }
        ensures { IfOk result (λ made. made ≡ record { shape = geometry.now; view = view_of_base base.now }) }
    {
        let blocks = base.blocks.try_clone(alloc)?;
        Ok(RegionView {
            geometry: *geometry,
            number: base.rec.header.seq,
            tree: Tree::build(alloc, geometry.height(), blocks)?,
        })
    }

    /// The volume's geometry.
    pub fn geometry(&self) -> &Geometry
        ensures { result.now ≡ self.now.shape }
    {
        &self.geometry
    }

    /// The number of the last record in the view.
    pub fn number(&self) -> u64
        ensures { result ≡ self.now.view.number }
    {
        self.number
    }

    /// All blocks, one for each place, each of the volume's length.
    pub fn blocks(&self) -> &[Bytes]
        ensures value { result.now ≡ self.now.view.blocks }
        ensures shape { IsTrue (has_shape self.now.shape self.now.view.blocks) }
    {
        self.tree.blocks()
    }

    /// The block at a place.
    pub fn block(&self, place: u16) -> &Bytes
        requires { place < region_blocks self.now.shape }
        ensures value { result.now ≡ block_at self.now.view.blocks place }
        ensures size { length result.now ≡ self.now.shape.block }
    {
        self.tree.block(place as u32)
    }

    /// The root over all blocks. It hashes nothing.
    pub fn root(&self) -> Digest
        ensures { result ≡ view_root self.now.shape self.now.view }
    {
        self.tree.root()
    }

    /// Takes the view on by a record. It takes memory for a copy of the record's blocks, before anything is changed, and
    /// hashes each of them and one digest a level for each. After an error the view is as it was.
    pub fn apply(&mut self, alloc: Global, rec: &Record) -> Result<(), ApplyError>
        requires { IsTrue (record_fits self.old.shape rec.now) }
        ensures accepted { OnOk result (IsTrue (is_accepted self.old.shape self.old.view rec.now)) }
        ensures after { OnOk result (self.new ≡ record self.old { view = view_after self.old.shape self.old.view rec.now }) }
        // Where it isn't accepted both roots are told, unless there was no memory; only then are they.
        ensures refused { IfErr result (IsRefusalOf self.old rec.now) }
        ensures unchanged { OnErr result (self.new ≡ self.old) }
    {
        let mut changes = changes_of(alloc, &self.geometry, rec)?;
        put_all(alloc, &mut self.tree, changes.as_mut_slice());
        let got = self.tree.root();
        let held = rec.header.root;
        if got != held {
            put_back(&mut self.tree, changes);
            return Err(ApplyError::RootDiffers { held, got });
        }
        self.number = rec.header.seq;
        Ok(())
    }

    /// The block at a place, with its path and the view's number. It copies the block, and hashes nothing.
    pub fn answer(&self, alloc: Global, place: u16) -> Result<ViewAnswer, NoMemory>
        requires { place < region_blocks self.now.shape }
        ensures value { IfOk result (λ answer. answer ≡ record { bytes = block_at self.now.view.blocks place; path = path_from self.now.shape.height self.now.view.blocks place; at = self.now.view.number }) }
        ensures size { IfOk result (λ answer. length answer.bytes ≡ self.now.shape.block) }
        ensures verifies { IfOk result (λ answer. Verifies (view_root self.now.shape self.now.view) self.now.shape.height place answer.bytes answer.path) }
    {
        let place = place as u32;
        Ok(ViewAnswer {
            bytes: self.tree.block(place).try_clone(alloc)?,
            path: self.tree.path(alloc, place)?,
            at: self.number,
        })
    }
}
