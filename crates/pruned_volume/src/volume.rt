ghost use Rattle.std.specs.Prelude.{◌≡◌, ◌≢◌, ◌↔◌, ◌+◌, ◌<◌, ◌≤◌, ◌∷◌, ◌++◌, [], ℕ, List, All, length, map, IfErr, IfOk, IsErrOf, OnErr, OnOk, true};
ghost use Rattle.std.specs.Vec.{vec_capacity, vec_len};
ghost use Rattle.salus_hash.specs.Hash.{leaf};
ghost use Rattle.salus_types.specs.Volume.{blocks, regions};
ghost use Rattle.merkle_region.specs.Tree.{NoTwoCollide, Verifies, climb, path_strings};
ghost use Rattle.volume_model.specs.Contents.{apply, contents_strings, place_of, region_of, region_root, roots_of};
ghost use Rattle.volume_model.specs.Parts.{touched_by};
ghost use Rattle.client_window.specs.Standing.{HasRoots};
ghost use Rattle.pruned_volume.specs.Trees.{AgreesAll, IsKnownWrite, all_pruned, closed_trees, is_known, root_at};

use crate::place::{place_of, region_of};
use crate::touched::touches;
use merkle_pruned::{GraftError, Pruned};
use salus_hash::{Digest, leaf_digest};
use salus_message::Answer;
use salus_types::{Batch, Digests, Geometry, Items, NoMemory, Write};
use std::alloc::Global;
use std::marker::Model;

/// A pruned tree for each region of a volume.
#[derive(Drop)]
pub struct PrunedVolume {
    geometry: Geometry,
    trees: Vec<Pruned>,
}

impl Model for PrunedVolume {
    ghost use Rattle.pruned_volume.specs.Trees.{AreTrees, KeptTrees, trees_code};

    ghost Value = { KeptTrees };

    ghost coded = { trees_code };

    ghost view = { λ v. record { shape = v.geometry; trees = v.trees.items } };

    ghost invariant = { λ v. AreTrees v.geometry v.trees.items };
}

impl PrunedVolume {
    /// Trees of which the roots alone are known, one root for each region.
    pub fn new(alloc: Global, geometry: Geometry, roots: &Digests) -> Result<PrunedVolume, NoMemory>
        requires { length roots.now ≡ regions geometry }
        ensures value { IfOk result (λ kept. kept ≡ closed_trees geometry roots.now) }
        ensures agrees { IfOk result (λ kept. (contents : List (List ℕ)) → length contents ≡ blocks geometry → roots_of geometry contents ≡ roots.now → AgreesAll kept contents) }
    {
        let mut trees = Vec::with_capacity(alloc, roots.len())?;
        'roots: for root in roots.as_slice() {
            trees.push(Pruned::from_root(*root, geometry.height()))?;
        }
        Ok(PrunedVolume { geometry, trees })
    }

    /// The volume's shape.
    pub fn geometry(&self) -> Geometry
        ensures { result ≡ self.now.shape }
    {
        self.geometry
    }

    /// Whether the leaf of the block is known.
    pub fn is_known(&self, block: u32) -> bool
        requires { block < blocks self.now.shape }
        ensures { result ≡ is_known self.now block }
    {
        let region = region_of(&self.geometry, u64::from(block)) as usize;
        self.trees[region].is_open(place_of(&self.geometry, u64::from(block)))
    }

    /// Verifies that the answer's path leads from its block to the region's root, and opens it: one hash and one box a
    /// level. After an error all is as it was.
    pub fn graft(&mut self, alloc: Global, answer: &Answer) -> Result<(), GraftError>
        requires within { region_of self.old.shape answer.now.block < regions self.old.shape }
        requires levels { length answer.now.path ≡ self.old.shape.height }
        // It differs exactly where the path doesn't lead to the root.
        ensures differs { IsErrOf result (GraftError.Differs (root_at self.old (region_of self.old.shape answer.now.block)) (climb (place_of self.old.shape answer.now.block) (leaf answer.now.bytes) answer.now.path)) ↔ (climb (place_of self.old.shape answer.now.block) (leaf answer.now.bytes) answer.now.path ≢ root_at self.old (region_of self.old.shape answer.now.block)) }
        ensures reaches { climb (place_of self.old.shape answer.now.block) (leaf answer.now.bytes) answer.now.path ≡ root_at self.old (region_of self.old.shape answer.now.block) → IfErr result (λ e. e ≡ GraftError.NoMemory) }
        ensures verifies { OnOk result (Verifies (root_at self.old (region_of self.old.shape answer.now.block)) self.old.shape.height (place_of self.old.shape answer.now.block) answer.now.bytes answer.now.path) }
        // That root is the region's.
        ensures root { (contents : List (List ℕ)) → AgreesAll self.old contents → root_at self.old (region_of self.old.shape answer.now.block) ≡ region_root self.old.shape contents (region_of self.old.shape answer.now.block) }
        ensures shape { self.new.shape ≡ self.old.shape }
        ensures known { OnOk result (is_known self.new answer.now.block ≡ true) }
        ensures stays { OnOk result ((b : ℕ) → b < blocks self.old.shape → is_known self.old b ≡ true → is_known self.new b ≡ true) }
        ensures agrees { OnOk result ((contents : List (List ℕ)) → AgreesAll self.old contents → NoTwoCollide (contents_strings self.old.shape contents ++ path_strings (place_of self.old.shape answer.now.block) answer.now.bytes answer.now.path) → AgreesAll self.new contents) }
        ensures unchanged { OnErr result (self.new ≡ self.old) }
    {
        let block = u64::from(answer.block);
        let region = region_of(&self.geometry, block) as usize;
        let place = place_of(&self.geometry, block);
        let leaf = leaf_digest(answer.bytes.as_slice());
        self.trees[region].graft(alloc, place, &leaf, &answer.path)
    }

    /// Closes all that is known, and frees its memory. The roots stay.
    pub fn forget(&mut self)
        ensures value { self.new ≡ all_pruned self.old }
        ensures agrees { (contents : List (List ℕ)) → AgreesAll self.old contents → AgreesAll self.new contents }
    {
        'trees: for tree in self.trees.iter_mut() {
            tree.prune_all();
        }
    }

    /// Puts a block of the batch into its region's tree. It hashes the block alone.
    fn put_leaf(&mut self, write: &Write)
        requires { IsKnownWrite self.old write.now }
        ensures shape { self.new.shape ≡ self.old.shape }
        ensures stays { (b : ℕ) → b < blocks self.old.shape → is_known self.old b ≡ true → is_known self.new b ≡ true }
        ensures agrees { (contents : List (List ℕ)) → AgreesAll self.old contents → AgreesAll self.new (apply contents (write.now ∷ [])) }
    {
        let region = region_of(&self.geometry, write.block) as usize;
        let place = place_of(&self.geometry, write.block);
        self.trees[region].set_leaf(place, leaf_digest(write.bytes.as_slice()));
    }

    fn put_leaves(&mut self, batch: &[Write])
        requires { All (IsKnownWrite self.old) batch.now }
        ensures shape { self.new.shape ≡ self.old.shape }
        ensures agrees { (contents : List (List ℕ)) → AgreesAll self.old contents → AgreesAll self.new (apply contents batch.now) }
    {
        'writes: for write in batch {
            self.put_leaf(write);
        }
    }

    /// Adds the region's root to a list that has room for it.
    fn put_root(&self, region: u16, roots: &mut Vec<Digest>)
        requires within { region < regions self.now.shape }
        requires room { vec_len roots.old < vec_capacity roots.old }
        ensures items { roots.new.items ≡ roots.old.items ++ root_at self.now region ∷ [] }
        ensures len { vec_len roots.new ≡ vec_len roots.old + 1 }
        ensures capacity { vec_capacity roots.old ≤ vec_capacity roots.new }
    {
        let root = self.trees[region as usize].root();
        roots.push(root).unwrap();
    }

    /// The roots of the regions that the batch touches, ascending. There is room for them.
    fn put_roots(&self, batch: &[Write], roots: &mut Vec<Digest>)
        requires empty { roots.old.items ≡ [] }
        requires room { regions self.now.shape ≤ vec_capacity roots.old }
        ensures roots { roots.new.items ≡ map (λ g. root_at self.now g) (touched_by self.now.shape batch.now) }
        ensures stands { (contents : List (List ℕ)) → AgreesAll self.now contents → map (λ g. region_root self.now.shape contents g) (touched_by self.now.shape batch.now) ≡ roots.new.items }
    {
        'regions: for region in 0..self.geometry.regions() as u16 {
            if touches(&self.geometry, batch, region) {
                self.put_root(region, roots);
            }
        }
    }

    /// Writes a batch whose blocks are all known: the new roots of the regions that it touches, ascending. All is closed
    /// then. Only the list of roots takes memory; after an error all is as it was.
    pub fn write(&mut self, alloc: Global, batch: &Batch) -> Result<Digests, NoMemory>
        requires { All (IsKnownWrite self.old) batch.now }
        ensures shape { self.new.shape ≡ self.old.shape }
        ensures roots { IfOk result (λ roots. roots ≡ map (λ g. root_at self.new g) (touched_by self.old.shape batch.now)) }
        ensures count { IfOk result (λ roots. length roots ≡ length (touched_by self.old.shape batch.now)) }
        ensures closed { OnOk result (all_pruned self.new ≡ self.new) }
        ensures agrees { OnOk result ((contents : List (List ℕ)) → AgreesAll self.old contents → AgreesAll self.new (apply contents batch.now)) }
        ensures stands { IfOk result (λ roots. (contents : List (List ℕ)) → AgreesAll self.old contents → HasRoots self.old.shape contents batch.now roots) }
        ensures unchanged { OnErr result (self.new ≡ self.old) }
    {
        let mut roots = Vec::with_capacity(alloc, self.trees.len())?;
        self.put_leaves(batch.as_slice());
        self.forget();
        self.put_roots(batch.as_slice(), &mut roots);
        Ok(Items::from_vec(roots))
    }
}
