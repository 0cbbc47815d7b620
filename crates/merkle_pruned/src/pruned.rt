ghost use Rattle.std.specs.Prelude.{◌≡◌, ◌≢◌, ◌↔◌, ◌<◌, ◌^◌, ℕ, List, length, IsTrue, IsErrOf, IfErr, OnOk, OnErr};
ghost use Rattle.merkle_region.specs.Tree.{climb, root_of};
ghost use Rattle.merkle_pruned.specs.Subtree.{Closed};
ghost use Rattle.merkle_pruned.specs.Tree.{PrunedTree, root_digest, IsOpen, Agrees, LeafSet, Climbs, Grafted};

use crate::node::{Node, same};
use salus_hash::Digest;
use salus_types::{NoMemory, Path};
use std::alloc::Global;
use std::marker::Model;

/// Why a path isn't grafted.
#[derive(Clone, Copy, PartialEq, Eq, Debug, Drop)]
pub enum GraftError {
    /// The path leads from the leaf to `got`, and the tree's root is `held`.
    Differs { held: Digest, got: Digest },
    NoMemory,
}

impl From<NoMemory> for GraftError {
    ghost use Rattle.merkle_pruned.specs.declared.pruned.GraftError.TheVariants.{NoMemory as NoMemoryError};

    ghost from_gives = { λ _ e. e ≡ NoMemoryError };

    fn from(_error: NoMemory) -> GraftError {
        GraftError::NoMemory
    }
}

/// The tree of a region of 2^height blocks, closed but for the paths that were grafted. It takes no memory for what is
/// closed.
#[derive(Drop)]
pub struct Pruned {
    height: u32,
    // the tree's digest, unless something below it has changed since it was hashed
    root: Option<Digest>,
    tree: Node,
}

impl Model for Pruned {
    ghost use Rattle.std.specs.Prelude.{◌≡◌, IfSome};
    ghost use Rattle.merkle_pruned.specs.Subtree.{digest_of, IsSound};
    ghost use Rattle.merkle_pruned.specs.Tree.{PrunedTree, tree_code};

    ghost Value = { PrunedTree };

    ghost coded = { tree_code };

    ghost use Rattle.merkle_pruned.specs.Node.{subtree_of};

    ghost view = { λ p. record { height = p.height; tree = subtree_of p.tree } };

    ghost invariant = { λ p. IsSound (subtree_of p.tree) p.height × IfSome p.root (λ d. d ≡ digest_of (subtree_of p.tree)) };
}

impl Pruned {
    /// A tree of which the root alone is known.
    pub fn from_root(root: Digest, height: u32) -> Pruned
        ensures value { result ≡ record { height = height; tree = Closed root } }
        ensures agrees { (blocks : List (List ℕ)) → length blocks ≡ 2 ^ height → root ≡ root_of height blocks → Agrees result blocks }
    {
        Pruned {
            height,
            root: Some(root),
            tree: Node::new(&root),
        }
    }

    /// The height of the region's tree: how many digests each of its paths has.
    pub fn height(&self) -> u32
        ensures { result ≡ self.now.height }
    {
        self.height
    }

    /// The tree's root. It is known at once, unless a leaf was set or a verified path was grafted since the last
    /// `graft` or `prune_all`; then each opened subtree is hashed once.
    pub fn root(&self) -> Digest
        ensures value { result ≡ root_digest self.now }
        ensures agrees { (blocks : List (List ℕ)) → Agrees self.now blocks → result ≡ root_of self.now.height blocks }
    {
        match self.root {
            Some(root) => root,
            None => self.tree.digest(),
        }
    }

    /// The root, which is then known: `root`, `graft` and `prune_all` hash nothing for it until it changes.
    pub fn settle(&mut self) -> Digest
        ensures value { result ≡ root_digest self.old }
        ensures same { self.new ≡ self.old }
    {
        let root = self.root();
        self.root = Some(root);
        root
    }

    /// Whether no subtree above the leaf at place `i` is closed. In a tree of height 0 the root is the one leaf.
    pub fn is_open(&self, i: u32) -> bool
        ensures { IsTrue result ↔ IsOpen self.now i }
    {
        self.tree.stub_over(self.height, i).0 == 0
    }

    /// Sets the digest of the leaf at place `i`. It takes no memory and hashes nothing: the root is hashed when it is
    /// next asked for.
    pub fn set_leaf(&mut self, i: u32, leaf: Digest)
        requires within { i < 2 ^ self.old.height }
        requires reached { IsOpen self.old i }
        ensures { LeafSet self.old i leaf self.new }
    {
        self.tree.set_leaf(self.height, i, &leaf);
        self.root = None; // hashed when it is next asked for
    }

    /// Verifies that the path leads from the leaf at place `i` to the root, and opens it: one hash and one box a
    /// level. What was open stays open. After an error the tree is as it was.
    pub fn graft(
        &mut self,
        alloc: Global,
        i: u32,
        leaf: &Digest,
        path: &Path,
    ) -> Result<(), GraftError>
        requires within { i < 2 ^ self.old.height }
        requires levels { length path.now ≡ self.old.height }
        // It differs exactly where the path doesn't lead to the root.
        ensures differs { IsErrOf result (GraftError.Differs (root_digest self.old) (climb i leaf.now path.now)) ↔ (climb i leaf.now path.now ≢ root_digest self.old) }
        ensures reaches { Climbs self.old i leaf.now path.now → IfErr result (λ e. e ≡ GraftError.NoMemory) }
        ensures climbs { OnOk result (Climbs self.old i leaf.now path.now) }
        ensures grafted { OnOk result (Grafted self.old i leaf.now path.now self.new) }
        ensures opens { OnOk result (IsOpen self.new i) }
        ensures unchanged { OnErr result (self.new ≡ self.old) }
    {
        let held = self.settle();
        let (got, meets) = self.tree.climbed(self.height, i, leaf, path.as_slice());
        if !same(&got, &held) {
            return Err(GraftError::Differs { held, got });
        }
        self.tree
            .graft(alloc, self.height, i, leaf, path.as_slice())?;
        self.root = if meets { Some(held) } else { None };
        Ok(())
    }

    /// Opens a path that was verified before: one box a level, and no hash. It compares nothing: what is known of the
    /// tree afterwards holds where the path leads to the root. After an error the tree is as it was.
    pub fn graft_verified(
        &mut self,
        alloc: Global,
        i: u32,
        leaf: &Digest,
        path: &Path,
    ) -> Result<(), NoMemory>
        requires within { i < 2 ^ self.old.height }
        requires levels { length path.now ≡ self.old.height }
        ensures grafted { OnOk result (Grafted self.old i leaf.now path.now self.new) }
        ensures opens { OnOk result (IsOpen self.new i) }
        ensures unchanged { OnErr result (self.new ≡ self.old) }
    {
        self.tree
            .graft(alloc, self.height, i, leaf, path.as_slice())?;
        self.root = None;
        Ok(())
    }

    /// Closes all that is open, and frees its memory. The root stays, and is known at once afterwards.
    pub fn prune_all(&mut self)
        ensures value { self.new ≡ record { height = self.old.height; tree = Closed (root_digest self.old) } }
        ensures agrees { (blocks : List (List ℕ)) → Agrees self.old blocks → Agrees self.new blocks }
    {
        let root = self.settle();
        self.tree = Node::new(&root);
    }
}
