//! The tree of a region of which a root and some paths are known: paths that verify are grafted onto it, leaves are
//! changed, and the new root is read, without the region's blocks.
//!
//! A contract sees a `Pruned` as its height and a `Subtree`: closed, where its digest alone is known, or opened into two
//! halves. It agrees with a list of blocks where each open leaf and each closed subtree has the digest of its blocks; its
//! root is then that list's root.
#![tactic(auto)]

mod node;
pub mod pruned;

pub use pruned::{GraftError, Pruned};
