//! The Merkle tree of a region of 2 ^ height blocks, after RFC 6962, section 2.1: its root, the path of a block, and
//! the test of a block and its path against a root.
//!
//! The path that `path_of` gives verifies against `root`. Where no two different strings of the tree and of the path
//! share a digest, a path that verifies carries the block that stands at its place.
#![tactic(auto)]

pub mod kept;
pub mod path;
mod raised;
pub mod tree;

pub use kept::Tree;
pub use path::{fold_path, verifies};
pub use tree::{path_of, root};
