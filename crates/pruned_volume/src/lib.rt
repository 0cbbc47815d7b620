//! The pruned trees of a volume, one for each region: what a client keeps of blocks that it doesn't hold. An answer's path
//! that leads to its region's root is grafted, and its block is then known; a batch whose blocks are all known gives the
//! regions' new roots.
//!
//! A contract sees a `PrunedVolume` as the volume's shape and the list of its regions' trees. It agrees with contents where
//! each tree agrees with its region's blocks; the roots are then those of the contents.
#![tactic(auto)]

mod place;
mod touched;
mod volume;

pub use merkle_pruned::GraftError;
pub use volume::PrunedVolume;
