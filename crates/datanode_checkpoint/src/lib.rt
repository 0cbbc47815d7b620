//! What a node holds, kept in one of two lanes of a file: the calls of a store, and folds, which write what is left of
//! the log into the other lane and go over to it. A crash in a call leaves what was held before it, or what is held after.
#![tactic(auto)]

pub mod checkpoint;
mod foldable;
mod folding;
mod formatting;
mod spelling;

pub use checkpoint::Checkpoint;
