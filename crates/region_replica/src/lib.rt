//! The replica of a region in a session. Parts are applied in the order of their numbers: each goes on from the number of the
//! view, and is applied where the blocks after it have the root that it names. Early parts, at most 16, are kept until their
//! turn. Asks are answered as of the view, and wait until it has reached the number as of which they ask.
//!
//! A contract sees a `RegionReplica` as the volume's shape, the region, and the `Replica` of the rules; each call is the
//! rules' one. The view's number never falls: the parts that are applied lead from the view with which the replica began to
//! the one that it has, each going on from the one before. After `NoMemory` nothing is changed.
#![tactic(auto)]

mod answer;
mod asks;
mod early;
mod replica;
mod right_shape;

pub use answer::PartAnswer;
pub use replica::RegionReplica;
pub use right_shape::has_right_shape;
