//! Who voted for what, and who claimed how far: the two tables by which a batch is known to be held by all.
//!
//! A vote is a replica's word that its disk holds the part of a batch, with the root of its region after it. A claim is
//! a leader's word that every right replica holds all batches up to a number. Both tables have a fixed size, so after
//! `new` nothing takes memory.
#![tactic(auto)]

mod claims;
mod place;
mod vote;
mod votes;

pub use claims::Claims;
pub use votes::Votes;
