//! A region's leader: which batch it may claim next. Batches travel in a pipeline, and each is claimed only after the
//! one before it. A batch may be claimed once every replica of every region that it touches has voted for it, with one
//! root a region, and every replica of the leader of the batch before has claimed that one.
//!
//! After `new` nothing takes memory.
#![tactic(auto)]

mod certified;
mod leader;
mod note;
mod noted;

pub use leader::Leader;
