//! A node over a disk, as a world has it: what a call of the disk failed in is told, and the node keeps its name and volume
//! through loads. A contract says it of all that is known of the node from its own steps: what fits that before a call, fits
//! what the rules make of it after the call. Over a disk in memory it crashes, stops and is replaced besides.
//!
//! A failed call of the disk is no error: the node is silent then, until it is loaded anew. An error is want of memory, and
//! after it the node is used no more.
#![tactic(auto)]

mod formatting;
mod handling;
mod loading;
mod node;
mod outcome;

pub use node::DiskNode;
pub use outcome::Outcome;
