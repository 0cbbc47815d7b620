//! What a serving client asks the servers for: the blocks of open reads, and those that the write at the head of the waiting
//! line will change.
//!
//! Requests before the first write leave the waiting line at once: a read is open and asks each replica of its block's group,
//! a barrier waits for the last batch or is answered. The write then at the head asks for each block that it writes, ascending
//! and once, under numbers of its own. Contracts say it by the rules of a serving client that a pipeline stands for.
#![tactic(auto)]

mod asking;
mod blocks;
mod head;
mod leaving;
mod step;

pub use asking::{ask_group, ask_node};
pub use head::ask_head;
pub use leaving::leave_all;
pub use step::Step;
