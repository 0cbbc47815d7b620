//! What a restart gathers from the nodes: the records and bases that count, and the chains of linked parts that they
//! form.
//!
//! A record counts where its tag is that of the key and its numbers fit the volume; a base counts where its record does
//! and its blocks have that record's root. A chain begins with a base and goes on part by part, each with the root of
//! the blocks after it.
#![tactic(auto)]

mod assemble;
mod chain;
mod counting;
mod grow;
mod index;
mod pool;
mod replay;

pub use assemble::Contents;
pub use pool::Pool;
