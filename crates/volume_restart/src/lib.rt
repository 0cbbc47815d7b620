//! The restart of a volume: what its nodes hold is gathered, the greatest record whose whole volume is there is chosen,
//! and a session that begins with it is staged at every node and then switched to.
#![tactic(auto)]

mod answers;
mod choice;
mod restart;

pub use choice::{Choice, choose};
pub use restart::{Phase, Restart};
