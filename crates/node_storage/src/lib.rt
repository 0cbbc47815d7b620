//! The changes that a node's core has planned, stored: the one place of a node that knows its disk. They are stored in
//! their order. Where a call fails, some front part of them is held; at each moment a crash leaves some front part.
#![tactic(auto)]

pub mod change;
pub mod storing;

pub use change::Change;
pub use storing::store_all;
