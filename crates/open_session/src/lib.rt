//! A node's memory of its open session: its replica of the region, the leader of the batches that the region leads, and the
//! held parts that count.
//!
//! A session is opened from what is held, at a load and at a switch. Each call that hands something to it does what the rule
//! of a node for that thing says (`IsTurn`), in memory alone: its `Turn` has the messages to send, and the changes of what is
//! held that must be stored before. Changes are lent from the session's own parts, and no record is copied for them. After
//! `NoMemory` the session is to be used no more.
#![tactic(auto)]

mod answers;
mod ballot;
mod claims;
mod folding;
mod handed;
mod opening;
mod parts;
mod same;
mod session;
mod told;
mod turn;
mod turns;

pub use same::is_same_record;
pub use session::Session;
pub use turn::Turn;
