//! What the promises of Salus speak of: the messages of a run and its trace, as plain values. `specs/` has the
//! definitions over them, from the legal history of one array to the lines that are due. None of them cites a core, a
//! machine or the world.
#![tactic(auto)]

pub mod sending;
pub mod trace;

pub use sending::{Messages, Sent};
pub use trace::{Handed, Request, Trace, TraceStep};
