//! The waiting line of a serving client. Requests join it in the order of asking; those before the first write leave it at
//! once, and that write is its head, behind which all others wait. And the refusals of a serving client, which count what
//! waits there.
#![tactic(auto)]

mod line;
mod refusals;

pub use line::{Taken, WaitingLine};
pub use refusals::{Standing, refusal};
