//! The summary of a run: how many events its schedule has, and how many lines of each kind it printed.
#![tactic(auto)]

mod counting;

pub use counting::{LineKind, count_of, summary_of};
