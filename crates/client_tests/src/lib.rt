//! The tests of what a client stands on: its window of batches, its open reads, and a restart's pool, choice and phases,
//! in tables of worked examples.
#![tactic(auto)]

#[cfg(test)]
mod reads;
#[cfg(test)]
mod restarts;
#[cfg(test)]
mod waiting;
#[cfg(test)]
mod windows;
