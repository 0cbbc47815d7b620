//! Schedules that are generated: from a seed and a number of rounds, over one volume.
//!
//! `specs/Generator.antt` says which schedule is generated. It keeps to the limits of the schedule language, so its text
//! means this schedule and no other.
#![tactic(auto)]

mod drawing;
mod generating;

pub use generating::{generate, generated_text};
