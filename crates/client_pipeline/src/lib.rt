//! The batches of a serving client that aren't acknowledged: the numbers of its window, and each batch's sealed parts, which
//! are sent to every replica of the regions that they touch until the batch is acknowledged.
//!
//! Contracts say which client of the rules a pipeline stands for (`StandsFor`), and that each call is the rules' one.
#![tactic(auto)]

mod acking;
mod pipeline;
mod sending;

pub use pipeline::Pipeline;
