//! A client that serves: it submits writes, verifies reads, and acknowledges batches, and keeps no block but those of the
//! requests that wait and of the parts that aren't acknowledged.
//!
//! Contracts say which clients of the rules it stands for (`StandsFor`): its roots and pruned trees stand for the rules'
//! blocks. Each call then does what the rules say (`IsTold`); an answer does so where no two of the strings at hand that
//! differ share a digest.
#![tactic(auto)]

mod answers;
mod client;
mod heading;
mod inside;
mod leaving;
mod requests;
mod ticking;

pub use client::ServingClient;
