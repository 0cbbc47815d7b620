//! The tests of trees and of what a replica stands on: kept and pruned trees, a region's view and its replica, votes, claims
//! and leaders, in tables of worked examples: what a proof can't see, as that a call finds the memory that there is.
#![tactic(auto)]

#[cfg(test)]
mod certificates;
#[cfg(test)]
mod fitting;
#[cfg(test)]
mod pruned;
#[cfg(test)]
mod replicas;
#[cfg(test)]
mod trees;
#[cfg(test)]
mod views;
