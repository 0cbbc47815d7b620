//! The tests of the storage: disks that fail and crash, logs, stores and checkpoints, in tables of worked examples.
#![tactic(auto)]

#[cfg(test)]
mod disks;
#[cfg(test)]
mod storage;
