//! What a node holds, kept in a log: each entry is a part, a base of a session, or the switch to a session. What is
//! held is what the entries of the file mean; a crash in a call leaves what was held before it, or what is held after.
#![tactic(auto)]

mod entry;
pub mod error;
mod holding;
mod reading;
pub mod store;

pub use entry::{base_entry, part_entry, switch_entry};
pub use error::StoreError;
pub use store::Store;
