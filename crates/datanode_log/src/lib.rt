//! A log of entries on a disk: an entry that was added stays through every crash, and a crash while one is added
//! leaves the entries from before, or these with the new one.
#![tactic(auto)]

mod access;
pub mod error;
mod layout;
pub mod log;
pub mod spelled;

pub use error::{LogError, Refused};
pub use log::{Loaded, Log};
pub use spelled::Spelled;
