//! The world of a run: the client, the nodes of each region over their disks, and the messages between them. Each
//! event of a schedule hands one thing, or with `settle` several, to a party, and what it answers is added to the messages.
//! Crashes, stops, failures and replacements are events of disks in memory alone; all else goes over any disk.
//! No trace is kept: a contract says of each course of the run that tells how the world came about, how it goes on.
#![tactic(auto)]

mod error;
mod events;
mod formatting;
mod handing;
mod mail;
mod memory;
mod places;
mod ran;
mod run;
mod telling;
mod world;

pub use error::WorldError;
pub use ran::Ran;
pub use run::run_schedule;
pub use world::World;
