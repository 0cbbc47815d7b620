//! The commands of the program `salus`, from the words and the bytes of a source to the bytes of a sink.
//!
//! `salus` carries the promise of the whole: the run follows the schedule, and nodes and client go by their rules in it; the
//! printed lines are exactly those that are due, if no two different strings seen share a digest; and a legal history of one
//! array, if besides no lie brings a forged tag. Where each group keeps a server that counts, nothing acknowledged is lost, and
//! the disks that the run leaves have all of it; a read that has a sound server ends, whatever the others do; and a run without
//! faults in which every message was handed over is complete.
#![tactic(auto)]

mod commanding;
mod printing;
mod refusal;
mod replay;
mod report;
mod running;
mod status;
mod whole;
mod words;

pub use commanding::salus;
pub use report::Report;
pub use words::{COMMANDS, Command, CommandHelp};
