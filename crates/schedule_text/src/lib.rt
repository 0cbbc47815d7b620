//! The schedule language, whole: a volume and its events, as text and as values.
//!
//! `specs/Grammar.antt` says which text means which schedule, and where a text first goes wrong, with its cause.
//! `parse` gives the one schedule that a text means, or the first wrong line with its cause; `print` gives a text of a
//! schedule.
#![tactic(auto)]

mod batch;
mod error;
mod event;
mod keyword;
mod line;
mod names;
mod order;
mod printing;
mod schedule;
mod single;
mod text;
mod volume;

pub use error::{Cause, ParseError, ScheduleError};
pub use printing::print;
pub use schedule::{Event, Events, Schedule, Volume};
pub use text::parse;
