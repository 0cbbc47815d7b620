//! Where Salus reads its input from and writes its output to.
//!
//! A [`Source`] gives bytes and a [`Sink`] takes them, a piece at a time; both count their faults. What is written
//! over the two traits can't raise a count, so its answer of a fault has a cause outside. [`MemSource`] and [`MemSink`]
//! tell their bytes, and fail exactly at the calls that they were told to fail at. [`StdSource`] and [`StdSink`] stand
//! over a reader and a writer of std, and tell nothing. [`read_whole`] and [`write_all`] are the loops over them.
#![tactic(auto)]

mod faults;
pub mod memory;
pub mod sink;
pub mod source;
pub mod stream;
pub mod whole;

pub use memory::{MemSink, MemSource};
pub use sink::{Sink, SinkFault};
pub use source::{Failed, Source};
pub use stream::{StdSink, StdSource};
pub use whole::{ReadError, read_whole, write_all};
