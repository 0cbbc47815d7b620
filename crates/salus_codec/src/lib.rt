//! Numbers and runs of bytes, read from the front of a slice and written at the end of a vector. Numbers are
//! big-endian.
//!
//! `Fields` answers `Short` exactly where too few bytes remain, and then stays where it was. What it read is spelled
//! in the bytes that it passed, and what a `put` wrote is read again: each number has one spelling.
#![tactic(auto)]

mod errors;
mod ranges;
mod reader;
mod writer;

pub use errors::{FieldError, Short};
pub use reader::Fields;
pub use writer::{put_bytes, put_u8, put_u16, put_u32, put_u64};
