//! Records and bases as bytes. Each has one spelling: what is read is spelled so, what is spelled so is read, and
//! what can't be read is refused by the first field that fails. No record's spelling is a proper front of another's.
//!
//! A tag is 32 bytes, written and read as they come. The client's is the HMAC of the record's bytes without it, under
//! the key of the volume: a record that has it is genuine.
#![tactic(auto)]

mod base;
mod header;
mod part;
mod record_bytes;
mod tag;

pub use base::{read_base, read_blocks, write_base, write_blocks};
pub use record_bytes::{RecordError, payload, read_record, write_record};
pub use tag::{is_genuine, seal};
