ghost use Rattle.std.specs.Prelude.{◌≡◌, Ok};
ghost use Rattle.schedule_text.specs.Reading.{number_word, count_word, node_word, party_word, fill_word, bytes_word, block_word, block_cause};
ghost use Rattle.salus_types.specs.Outcome.{Gives};
ghost use Rattle.schedule_text.specs.Outcome.{line_fault};

use crate::error::{Cause, LineError};
use crate::names::{node_of, party_of};
use salus_types::{Bytes, Geometry, NodeName, Sender};
use std::alloc::Global;
use text_words::{block_of, byte_of, is_hex, lie_bytes_of, number_of};

pub fn number_word(word: &[u8]) -> Result<u64, Cause>
    ensures { result ≡ number_word word.now }
{
    number_of(word).ok_or(Cause::Number)
}

/// A number from 1 on.
pub fn count_word(word: &[u8]) -> Result<u64, Cause>
    ensures { result ≡ count_word word.now }
{
    match number_of(word) {
        Some(count) => {
            if count == 0 {
                Err(Cause::Number)
            } else {
                Ok(count)
            }
        }
        None => Err(Cause::Number),
    }
}

pub fn node_word(geometry: &Geometry, word: &[u8]) -> Result<NodeName, Cause>
    ensures { result ≡ node_word geometry.now word.now }
{
    node_of(geometry, word).ok_or(Cause::Node)
}

pub fn party_word(geometry: &Geometry, word: &[u8]) -> Result<Sender, Cause>
    ensures { result ≡ party_word geometry.now word.now }
{
    party_of(geometry, word).ok_or(Cause::Node)
}

pub fn fill_word(word: &[u8]) -> Result<u8, Cause>
    ensures { result ≡ fill_word word.now }
{
    byte_of(word).ok_or(Cause::Hex)
}

/// The bytes of a lie.
pub fn bytes_word(alloc: Global, word: &[u8]) -> Result<Bytes, LineError>
    ensures { Gives Ok line_fault result (bytes_word word.now) }
{
    match lie_bytes_of(alloc, word)? {
        Some(bytes) => Ok(bytes),
        None => Err(LineError::Wrong(Cause::Hex)),
    }
}

fn block_cause(word: &[u8]) -> Cause
    ensures { result ≡ block_cause word.now }
{
    if is_hex(word) {
        Cause::Size
    } else {
        Cause::Hex
    }
}

/// A block of the volume.
pub fn block_word(alloc: Global, size: u32, word: &[u8]) -> Result<Bytes, LineError>
    ensures { Gives Ok line_fault result (block_word size word.now) }
{
    match block_of(alloc, size, word)? {
        Some(bytes) => Ok(bytes),
        None => Err(LineError::Wrong(block_cause(word))),
    }
}
