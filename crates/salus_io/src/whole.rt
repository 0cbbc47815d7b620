ghost use Rattle.std.specs.Prelude.{◌≤◌, ◌<◌, ◌≡◌, ◌+◌, ◌++◌, length, take, vec_len, is_err, IfOk, OnOk, IfSome, IsErrOf};
ghost use Rattle.salus_io.specs.Told.{Consumes, ConsumesSome, ConsumesMore, IsAtEnd, Appends, AppendsPrefix};
ghost use Rattle.salus_io.specs.Faults.{HasSourceCause, HasReadCause, HasSinkCause, StaysSure, is_read_failure, is_sink_failure};

use crate::{Failed, Sink, SinkFault, Source};
use std::alloc::{AllocError, Global};

/// Why a source wasn't read to its end.
#[derive(Clone, Copy, PartialEq, Eq, Debug, Drop)]
pub enum ReadError {
    /// A call of the source failed.
    Failed,
    /// More bytes came than the limit.
    TooLong,
    /// There was no memory for the bytes.
    NoMemory,
}

// How many bytes a read may give.
const PIECE: usize = 65_536;

/// Reads a source to its end, or past `limit` bytes. An error loses what was read so far.
pub fn read_whole<S: Source>(
    alloc: Global,
    source: &mut S,
    limit: usize,
) -> Result<Vec<u8>, ReadError>
    ensures whole { IfOk result (λ text. IfSome (S.left source.old) (λ left. left ≡ text.items)) }
    ensures end { OnOk result (IsAtEnd (S.left source.new)) }
    ensures within { IfOk result (λ text. vec_len text ≤ limit) }
    ensures too_long { IsErrOf result ReadError.TooLong → ConsumesMore (S.left source.old) (S.left source.new) limit }
    ensures longer { IsErrOf result ReadError.TooLong → IfSome (S.left source.old) (λ left. limit < length left) }
    ensures taken { ConsumesSome (S.left source.old) (S.left source.new) }
    ensures cause { HasReadCause (S.faults source.old) (S.faults source.new) result }
    ensures sure { StaysSure (S.failing source.old) (S.failing source.new) (is_read_failure result) }
{
    let mut text = Vec::new(alloc);
    let mut buffer = match buffer_of(alloc, PIECE) {
        Ok(buffer) => buffer,
        Err(_) => return Err(ReadError::NoMemory),
    };
    'pieces: while text.len() <= limit {
        match read_piece(source, &mut buffer, &mut text) {
            Ok(0) => return Ok(text),
            Ok(_) => {}
            Err(error) => return Err(error),
        }
    }
    Err(ReadError::TooLong)
}

fn buffer_of(alloc: Global, size: usize) -> Result<Vec<u8>, AllocError>
    ensures { IfOk result (λ buffer. vec_len buffer ≡ size) }
{
    vec![in alloc; 0u8; size]
}

// Reads once, and puts what comes behind the text.
fn read_piece<S: Source>(
    source: &mut S,
    buffer: &mut [u8],
    text: &mut Vec<u8>,
) -> Result<usize, ReadError>
    requires { 0 < length buffer.old }
    ensures more { IfOk result (λ n. vec_len text.new ≡ vec_len text.old + n) }
    ensures text { IfOk result (λ n. text.new.items ≡ text.old.items ++ take n buffer.new) }
    ensures taken { IfOk result (λ n. Consumes (S.left source.old) (S.left source.new) (take n buffer.new)) }
    ensures end { IfOk result (λ n. n ≡ 0 → IsAtEnd (S.left source.new)) }
    ensures moves { ConsumesSome (S.left source.old) (S.left source.new) }
    ensures short { IsErrOf result ReadError.TooLong → ⊥ }
    ensures cause { HasReadCause (S.faults source.old) (S.faults source.new) result }
    ensures sure { StaysSure (S.failing source.old) (S.failing source.new) (is_read_failure result) }
{
    match source.read(buffer) {
        Ok(count) => match text.extend_from_slice(&buffer[..count]) {
            Ok(()) => Ok(count),
            Err(_) => Err(ReadError::NoMemory),
        },
        Err(Failed) => Err(ReadError::Failed),
    }
}

/// Writes all of `bytes`. After an error the sink has taken a front part of them.
pub fn write_all<K: Sink>(sink: &mut K, bytes: &[u8]) -> Result<(), SinkFault>
    ensures whole { OnOk result (Appends (K.held sink.old) (K.held sink.new) bytes.now) }
    ensures part { AppendsPrefix (K.held sink.old) (K.held sink.new) bytes.now }
    ensures cause { HasSinkCause (K.faults sink.old) (K.faults sink.new) result }
    ensures sure { StaysSure (K.failing sink.old) (K.failing sink.new) (is_sink_failure result) }
{
    let mut at = 0;
    'pieces: while at < bytes.len() {
        match sink.write(&bytes[at..]) {
            Ok(count) => at += count,
            Err(fault) => return Err(fault),
        }
    }
    Ok(())
}
