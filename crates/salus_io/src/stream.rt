ghost use Rattle.std.specs.Prelude.{◌≡◌, ◌<◌, ◌≤◌, None, length, take, IfOk, OnErr, IsErrOf};
ghost use Rattle.std.specs.Io.KnownBytes.{Appends, Consumes, IsAtEnd, Keeps};
ghost use Rattle.salus_io.specs.Faults.{HasSourceCause, HasSinkCause};

use crate::faults::raised;
use crate::{Failed, Sink, SinkFault, Source};
use std::io::{ErrorKind, Read, Write};

/// A source over a reader of std. It tells nothing. One read is one read of the reader, and one that a signal
/// interrupts is made again.
#[derive(Debug, Drop)]
pub struct StdSource<R> {
    reader: R,
    faults: u64,
}

/// A sink over a writer of std. It tells nothing, and never answers `NoMemory`. One write is one write of the writer,
/// and one that a signal interrupts is made again. A writer that takes no byte is at fault. Nothing is flushed: over
/// a writer that keeps bytes back, its owner flushes it.
#[derive(Debug, Drop)]
pub struct StdSink<W> {
    writer: W,
    faults: u64,
}

impl<R> StdSource<R> {
    pub fn new(reader: R) -> StdSource<R>
        ensures { result ≡ record { reader = reader; faults = 0 } }
    {
        StdSource { reader, faults: 0 }
    }
}

impl<W> StdSink<W> {
    pub fn new(writer: W) -> StdSink<W>
        ensures { result ≡ record { writer = writer; faults = 0 } }
    {
        StdSink { writer, faults: 0 }
    }
}

impl<R: Read> Source for StdSource<R> {
    ghost left = { λ _. None };

    ghost faults = { λ source. source.faults };

    ghost failing = { λ _. None };

    fn read(&mut self, out: &mut [u8]) -> Result<usize, Failed>
        requires { 0 < length out.old }
        ensures bound { IfOk result (λ n. n ≤ length out.new) }
        ensures cause { HasSourceCause self.old.faults self.new.faults result }
        // What the reader tells of its own bytes goes for those that the source gave.
        ensures taken { IfOk result (λ n. Consumes (R.remaining self.old.reader) (R.remaining self.new.reader) (take n out.new)) }
        ensures end { IfOk result (λ n. n ≡ 0 → IsAtEnd (R.remaining self.new.reader)) }
        ensures kept { OnErr result (Keeps (R.remaining self.old.reader) (R.remaining self.new.reader)) }
    {
        for _ in 0..u64::MAX {
            match self.reader.read(out) {
                Ok(count) => return Ok(count),
                Err(error) if error.kind() == ErrorKind::Interrupted => {}
                Err(_) => break,
            }
        }
        self.faults = raised(self.faults);
        Err(Failed)
    }
}

impl<W: Write> Sink for StdSink<W> {
    ghost held = { λ _. None };

    ghost faults = { λ sink. sink.faults };

    ghost failing = { λ _. None };

    fn write(&mut self, bytes: &[u8]) -> Result<usize, SinkFault>
        requires { 0 < length bytes.now }
        ensures some { IfOk result (λ n. 0 < n) }
        ensures bound { IfOk result (λ n. n ≤ length bytes.now) }
        ensures cause { HasSinkCause self.old.faults self.new.faults result }
        ensures memory { IsErrOf result SinkFault.NoMemory → ⊥ }
        // What the writer tells of its own bytes goes for those that the sink took.
        ensures taken { IfOk result (λ n. Appends (W.contents self.old.writer) (W.contents self.new.writer) (take n bytes.now)) }
        ensures kept { OnErr result (Keeps (W.contents self.old.writer) (W.contents self.new.writer)) }
    {
        for _ in 0..u64::MAX {
            match self.writer.write(bytes) {
                Ok(0) => break,
                Ok(count) => return Ok(count),
                Err(error) if error.kind() == ErrorKind::Interrupted => {}
                Err(_) => break,
            }
        }
        self.faults = raised(self.faults);
        Err(SinkFault::Failed)
    }
}
