ghost use Rattle.std.specs.Prelude.{◌≤◌, ◌<◌, ◌≡◌, ◌-◌, [], ◌∷◌, ◌++◌, length, take, drop, map, filter, min, is_err, IfOk, OnOk, OnErr};
ghost use Rattle.salus_io.specs.Told.{Consumes, IsAtEnd, Appends};
ghost use Rattle.salus_io.specs.Faults.{HasSourceCause, HasSinkCause, FailsAsListed, is_sink_failure, fails_next, after_call};

use crate::faults::raised;
use crate::{Failed, Sink, SinkFault, Source};
use salus_types::NoMemory;
use std::alloc::Global;
use std::marker::Model;

/// A source over memory. It gives at most so many bytes a call, and fails exactly at the calls that it was told.
#[derive(Debug, Drop)]
pub struct MemSource {
    content: Vec<u8>,
    at: usize,
    piece: u64,
    failing: Vec<u64>,
    faults: u64,
}

/// A sink over memory. It takes at most so many bytes a call, and answers `Failed` exactly at the calls that it was
/// told. Each call counts, whatever it answers.
#[derive(Debug, Drop)]
pub struct MemSink {
    held: Vec<u8>,
    piece: u64,
    failing: Vec<u64>,
    faults: u64,
}

impl Model for MemSource {
    ghost use Rattle.std.specs.Prelude.{◌≤◌, ◌<◌, length, drop};
    ghost use Rattle.salus_io.specs.Memory.{SourceState};

    ghost Value = { SourceState };

    ghost view = { λ s. record { left = drop s.at s.content.items; piece = s.piece; failing = s.failing.items; faults = s.faults } };

    ghost invariant = { λ s. (s.at ≤ length s.content.items) × (0 < s.piece) };
}

impl Model for MemSink {
    ghost use Rattle.std.specs.Prelude.{◌<◌};
    ghost use Rattle.salus_io.specs.Memory.{SinkState};

    ghost Value = { SinkState };

    ghost view = { λ s. record { held = s.held.items; piece = s.piece; failing = s.failing.items; faults = s.faults } };

    ghost invariant = { λ s. 0 < s.piece };
}

impl MemSource {
    /// A source of this content, in pieces of at most `piece` bytes.
    pub fn new(alloc: Global, content: Vec<u8>, piece: u64) -> MemSource
        requires { 1 ≤ piece }
        ensures { result ≡ record { left = content.items; piece = piece; failing = []; faults = 0 } }
    {
        MemSource {
            content,
            at: 0,
            piece,
            failing: Vec::new(alloc),
            faults: 0,
        }
    }

    /// The n-th call from now fails without effect.
    pub fn fail_at(&mut self, n: u64) -> Result<(), NoMemory>
        requires { 1 ≤ n }
        ensures ok { OnOk result (self.new ≡ record self.old { failing = self.old.failing ++ n ∷ [] }) }
        ensures err { OnErr result (self.new ≡ self.old) }
    {
        self.failing.push(n)?;
        Ok(())
    }
}

impl MemSink {
    /// An empty sink, which takes at most `piece` bytes a call.
    pub fn new(alloc: Global, piece: u64) -> MemSink
        requires { 1 ≤ piece }
        ensures { result ≡ record { held = []; piece = piece; failing = []; faults = 0 } }
    {
        MemSink {
            held: Vec::new(alloc),
            piece,
            failing: Vec::new(alloc),
            faults: 0,
        }
    }

    /// The n-th call from now fails without effect.
    pub fn fail_at(&mut self, n: u64) -> Result<(), NoMemory>
        requires { 1 ≤ n }
        ensures ok { OnOk result (self.new ≡ record self.old { failing = self.old.failing ++ n ∷ [] }) }
        ensures err { OnErr result (self.new ≡ self.old) }
    {
        self.failing.push(n)?;
        Ok(())
    }

    /// The bytes that it has taken.
    pub fn held(&self) -> &[u8]
        ensures { result.now ≡ self.now.held }
    {
        self.held.as_slice()
    }
}

impl Source for MemSource {
    ghost use Rattle.std.specs.Prelude.{Some};

    ghost left = { λ source. Some source.left };

    ghost faults = { λ source. source.faults };

    ghost failing = { λ source. Some source.failing };

    /// Gives a whole piece, or what there is room for, or what is left.
    fn read(&mut self, out: &mut [u8]) -> Result<usize, Failed>
        requires { 0 < length out.old }
        ensures bound { IfOk result (λ n. n ≤ length out.new) }
        ensures taken { IfOk result (λ n. Consumes (Some self.old.left) (Some self.new.left) (take n out.new)) }
        ensures end { IfOk result (λ n. n ≡ 0 → IsAtEnd (Some self.new.left)) }
        ensures kept { OnErr result (self.new.left ≡ self.old.left) }
        ensures cause { HasSourceCause self.old.faults self.new.faults result }
        ensures listed { FailsAsListed (Some self.old.failing) (Some self.new.failing) (is_err result) }
        ensures piece { IfOk result (λ n. n ≡ min self.old.piece (min (length self.old.left) (length out.old))) }
        ensures pieces { self.new.piece ≡ self.old.piece }
    {
        if falls_due(&mut self.failing) {
            self.faults = raised(self.faults);
            return Err(Failed);
        }
        let count = copy_front(&self.content[self.at..], self.piece, out);
        self.at += count;
        Ok(count)
    }
}

impl Sink for MemSink {
    ghost use Rattle.std.specs.Prelude.{Some};

    ghost held = { λ sink. Some sink.held };

    ghost faults = { λ sink. sink.faults };

    ghost failing = { λ sink. Some sink.failing };

    /// Takes a whole piece, or all that is given.
    fn write(&mut self, bytes: &[u8]) -> Result<usize, SinkFault>
        requires { 0 < length bytes.now }
        ensures some { IfOk result (λ n. 0 < n) }
        ensures bound { IfOk result (λ n. n ≤ length bytes.now) }
        ensures taken { IfOk result (λ n. Appends (Some self.old.held) (Some self.new.held) (take n bytes.now)) }
        ensures kept { OnErr result (self.new.held ≡ self.old.held) }
        ensures cause { HasSinkCause self.old.faults self.new.faults result }
        ensures listed { FailsAsListed (Some self.old.failing) (Some self.new.failing) (is_sink_failure result) }
        ensures piece { IfOk result (λ n. n ≡ min self.old.piece (length bytes.now)) }
        ensures pieces { self.new.piece ≡ self.old.piece }
    {
        if falls_due(&mut self.failing) {
            self.faults = raised(self.faults);
            return Err(SinkFault::Failed);
        }
        let count = (self.piece as usize).min(bytes.len());
        match self.held.extend_from_slice(&bytes[..count]) {
            Ok(()) => Ok(count),
            Err(_) => Err(SinkFault::NoMemory),
        }
    }
}

// Copies as many bytes as both have, but no more than `most`, and answers how many.
fn copy_front(from: &[u8], most: u64, out: &mut [u8]) -> usize
    ensures count { result ≡ min most (min (length from.now) (length out.old)) }
    ensures copied { take result out.new ≡ take result from.now }
{
    let count = (most as usize).min(from.len().min(out.len()));
    out[..count].copy_from_slice(&from[..count]);
    count
}

// Counts a call, and answers whether it is to fail.
fn falls_due(failing: &mut Vec<u64>) -> bool
    ensures due { result ≡ fails_next failing.old.items }
    ensures later { failing.new.items ≡ after_call failing.old.items }
{
    let is_due = failing.contains(&1);
    count_down(failing);
    failing.retain(|call| *call > 0);
    is_due
}

fn count_down(failing: &mut [u64])
    ensures { failing.new ≡ map (λ call. call - 1) failing.old }
{
    for call in failing.iter_mut() {
        *call = call.saturating_sub(1);
    }
}
