ghost use Rattle.std.specs.Prelude.{◌≤◌, ◌<◌, ◌≡◌, ℕ, List, Option, length, take, IfOk, OnErr};
ghost use Rattle.salus_io.specs.Told.{Appends};
ghost use Rattle.salus_io.specs.Faults.{HasSinkCause, FailsAsListed, is_sink_failure};

/// Why a sink took nothing.
#[derive(Clone, Copy, PartialEq, Eq, Debug, Drop)]
pub enum SinkFault {
    /// The call failed.
    Failed,
    /// There was no memory for the bytes.
    NoMemory,
}

/// Where bytes go to.
pub trait Sink {
    /// The bytes that the sink holds, where it tells them. No call changes whether it does.
    ghost held: { Self → Option (List ℕ) };

    /// How often a call has failed. It never falls.
    ghost faults: { Self → ℕ };

    /// The calls that are to fail, where the sink tells them: 1 is the next one.
    ghost failing: { Self → Option (List ℕ) };

    /// Takes the first of `bytes`, at least one, and answers how many it took. A call that fails takes nothing.
    fn write(&mut self, bytes: &[u8]) -> Result<usize, SinkFault>
        requires { 0 < length bytes.now }
        ensures some { IfOk result (λ n. 0 < n) }
        ensures bound { IfOk result (λ n. n ≤ length bytes.now) }
        ensures taken { IfOk result (λ n. Appends (held self.old) (held self.new) (take n bytes.now)) }
        ensures kept { OnErr result (held self.new ≡ held self.old) }
        ensures cause { HasSinkCause (faults self.old) (faults self.new) result }
        ensures listed { FailsAsListed (failing self.old) (failing self.new) (is_sink_failure result) };
}
