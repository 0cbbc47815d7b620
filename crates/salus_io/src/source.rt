ghost use Rattle.std.specs.Prelude.{◌≤◌, ◌<◌, ◌≡◌, ℕ, List, Option, length, take, IfOk, OnErr, is_err};
ghost use Rattle.salus_io.specs.Told.{Consumes, IsAtEnd};
ghost use Rattle.salus_io.specs.Faults.{HasSourceCause, FailsAsListed};

/// A call of a source failed.
#[derive(Clone, Copy, PartialEq, Eq, Debug, Drop)]
pub struct Failed;

/// Where bytes come from.
pub trait Source {
    /// The bytes that are left, where the source tells them. No call changes whether it does.
    ghost left: { Self → Option (List ℕ) };

    /// How often a call has failed. It never falls.
    ghost faults: { Self → ℕ };

    /// The calls that are to fail, where the source tells them: 1 is the next one.
    ghost failing: { Self → Option (List ℕ) };

    /// Puts the first of the bytes that are left into the front of `out`, takes them, and answers how many they are.
    /// None come only at the end. A call that fails takes nothing.
    fn read(&mut self, out: &mut [u8]) -> Result<usize, Failed>
        requires { 0 < length out.old }
        ensures bound { IfOk result (λ n. n ≤ length out.new) }
        ensures taken { IfOk result (λ n. Consumes (left self.old) (left self.new) (take n out.new)) }
        ensures end { IfOk result (λ n. n ≡ 0 → IsAtEnd (left self.new)) }
        ensures kept { OnErr result (left self.new ≡ left self.old) }
        ensures cause { HasSourceCause (faults self.old) (faults self.new) result }
        ensures listed { FailsAsListed (failing self.old) (failing self.new) (is_err result) };
}
