ghost use Rattle.salus_types.specs.Outcome.{Rose};

// The count of faults after one more. It stands still at the end of its type.
pub(crate) fn raised(faults: u64) -> u64
    ensures { Rose faults result }
{
    faults.saturating_add(1)
}
