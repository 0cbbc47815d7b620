use salus_hash::Digest;

/// What an answer is worth.
#[derive(Clone, Copy, PartialEq, Eq, Debug, Drop)]
pub enum Verdict {
    /// It answers none of the open questions.
    Unknown,
    /// It is of batch `at`, which is above the region's number: the replica is struck.
    Past { at: u64 },
    /// It is of batch `at`, which is below the region's number.
    Stale { at: u64 },
    /// It carries the block, and the question is closed.
    Block,
    /// Its path leads to `got`, where the region's root is `held`: the replica is struck.
    Bad { held: Digest, got: Digest },
}

/// What an answer is worth before its path is climbed.
#[derive(Clone, Copy, PartialEq, Eq, Debug, Drop)]
pub enum Standing {
    /// It answers none of the open questions.
    Unknown,
    /// It is of batch `at`, which is above the region's number: the replica is struck.
    Past { at: u64 },
    /// It is of batch `at`, which is below the region's number.
    Stale { at: u64 },
    /// It is of the region's number, and its path is still to be climbed.
    Present,
}
