use salus_hash::Digest;
use salus_types::Record;

/// What has become of a part.
#[derive(Debug, Drop)]
pub enum PartAnswer {
    /// It is of another session or another region, or not of the right shape.
    Foreign,
    /// The view has its number already, or a higher one.
    Known,
    /// It goes on from a number that the view doesn't have: it is kept until its turn, or another that goes on from that
    /// number is.
    Early,
    /// It is early, and no more are kept.
    Full,
    /// It names the root `held`, and the blocks after it have the root `got`.
    Differs { held: Digest, got: Digest },
    /// It is applied.
    Next(Record),
}
