ghost use Rattle.std.specs.Prelude.{◌≡◌, None, slice_index_or};
ghost use Rattle.replica_rules.specs.Voting.{is_above_vote, is_root, root_in};

use salus_hash::Digest;
use std::marker::Model;

/// The number and the root that a node voted for.
#[derive(Clone, Copy, Debug, Drop)]
pub struct Vote {
    seq: u64,
    root: Digest,
}

impl Model for Vote {
    ghost use Rattle.replica_rules.specs.Voting.{Vote as Voted};

    ghost Value = { Voted };

    ghost view = { λ v. record { seq = v.seq; root = v.root } };

    ghost inverse = { λ v. record { seq = v.seq; root = v.root } };
}

impl Vote {
    pub fn new(seq: u64, root: Digest) -> Vote
        ensures { result ≡ record { seq = seq; root = root } }
    {
        Vote { seq, root }
    }

    /// The root, where the vote is for that number.
    fn root_for(&self, seq: u64) -> Option<Digest>
        ensures { result ≡ root_in seq (Some self.now) }
    {
        if self.seq == seq {
            Some(self.root)
        } else {
            None
        }
    }

    fn is_below(&self, seq: u64) -> bool
        ensures { result ≡ is_above_vote seq (Some self.now) }
    {
        self.seq < seq
    }
}

/// Whether the number is above that of the vote at this place.
pub fn is_above_vote(places: &[Option<Vote>], index: usize, seq: u64) -> bool
    ensures { result ≡ is_above_vote seq (slice_index_or places.now index None) }
{
    match places.get(index) {
        Some(Some(vote)) => vote.is_below(seq),
        _ => true,
    }
}

/// The root that the vote at this place has for that number.
pub fn root_at(places: &[Option<Vote>], index: usize, seq: u64) -> Option<Digest>
    ensures { result ≡ root_in seq (slice_index_or places.now index None) }
{
    match places.get(index) {
        Some(Some(vote)) => vote.root_for(seq),
        _ => None,
    }
}

/// Whether there is a root, and it is that one.
pub fn is_root(root: &Digest, other: Option<Digest>) -> bool
    ensures { result ≡ is_root root.now other }
{
    match other {
        Some(other) => *root == other,
        None => false,
    }
}
