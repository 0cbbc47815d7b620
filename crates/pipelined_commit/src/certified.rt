ghost use Rattle.std.specs.Prelude.{◌≡◌, ◌<◌, IfSome, IsTrue, find};
ghost use Rattle.std.specs.Option.{option_map};
ghost use Rattle.unanimous_certificate.specs.Kept.{votes_in, claims_in};
ghost use Rattle.pipelined_commit.specs.Noting.{Noted, is_after, may_claim};

use crate::note::Note;
use unanimous_certificate::{Claims, Votes};

/// Whether the batch before is the base, or every replica of its leader has claimed it.
fn is_after(note: &Note, base: u64, claims: &Claims) -> bool
    requires { 0 < note.now.seq }
    ensures { result ≡ is_after claims.now.shape base (claims_in claims.now) note.now }
{
    let before = note.seq() - 1;
    claims.all_claim(note.leader_before(), before) || before == base
}

/// Whether the batch may be claimed, by these votes and claims.
fn may_claim(note: &Note, base: u64, front: u64, votes: &Votes, claims: &Claims) -> bool
    requires { claims.now.shape ≡ votes.now.shape }
    ensures test { result ≡ may_claim votes.now.shape base front (votes_in votes.now) (claims_in claims.now) note.now }
    ensures past { IsTrue result → front < note.now.seq }
{
    front < note.seq()
        && votes.is_unanimous(note.seq(), note.touched())
        && is_after(note, base, claims)
}

/// The number of the first of them that may be claimed.
pub fn first_to_claim(
    noted: &[Note],
    base: u64,
    front: u64,
    votes: &Votes,
    claims: &Claims,
) -> Option<u64>
    requires { claims.now.shape ≡ votes.now.shape }
    ensures first { result ≡ option_map (λ (n : Noted). n.seq) (find (λ n. may_claim votes.now.shape base front (votes_in votes.now) (claims_in claims.now) n) noted.now) }
    ensures past { IfSome result (λ s. front < s) }
{
    'notes: for note in noted {
        if may_claim(note, base, front, votes, claims) {
            return Some(note.seq());
        }
    }
    None
}
