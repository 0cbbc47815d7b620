//! The digests of a binary tree in one list: the leaves, then level by level what stands above them, the top last.
//! Above n leaves, what stands at place n + k has its children at the places 2 k and 2 k + 1. So the tree takes one
//! allocation, and its parts are found by arithmetic.
ghost use Rattle.std.specs.Prelude.{◌≡◌, ◌≢◌, ◌+◌, ◌*◌, ◌%◌, ◌-◌, ◌<◌, ◌≤◌, ℕ, length, vec_len, IfOk, IsTrue};
ghost use Rattle.salus_hash.specs.Hash.{inner};
ghost use Rattle.merkle_region.specs.Raised.{digest_at, IsRaised};

use salus_hash::{Digest, node_digest};
use salus_types::NoMemory;

/// The place beside this one, below the same parent.
pub(crate) fn sibling(place: usize) -> usize
    requires { place < 8192 }
    ensures { result ≡ place + 1 - 2 * (place % 2) }
{
    place + 1 - 2 * (place % 2)
}

/// Whether a pair of digests equals the pair before it.
fn repeats(digests: &[Digest], pair: usize) -> bool
    requires some { 0 < pair }
    requires within { 2 * pair + 1 < length digests.now }
    ensures { IsTrue result → (digest_at digests.now (2 * pair - 2) ≡ digest_at digests.now (2 * pair)) × (digest_at digests.now (2 * pair - 1) ≡ digest_at digests.now (2 * pair + 1)) }
{
    digests[2 * pair - 2] == digests[2 * pair] && digests[2 * pair - 1] == digests[2 * pair + 1]
}

/// The digest of a pair. Where the pair equals the one before it, whose digest is the last one, it isn't hashed again.
fn next_digest(digests: &[Digest], pair: usize) -> Digest
    requires within { 2 * pair + 1 < length digests.now }
    requires last { 0 < pair → digest_at digests.now (length digests.now - 1) ≡ inner (digest_at digests.now (2 * pair - 2)) (digest_at digests.now (2 * pair - 1)) }
    ensures { result ≡ inner (digest_at digests.now (2 * pair)) (digest_at digests.now (2 * pair + 1)) }
{
    if pair > 0 && repeats(digests, pair) {
        digests[digests.len() - 1]
    } else {
        node_digest(&digests[2 * pair], &digests[2 * pair + 1])
    }
}

/// Adds to the leaves what stands above them. A pair that equals the one before it is hashed once.
pub(crate) fn raise(mut digests: Vec<Digest>) -> Result<Vec<Digest>, NoMemory>
    requires some { 0 < vec_len digests }
    requires few { vec_len digests ≤ 4096 }
    ensures raised { IfOk result (λ all. IsRaised inner (vec_len digests) all.items) }
    ensures leaves { IfOk result (λ all. (i : ℕ) → i < vec_len digests → digest_at all.items i ≡ digest_at digests.items i) }
{
    let width = digests.len();
    'pairs: for pair in 0..width - 1 {
        let digest = next_digest(digests.as_slice(), pair);
        digests.push(digest)?;
    }
    Ok(digests)
}

/// Puts a leaf in the place of another one, and hashes again what stands above it: one digest a level.
pub(crate) fn put_leaf(digests: &mut Vec<Digest>, width: usize, i: usize, leaf: Digest)
    requires few { width ≤ 4096 }
    requires within { i < width }
    requires raised { IsRaised inner width digests.old.items }
    ensures raised { IsRaised inner width digests.new.items }
    ensures leaf { digest_at digests.new.items i ≡ leaf }
    ensures others { (k : ℕ) → k < width → k ≢ i → digest_at digests.new.items k ≡ digest_at digests.old.items k }
{
    digests[i] = leaf;
    let mut place = i;
    'levels: while place + 2 < 2 * width {
        let pair = place / 2;
        let parent = node_digest(&digests[2 * pair], &digests[2 * pair + 1]);
        place = width + pair;
        digests[place] = parent;
    }
}
