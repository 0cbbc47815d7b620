ghost use Rattle.std.specs.Prelude.{◌≡◌, ◌<◌, ◌^◌, ℕ, length};
ghost use Rattle.merkle_volume.specs.Top.{top_of};

use salus_hash::{Digest, top_digest};

/// The top over 2 ^ k roots: the one root, or the digest of the tops of the two halves. It takes 2 ^ k - 1 hashes.
pub fn top(roots: &[Digest]) -> Digest
    requires { 0 < length roots.now }
    ensures { (k : ℕ) → length roots.now ≡ 2 ^ k → result ≡ top_of k roots.now }
{
    if roots.len() == 1 {
        return roots[0];
    }
    let (left, right) = roots.split_at(roots.len() / 2);
    let left_top = top(left);
    let right_top = top(right);
    top_digest(&left_top, &right_top)
}
