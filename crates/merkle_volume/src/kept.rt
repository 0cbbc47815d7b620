//! A top that is kept while the roots change: each change hashes along one path.
ghost use Rattle.std.specs.Prelude.{◌≡◌, ◌≢◌, ◌+◌, ◌-◌, ◌*◌, ◌<◌, ◌≤◌, ◌^◌, ℕ, length, take, slice_get, slice_set, Some};
ghost use Rattle.salus_hash.specs.Hash.{above};
ghost use Rattle.merkle_region.specs.Raised.{digest_at, IsRaised};
ghost use Rattle.merkle_volume.specs.Top.{top_of};

use salus_hash::{Digest, top_digest};
use std::marker::Model;

/// How many digests the tree over 16 roots has.
const MOST: usize = 31;

/// The roots of a volume's regions, 1 to 16, with all digests above them: first the roots, then level by level what
/// stands above them. A contract sees it as the list of its roots.
#[derive(Drop)]
pub struct Tops {
    count: usize,
    digests: [Digest; MOST],
}

impl Model for Tops {
    ghost use Rattle.std.specs.Prelude.{List, ℕ, take};
    ghost use Rattle.merkle_volume.specs.Kept.{IsKept};

    ghost Value = { List (List ℕ) };

    ghost view = { λ t. take t.count t.digests };

    ghost invariant = { λ t. IsKept t.count t.digests };
}

/// The roots, and then room for what stands above them.
fn spread(roots: &[Digest]) -> [Digest; MOST]
    requires some { 1 ≤ length roots.now }
    requires few { length roots.now ≤ 16 }
    ensures { take (length roots.now) result ≡ roots.now }
{
    let mut digests = [roots[0]; MOST];
    'roots: for i in 0..roots.len() {
        digests[i] = roots[i];
    }
    digests
}

/// Hashes all that stands above the roots.
fn raise(digests: &mut [Digest; MOST], count: usize)
    requires some { 1 ≤ count }
    requires few { count ≤ 16 }
    ensures raised { IsRaised above count digests.new }
    ensures roots { (i : ℕ) → i < count → digest_at digests.new i ≡ digest_at digests.old i }
{
    'pairs: for pair in 0..count - 1 {
        let digest = top_digest(&digests[2 * pair], &digests[2 * pair + 1]);
        digests[count + pair] = digest;
    }
}

/// Puts a root in the place of another one, and hashes again what stands above it: one digest a level.
fn put_root(digests: &mut [Digest; MOST], count: usize, g: usize, root: &Digest)
    requires few { count ≤ 16 }
    requires within { g < count }
    requires raised { IsRaised above count digests.old }
    ensures raised { IsRaised above count digests.new }
    ensures root { digest_at digests.new g ≡ root.now }
    ensures others { (k : ℕ) → k < count → k ≢ g → digest_at digests.new k ≡ digest_at digests.old k }
{
    digests[g] = *root;
    let mut place = g;
    'levels: while place + 2 < 2 * count {
        let pair = place / 2;
        let parent = top_digest(&digests[2 * pair], &digests[2 * pair + 1]);
        place = count + pair;
        digests[place] = parent;
    }
}

impl Tops {
    /// The tops over these roots, of which there are 1 to 16.
    pub fn new(roots: &[Digest]) -> Tops
        requires some { 1 ≤ length roots.now }
        requires few { length roots.now ≤ 16 }
        ensures { result ≡ roots.now }
    {
        let count = roots.len();
        let mut digests = spread(roots);
        raise(&mut digests, count);
        Tops { count, digests }
    }

    /// The roots, one for each region.
    pub fn roots(&self) -> &[Digest]
        ensures { result.now ≡ self.now }
    {
        &self.digests[..self.count]
    }

    /// The root of region `g`.
    pub fn root_of(&self, g: u16) -> Digest
        requires { g < length self.now }
        ensures { slice_get self.now g ≡ Some result }
    {
        self.digests[g as usize]
    }

    /// Puts the root of region `g` in place of the one that stood there. It hashes one digest a level.
    pub fn set_region(&mut self, g: u16, root: &Digest)
        requires { g < length self.old }
        ensures { self.new ≡ slice_set self.old g root.now }
    {
        put_root(&mut self.digests, self.count, g as usize, root);
    }

    /// The top over the roots, where there are 2 ^ k. It hashes nothing.
    pub fn top(&self) -> Digest
        ensures { (k : ℕ) → length self.now ≡ 2 ^ k → result ≡ top_of k self.now }
    {
        self.digests[2 * self.count - 2]
    }
}
