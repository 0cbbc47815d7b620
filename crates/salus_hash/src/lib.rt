//! Digests: SHA-256 (FIPS 180-4), and the three ways in which Salus hashes. A leaf of a region's tree is hashed
//! after the byte 00 and an inner node after the byte 01, as RFC 6962, section 2.1, has it; a node of the volume's
//! tree, whose leaves are the roots of the regions, after the byte 02.
//!
//! No function here takes memory or refuses anything.
#![tactic(auto)]

ghost use Rattle.std.specs.Prelude.{◌≡◌, ◌∷◌, ◌++◌, length};
ghost use Rattle.sha2.specs.Sha256.{sha256};
ghost use Rattle.salus_hash.specs.Hash.{leaf, inner, above};

mod keyed_hash;

pub use keyed_hash::{HmacKey, hmac};
use sha2::{Digest as _, Sha256};
use std::marker::Model;

/// A SHA-256 digest: 32 bytes.
#[derive(Clone, Copy, PartialEq, Eq, Debug, Drop)]
pub struct Digest {
    bytes: [u8; 32],
}

impl Model for Digest {
    ghost use Rattle.std.specs.Prelude.{List, ℕ};

    ghost Value = { List ℕ };

    ghost view = { λ d. d.bytes };

    ghost inverse = { λ l. record { bytes = l } };
}

impl Digest {
    pub fn from_bytes(bytes: [u8; 32]) -> Digest
        ensures { result ≡ bytes }
    {
        Digest { bytes }
    }

    pub fn as_bytes(&self) -> &[u8; 32]
        ensures bytes { result.now ≡ self.now }
        ensures len { length self.now ≡ 32 }
    {
        &self.bytes
    }
}

/// The digest of a block: SHA-256 after the byte 00.
pub fn leaf_digest(bytes: &[u8]) -> Digest
    ensures { result ≡ leaf bytes.now }
{
    let mut hasher = Sha256::new();
    hasher.update([0u8]);
    hasher.update(bytes);
    Digest {
        bytes: hasher.finalize(),
    }
}

/// The digest of two neighbours in a region's tree: SHA-256 after the byte 01.
pub fn node_digest(left: &Digest, right: &Digest) -> Digest
    ensures { result ≡ inner left.now right.now }
{
    pair_digest(1, left, right)
}

/// The digest of two neighbours in a volume's tree: SHA-256 after the byte 02.
pub fn top_digest(left: &Digest, right: &Digest) -> Digest
    ensures { result ≡ above left.now right.now }
{
    pair_digest(2, left, right)
}

fn pair_digest(tag: u8, left: &Digest, right: &Digest) -> Digest
    ensures { result ≡ sha256 (tag ∷ left.now ++ right.now) }
{
    let mut hasher = Sha256::new();
    hasher.update([tag]);
    hasher.update(left.as_bytes().as_slice());
    hasher.update(right.as_bytes().as_slice());
    Digest {
        bytes: hasher.finalize(),
    }
}
