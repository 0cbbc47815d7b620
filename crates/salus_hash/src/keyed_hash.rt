//! HMAC with SHA-256: RFC 2104, for keys of at most 64 bytes.
ghost use Rattle.std.specs.Prelude.{◌≡◌, ◌≤◌, ℕ, ◌-◌, List, ◌++◌, length, map, replicate, bit_xor};
ghost use Rattle.sha2.specs.Sha256.{sha256};
ghost use Rattle.sha2.specs.Hashers.{Holds256};
ghost use Rattle.salus_hash.specs.Hmac.{hmac};

use crate::Digest;
use sha2::{Digest as _, Sha256};
use std::marker::Model;

/// A key of at most 64 bytes, ready for many texts: its two padded blocks are hashed once, so a text costs two
/// compressions less than by `hmac`.
#[derive(Drop)]
pub struct HmacKey {
    key: [u8; 64],
    len: usize,
    /// SHA-256 after the padded key, each byte xor 36.
    inner: Sha256,
    /// SHA-256 after the padded key, each byte xor 5c.
    outer: Sha256,
}

/// A clause sees the bytes of the key.
impl Model for HmacKey {
    ghost use Rattle.std.specs.Prelude.{ℕ, List, ◌≤◌, take};
    ghost use Rattle.sha2.specs.Hashers.{Holds256};
    ghost use Rattle.salus_hash.specs.Hmac.{keyed};

    ghost Value = { List ℕ };

    ghost view = { λ k. take k.len k.key };

    ghost invariant = { λ k. (k.len ≤ 64) × (Holds256 k.inner (keyed 0x36 (take k.len k.key)) × Holds256 k.outer (keyed 0x5c (take k.len k.key))) };
}

impl HmacKey {
    pub fn new(key: &[u8]) -> HmacKey
        requires { length key.now ≤ 64 }
        ensures { result ≡ key.now }
    {
        let padded = padded(key);
        HmacKey {
            key: padded,
            len: key.len(),
            inner: Sha256::new_with_prefix(xored(&padded, 0x36)),
            outer: Sha256::new_with_prefix(xored(&padded, 0x5c)),
        }
    }

    /// The HMAC of the text under this key.
    pub fn hmac(&self, text: &[u8]) -> Digest
        ensures { result ≡ hmac self.now text.now }
    {
        let inner = digest_after(&self.inner, text);
        Digest::from_bytes(digest_after(&self.outer, inner.as_slice()))
    }
}

/// The HMAC of the text under the key.
pub fn hmac(key: &[u8], text: &[u8]) -> Digest
    requires { length key.now ≤ 64 }
    ensures { result ≡ hmac key.now text.now }
{
    HmacKey::new(key).hmac(text)
}

/// The digest of what the hasher holds, and then the text. The hasher stays as it is: its copy takes no memory.
fn digest_after(hasher: &Sha256, text: &[u8]) -> [u8; 32]
    ensures { (front : List ℕ) → Holds256 hasher.now front → result ≡ sha256 (front ++ text.now) }
{
    let mut copy = hasher.clone().unwrap();
    copy.update(text);
    copy.finalize()
}

/// The key with zero bytes up to a block.
fn padded(key: &[u8]) -> [u8; 64]
    requires { length key.now ≤ 64 }
    ensures { result ≡ key.now ++ replicate (64 - length key.now) 0 }
{
    let mut block = [0u8; 64];
    block[..key.len()].copy_from_slice(key);
    block
}

fn xored(block: &[u8; 64], pad: u8) -> [u8; 64]
    ensures { result ≡ map (λ byte. bit_xor byte pad) block.now }
{
    let mut out = *block;
    'bytes: for byte in &mut out {
        *byte ^= pad;
    }
    out
}
