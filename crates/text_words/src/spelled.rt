ghost use Rattle.std.specs.Prelude.{◌≡◌, ◌↔◌, ℕ, List, Some, IfOk, IfSome, IsTrue};
ghost use Rattle.text_words.specs.Grammar.{IsNumber, IsByte, IsHex, IsBlock, IsLieBytes, IsKey};
ghost use Rattle.text_words.specs.Reading.{number_of, byte_of, is_hex, block_of, lie_bytes_of, key_of};

use crate::bytes::{read_block, read_byte, read_key, read_lie_bytes, reads_as_hex};
use crate::number::read_number;
use salus_types::{Bytes, NoMemory};
use std::alloc::Global;

/// The number that a decimal word stands for: at most 2^64 - 1, with no sign and no leading zero.
pub fn number_of(word: &[u8]) -> Option<u64>
    // What is given is what the word spells.
    ensures found { IfSome result (IsNumber word.now) }
    // What the word spells is given.
    ensures only { (number : ℕ) → IsNumber word.now number → result ≡ Some number }
    // The same by the reading from the left.
    ensures exact { result ≡ number_of word.now }
{
    read_number(word)
}

/// The byte of a word of one pair of hexadecimal digits and no more.
pub fn byte_of(word: &[u8]) -> Option<u8>
    ensures found { IfSome result (IsByte word.now) }
    ensures only { (byte : ℕ) → IsByte word.now byte → result ≡ Some byte }
    ensures exact { result ≡ byte_of word.now }
{
    read_byte(word)
}

/// Whether a word is one or more pairs of hexadecimal digits, of either case.
pub fn is_hex(word: &[u8]) -> bool
    ensures spelled { IsTrue result ↔ ((bytes : List ℕ) × IsHex word.now bytes) }
    ensures exact { result ≡ is_hex word.now }
{
    reads_as_hex(word)
}

/// A block of `size` bytes: its bytes in hex, or `*` and the one byte that all of them are.
pub fn block_of(alloc: Global, size: u32, word: &[u8]) -> Result<Option<Bytes>, NoMemory>
    ensures found { IfOk result (λ block. IfSome block (IsBlock size word.now)) }
    ensures only { IfOk result (λ block. (bytes : List ℕ) → IsBlock size word.now bytes → block ≡ Some bytes) }
    ensures exact { IfOk result (λ block. block ≡ block_of size word.now) }
{
    read_block(alloc, size, word)
}

/// The bytes of a lie: in hex, or `-` for none.
pub fn lie_bytes_of(alloc: Global, word: &[u8]) -> Result<Option<Bytes>, NoMemory>
    ensures found { IfOk result (λ told. IfSome told (IsLieBytes word.now)) }
    ensures only { IfOk result (λ told. (bytes : List ℕ) → IsLieBytes word.now bytes → told ≡ Some bytes) }
    ensures exact { IfOk result (λ told. told ≡ lie_bytes_of word.now) }
{
    read_lie_bytes(alloc, word)
}

/// A key of 1 to 64 bytes in hex.
pub fn key_of(alloc: Global, word: &[u8]) -> Result<Option<Bytes>, NoMemory>
    ensures found { IfOk result (λ key. IfSome key (IsKey word.now)) }
    ensures only { IfOk result (λ key. (bytes : List ℕ) → IsKey word.now bytes → key ≡ Some bytes) }
    ensures exact { IfOk result (λ key. key ≡ key_of word.now) }
{
    read_key(alloc, word)
}
