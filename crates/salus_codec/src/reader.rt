ghost use Rattle.std.specs.Prelude.{◌≡◌, ℕ, ◌<◌, ◌^◌, ◌++◌, ◌↔◌, List, length, Ok, Err, IfOk, IsErr, OnErr, MatchResult};
ghost use Rattle.byteorder.specs.Endian.{big_number};
ghost use Rattle.salus_codec.specs.Spelling.{IsBytes, be1, be2, be4, be8};
ghost use Rattle.salus_codec.specs.Reading.{bytes_at, u8_at, u16_at, u32_at, u64_at};

use crate::errors::{FieldError, Short};
use byteorder::{BigEndian, ByteOrder};
use std::marker::Model;

#[tactic(auto, unfolding(crate::specs::Spelling::be2))]
fn number_2(bytes: &[u8]) -> u16
    requires { length bytes.now ≡ 2 }
    ensures number { result ≡ big_number 2 bytes.now }
    ensures same { be2 result ≡ bytes.now }
{
    BigEndian::read_u16(bytes)
}

#[tactic(auto, unfolding(crate::specs::Spelling::be4))]
fn number_4(bytes: &[u8]) -> u32
    requires { length bytes.now ≡ 4 }
    ensures number { result ≡ big_number 4 bytes.now }
    ensures same { be4 result ≡ bytes.now }
{
    BigEndian::read_u32(bytes)
}

#[tactic(auto, unfolding(crate::specs::Spelling::be8))]
fn number_8(bytes: &[u8]) -> u64
    requires { length bytes.now ≡ 8 }
    ensures number { result ≡ big_number 8 bytes.now }
    ensures same { be8 result ≡ bytes.now }
{
    BigEndian::read_u64(bytes)
}

/// The bytes that are still to be read.
#[derive(Drop)]
pub struct Fields<'a> {
    left: &'a [u8],
}

impl<'a> Model for Fields<'a> {
    ghost use Rattle.std.specs.Prelude.{List, ℕ};
    ghost use Rattle.salus_codec.specs.Spelling.{IsBytes};

    ghost Value = { List ℕ };

    ghost view = { λ f. f.left.now };

    ghost invariant = { λ f. IsBytes f.left.now };
}

impl<'a> Fields<'a> {
    pub fn new(bytes: &'a [u8]) -> Fields<'a>
        ensures { result ≡ bytes.entry.now }
    {
        Fields { left: bytes }
    }

    /// How many bytes remain.
    pub fn rest(&self) -> usize
        ensures count { result ≡ length self.now }
        ensures fits { IsBytes self.now }
    {
        self.left.len()
    }

    /// The next `count` bytes.
    #[tactic(auto, unfolding(crate::specs::Reading::bytes_at))]
    pub fn bytes(&mut self, count: usize) -> Result<&'a [u8], Short>
        ensures ok { IfOk result (λ x. self.old ≡ x.now ++ self.new) }
        ensures len { IfOk result (λ x. length x.now ≡ count) }
        ensures short { IsErr result ↔ (length self.old < count) }
        ensures err { OnErr result (self.new ≡ self.old) }
        ensures reading { MatchResult result (λ x. bytes_at count self.old ≡ Ok (x.now, self.new)) (λ _. bytes_at count self.old ≡ Err FieldError.Short) }
        ensures fits { IsBytes self.old }
    {
        if self.left.len() < count {
            return Err(Short);
        }
        let (head, left) = self.left.split_at(count);
        self.left = left;
        Ok(head)
    }

    /// The next byte.
    #[tactic(auto, unfolding(crate::specs::Reading::u8_at, crate::specs::Spelling::be1))]
    pub fn u8(&mut self) -> Result<u8, Short>
        ensures ok { IfOk result (λ x. self.old ≡ be1 x ++ self.new) }
        ensures again { (n : ℕ) (after : List ℕ) → n < 2 ^ 8 → self.old ≡ be1 n ++ after → IfOk result (λ x. (x ≡ n) × (self.new ≡ after)) }
        ensures short { IsErr result ↔ (length self.old < 1) }
        ensures err { OnErr result (self.new ≡ self.old) }
        ensures reading { MatchResult result (λ x. u8_at self.old ≡ Ok (x, self.new)) (λ _. u8_at self.old ≡ Err FieldError.Short) }
        ensures fits { IsBytes self.old }
    {
        let head = self.bytes(1)?;
        Ok(head[0])
    }

    /// The number in the next two bytes.
    #[tactic(auto, unfolding(crate::specs::Reading::u16_at))]
    pub fn u16(&mut self) -> Result<u16, Short>
        ensures ok { IfOk result (λ x. self.old ≡ be2 x ++ self.new) }
        ensures again { (n : ℕ) (after : List ℕ) → n < 2 ^ 16 → self.old ≡ be2 n ++ after → IfOk result (λ x. (x ≡ n) × (self.new ≡ after)) }
        ensures short { IsErr result ↔ (length self.old < 2) }
        ensures err { OnErr result (self.new ≡ self.old) }
        ensures reading { MatchResult result (λ x. u16_at self.old ≡ Ok (x, self.new)) (λ _. u16_at self.old ≡ Err FieldError.Short) }
        ensures fits { IsBytes self.old }
    {
        let head = self.bytes(2)?;
        Ok(number_2(head))
    }

    /// The number in the next four bytes.
    #[tactic(auto, unfolding(crate::specs::Reading::u32_at))]
    pub fn u32(&mut self) -> Result<u32, Short>
        ensures ok { IfOk result (λ x. self.old ≡ be4 x ++ self.new) }
        ensures again { (n : ℕ) (after : List ℕ) → n < 2 ^ 32 → self.old ≡ be4 n ++ after → IfOk result (λ x. (x ≡ n) × (self.new ≡ after)) }
        ensures short { IsErr result ↔ (length self.old < 4) }
        ensures err { OnErr result (self.new ≡ self.old) }
        ensures reading { MatchResult result (λ x. u32_at self.old ≡ Ok (x, self.new)) (λ _. u32_at self.old ≡ Err FieldError.Short) }
        ensures fits { IsBytes self.old }
    {
        let head = self.bytes(4)?;
        Ok(number_4(head))
    }

    /// The number in the next eight bytes.
    #[tactic(auto, unfolding(crate::specs::Reading::u64_at))]
    pub fn u64(&mut self) -> Result<u64, Short>
        ensures ok { IfOk result (λ x. self.old ≡ be8 x ++ self.new) }
        ensures again { (n : ℕ) (after : List ℕ) → n < 2 ^ 64 → self.old ≡ be8 n ++ after → IfOk result (λ x. (x ≡ n) × (self.new ≡ after)) }
        ensures short { IsErr result ↔ (length self.old < 8) }
        ensures err { OnErr result (self.new ≡ self.old) }
        ensures reading { MatchResult result (λ x. u64_at self.old ≡ Ok (x, self.new)) (λ _. u64_at self.old ≡ Err FieldError.Short) }
        ensures fits { IsBytes self.old }
    {
        let head = self.bytes(8)?;
        Ok(number_8(head))
    }

    /// The next 32 bytes.
    pub fn array32(&mut self) -> Result<[u8; 32], Short>
        ensures ok { IfOk result (λ x. self.old ≡ x ++ self.new) }
        ensures short { IsErr result ↔ (length self.old < 32) }
        ensures err { OnErr result (self.new ≡ self.old) }
        ensures reading { MatchResult result (λ x. bytes_at 32 self.old ≡ Ok (x, self.new)) (λ _. bytes_at 32 self.old ≡ Err FieldError.Short) }
        ensures fits { IsBytes self.old }
    {
        let head = self.bytes(32)?;
        let mut array = [0u8; 32];
        array.copy_from_slice(head);
        Ok(array)
    }
}
