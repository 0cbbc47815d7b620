ghost use Rattle.std.specs.Prelude.{◌≡◌, ◌<◌, IfOk, IfSome, is_some};
ghost use Rattle.text_words.specs.Reading.{hex_digit, pair_of, pairs_of, hex_of, is_hex, byte_of, filled, sized, block_of, lie_bytes_of, key_of};

use salus_types::{Bytes, NoMemory};
use std::alloc::Global;

fn hex_digit(c: u8) -> Option<u8>
    ensures value { result ≡ hex_digit c }
    ensures small { IfSome result (λ digit. digit < 16) }
{
    match c {
        b'0'..=b'9' => Some(c - b'0'),
        b'a'..=b'f' => Some(c - b'a' + 10),
        b'A'..=b'F' => Some(c - b'A' + 10),
        _ => None,
    }
}

#[tactic(auto, unfolding(crate::specs::Reading::pair_of))]
fn pair_of(high: u8, low: u8) -> Option<u8>
    ensures { result ≡ pair_of high low }
{
    let high = hex_digit(high)?;
    let low = hex_digit(low)?;
    Some(high * 16 + low)
}

#[tactic(auto, unfolding(crate::specs::Reading::pairs_of))]
fn pairs_of(alloc: Global, word: &[u8]) -> Result<Option<Bytes>, NoMemory>
    ensures { IfOk result (λ bytes. bytes ≡ pairs_of word.now) }
{
    let mut bytes = Vec::with_capacity(alloc, word.len() / 2)?;
    let mut rest = word;
    while let [high, low, more @ ..] = rest {
        match pair_of(*high, *low) {
            Some(byte) => bytes.push(byte)?,
            None => return Ok(None),
        }
        rest = more;
    }
    Ok(if rest.is_empty() {
        Some(Bytes::from_vec(bytes))
    } else {
        None
    })
}

#[tactic(auto, unfolding(crate::specs::Reading::hex_of))]
fn read_hex(alloc: Global, word: &[u8]) -> Result<Option<Bytes>, NoMemory>
    ensures { IfOk result (λ bytes. bytes ≡ hex_of word.now) }
{
    if word.is_empty() {
        Ok(None)
    } else {
        pairs_of(alloc, word)
    }
}

#[tactic(auto, unfolding(crate::specs::Reading::pairs_of))]
fn are_pairs(word: &[u8]) -> bool
    ensures { result ≡ is_some (pairs_of word.now) }
{
    let mut rest = word;
    while let [high, low, more @ ..] = rest {
        match pair_of(*high, *low) {
            Some(_) => rest = more,
            None => return false,
        }
    }
    rest.is_empty()
}

#[tactic(auto, unfolding(crate::specs::Reading::hex_of))]
pub fn reads_as_hex(word: &[u8]) -> bool
    ensures { result ≡ is_hex word.now }
{
    !word.is_empty() && are_pairs(word)
}

pub fn read_byte(word: &[u8]) -> Option<u8>
    ensures { result ≡ byte_of word.now }
{
    match word {
        [high, low] => pair_of(*high, *low),
        _ => None,
    }
}

fn filled(alloc: Global, size: u32, byte: Option<u8>) -> Result<Option<Bytes>, NoMemory>
    ensures { IfOk result (λ bytes. bytes ≡ filled size byte) }
{
    match byte {
        Some(b) => Ok(Some(Bytes::from_vec(vec![in alloc; b; size as usize]?))),
        None => Ok(None),
    }
}

fn sized(alloc: Global, size: u32, word: &[u8]) -> Result<Option<Bytes>, NoMemory>
    ensures { IfOk result (λ bytes. bytes ≡ sized size word.now) }
{
    if word.len() == 2 * size as usize {
        read_hex(alloc, word)
    } else {
        Ok(None)
    }
}

#[tactic(auto, unfolding(crate::specs::Reading::block_of))]
pub fn read_block(alloc: Global, size: u32, word: &[u8]) -> Result<Option<Bytes>, NoMemory>
    ensures { IfOk result (λ bytes. bytes ≡ block_of size word.now) }
{
    match word.strip_prefix(b"*".as_slice()) {
        Some(pair) => filled(alloc, size, read_byte(pair)),
        None => sized(alloc, size, word),
    }
}

#[tactic(auto, unfolding(crate::specs::Reading::lie_bytes_of))]
pub fn read_lie_bytes(alloc: Global, word: &[u8]) -> Result<Option<Bytes>, NoMemory>
    ensures { IfOk result (λ bytes. bytes ≡ lie_bytes_of word.now) }
{
    if word == b"-".as_slice() {
        Ok(Some(Bytes::new(alloc)))
    } else {
        read_hex(alloc, word)
    }
}

pub fn read_key(alloc: Global, word: &[u8]) -> Result<Option<Bytes>, NoMemory>
    ensures { IfOk result (λ key. key ≡ key_of word.now) }
{
    if word.len() <= 128 {
        read_hex(alloc, word)
    } else {
        Ok(None)
    }
}
