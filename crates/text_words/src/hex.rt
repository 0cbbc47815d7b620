ghost use Rattle.std.specs.Prelude.{◌≡◌, ◌<◌, ◌++◌, ◌==◌, length, OnOk, IsTrue};
ghost use Rattle.std.specs.List.{list_all};
ghost use Rattle.text_words.specs.Writing.{hex_digit, pair_text, hex_text, is_uniform, block_text};

use crate::writer::put;
use salus_types::NoMemory;

const DIGITS: &[u8; 16] = b"0123456789abcdef";

fn digit(value: u8) -> u8
    requires { value < 16 }
    ensures { result ≡ hex_digit value }
{
    DIGITS[value as usize]
}

/// A byte as two digits in lower case.
pub fn pair(byte: u8) -> [u8; 2]
    ensures { result ≡ pair_text byte }
{
    [digit(byte / 16), digit(byte % 16)]
}

/// Writes bytes as hex in lower case.
#[tactic(auto, unfolding(crate::specs::Writing::hex_text))]
pub fn put_hex(out: &mut Vec<u8>, bytes: &[u8]) -> Result<(), NoMemory>
    ensures { OnOk result (out.new.items ≡ out.old.items ++ hex_text bytes.now) }
{
    'bytes: for byte in bytes {
        out.extend_from_slice(&pair(*byte))?;
    }
    Ok(())
}

fn are_all(bytes: &[u8], first: u8) -> bool
    ensures { result ≡ list_all (λ byte. byte == first) bytes.now }
{
    bytes.iter().all(|byte| *byte == first)
}

fn uniform(bytes: &[u8]) -> bool
    ensures test { result ≡ is_uniform bytes.now }
    ensures filled { IsTrue result → 0 < length bytes.now }
{
    !bytes.is_empty() && are_all(bytes, bytes[0])
}

/// Writes a block: `*` and a pair where all its bytes are equal, else its hex.
#[tactic(auto, unfolding(crate::specs::Writing::block_text))]
pub fn put_block(out: &mut Vec<u8>, bytes: &[u8]) -> Result<(), NoMemory>
    ensures { OnOk result (out.new.items ≡ out.old.items ++ block_text bytes.now) }
{
    if uniform(bytes) {
        put(out, b"*")?;
        put(out, &pair(bytes[0]))
    } else {
        put_hex(out, bytes)
    }
}
