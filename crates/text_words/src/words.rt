ghost use Rattle.std.specs.Prelude.{◌≡◌, length, map, IfOk};
ghost use Rattle.text_words.specs.Grammar.{IsWords};
ghost use Rattle.text_words.specs.Reading.{words_of};

use crate::word::place_of;
use salus_types::NoMemory;
use std::alloc::Global;

/// How many words a line has: one more than its spaces.
pub fn count_words(line: &[u8]) -> usize
    ensures { result ≡ length (words_of line.now) }
{
    let mut spaces = 0usize;
    'bytes: for byte in line {
        if *byte == b' ' {
            spaces += 1;
        }
    }
    spaces + 1
}

/// The words of a line: it is cut at each space.
pub fn split_words(alloc: Global, line: &[u8]) -> Result<Vec<&[u8]>, NoMemory>
    ensures spelled { IfOk result (λ words. IsWords line.now (map (λ word. word.now) words.items)) }
    ensures exact { IfOk result (λ words. map (λ word. word.now) words.items ≡ words_of line.now) }
{
    let mut words = Vec::with_capacity(alloc, count_words(line))?;
    let mut rest = line;
    'words: loop {
        match place_of(rest, b' ') {
            Some(end) => {
                words.push(&rest[..end])?;
                rest = &rest[end + 1..];
            }
            None => {
                words.push(rest)?;
                return Ok(words);
            }
        }
    }
}
