ghost use Rattle.std.specs.Prelude.{◌≡◌, map, Ok};
ghost use Rattle.salus_types.specs.Outcome.{Gives};
ghost use Rattle.schedule_text.specs.Outcome.{line_fault};
ghost use Rattle.schedule_text.specs.Reading.{pair_of, writes_of, write_of};

use crate::error::{Cause, LineError};
use crate::schedule::Event;
use crate::single::{block_word, number_word};
use salus_types::{Batch, Write};
use std::alloc::Global;

fn pair_of(alloc: Global, size: u32, number: &[u8], block: &[u8]) -> Result<Write, LineError>
    ensures { Gives Ok line_fault result (pair_of size number.now block.now) }
{
    let number = number_word(number)?;
    let bytes = block_word(alloc, size, block)?;
    Ok(Write {
        block: number,
        bytes,
    })
}

// Pairs of a block's number and its bytes.
#[tactic(auto, unfolding(crate::specs::Reading::writes_of))]
fn writes_of(alloc: Global, size: u32, words: &[&[u8]]) -> Result<Batch, LineError>
    ensures { Gives Ok line_fault result (writes_of size (map (λ word. word.now) words.now)) }
{
    let mut writes = Batch::new(alloc);
    let mut rest = words;
    while let [number, block, more @ ..] = rest {
        writes.push(pair_of(alloc, size, number, block)?)?;
        rest = more;
    }
    if rest.is_empty() {
        Ok(writes)
    } else {
        Err(LineError::Wrong(Cause::Word))
    }
}

/// A write of 1 to 64 blocks, by the words behind `write`.
#[tactic(auto, unfolding(crate::specs::Reading::write_of))]
pub fn write_of(alloc: Global, size: u32, words: &[&[u8]]) -> Result<Event, LineError>
    ensures { Gives Ok line_fault result (write_of size (map (λ word. word.now) words.now)) }
{
    if words.len() > 128 {
        return Err(LineError::Wrong(Cause::Long));
    }
    if words.is_empty() {
        return Err(LineError::Wrong(Cause::Empty));
    }
    if words.len() % 2 == 1 {
        return Err(LineError::Wrong(Cause::Word));
    }
    let batch = writes_of(alloc, size, words)?;
    Ok(Event::Write { batch })
}
