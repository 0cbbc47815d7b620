//! Reads that end: with their block, or with a fault.
ghost use Rattle.std.specs.Prelude.{◌≡◌, ◌++◌, ◌∷◌, [], OnOk};
ghost use Rattle.printed_lines.specs.declared.line.Line.TheVariants as line;
ghost use Rattle.open_reads.specs.Ending.{IsFaulted};
ghost use Rattle.open_reads.specs.Telling.{KeepsRoom};

use printed_lines::Line;
use salus_types::{Bytes, Items, NoMemory};
use std::alloc::Global;
use verified_read::{Question, Reads};

/// The read ends with its block.
pub fn end_read(question: &Question, bytes: Bytes, lines: &mut Vec<Line>) -> Result<(), NoMemory>
    ensures { OnOk result (lines.new.items ≡ lines.old.items ++ line.Read question.now.event question.now.block bytes ∷ []) }
{
    lines.push(Line::Read {
        event: question.event,
        block: question.block as u64,
        bytes,
    })?;
    Ok(())
}

/// Where every replica is struck, the read ends with a fault, and its question is closed. After an error it is as it was.
pub fn end_faulted(
    alloc: Global,
    reads: &mut Reads,
    question: &Question,
    lines: &mut Vec<Line>,
) -> Result<(), NoMemory>
    ensures ended { OnOk result (IsFaulted question.now reads.old.asked lines.old.items reads.new.asked lines.new.items) }
    ensures keeps { KeepsRoom reads.old.asked reads.new.asked }
    ensures shape { reads.new.shape ≡ reads.old.shape }
{
    let strikes = match reads.faulted(question.number) {
        Some(strikes) => Items::from_slice(alloc, strikes.as_slice())?,
        None => return Ok(()),
    };
    lines.push(Line::Fault {
        event: question.event,
        block: question.block as u64,
        strikes,
    })?;
    reads.close(question.number);
    Ok(())
}
