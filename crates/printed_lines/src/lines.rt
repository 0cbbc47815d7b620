ghost use Rattle.std.specs.Prelude.{◌≡◌, ◌++◌, codes, decimal, OnOk, IfOk};
ghost use Rattle.printed_lines.specs.LineText.{cause_text, words_text, line_text, text_of};

use crate::strikes::put_strikes;
use crate::{Line, Lines, RequestRefusal};
use salus_types::NoMemory;
use std::alloc::Global;
use text_words::{put, put_block, put_number};

// Writes a word and two numbers behind it.
fn put_two(out: &mut Vec<u8>, word: &[u8], first: u64, second: u64) -> Result<(), NoMemory>
    ensures { OnOk result (out.new.items ≡ out.old.items ++ word.now ++ decimal first ++ codes " " ++ decimal second) }
{
    put_number(out, word, first)?;
    put_number(out, b" ", second)
}

#[tactic(auto, unfolding(crate::specs::LineText::cause_text))]
fn put_cause(out: &mut Vec<u8>, cause: &RequestRefusal) -> Result<(), NoMemory>
    ensures { OnOk result (out.new.items ≡ out.old.items ++ cause_text cause.now) }
{
    match cause {
        RequestRefusal::Closed => put(out, b" closed"),
        RequestRefusal::Open => put(out, b" open"),
        RequestRefusal::Range { number } => put_number(out, b" range ", *number),
        RequestRefusal::Full { limit } => put_number(out, b" full ", *limit),
        RequestRefusal::Inflight {
            submitted,
            acked,
            reads,
        } => {
            put_number(out, b" inflight ", *submitted)?;
            put_two(out, b" ", *acked, *reads)
        }
    }
}

#[tactic(auto, unfolding(crate::specs::LineText::words_text))]
fn put_words(out: &mut Vec<u8>, line: &Line) -> Result<(), NoMemory>
    ensures { OnOk result (out.new.items ≡ out.old.items ++ words_text line.now) }
{
    match line {
        Line::Submit { event, seq } => put_two(out, b"submit ", *event, *seq),
        Line::Ack { seq } => put_number(out, b"ack ", *seq),
        Line::Read {
            event,
            block,
            bytes,
        } => {
            put_two(out, b"read ", *event, *block)?;
            put(out, b" ")?;
            put_block(out, bytes.as_slice())
        }
        Line::Fault {
            event,
            block,
            strikes,
        } => {
            put_two(out, b"fault ", *event, *block)?;
            put_strikes(out, strikes.as_slice())
        }
        Line::Barrier { event, seq } => put_two(out, b"barrier ", *event, *seq),
        Line::Refused { event, cause } => {
            put_number(out, b"refused ", *event)?;
            put_cause(out, cause)
        }
        Line::Skip { event, message } => put_two(out, b"skip ", *event, *message),
        Line::Stage { session, from, seq } => {
            put_number(out, b"stage ", *session)?;
            put_two(out, b" from ", *from, *seq)
        }
        Line::Open { session } => put_number(out, b"open ", *session),
        Line::Lost { session } => put_number(out, b"lost ", *session),
    }
}

/// Writes the line with its end behind what `out` holds. After an error `out` is used no more: it may hold a part of the line.
#[tactic(auto, unfolding(crate::specs::LineText::line_text))]
pub fn write_line(line: &Line, out: &mut Vec<u8>) -> Result<(), NoMemory>
    ensures { OnOk result (out.new.items ≡ out.old.items ++ line_text line.now) }
{
    put_words(out, line)?;
    put(out, b"\n")
}

/// Writes the lines in order behind what `out` holds. After an error `out` is used no more: it may hold a part of the text.
pub fn write_lines(lines: &Lines, out: &mut Vec<u8>) -> Result<(), NoMemory>
    ensures { OnOk result (out.new.items ≡ out.old.items ++ text_of lines.now) }
{
    'lines: for line in lines.as_slice() {
        write_line(line, out)?;
    }
    Ok(())
}

/// The text of the lines, in one buffer.
pub fn text_of_lines(alloc: Global, lines: &Lines) -> Result<Vec<u8>, NoMemory>
    ensures { IfOk result (λ text. text.items ≡ text_of lines.now) }
{
    let mut text = Vec::new(alloc);
    write_lines(lines, &mut text)?;
    Ok(text)
}
