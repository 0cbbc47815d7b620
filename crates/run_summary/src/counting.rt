ghost use Rattle.std.specs.Prelude.{◌≡◌, ◌++◌, ◌≤◌, ◌<◌, ◌^◌, length, IfOk, OnOk};
ghost use Rattle.std.specs.List.{flat_map};
ghost use Rattle.run_summary.specs.Counting.{is_of, count_of, kind_word, count_line, summary_text};

use printed_lines::{Line, Lines};
use salus_types::NoMemory;
use std::alloc::Global;
use text_words::{put, put_number};

/// The kinds of lines that are counted.
#[derive(Clone, Copy, PartialEq, Eq, Debug, Drop)]
pub enum LineKind {
    Submit,
    Ack,
    Read,
    Fault,
    Barrier,
    Refused,
}

const EACH_KIND: [LineKind; 6] = [
    LineKind::Submit,
    LineKind::Ack,
    LineKind::Read,
    LineKind::Fault,
    LineKind::Barrier,
    LineKind::Refused,
];

fn is_of(kind: LineKind, line: &Line) -> bool
    ensures { result ≡ is_of kind line.now }
{
    match kind {
        LineKind::Submit => matches!(line, Line::Submit { .. }),
        LineKind::Ack => matches!(line, Line::Ack { .. }),
        LineKind::Read => matches!(line, Line::Read { .. }),
        LineKind::Fault => matches!(line, Line::Fault { .. }),
        LineKind::Barrier => matches!(line, Line::Barrier { .. }),
        LineKind::Refused => matches!(line, Line::Refused { .. }),
    }
}

/// How many lines are of that kind.
#[tactic(auto, unfolding(crate::specs::Counting::count_of))]
pub fn count_of(kind: LineKind, lines: &Lines) -> usize
    ensures { result ≡ count_of kind lines.now }
{
    let mut count = 0;
    'lines: for line in lines.as_slice() {
        if is_of(kind, line) {
            count += 1;
        }
    }
    count
}

fn kind_word(kind: LineKind) -> &'static [u8]
    ensures { result.now ≡ kind_word kind }
{
    match kind {
        LineKind::Submit => b"submit ".as_slice(),
        LineKind::Ack => b"ack ".as_slice(),
        LineKind::Read => b"read ".as_slice(),
        LineKind::Fault => b"fault ".as_slice(),
        LineKind::Barrier => b"barrier ".as_slice(),
        LineKind::Refused => b"refused ".as_slice(),
    }
}

fn put_count(out: &mut Vec<u8>, word: &[u8], count: u64) -> Result<(), NoMemory>
    ensures { OnOk result (out.new.items ≡ out.old.items ++ count_line word.now count) }
{
    put_number(out, word, count)?;
    put(out, b"\n")
}

// One line for each of the kinds.
fn put_counts(out: &mut Vec<u8>, kinds: &[LineKind], lines: &Lines) -> Result<(), NoMemory>
    ensures { OnOk result (out.new.items ≡ out.old.items ++ flat_map (λ kind. count_line (kind_word kind) (count_of kind lines.now)) kinds.now) }
{
    'kinds: for kind in kinds {
        put_count(out, kind_word(*kind), count_of(*kind, lines) as u64)?;
    }
    Ok(())
}

/// The summary of a run of so many events that printed these lines: seven lines, each a word and a number.
pub fn summary_of(alloc: Global, events: usize, lines: &Lines) -> Result<Vec<u8>, NoMemory>
    ensures { IfOk result (λ text. text.items ≡ summary_text events lines.now) }
{
    let mut text = Vec::new(alloc);
    put_count(&mut text, b"events ", events as u64)?;
    put_counts(&mut text, &EACH_KIND, lines)?;
    Ok(text)
}
