ghost use Rattle.std.specs.Prelude.{◌≡◌, map, Ok};
ghost use Rattle.salus_types.specs.Outcome.{Gives};
ghost use Rattle.schedule_text.specs.Outcome.{line_fault};
ghost use Rattle.schedule_text.specs.Reading.{known_event, words_event, excess_cause, line_event};

use crate::error::{Cause, LineError};
use crate::event::event_of;
use crate::keyword::keyword_of;
use crate::schedule::Event;
use salus_types::Geometry;
use std::alloc::Global;
use text_words::{count_words, split_first, split_words};

/// No event has more words.
const MOST_WORDS: usize = 129;

fn excess_cause(line: &[u8]) -> Cause
    ensures { result ≡ excess_cause line.now }
{
    let (first, _) = split_first(line, b' ');
    if first == b"write".as_slice() {
        Cause::Long
    } else {
        Cause::Word
    }
}

fn words_event(alloc: Global, geometry: &Geometry, words: &[&[u8]]) -> Result<Event, LineError>
    ensures { Gives Ok line_fault result (words_event geometry.now (map (λ word. word.now) words.now)) }
{
    match words {
        [first, rest @ ..] => match keyword_of(first) {
            Some(keyword) => event_of(alloc, geometry, keyword, rest),
            None => Err(LineError::Wrong(Cause::Word)),
        },
        [] => Err(LineError::Wrong(Cause::Word)),
    }
}

/// The event of a line.
#[tactic(auto, unfolding(crate::specs::Reading::line_event))]
pub fn line_event(alloc: Global, geometry: &Geometry, line: &[u8]) -> Result<Event, LineError>
    ensures { Gives Ok line_fault result (line_event geometry.now line.now) }
{
    if count_words(line) > MOST_WORDS {
        return Err(LineError::Wrong(excess_cause(line)));
    }
    let words = split_words(alloc, line)?;
    words_event(alloc, geometry, words.as_slice())
}
