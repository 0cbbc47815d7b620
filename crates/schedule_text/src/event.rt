ghost use Rattle.std.specs.Prelude.{◌≡◌, map, Ok};
ghost use Rattle.salus_types.specs.Outcome.{Gives};
ghost use Rattle.schedule_text.specs.Outcome.{line_fault};
ghost use Rattle.schedule_text.specs.Reading.{bare, one_number, replace_of, tick_of, fail_of, reassign_of, lie_of, crash_of, stop_of, event_of, after};
ghost use Rattle.schedule_text.specs.declared.schedule.Event.TheVariants as event;

use crate::batch::write_of;
use crate::error::{Cause, LineError};
use crate::keyword::Keyword;
use crate::schedule::Event;
use crate::single::{bytes_word, count_word, fill_word, node_word, number_word, party_word};
use salus_types::Geometry;
use std::alloc::Global;

fn bare(event: Event, words: &[&[u8]]) -> Result<Event, Cause>
    ensures { result ≡ bare event (map (λ word. word.now) words.now) }
{
    if words.is_empty() {
        Ok(event)
    } else {
        Err(Cause::Word)
    }
}

fn one_number(words: &[&[u8]]) -> Result<u64, Cause>
    ensures { result ≡ one_number (map (λ word. word.now) words.now) }
{
    match words {
        [word] => number_word(word),
        _ => Err(Cause::Word),
    }
}

fn replace_of(geometry: &Geometry, words: &[&[u8]]) -> Result<Event, Cause>
    ensures { result ≡ replace_of geometry.now (map (λ word. word.now) words.now) }
{
    match words {
        [node] => {
            let node = node_word(geometry, node)?;
            Ok(Event::Replace { node })
        }
        _ => Err(Cause::Word),
    }
}

fn tick_of(geometry: &Geometry, words: &[&[u8]]) -> Result<Event, Cause>
    ensures { result ≡ tick_of geometry.now (map (λ word. word.now) words.now) }
{
    match words {
        [party] => {
            let party = party_word(geometry, party)?;
            Ok(Event::Tick { party })
        }
        _ => Err(Cause::Word),
    }
}

fn fail_of(geometry: &Geometry, words: &[&[u8]]) -> Result<Event, Cause>
    ensures { result ≡ fail_of geometry.now (map (λ word. word.now) words.now) }
{
    match words {
        [node, call] => {
            let node = node_word(geometry, node)?;
            let call = count_word(call)?;
            Ok(Event::Fail { node, call })
        }
        _ => Err(Cause::Word),
    }
}

fn reassign_of(words: &[&[u8]]) -> Result<Event, Cause>
    ensures { result ≡ reassign_of (map (λ word. word.now) words.now) }
{
    match words {
        [session, region] => {
            let session = number_word(session)?;
            let region = number_word(region)?;
            Ok(Event::Reassign { session, region })
        }
        _ => Err(Cause::Word),
    }
}

fn crash_of(geometry: &Geometry, words: &[&[u8]]) -> Result<Event, Cause>
    ensures { result ≡ crash_of geometry.now (map (λ word. word.now) words.now) }
{
    match words {
        [node, keep, fill] => {
            let node = node_word(geometry, node)?;
            let keep = number_word(keep)?;
            let fill = fill_word(fill)?;
            Ok(Event::Crash { node, keep, fill })
        }
        _ => Err(Cause::Word),
    }
}

fn stop_of(words: &[&[u8]]) -> Result<Event, Cause>
    ensures { result ≡ stop_of (map (λ word. word.now) words.now) }
{
    match words {
        [message, calls, keep, fill] => {
            let message = number_word(message)?;
            let calls = number_word(calls)?;
            let keep = number_word(keep)?;
            let fill = fill_word(fill)?;
            Ok(Event::Stop {
                message,
                calls,
                keep,
                fill,
            })
        }
        _ => Err(Cause::Word),
    }
}

fn lie_of(alloc: Global, geometry: &Geometry, words: &[&[u8]]) -> Result<Event, LineError>
    ensures { Gives Ok line_fault result (lie_of geometry.now (map (λ word. word.now) words.now)) }
{
    match words {
        [from, to, bytes] => {
            let from = party_word(geometry, from)?;
            let to = party_word(geometry, to)?;
            let bytes = bytes_word(alloc, bytes)?;
            Ok(Event::Lie { from, to, bytes })
        }
        _ => Err(LineError::Wrong(Cause::Word)),
    }
}

/// The event of a first word, by the words behind it.
#[tactic(auto, unfolding(crate::specs::Reading::event_of))]
pub fn event_of(
    alloc: Global,
    geometry: &Geometry,
    first: Keyword,
    words: &[&[u8]],
) -> Result<Event, LineError>
    ensures { Gives Ok line_fault result (event_of geometry.now first (map (λ word. word.now) words.now)) }
{
    let event = match first {
        Keyword::Write => return write_of(alloc, geometry.block_size(), words),
        Keyword::Lie => return lie_of(alloc, geometry, words),
        Keyword::Read => Event::Read {
            block: one_number(words)?,
        },
        Keyword::Deliver => Event::Deliver {
            message: one_number(words)?,
        },
        Keyword::Settle => Event::Settle {
            count: one_number(words)?,
        },
        Keyword::Drop => Event::Drop {
            message: one_number(words)?,
        },
        Keyword::Restart => Event::Restart {
            session: one_number(words)?,
        },
        Keyword::Barrier => bare(Event::Barrier, words)?,
        Keyword::ClientCrash => bare(Event::ClientCrash, words)?,
        Keyword::Stop => stop_of(words)?,
        Keyword::Crash => crash_of(geometry, words)?,
        Keyword::Fail => fail_of(geometry, words)?,
        Keyword::Replace => replace_of(geometry, words)?,
        Keyword::Reassign => reassign_of(words)?,
        Keyword::Tick => tick_of(geometry, words)?,
    };
    Ok(event)
}
