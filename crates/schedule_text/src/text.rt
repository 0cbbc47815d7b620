ghost use Rattle.std.specs.Prelude.{◌≡◌, Ok, Err, IfErr, IfOk};
ghost use Rattle.text_words.specs.Reading.{lines_left};
ghost use Rattle.schedule_text.specs.declared.schedule.Schedule.{Schedule};
ghost use Rattle.schedule_text.specs.declared.error.ScheduleError.{ScheduleError};
ghost use Rattle.schedule_text.specs.Grammar.{IsFirstWrong, IsSchedule};
ghost use Rattle.schedule_text.specs.Limits.{IsWithinLimits};
ghost use Rattle.salus_types.specs.Outcome.{Gives};
ghost use Rattle.schedule_text.specs.Outcome.{text_fault, RefusesText};
ghost use Rattle.schedule_text.specs.Reading.{numbered_event, events_from, schedule_of};
ghost use Rattle.schedule_text.specs.declared.error.ParseError.TheVariants as error;

use crate::error::{Cause, LineError, ParseError, ScheduleError};
use crate::order::{latest_after, next_event};
use crate::schedule::{Event, Events, Schedule};
use crate::volume::volume_of;
use salus_types::Geometry;
use std::alloc::Global;
use text_words::split_first;

/// A text has at most this many bytes.
const MOST_BYTES: usize = 67_108_864;

/// The last line that can be an event's: line 1 is the volume's, and there are at most 65,536 events.
const LAST_LINE: u64 = 65_537;

fn refused(line: u64, cause: Cause) -> ParseError
    ensures { result ≡ error.Refused (record { line = line; cause = cause }) }
{
    ParseError::Refused(ScheduleError { line, cause })
}

// The event of the line with that number.
fn numbered_event(
    alloc: Global,
    geometry: &Geometry,
    latest: u64,
    line: u64,
    words: &[u8],
) -> Result<Event, ParseError>
    ensures { Gives Ok text_fault result (numbered_event geometry.now latest line words.now) }
{
    if line > LAST_LINE {
        return Err(refused(line, Cause::Long));
    }
    match next_event(alloc, geometry, latest, words) {
        Ok(event) => Ok(event),
        Err(LineError::Wrong(cause)) => Err(refused(line, cause)),
        Err(LineError::NoMemory) => Err(ParseError::NoMemory),
    }
}

#[tactic(auto, unfolding(crate::specs::Reading::events_from))]
fn events_of(alloc: Global, geometry: &Geometry, text: &[u8]) -> Result<Events, ParseError>
    ensures { Gives Ok text_fault result (events_from geometry.now 1 2 (lines_left text.now)) }
{
    let mut events = Events::new(alloc);
    let mut latest = 1u64;
    let mut line = 2u64;
    let mut rest = text;
    while !rest.is_empty() {
        let (words, more) = split_first(rest, b'\n');
        let event = match numbered_event(alloc, geometry, latest, line, words) {
            Ok(event) => event,
            Err(error) => return Err(error),
        };
        latest = latest_after(latest, &event);
        events.push(event)?;
        line += 1;
        rest = more;
    }
    Ok(events)
}

#[tactic(auto, unfolding(crate::specs::Reading::schedule_of))]
fn schedule_of(alloc: Global, text: &[u8]) -> Result<Schedule, ParseError>
    ensures { Gives Ok text_fault result (schedule_of text.now) }
{
    if text.len() > MOST_BYTES {
        return Err(refused(0, Cause::Long));
    }
    let (first, rest) = split_first(text, b'\n');
    match volume_of(alloc, first)? {
        Some(volume) => {
            let events = events_of(alloc, &volume.geometry, rest)?;
            Ok(Schedule { volume, events })
        }
        None => Err(refused(1, Cause::Volume)),
    }
}

/// The one schedule that a text means, or the first line at which it means none, with its cause. The text's last line
/// end may be left out.
pub fn parse(alloc: Global, text: &[u8]) -> Result<Schedule, ParseError>
    // What is given is what the text means.
    ensures found { IfOk result (IsSchedule text.now) }
    // No text has two meanings.
    ensures one { IfOk result (λ schedule. (other : Schedule) → IsSchedule text.now other → other ≡ schedule) }
    // What a text means is given, unless memory runs out.
    ensures only { (schedule : Schedule) → IsSchedule text.now schedule → Gives Ok text_fault result (Ok schedule) }
    // The line that is named is the first wrong one, with its cause, and the text means nothing.
    ensures refused { IfErr result (RefusesText text.now) }
    // A text with a first wrong line is refused with that line and cause, unless memory runs out.
    ensures first { (wrong : ScheduleError) → IsFirstWrong text.now wrong → Gives Ok text_fault result (Err wrong) }
    // What is given keeps to the limits.
    ensures limits { IfOk result IsWithinLimits }
    // The same by the reading from the left.
    ensures exact { Gives Ok text_fault result (schedule_of text.now) }
{
    schedule_of(alloc, text)
}
