ghost use Rattle.std.specs.Prelude.{◌≡◌, Ok};
ghost use Rattle.schedule_text.specs.Grammar.{session_of};
ghost use Rattle.salus_types.specs.Outcome.{Gives};
ghost use Rattle.schedule_text.specs.Outcome.{line_fault};
ghost use Rattle.schedule_text.specs.Reading.{is_above, latest_after, next_event};

use crate::error::{Cause, LineError};
use crate::line::line_event;
use crate::schedule::Event;
use salus_types::Geometry;
use std::alloc::Global;

fn session_of(event: &Event) -> Option<u64>
    ensures { result ≡ session_of event.now }
{
    match event {
        Event::Restart { session } => Some(*session),
        Event::Reassign { session, .. } => Some(*session),
        _ => None,
    }
}

fn is_above(latest: u64, session: Option<u64>) -> bool
    ensures { result ≡ is_above latest session }
{
    match session {
        Some(session) => latest < session,
        None => true,
    }
}

/// The latest session that is asked for, from this event on.
pub fn latest_after(latest: u64, event: &Event) -> u64
    ensures { result ≡ latest_after latest event.now }
{
    session_of(event).unwrap_or(latest)
}

/// The event of a line; a session that it asks for is above the latest one.
#[tactic(auto, unfolding(crate::specs::Reading::next_event))]
pub fn next_event(
    alloc: Global,
    geometry: &Geometry,
    latest: u64,
    line: &[u8],
) -> Result<Event, LineError>
    ensures { Gives Ok line_fault result (next_event geometry.now latest line.now) }
{
    let event = line_event(alloc, geometry, line)?;
    if is_above(latest, session_of(&event)) {
        Ok(event)
    } else {
        Err(LineError::Wrong(Cause::Order))
    }
}
