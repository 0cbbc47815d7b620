ghost use Rattle.std.specs.Prelude.{◌≡◌, ◌≤◌, ◌<◌, ◌+◌, ◌^◌, List, Some, length, slice_get, IfSome, OnOk};
ghost use Rattle.std.specs.List.{AllByRecursion};
ghost use Rattle.std.specs.Option.{option_copied};
ghost use Rattle.schedule_text.specs.declared.schedule.Volume.{Volume as AnyVolume};
ghost use Rattle.schedule_text.specs.declared.schedule.Event.{Event as AnyEvent};
ghost use Rattle.schedule_text.specs.Limits.{IsEventWithin, IsPartyOfVolume, IsWithinLimits};
ghost use Rattle.salus_model.specs.Judge.{event_at};
ghost use Rattle.run_course.specs.Course.{no_course};
ghost use Rattle.salus_world.specs.Kept.{IsKept, IsOngoing};
ghost use Rattle.salus_world.specs.Runs.{formatted_origin};
ghost use Rattle.salus_trace.specs.Before.{IsBefore};

use crate::describing::put_event;
use crate::names::put_message;
use crate::table::{Begun, heading, put_row};
use crate::words::Span;
use disk_model::MemDisk;
use salus_model::Sent;
use salus_types::{NoMemory, Sender};
use salus_world::World;
use schedule_text::{Event, Schedule};
use std::alloc::Global;

// The message of that index, if there are so many.
fn message_at(messages: &[Sent], index: usize) -> Option<&Sent>
    ensures { option_copied result ≡ slice_get messages.now index }
{
    messages.get(index)
}

/// The receiver of that message, if it is sent.
fn receiver(world: &World<MemDisk>, message: u64) -> Option<Sender>
    requires { IsOngoing world.now }
    ensures { IfSome result (IsPartyOfVolume world.now.geometry) }
{
    if message == 0 {
        return None;
    }
    match message_at(world.sent(), (message - 1) as usize) {
        None => None,
        Some(sent) => Some(sent.to),
    }
}

/// The node that a stop of that message addresses.
fn stopped(world: &World<MemDisk>, message: u64) -> Option<Sender>
    requires { IsOngoing world.now }
    ensures { IfSome result (IsPartyOfVolume world.now.geometry) }
{
    match receiver(world, message) {
        None => None,
        Some(Sender::Client) => None,
        Some(Sender::Node(name)) => Some(Sender::Node(name)),
    }
}

/// Whom an event addresses; no one, where it makes no step.
fn party_of(world: &World<MemDisk>, event: &Event) -> Option<Sender>
    requires kept { IsOngoing world.now }
    requires within { IsEventWithin world.now.geometry event.now }
    ensures { IfSome result (IsPartyOfVolume world.now.geometry) }
{
    match event {
        Event::Write { .. }
        | Event::Read { .. }
        | Event::Barrier
        | Event::Restart { .. }
        | Event::Reassign { .. }
        | Event::ClientCrash => Some(Sender::Client),
        Event::Deliver { message } => receiver(world, *message),
        Event::Stop { message, .. } => stopped(world, *message),
        Event::Lie { to, .. } => Some(*to),
        Event::Tick { party } => Some(*party),
        Event::Crash { node, .. } => Some(Sender::Node(*node)),
        Event::Replace { node } => Some(Sender::Node(*node)),
        Event::Drop { .. } | Event::Fail { .. } | Event::Settle { .. } => None,
    }
}

/// Whether the party is loaded in the step of the event.
fn loads(event: &Event) -> bool {
    matches!(
        event,
        Event::Crash { .. } | Event::Replace { .. } | Event::Stop { .. }
    )
}

/// Makes the steps of an event, and writes its row.
fn trace_one(
    alloc: Global,
    table: &mut Vec<u8>,
    world: &mut World<MemDisk>,
    number: u64,
    event: Event,
) -> Result<(), NoMemory>
    requires kept { (volume : AnyVolume) × (all : List AnyEvent) × (event_at all number ≡ Some event) × IsBefore volume all number world.old }
    requires low { number < 2 ^ 32 }
    requires within { IsEventWithin world.old.geometry event }
    ensures { OnOk result ((volume : AnyVolume) (all : List AnyEvent) → event_at all number ≡ Some event → IsBefore volume all number world.old → IsBefore volume all (number + 1) world.new) }
{
    let mut handed = Vec::new(alloc);
    put_event(alloc, &mut handed, world, &event)?;
    let begun = Begun {
        event: number,
        party: party_of(world, &event),
        handed,
        sent: world.sent().len(),
        lines: world.lines().len(),
        loads: loads(&event),
    };
    world.step(number, event)?;
    put_row(alloc, table, world, &begun)?;
    Ok(())
}

/// The text of that message, if it is sent.
fn message_text(alloc: Global, world: &World<MemDisk>, message: u64) -> Result<Vec<u8>, NoMemory> {
    let mut text = Vec::new(alloc);
    if message > 0 {
        match world.sent().get((message - 1) as usize) {
            None => {}
            Some(sent) => put_message(&mut text, message, sent)?,
        }
    }
    Ok(text)
}

/// Writes the row of a delivery in event `number`, before which so many messages were sent and so many lines printed.
fn put_delivery(
    alloc: Global,
    table: &mut Vec<u8>,
    world: &World<MemDisk>,
    number: u64,
    message: u64,
    sent: usize,
    lines: usize,
) -> Result<(), NoMemory>
    requires { IsOngoing world.now }
{
    let handed = message_text(alloc, world, message)?;
    let begun = Begun {
        event: number,
        party: receiver(world, message),
        handed,
        sent,
        lines,
        loads: false,
    };
    put_row(alloc, table, world, &begun)
}

/// Hands over the next message that waits in a step of event `number`, and writes its row where it is to be shown. Says
/// whether there was one.
fn trace_next(
    alloc: Global,
    table: &mut Vec<u8>,
    world: &mut World<MemDisk>,
    number: u64,
    shown: bool,
) -> Result<bool, NoMemory>
    requires { (volume : AnyVolume) × (all : List AnyEvent) × IsBefore volume all number world.old }
    ensures { OnOk result ((volume : AnyVolume) (all : List AnyEvent) → IsBefore volume all number world.old → IsBefore volume all number world.new) }
{
    let sent = world.sent().len();
    let lines = world.lines().len();
    let next = world.deliver_next()?;
    match next {
        None => Ok(false),
        Some(message) => {
            if shown {
                put_delivery(alloc, table, world, number, message, sent, lines)?;
            }
            Ok(true)
        }
    }
}

/// Settles in single deliveries, each a row.
fn trace_settle(
    alloc: Global,
    table: &mut Vec<u8>,
    world: &mut World<MemDisk>,
    number: u64,
    count: u64,
    shown: bool,
) -> Result<(), NoMemory>
    requires { (volume : AnyVolume) × (all : List AnyEvent) × IsBefore volume all number world.old }
    ensures { OnOk result ((volume : AnyVolume) (all : List AnyEvent) → IsBefore volume all number world.old → IsBefore volume all number world.new) }
{
    'deliveries: for _ in 0..count {
        if !trace_next(alloc, table, world, number, shown)? {
            return Ok(());
        }
    }
    Ok(())
}

/// Makes the steps of an event, and writes their rows where they are to be shown.
fn trace_event(
    alloc: Global,
    table: &mut Vec<u8>,
    world: &mut World<MemDisk>,
    number: u64,
    event: Event,
    shown: bool,
) -> Result<(), NoMemory>
    requires kept { (volume : AnyVolume) × (all : List AnyEvent) × (event_at all number ≡ Some event) × IsBefore volume all number world.old }
    requires low { number < 2 ^ 32 }
    requires within { IsEventWithin world.old.geometry event }
    ensures { OnOk result ((volume : AnyVolume) (all : List AnyEvent) → event_at all number ≡ Some event → IsBefore volume all number world.old → IsBefore volume all (number + 1) world.new) }
{
    if let Event::Settle { count } = &event {
        trace_settle(alloc, table, world, number, *count, shown)?;
        return Ok(());
    }
    if shown {
        trace_one(alloc, table, world, number, event)?;
        return Ok(());
    }
    world.step(number, event)?;
    Ok(())
}

/// Makes the steps of all events, of which the first has number 1.
fn trace_events(
    alloc: Global,
    table: &mut Vec<u8>,
    world: &mut World<MemDisk>,
    events: Vec<Event>,
    span: Span,
) -> Result<(), NoMemory>
    requires kept { (volume : AnyVolume) × IsKept (formatted_origin volume) volume events.items 1 1 world.old no_course }
    requires within { AllByRecursion (IsEventWithin world.old.geometry) events.items }
    requires few { length events.items ≤ 65536 }
{
    let mut number = 1;
    'events: for event in events {
        trace_event(alloc, table, world, number, event, span.has(number))?;
        number += 1;
    }
    Ok(())
}

/// The table of a run of the schedule, with the steps of those events.
pub fn trace_schedule(alloc: Global, schedule: Schedule, span: Span) -> Result<Vec<u8>, NoMemory>
    requires { IsWithinLimits schedule }
{
    let Schedule { volume, events } = schedule;
    let mut table = heading(alloc)?;
    let mut world = World::in_memory(alloc, &volume)?;
    trace_events(alloc, &mut table, &mut world, events.into_vec(), span)?;
    Ok(table)
}
