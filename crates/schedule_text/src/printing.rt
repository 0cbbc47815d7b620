ghost use Rattle.std.specs.Prelude.{◌≡◌, ◌≤◌, ◌++◌, length, OnOk, IfOk};
ghost use Rattle.std.specs.List.{flat_map};
ghost use Rattle.schedule_text.specs.Grammar.{Number, Node, Party, Bytes, Fill, pair_values, values, spelling, first_word, IsSchedule};
ghost use Rattle.schedule_text.specs.Limits.{IsWithinLimits};
ghost use Rattle.schedule_text.specs.Printing.{spaced, lie_text, event_line, volume_text, printed, HasBytes};

use crate::schedule::{Event, Events, Schedule, Volume};
use salus_types::{Batch, Geometry, NoMemory, NodeName, Sender, Write};
use std::alloc::Global;
use text_words::{pair, put, put_block, put_hex, put_number};

// ---- a word, with a space in front

fn put_node(out: &mut Vec<u8>, name: NodeName) -> Result<(), NoMemory>
    ensures { OnOk result (out.new.items ≡ out.old.items ++ spaced (Node name)) }
{
    put_number(out, b" ", u64::from(name.region))?;
    put_number(out, b".", u64::from(name.replica))
}

fn put_party(out: &mut Vec<u8>, party: Sender) -> Result<(), NoMemory>
    ensures { OnOk result (out.new.items ≡ out.old.items ++ spaced (Party party)) }
{
    match party {
        Sender::Client => put(out, b" client"),
        Sender::Node(name) => put_node(out, name),
    }
}

fn put_lie_bytes(out: &mut Vec<u8>, bytes: &[u8]) -> Result<(), NoMemory>
    ensures { OnOk result (out.new.items ≡ out.old.items ++ lie_text bytes.now) }
{
    if bytes.is_empty() {
        put(out, b"-")
    } else {
        put_hex(out, bytes)
    }
}

fn put_bytes(out: &mut Vec<u8>, bytes: &[u8]) -> Result<(), NoMemory>
    ensures { OnOk result (out.new.items ≡ out.old.items ++ spaced (Bytes bytes.now)) }
{
    put(out, b" ")?;
    put_lie_bytes(out, bytes)
}

fn put_fill(out: &mut Vec<u8>, fill: u8) -> Result<(), NoMemory>
    ensures { OnOk result (out.new.items ≡ out.old.items ++ spaced (Fill fill)) }
{
    put(out, b" ")?;
    put(out, &pair(fill))
}

// ---- the words of an event, each with a space in front

fn put_write(out: &mut Vec<u8>, write: &Write) -> Result<(), NoMemory>
    ensures { OnOk result (out.new.items ≡ out.old.items ++ flat_map spaced (pair_values write.now)) }
{
    put_number(out, b" ", write.block)?;
    put(out, b" ")?;
    put_block(out, write.bytes.as_slice())
}

fn put_batch(out: &mut Vec<u8>, batch: &Batch) -> Result<(), NoMemory>
    ensures { OnOk result (out.new.items ≡ out.old.items ++ flat_map spaced (flat_map pair_values batch.now)) }
{
    'writes: for write in batch.as_slice() {
        put_write(out, write)?;
    }
    Ok(())
}

fn put_two(out: &mut Vec<u8>, first: u64, second: u64) -> Result<(), NoMemory>
    ensures { OnOk result (out.new.items ≡ out.old.items ++ spaced (Number first) ++ spaced (Number second)) }
{
    put_number(out, b" ", first)?;
    put_number(out, b" ", second)
}

fn put_kept(out: &mut Vec<u8>, keep: u64, fill: u8) -> Result<(), NoMemory>
    ensures { OnOk result (out.new.items ≡ out.old.items ++ spaced (Number keep) ++ spaced (Fill fill)) }
{
    put_number(out, b" ", keep)?;
    put_fill(out, fill)
}

fn put_values(out: &mut Vec<u8>, event: &Event) -> Result<(), NoMemory>
    ensures { OnOk result (out.new.items ≡ out.old.items ++ flat_map spaced (values event.now)) }
{
    match event {
        Event::Write { batch } => put_batch(out, batch),
        Event::Read { block } => put_number(out, b" ", *block),
        Event::Barrier => Ok(()),
        Event::Deliver { message } => put_number(out, b" ", *message),
        Event::Settle { count } => put_number(out, b" ", *count),
        Event::Drop { message } => put_number(out, b" ", *message),
        Event::Lie { from, to, bytes } => {
            put_party(out, *from)?;
            put_party(out, *to)?;
            put_bytes(out, bytes.as_slice())
        }
        Event::Stop {
            message,
            calls,
            keep,
            fill,
        } => {
            put_two(out, *message, *calls)?;
            put_kept(out, *keep, *fill)
        }
        Event::Crash { node, keep, fill } => {
            put_node(out, *node)?;
            put_kept(out, *keep, *fill)
        }
        Event::Fail { node, call } => {
            put_node(out, *node)?;
            put_number(out, b" ", *call)
        }
        Event::Replace { node } => put_node(out, *node),
        Event::ClientCrash => Ok(()),
        Event::Restart { session } => put_number(out, b" ", *session),
        Event::Reassign { session, region } => put_two(out, *session, *region),
        Event::Tick { party } => put_party(out, *party),
    }
}

// ---- lines

fn put_name(out: &mut Vec<u8>, event: &Event) -> Result<(), NoMemory>
    ensures { OnOk result (out.new.items ≡ out.old.items ++ spelling (first_word event.now)) }
{
    match event {
        Event::Write { .. } => put(out, b"write"),
        Event::Read { .. } => put(out, b"read"),
        Event::Barrier => put(out, b"barrier"),
        Event::Deliver { .. } => put(out, b"deliver"),
        Event::Settle { .. } => put(out, b"settle"),
        Event::Drop { .. } => put(out, b"drop"),
        Event::Lie { .. } => put(out, b"lie"),
        Event::Stop { .. } => put(out, b"stop"),
        Event::Crash { .. } => put(out, b"crash"),
        Event::Fail { .. } => put(out, b"fail"),
        Event::Replace { .. } => put(out, b"replace"),
        Event::ClientCrash => put(out, b"clientcrash"),
        Event::Restart { .. } => put(out, b"restart"),
        Event::Reassign { .. } => put(out, b"reassign"),
        Event::Tick { .. } => put(out, b"tick"),
    }
}

#[tactic(auto, unfolding(crate::specs::Printing::event_text))]
fn put_event(out: &mut Vec<u8>, event: &Event) -> Result<(), NoMemory>
    ensures { OnOk result (out.new.items ≡ out.old.items ++ event_line event.now) }
{
    put_name(out, event)?;
    put_values(out, event)?;
    put(out, b"\n")
}

fn put_events(out: &mut Vec<u8>, events: &Events) -> Result<(), NoMemory>
    ensures { OnOk result (out.new.items ≡ out.old.items ++ flat_map event_line events.now) }
{
    'events: for event in events.as_slice() {
        put_event(out, event)?;
    }
    Ok(())
}

// 2 to this is the number of regions.
fn regions_log(geometry: &Geometry) -> u32
    ensures { result ≡ geometry.now.regions_log }
{
    geometry.regions().ilog2()
}

#[tactic(auto, unfolding(crate::specs::Printing::volume_text))]
fn put_volume(out: &mut Vec<u8>, volume: &Volume) -> Result<(), NoMemory>
    ensures { OnOk result (out.new.items ≡ out.old.items ++ volume_text volume.now) }
{
    let geometry = &volume.geometry;
    put(out, b"volume")?;
    put_two(
        out,
        u64::from(regions_log(geometry)),
        u64::from(geometry.height()),
    )?;
    put_two(
        out,
        u64::from(geometry.block_size()),
        u64::from(geometry.replicas()),
    )?;
    put(out, b" ")?;
    put_hex(out, volume.key.as_slice())
}

/// A text of the schedule: the volume's line and a line for each event, with decimal numbers, hex in lower case, and
/// a block of equal bytes as `*` and one pair.
#[tactic(auto, unfolding(crate::specs::Printing::printed))]
pub fn print(alloc: Global, schedule: &Schedule) -> Result<Vec<u8>, NoMemory>
    requires { IsWithinLimits schedule.now }
    ensures text { IfOk result (λ text. text.items ≡ printed schedule.now) }
    ensures means { IfOk result (λ text. HasBytes schedule.now → length text.items ≤ 67108864 → IsSchedule text.items schedule.now) }
{
    let mut text = Vec::new(alloc);
    put_volume(&mut text, &schedule.volume)?;
    put(&mut text, b"\n")?;
    put_events(&mut text, &schedule.events)?;
    Ok(text)
}
