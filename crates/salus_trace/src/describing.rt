use crate::names::{put_message, put_node, put_party, told_word};
use disk_model::MemDisk;
use salus_types::{NoMemory, Sender};
use salus_world::World;
use schedule_text::Event;
use std::alloc::Global;
use text_words::{put, put_hex, put_number};

/// Message number `message`, as far as it is sent.
fn put_sent(out: &mut Vec<u8>, world: &World<MemDisk>, message: u64) -> Result<(), NoMemory> {
    let number = message as usize;
    if number == 0 || number > world.sent().len() {
        return put_number(out, b"#", message);
    }
    put_message(out, message, &world.sent()[number - 1])
}

fn put_lie(alloc: Global, out: &mut Vec<u8>, from: Sender, bytes: &[u8]) -> Result<(), NoMemory> {
    put(out, b"lie of ")?;
    put_party(out, from)?;
    put(out, b": ")?;
    put(out, told_word(alloc, bytes)?.as_bytes())?;
    put_number(out, b", bytes ", bytes.len() as u64)
}

fn put_stop(
    out: &mut Vec<u8>,
    world: &World<MemDisk>,
    message: u64,
    calls: u64,
    keep: u64,
    fill: u8,
) -> Result<(), NoMemory> {
    put_sent(out, world, message)?;
    put_number(out, b", stop after calls ", calls)?;
    put_image(out, keep, fill)
}

fn put_image(out: &mut Vec<u8>, keep: u64, fill: u8) -> Result<(), NoMemory> {
    put_number(out, b", keep ", keep)?;
    put(out, b", fill ")?;
    put_hex(out, &[fill])
}

/// What an event hands over.
pub fn put_event(
    alloc: Global,
    out: &mut Vec<u8>,
    world: &World<MemDisk>,
    event: &Event,
) -> Result<(), NoMemory> {
    match event {
        Event::Write { batch } => put_number(out, b"write, blocks ", batch.len() as u64),
        Event::Read { block } => put_number(out, b"read ", *block),
        Event::Barrier => put(out, b"barrier"),
        Event::Restart { session } => put_number(out, b"restart ", *session),
        Event::Reassign { session, region } => {
            put_number(out, b"reassign ", *session)?;
            put_number(out, b" ", *region)
        }
        Event::Deliver { message } => put_sent(out, world, *message),
        Event::Drop { message } => {
            put(out, b"drop ")?;
            put_sent(out, world, *message)
        }
        Event::Stop {
            message,
            calls,
            keep,
            fill,
        } => put_stop(out, world, *message, *calls, *keep, *fill),
        Event::Lie { from, bytes, .. } => put_lie(alloc, out, *from, bytes.as_slice()),
        Event::Crash { keep, fill, .. } => {
            put(out, b"crash")?;
            put_image(out, *keep, *fill)
        }
        Event::Fail { node, call } => {
            put_number(out, b"fail call ", *call)?;
            put(out, b" of ")?;
            put_node(out, *node)
        }
        Event::Replace { .. } => put(out, b"replace"),
        Event::ClientCrash => put(out, b"crash"),
        Event::Tick { .. } => put(out, b"tick"),
        Event::Settle { count } => put_number(out, b"settle ", *count),
    }
}
