//! A client of a volume of two regions of two blocks of one byte, two replicas each: requests are put to it, messages handed
//! over, it is ticked and crashes, as the rows say. A dot ends what comes of each row.

ghost use Rattle.std.specs.Prelude.{◌≡◌, ◌<◌, ◌≤◌, ◌^◌, IfOk, IfSome, IsTrue, length};
ghost use Rattle.std.specs.List.{AllByRecursion};
ghost use Rattle.salus_types.specs.Volume.{Shape};
ghost use Rattle.schedule_text.specs.Limits.{IsPartyOfVolume};
ghost use Rattle.client_node.specs.Standing.{IsAsked, newest_of, shape_of};

use crate::client_rows::{opening_answers, opening_rows, serving_answers, serving_rows};
use crate::words::{bytes, put_outs, sender_of};
use client_asking::Step;
use client_node::ClientNode;
use printed_lines::write_line;
use salus_hash::HmacKey;
use salus_model::Request;
use salus_types::{Batch, Bytes, Geometry, Items, NoMemory, NodeName, Sender, Write};
use std::alloc::Global;
use std::str::SplitWhitespace;
use std::test::*;

// ---- requests

fn number(words: &mut SplitWhitespace) -> u64 {
    match words.next() {
        Some(word) => word.parse::<u64>().unwrap_or(0),
        None => 0,
    }
}

/// The first byte that the next word spells.
fn block(alloc: Global, words: &mut SplitWhitespace) -> Result<Bytes, NoMemory>
    ensures { IfOk result (λ block. length block ≡ 1) }
{
    let spelled = bytes(alloc, words);
    let byte = match spelled.as_slice() {
        [byte, ..] => *byte,
        [] => 0,
    };
    Items::from_slice(alloc, [byte].as_slice())
}

fn write(alloc: Global, words: &mut SplitWhitespace) -> Result<Write, NoMemory>
    ensures { IfOk result (λ write. length write.bytes ≡ 1) }
{
    let number = number(words);
    Ok(Write {
        block: number,
        bytes: block(alloc, words)?,
    })
}

/// As many writes as that, at most three.
fn batch(alloc: Global, count: usize, words: &mut SplitWhitespace) -> Result<Batch, NoMemory>
    ensures count { IfOk result (λ batch. length batch ≤ 64) }
    ensures sized { IfOk result (λ batch. AllByRecursion (λ w. length w.bytes ≡ 1) batch) }
{
    let mut writes = Items::new(alloc);
    writes.push(write(alloc, words)?)?;
    if count > 1 {
        writes.push(write(alloc, words)?)?;
    }
    if count > 2 {
        writes.push(write(alloc, words)?)?;
    }
    Ok(writes)
}

/// How many words a row has.
fn count_of(row: &str) -> usize {
    let mut count = 0usize;
    for _ in row.split_whitespace() {
        count = count.saturating_add(1);
    }
    count
}

/// The request that a row spells, of a client whose blocks have one byte.
fn request_of(
    alloc: Global,
    row: &str,
    word: &str,
    words: &mut SplitWhitespace,
) -> Result<Option<Request>, NoMemory>
    ensures { IfOk result (λ found. IfSome found (λ request. (shape : Shape) → shape.block ≡ 1 → IsAsked shape request)) }
{
    match word.as_bytes() {
        b"write" => {
            let count = count_of(row) / 2;
            let batch = batch(alloc, count, words)?;
            Ok(Some(Request::Write { batch }))
        }
        b"read" => Ok(Some(Request::Read {
            block: number(words),
        })),
        b"barrier" => Ok(Some(Request::Barrier)),
        b"restart" => Ok(Some(Request::Restart {
            session: number(words),
        })),
        b"reassign" => {
            let session = number(words);
            let region = number(words);
            Ok(Some(Request::Reassign { session, region }))
        }
        _ => Ok(None),
    }
}

// ---- what comes of a row

/// Messages and lines, and a dot.
fn put_step(alloc: Global, text: &mut Vec<u8>, step: &Step) -> Result<(), NoMemory> {
    put_outs(alloc, text, step.outs.as_slice())?;
    for line in step.lines.as_slice() {
        write_line(line, text)?;
    }
    text.extend_from_slice(b".\n")?;
    Ok(())
}

/// Whether it is the client, or a node of the volume.
fn is_party(geometry: &Geometry, from: Sender) -> bool
    ensures { IsTrue result → IsPartyOfVolume geometry.now from }
{
    match from {
        Sender::Client => true,
        Sender::Node(name) => {
            u32::from(name.region) < geometry.regions()
                && u32::from(name.replica) < geometry.replicas()
        }
    }
}

/// Hands over a message; `?` where the sender is no party.
fn hear(
    alloc: Global,
    client: &mut ClientNode,
    from: Option<Sender>,
    message: &[u8],
    text: &mut Vec<u8>,
) -> Result<(), NoMemory>
    ensures shape { shape_of client.new ≡ shape_of client.old }
    ensures newest { newest_of client.new ≡ newest_of client.old }
{
    let geometry = client.geometry();
    match from {
        Some(party) if is_party(&geometry, party) => {
            let step = client.receive(party, message)?;
            put_step(alloc, text, &step)
        }
        _ => {
            text.push(b'?')?;
            Ok(())
        }
    }
}

/// Ticks the client.
fn tick(alloc: Global, client: &ClientNode, text: &mut Vec<u8>) -> Result<(), NoMemory> {
    let outs = client.tick()?;
    put_outs(alloc, text, outs.as_slice())?;
    text.extend_from_slice(b".\n")?;
    Ok(())
}

/// Hands over what a row says: `tick`, `crash`, a request, or a sender and bytes. A request has the number of its row.
fn hand(
    alloc: Global,
    client: &mut ClientNode,
    event: u64,
    row: &str,
    text: &mut Vec<u8>,
) -> Result<(), NoMemory>
    requires block { (shape_of client.old).block ≡ 1 }
    requires later { newest_of client.old < event }
    requires event { event < 2 ^ 32 }
    ensures shape { shape_of client.new ≡ shape_of client.old }
    ensures newest { newest_of client.new ≤ event }
{
    let mut words = row.split_whitespace();
    let word = words.next().unwrap_or("");
    if word == "tick" {
        return tick(alloc, client, text);
    }
    if word == "crash" {
        client.crash();
        text.extend_from_slice(b".\n")?;
        return Ok(());
    }
    match request_of(alloc, row, word, &mut words)? {
        Some(request) => {
            let step = client.request(event, request)?;
            put_step(alloc, text, &step)
        }
        None => {
            let message = bytes(alloc, &mut words);
            hear(alloc, client, sender_of(word), message.as_slice(), text)
        }
    }
}

/// All that comes of the rows, the first thousand.
fn answers_of(alloc: Global, client: &mut ClientNode, rows: &str) -> Result<Vec<u8>, NoMemory>
    requires block { (shape_of client.old).block ≡ 1 }
    requires newest { newest_of client.old ≡ 0 }
{
    let mut text = Vec::new(alloc);
    let mut event = 0u64;
    'rows: for row in rows.lines() {
        if event >= 1000 {
            return Ok(text);
        }
        event += 1;
        hand(alloc, client, event, row, &mut text)?;
    }
    Ok(text)
}

/// Whether so much comes of the rows.
fn answers(alloc: Global, rows: &str, expected: &str) -> Result<bool, NoMemory> {
    let Ok(geometry) = Geometry::new(1, 1, 1, 2) else {
        return Ok(false);
    };
    let key = HmacKey::new(b"k".as_slice());
    let mut client = ClientNode::format(alloc, geometry, key)?;
    Ok(answers_of(alloc, &mut client, rows)?.as_slice() == expected.as_bytes())
}

#[test]
fn clients_by_hand(rt: HostRuntime) -> Result<(), Fail> {
    let alloc = rt.alloc();
    assert!(rt; answers(alloc, serving_rows(), serving_answers())?);
    assert!(rt; answers(alloc, opening_rows(), opening_answers())?);
    Ok(())
}
