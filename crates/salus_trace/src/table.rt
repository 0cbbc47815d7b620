ghost use Rattle.std.specs.Prelude.{◌≤◌, ◌<◌, length, IfSome};
ghost use Rattle.schedule_text.specs.Limits.{IsOfVolume, IsPartyOfVolume};
ghost use Rattle.salus_world.specs.Kept.{IsOngoing};

use crate::cells::{DISK, HANDED, LINES, PARTY, SENT, put_cell};
use crate::names::{kind_word, put_party};
use disk_model::MemDisk;
use printed_lines::write_line;
use salus_model::Sent;
use salus_types::{NoMemory, NodeName, Sender};
use salus_world::World;
use std::alloc::Global;
use text_words::{put, put_number};

/// What is known of a step before it is made.
#[derive(Drop)]
pub struct Begun {
    pub event: u64,
    /// Whom it addresses, where it is a step.
    pub party: Option<Sender>,
    pub handed: Vec<u8>,
    /// How many messages were sent before.
    pub sent: usize,
    /// How many lines were printed before.
    pub lines: usize,
    /// The party is loaded in it.
    pub loads: bool,
}

/// The table's first line.
pub fn heading(alloc: Global) -> Result<Vec<u8>, NoMemory> {
    let mut table = Vec::new(alloc);
    put_cell(&mut table, 0, 0, b"event")?;
    put_cell(&mut table, 0, PARTY, b"party")?;
    put_cell(&mut table, 0, HANDED, b"handed")?;
    put_cell(&mut table, 0, SENT, b"sent")?;
    put_cell(&mut table, 0, DISK, b"disk")?;
    put_cell(&mut table, 0, LINES, b"printed")?;
    put(&mut table, b"\n")?;
    Ok(table)
}

// The first index from `at` on of a message of another kind.
fn run_end(messages: &[Sent], at: usize) -> usize
    requires { at < length messages.now }
    ensures { at < result }
{
    let kind = kind_word(messages[at].bytes.as_slice());
    'messages: for index in at + 1..messages.len() {
        if kind_word(messages[index].bytes.as_slice()) != kind {
            return index;
        }
    }
    messages.len()
}

// Messages of one kind, which are numbered from 1 on: those of indices from `at` up to `end`.
fn put_run(out: &mut Vec<u8>, messages: &[Sent], at: usize, end: usize) -> Result<(), NoMemory>
    requires inside { at < length messages.now }
    requires order { at < end }
{
    put(out, kind_word(messages[at].bytes.as_slice()).as_bytes())?;
    put_number(out, b" #", at as u64 + 1)?;
    if end > at + 1 {
        put_number(out, b"-#", end as u64)?;
    }
    Ok(())
}

// The messages from that index on, in runs of one kind.
fn put_sent(out: &mut Vec<u8>, messages: &[Sent], from: usize) -> Result<(), NoMemory> {
    let mut at = from;
    'runs: while at < messages.len() {
        if at > from {
            put(out, b", ")?;
        }
        let end = run_end(messages, at);
        put_run(out, messages, at, end)?;
        at = end;
    }
    Ok(())
}

// What a node's disk held when it was loaded; or that a call of it failed, since when the node is silent.
fn put_node_disk(
    out: &mut Vec<u8>,
    world: &World<MemDisk>,
    name: NodeName,
    loads: bool,
) -> Result<(), NoMemory>
    requires kept { IsOngoing world.now }
    requires of { IsOfVolume world.now.geometry name }
{
    let node = world.node(name);
    if !loads {
        return if node.is_silent() {
            put(out, b"silent")
        } else {
            Ok(())
        };
    }
    match node.held() {
        None => Ok(()),
        Some(held) => {
            put_number(out, b"loaded session ", held.session)?;
            put_number(out, b", bases ", held.bases.len() as u64)?;
            put_number(out, b", parts ", held.parts.len() as u64)
        }
    }
}

fn put_disk(
    out: &mut Vec<u8>,
    world: &World<MemDisk>,
    party: Option<Sender>,
    loads: bool,
) -> Result<(), NoMemory>
    requires kept { IsOngoing world.now }
    requires of { IfSome party (IsPartyOfVolume world.now.geometry) }
{
    match party {
        None => Ok(()),
        Some(Sender::Client) => Ok(()),
        Some(Sender::Node(name)) => put_node_disk(out, world, name, loads),
    }
}

// The lines from that index on, in one cell.
fn put_lines(out: &mut Vec<u8>, world: &World<MemDisk>, from: usize) -> Result<(), NoMemory> {
    let lines = world.lines();
    'lines: for index in from..lines.len() {
        if index > from {
            put(out, b"; ")?;
        }
        write_line(&lines[index], out)?;
        let _ = out.pop();
    }
    Ok(())
}

/// Writes the row of a step that is made.
pub fn put_row(
    alloc: Global,
    table: &mut Vec<u8>,
    world: &World<MemDisk>,
    begun: &Begun,
) -> Result<(), NoMemory>
    requires kept { IsOngoing world.now }
    requires of { IfSome begun.now.party (IsPartyOfVolume world.now.geometry) }
{
    let start = table.len();
    let mut party = Vec::new(alloc);
    if let Some(who) = begun.party {
        put_party(&mut party, who)?;
    }
    let mut sent = Vec::new(alloc);
    put_sent(&mut sent, world.sent(), begun.sent)?;
    let mut disk = Vec::new(alloc);
    put_disk(&mut disk, world, begun.party, begun.loads)?;
    let mut lines = Vec::new(alloc);
    put_lines(&mut lines, world, begun.lines)?;
    put_number(table, b"", begun.event)?;
    put_cell(table, start, PARTY, party.as_slice())?;
    put_cell(table, start, HANDED, begun.handed.as_slice())?;
    put_cell(table, start, SENT, sent.as_slice())?;
    put_cell(table, start, DISK, disk.as_slice())?;
    put_cell(table, start, LINES, lines.as_slice())?;
    put(table, b"\n")
}
