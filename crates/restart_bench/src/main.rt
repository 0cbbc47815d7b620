//! A client restarts a full volume: 16 regions of 256 blocks of 256 bytes, of which three servers each reply with a base and
//! 16 parts. What it posts and prints goes to standard output; to standard error goes how long it took to gather the replies,
//! to choose and post the bases after the last one, and to open the session after that, and how long it takes to hash once
//! what the replies hold: the root of each base and the tag of each record.
//!
//! With the word `replies` it makes and hashes the replies alone, so that the memory of the restart itself can be told. Before
//! it ends it reads standard input to its end, so that its memory can be looked at.
#![tactic(auto)]

ghost use Rattle.std.specs.Prelude.{◌≡◌, IfOk};
ghost use Rattle.salus_message.specs.Ranges.{IsMessage};
ghost use Rattle.client_node.specs.Standing.{newest_of};

mod replies;
mod volume;

use crate::replies::{Reply, hash_all, replies};
use client_asking::Step;
use client_node::ClientNode;
use printed_lines::Line;
use salus_hash::HmacKey;
use salus_io::{StdSource, read_whole};
use salus_message::{Message, Staged, Switched, encode};
use salus_model::Request;
use salus_types::{Geometry, NoMemory, NodeName, Sender};
use std::alloc::Global;
use std::rt::Runtime;
use std::time::Instant;
use std::{env, io};

/// The session that is opened.
const SESSION: u64 = 2;

/// What went wrong.
#[derive(Debug, Drop)]
enum Fault {
    Io(io::Error),
    NoMemory,
}

impl From<io::Error> for Fault {
    fn from(error: io::Error) -> Fault {
        Fault::Io(error)
    }
}

impl From<NoMemory> for Fault {
    fn from(_error: NoMemory) -> Fault {
        Fault::NoMemory
    }
}

/// Nanoseconds.
#[derive(Clone, Copy, Drop)]
struct Times {
    /// Of the replies but the last.
    gathering: u128,
    /// Of the last reply, until the bases are posted.
    choosing: u128,
    /// Of the answers after that.
    opening: u128,
}

/// How many bytes the messages of a step have.
fn posted_bytes(step: &Step) -> usize {
    let mut bytes: usize = 0;
    for out in step.outs.as_slice() {
        bytes = bytes.saturating_add(out.bytes.len());
    }
    bytes
}

/// Prints a line of an opening.
fn print_line(rt: &impl Runtime, line: &Line) -> io::Result<()> {
    match line {
        Line::Stage { session, from, seq } => println!(rt; "stage {session} from {from} {seq}"),
        Line::Open { session } => println!(rt; "open {session}"),
        _ => println!(rt; "another line"),
    }
}

/// Prints how many messages and bytes a step posts.
fn print_posted(rt: &impl Runtime, step: &Step) -> io::Result<()> {
    let count = step.outs.len();
    let bytes = posted_bytes(step);
    println!(rt; "{count} messages, {bytes} bytes")
}

/// Prints what a step posts, if anything, and its lines.
fn print_step(rt: &impl Runtime, step: &Step) -> io::Result<()> {
    if !step.outs.is_empty() {
        print_posted(rt, step)?;
    }
    for line in step.lines.as_slice() {
        print_line(rt, line)?;
    }
    Ok(())
}

/// Hands over a message of a server.
fn hear(client: &mut ClientNode, name: NodeName, bytes: &[u8]) -> Result<Step, Fault> {
    let geometry = client.geometry();
    if u32::from(name.region) >= geometry.regions() {
        return Err(Fault::NoMemory);
    }
    if u32::from(name.replica) >= geometry.replicas() {
        return Err(Fault::NoMemory);
    }
    let step = client.receive(Sender::Node(name), bytes)?;
    Ok(step)
}

/// Hands over a message of a server, and notes how long that took.
fn hear_timed(
    rt: &impl Runtime,
    client: &mut ClientNode,
    name: NodeName,
    bytes: &[u8],
    times: &mut Times,
) -> Result<Step, Fault> {
    let start = Instant::now(rt)?;
    let step = hear(client, name, bytes)?;
    let nanos = start.elapsed(rt)?.as_nanos();
    if step.outs.is_empty() {
        times.gathering = times.gathering.saturating_add(nanos);
    } else {
        times.choosing = times.choosing.saturating_add(nanos);
    }
    Ok(step)
}

/// Hands over the same message of each server of a region.
fn hear_group(
    rt: &impl Runtime,
    client: &mut ClientNode,
    region: u16,
    bytes: &[u8],
    times: &mut Times,
) -> Result<(), Fault> {
    for replica in 0..3 {
        let step = hear_timed(rt, client, NodeName { region, replica }, bytes, times)?;
        print_step(rt, &step)?;
    }
    Ok(())
}

/// Hands over each server's reply.
fn gather(
    rt: &impl Runtime,
    client: &mut ClientNode,
    replies: &[Reply],
    times: &mut Times,
) -> Result<(), Fault> {
    for (region, reply) in replies.iter().enumerate() {
        hear_group(
            rt,
            client,
            (region % 16) as u16,
            reply.bytes.as_slice(),
            times,
        )?;
    }
    Ok(())
}

/// Hands over the same answer of each server.
fn answer(
    rt: &impl Runtime,
    alloc: Global,
    client: &mut ClientNode,
    message: &Message,
) -> Result<u128, Fault>
    requires { IsMessage message.now }
{
    let bytes = encode(alloc, message)?;
    let mut times = Times {
        gathering: 0,
        choosing: 0,
        opening: 0,
    };
    for region in 0..16 {
        hear_group(rt, client, region, bytes.as_slice(), &mut times)?;
    }
    Ok(times.gathering.saturating_add(times.choosing))
}

/// The client of a formatted volume, after a crash.
fn crashed_client(alloc: Global, geometry: Geometry, key: HmacKey) -> Result<ClientNode, Fault>
    ensures { IfOk result (λ client. newest_of client ≡ 0) }
{
    let mut client = ClientNode::format(alloc, geometry, key)?;
    client.crash();
    Ok(client)
}

/// Asks for the restart.
fn ask(rt: &impl Runtime, client: &mut ClientNode) -> Result<(), Fault>
    requires { newest_of client.old ≡ 0 }
{
    let request = Request::Restart { session: SESSION };
    let step = client.request(1, request)?;
    print_step(rt, &step)?;
    Ok(())
}

/// Hands over that each server has staged the session, and then that each has switched to it.
fn answer_all(rt: &impl Runtime, alloc: Global, client: &mut ClientNode) -> Result<u128, Fault> {
    let staged = Message::Staged(Staged { session: SESSION });
    let switched = Message::Switched(Switched { session: SESSION });
    let staging = answer(rt, alloc, client, &staged)?;
    let switching = answer(rt, alloc, client, &switched)?;
    Ok(staging.saturating_add(switching))
}

/// The restart, from the request until the session is open.
fn restart(
    rt: &impl Runtime,
    alloc: Global,
    client: &mut ClientNode,
    replies: &[Reply],
) -> Result<Times, Fault>
    requires { newest_of client.old ≡ 0 }
{
    let mut times = Times {
        gathering: 0,
        choosing: 0,
        opening: 0,
    };
    ask(rt, client)?;
    gather(rt, client, replies, &mut times)?;
    times.opening = answer_all(rt, alloc, client)?;
    Ok(times)
}

/// How many bytes the replies have, each of three servers.
fn size_of(replies: &[Reply]) -> usize {
    let mut bytes: usize = 0;
    for reply in replies {
        bytes = bytes.saturating_add(reply.bytes.len().saturating_mul(3));
    }
    bytes
}

/// How many nanoseconds it takes to hash what the replies hold, and a byte that the hashes are mixed to.
fn hash(rt: &impl Runtime, key: &HmacKey, replies: &[Reply]) -> Result<(u128, u8), Fault> {
    let start = Instant::now(rt)?;
    let mixed = hash_all(key, replies);
    Ok((start.elapsed(rt)?.as_nanos(), mixed))
}

/// Says how long the restart and the hashing took.
fn say(rt: &impl Runtime, times: Times, hashing: u128, bytes: usize) -> Result<(), Fault> {
    eprintln!(rt;
        "gathering {} us, choosing {} us, opening {} us, hashing {} us, replies {bytes} bytes",
        times.gathering / 1000,
        times.choosing / 1000,
        times.opening / 1000,
        hashing / 1000
    )?;
    Ok(())
}

/// Restarts the volume from the replies, and says how long that took.
fn measure(
    rt: &impl Runtime,
    alloc: Global,
    geometry: Geometry,
    key: HmacKey,
    replies: &[Reply],
    hashing: u128,
) -> Result<(), Fault> {
    let mut client = crashed_client(alloc, geometry, key)?;
    let times = restart(rt, alloc, &mut client, replies)?;
    say(rt, times, hashing, size_of(replies))
}

fn run(rt: &impl Runtime, alloc: Global, geometry: Geometry, alone: bool) -> Result<(), Fault> {
    let key = HmacKey::new(b"Jefe".as_slice());
    let replies = replies(alloc, &key)?;
    let (hashing, mixed) = hash(rt, &key, replies.as_slice())?;
    if alone {
        eprintln!(rt; "hashes mixed to {mixed}")?;
        return Ok(());
    }
    measure(rt, alloc, geometry, key, replies.as_slice(), hashing)
}

/// Whether the word `replies` was given.
fn is_alone(rt: &HostRuntime) -> io::Result<bool> {
    for word in env::args(rt)?.skip(1) {
        if word.as_str() == "replies" {
            return Ok(true);
        }
    }
    Ok(false)
}

/// Waits for the end of standard input.
fn wait(rt: &HostRuntime) {
    let mut source = StdSource::new(rt.stdin());
    let _ = read_whole(rt.alloc(), &mut source, 64);
}

fn main(rt: HostRuntime) -> io::Result<()> {
    let alone = is_alone(&rt)?;
    match Geometry::new(4, 8, 256, 3) {
        Ok(geometry) => match run(&rt, rt.alloc(), geometry, alone) {
            Ok(()) => Ok(wait(&rt)),
            Err(Fault::Io(error)) => Err(error),
            Err(Fault::NoMemory) => println!(rt; "no memory"),
        },
        Err(_) => println!(rt; "no volume"),
    }
}
