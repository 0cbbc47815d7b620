//! Decodes and encodes 100,000 different answers with blocks of 4,096 bytes, and 100,000 different votes; those of a
//! kind lie in one allocation. How many came out as they went in goes to standard output, and the time to standard
//! error; making the messages and comparing what came out aren't timed.
//!
//! It also seals a record of one write of 256 bytes under 100,000 numbers, and hashes as many texts of its length.
#![tactic(auto)]

ghost use Rattle.std.specs.Prelude.{◌<◌};
ghost use Rattle.client_tag.specs.Ranges.{IsRecord};

mod messages;
mod seals;

use crate::messages::{ANSWER_BYTES, VOTE_BYTES, answers, votes};
use crate::seals::{hash_each, part, seal_each, sealed_well};
use client_tag::payload;
use salus_hash::HmacKey;
use salus_message::{decode, encode};
use salus_types::{NoMemory, Record};
use std::alloc::Global;
use std::io;
use std::rt::Runtime;
use std::time::Instant;

const COUNT: u32 = 100_000;

const TURNS: u32 = 100;

/// The bytes of the message that these bytes are; none where they are no message, or memory is wanting.
fn recoded(alloc: Global, message: &[u8]) -> Option<Vec<u8>> {
    match decode(alloc, message) {
        Ok(decoded) => encode(alloc, &decoded).ok(),
        Err(_) => None,
    }
}

fn has_length(bytes: Option<Vec<u8>>, size: usize) -> bool {
    match bytes {
        Some(bytes) => bytes.len() == size,
        None => false,
    }
}

fn has_bytes(bytes: Option<Vec<u8>>, message: &[u8]) -> bool {
    match bytes {
        Some(bytes) => bytes.as_slice() == message,
        None => false,
    }
}

/// How many of the messages are decoded, and encoded at the same length.
fn pass(alloc: Global, bytes: &[u8], size: usize) -> u32
    requires { 0 < size }
{
    let mut done: u32 = 0;
    for message in bytes.chunks_exact(size) {
        if has_length(recoded(alloc, message), size) {
            done = done.saturating_add(1);
        }
    }
    done
}

/// How many of the messages come out as they went in.
fn again(alloc: Global, bytes: &[u8], size: usize) -> u32
    requires { 0 < size }
{
    let mut same: u32 = 0;
    for message in bytes.chunks_exact(size) {
        if has_bytes(recoded(alloc, message), message) {
            same = same.saturating_add(1);
        }
    }
    same
}

/// Prints how many of a kind came out as they should, and how many bytes each has.
fn tell_count(rt: &impl Runtime, name: &str, good: u32, what: &str, size: usize) -> io::Result<()> {
    println!(rt; "{name}: {good} of {COUNT} with {what}{size} bytes")
}

/// Prints to standard error how long so many took.
fn tell_time(rt: &impl Runtime, name: &str, done: u32, micros: u128) -> io::Result<()> {
    eprintln!(rt; "{name}: {done} in {micros} us")
}

/// Runs over the messages of one kind, and prints how many come out as they went in and how long one run took.
fn measure(
    rt: &impl Runtime,
    alloc: Global,
    name: &str,
    bytes: &[u8],
    size: usize,
) -> io::Result<()>
    requires { 0 < size }
{
    let start = Instant::now(rt)?;
    let done = pass(alloc, bytes, size);
    let micros = start.elapsed(rt)?.as_micros();
    let same = again(alloc, bytes, size);
    tell_count(rt, name, same, "", size)?;
    tell_time(rt, name, done, micros)
}

/// How many microseconds it takes to seal a record under each of these numbers, and to hash as many texts of the payload's
/// length and two blocks. The third number mixes what came out.
fn seal_and_hash_turn(
    rt: &impl Runtime,
    alloc: Global,
    key: &HmacKey,
    rec: &mut Record,
    from: u32,
    to: u32,
) -> io::Result<(u128, u128, u8)>
    requires { IsRecord rec.old }
{
    let start = Instant::now(rt)?;
    let sealed = seal_each(alloc, key, rec, from, to).unwrap_or(0);
    let sealing = start.elapsed(rt)?.as_micros();
    let start = Instant::now(rt)?;
    let hashed = hash_each(from, to);
    Ok((sealing, start.elapsed(rt)?.as_micros(), sealed ^ hashed))
}

/// A turn with a record of its own. Where memory is wanting it takes no time.
fn turn_of(
    rt: &impl Runtime,
    alloc: Global,
    key: &HmacKey,
    from: u32,
    to: u32,
) -> io::Result<(u128, u128, u8)> {
    match part(alloc) {
        Ok(mut rec) => seal_and_hash_turn(rt, alloc, key, &mut rec, from, to),
        Err(_) => Ok((0, 0, 0)),
    }
}

/// Sealing and hashing by turns, so that both meet the machine in the same state: the microseconds of each, and a mix of
/// what came out.
fn seal_and_hash(rt: &impl Runtime, alloc: Global, key: &HmacKey) -> io::Result<(u128, u128, u8)> {
    let mut sealing: u128 = 0;
    let mut hashing: u128 = 0;
    let mut mixed: u8 = 0;
    for turn in 0..TURNS {
        let from = turn * (COUNT / TURNS);
        let (sealed, hashed, mix) = turn_of(rt, alloc, key, from, from + COUNT / TURNS)?;
        sealing = sealing.saturating_add(sealed);
        hashing = hashing.saturating_add(hashed);
        mixed ^= mix;
    }
    Ok((sealing, hashing, mixed))
}

/// How many bytes the record's payload has; 0 where memory is wanting.
fn payload_size(alloc: Global, rec: &Record) -> usize
    requires { IsRecord rec.now }
{
    match payload(alloc, rec) {
        Ok(bytes) => bytes.len(),
        Err(_) => 0,
    }
}

/// Prints how many records are genuine once they are sealed, how long sealing took, and how long hashing.
fn measure_seals(rt: &impl Runtime, alloc: Global, rec: &mut Record) -> io::Result<()>
    requires { IsRecord rec.old }
{
    let key = HmacKey::new(b"Jefe");
    let (sealing, hashing, mixed) = seal_and_hash(rt, alloc, &key)?;
    let size = payload_size(alloc, rec);
    let good = sealed_well(alloc, &key, rec, COUNT).unwrap_or(0);
    tell_count(rt, "seals", good, "payloads of ", size)?;
    tell_time(rt, "seals", COUNT, sealing)?;
    tell_time(rt, "hashes", COUNT, hashing)?;
    eprintln!(rt; "mixed to {mixed}")
}

/// The same for a record of its own, if there is memory for one.
fn time_seals(rt: &impl Runtime, alloc: Global) -> io::Result<()> {
    match part(alloc) {
        Ok(mut rec) => measure_seals(rt, alloc, &mut rec),
        Err(_) => Ok(()),
    }
}

fn main(rt: HostRuntime) -> io::Result<()> {
    if let Ok(bytes) = answers(rt.alloc(), COUNT) {
        measure(&rt, rt.alloc(), "answers", bytes.as_slice(), ANSWER_BYTES)?;
    }
    if let Ok(bytes) = votes(rt.alloc(), COUNT) {
        measure(&rt, rt.alloc(), "votes", bytes.as_slice(), VOTE_BYTES)?;
    }
    time_seals(&rt, rt.alloc())
}
