//! What a node keeps on its disk: a store and a checkpoint, stopped after each call of the disk, crashed and loaded
//! again. The tables say by a letter what is found then, `o` for what was held before the call and `n` for what is
//! held after; they come from a model of files and crashes that was written apart from the program.
ghost use Rattle.std.specs.Prelude.{◌≡◌, false, IfOk};
ghost use Rattle.client_tag.specs.Ranges.{IsRecord};

use crate::disks::is_log;
use client_tag::read_record;
use datanode_checkpoint::Checkpoint;
use datanode_log::Log;
use datanode_store::{Store, StoreError};
use disk_model::MemDisk;
use salus_codec::{Fields, put_bytes, put_u8, put_u16, put_u64};
use salus_types::{Held, NoMemory, Record};
use std::alloc::Global;
use std::test::*;

fn zeros(out: &mut Vec<u8>, count: usize) -> Result<(), NoMemory> {
    for _ in 0..count {
        put_u8(out, 0)?;
    }
    Ok(())
}

// A record of region 0 up to its writes.
fn spell_head(out: &mut Vec<u8>, session: u64, seq: u64, previous: u64) -> Result<(), NoMemory> {
    put_u8(out, 1)?;
    put_u64(out, session)?;
    put_u64(out, seq)?;
    put_u16(out, 0)?;
    put_u64(out, previous)?;
    put_u16(out, 0)?;
    put_u8(out, 1)?;
    put_u64(out, seq)
}

fn spell_lists(out: &mut Vec<u8>) -> Result<(), NoMemory> {
    put_u8(out, 1)?;
    put_u16(out, 0)?;
    zeros(out, 64)
}

// The part of this number in session 1: it writes its number into block 0.
fn spell_part(alloc: Global, seq: u8) -> Result<Vec<u8>, NoMemory> {
    let mut out = Vec::new(alloc);
    spell_head(&mut out, 1, seq as u64, seq.saturating_sub(1) as u64)?;
    spell_lists(&mut out)?;
    put_bytes(&mut out, &[1, 0, 0, 0, 1, seq])?;
    zeros(&mut out, 32)?;
    Ok(out)
}

// An entry of a base of one block, behind an open gate and with its length.
fn put_base(out: &mut Vec<u8>, session: u64, seq: u64, byte: u8) -> Result<(), NoMemory> {
    put_bytes(out, &[1, 0, 0, 0, 146, 2])?;
    spell_head(out, session, seq, 0)?;
    spell_lists(out)?;
    zeros(out, 33)?;
    put_bytes(out, &[0, 0, 0, 1, 0, 1, byte])
}

fn put_switch(out: &mut Vec<u8>, session: u8) -> Result<(), NoMemory> {
    put_bytes(out, &[1, 0, 0, 0, 9, 3, 0, 0, 0, 0, 0, 0, 0, session])
}

// A log of the base of session 1 with the byte 07 and of the switch to 1, behind these bytes.
fn first_log(alloc: Global, front: &[u8]) -> Result<Vec<u8>, NoMemory> {
    let mut out = Vec::new(alloc);
    put_bytes(&mut out, front)?;
    put_bytes(&mut out, b"SALUSLG1")?;
    put_base(&mut out, 1, 0, 7)?;
    put_switch(&mut out, 1)?;
    put_u8(&mut out, 0)?;
    Ok(out)
}

// A log of the base of session 2 with the byte 09.
fn second_log(alloc: Global) -> Result<Vec<u8>, NoMemory> {
    let mut out = Vec::new(alloc);
    put_bytes(&mut out, b"SALUSLG1")?;
    put_base(&mut out, 2, 1, 9)?;
    put_u8(&mut out, 0)?;
    Ok(out)
}

fn part(alloc: Global, seq: u8) -> Result<Record, StoreError>
    ensures { IfOk result IsRecord }
{
    let bytes = match spell_part(alloc, seq) {
        Ok(bytes) => bytes,
        Err(_) => return Err(StoreError::NoMemory),
    };
    let mut fields = Fields::new(bytes.as_slice());
    match read_record(alloc, &mut fields) {
        Ok(rec) => Ok(rec),
        Err(_) => Err(StoreError::BadRecord { at: seq as u64 }),
    }
}

// Session and count of bases; session, number and first byte of each base; session and number of each part.
fn numbers_of(alloc: Global, held: &Held) -> Result<Vec<u64>, NoMemory> {
    let mut out = Vec::new(alloc);
    out.push(held.session)?;
    out.push(held.bases.len() as u64)?;
    for base in held.bases.as_slice() {
        out.push(base.rec.header.session)?;
        out.push(base.rec.header.seq)?;
        for block in base.blocks.as_slice() {
            for byte in block.as_slice() {
                out.push(*byte as u64)?;
            }
        }
    }
    for rec in held.parts.as_slice() {
        out.push(rec.header.session)?;
        out.push(rec.header.seq)?;
    }
    Ok(out)
}

// The same of session 1 with this base and the parts of these numbers.
fn of_session(
    alloc: Global,
    base: (u64, u64),
    first: u64,
    last: u64,
) -> Result<Vec<u64>, NoMemory> {
    let mut out = Vec::from_slice(alloc, &[1, 1, 1, base.0, base.1])?;
    for seq in first..=last {
        out.push(1)?;
        out.push(seq)?;
    }
    Ok(out)
}

fn is_held(alloc: Global, held: &Held, want: &[u64]) -> Result<bool, NoMemory> {
    let numbers = numbers_of(alloc, held)?;
    Ok(numbers.as_slice() == want)
}

// ---- the store

fn load_store(alloc: Global, disk: MemDisk) -> Result<Store<MemDisk>, StoreError>
    ensures { IfOk result (λ store. store.log.failed ≡ false) }
{
    match Store::load(alloc, disk) {
        Ok(store) => Ok(store),
        Err(refused) => Err(refused.error),
    }
}

fn store_of(alloc: Global, bytes: Result<Vec<u8>, NoMemory>) -> Result<Store<MemDisk>, StoreError>
    ensures { IfOk result (λ store. store.log.failed ≡ false) }
{
    match bytes {
        Ok(bytes) => load_store(alloc, MemDisk::new(alloc, bytes)),
        Err(_) => Err(StoreError::NoMemory),
    }
}

// Adds the base that another store holds.
fn add_base_of(store: &mut Store<MemDisk>, other: &Store<MemDisk>) -> Result<(), StoreError> {
    match other.held().bases.as_slice() {
        [] => Err(StoreError::NoMemory),
        [base, ..] => {
            if store.failed() {
                return Err(StoreError::Device);
            }
            store.add_base(base)
        }
    }
}

// One of three calls: part 2, the base of session 2, or the switch to 2.
fn call_store(alloc: Global, store: &mut Store<MemDisk>, which: u64) -> Result<(), StoreError> {
    if store.failed() {
        return Err(StoreError::Device);
    }
    match which {
        0 => store.add_part(&part(alloc, 2)?),
        1 => add_base_of(store, &store_of(alloc, second_log(alloc))?),
        _ => store.switch(2),
    }
}

fn wanted(alloc: Global, which: u64, is_new: bool) -> Result<Vec<u64>, NoMemory> {
    if !is_new {
        return of_session(alloc, (0, 7), 1, 1);
    }
    match which {
        0 => of_session(alloc, (0, 7), 1, 2),
        1 => {
            let numbers = Vec::from_slice(alloc, &[1, 2, 1, 0, 7, 2, 1, 9, 1, 1])?;
            Ok(numbers)
        }
        _ => {
            let numbers = Vec::from_slice(alloc, &[2, 0])?;
            Ok(numbers)
        }
    }
}

// Whether the store, stopped after so many calls and crashed, holds what the letter says.
fn is_store(
    alloc: Global,
    which: u64,
    stop: (u64, u64, u8),
    letter: u8,
) -> Result<bool, StoreError> {
    let (calls, keep, fill) = stop;
    let mut store = store_of(alloc, first_log(alloc, b""))?;
    store.add_part(&part(alloc, 1)?)?;
    store.stop_after(calls);
    let done = call_store(alloc, &mut store, which).is_ok();
    let mut disk = store.into_disk();
    disk.crash(keep, fill);
    let again = load_store(alloc, disk)?;
    let is_new = letter == b'n';
    match wanted(alloc, which, is_new) {
        Ok(want) => Ok(
            done == (calls >= 4) && is_held(alloc, again.held(), want.as_slice()) == Ok(true),
        ),
        Err(_) => Err(StoreError::NoMemory),
    }
}

// For each number of calls from 0 on: keep 0, 1 and past the end, each with the fills 00, 01 and ff.
fn stops_of(at: usize) -> (u64, u64, u8) {
    let calls = at as u64 / 9;
    let keep = match at / 3 % 3 {
        0 => 0,
        1 => 1,
        _ => 9000,
    };
    let fill = match at % 3 {
        0 => 0x00,
        1 => 0x01,
        _ => 0xff,
    };
    (calls, keep, fill)
}

fn after_an_append() -> &'static str {
    "ooooooooooooooooooooooooooo\
     ononnnnnn\
     nnnnnnnnn"
}

/// What is told of a file that a store is to load.
fn refusal_of_store(alloc: Global, content: &[u8]) -> Option<StoreError> {
    match content.to_vec(alloc) {
        Ok(bytes) => store_of(alloc, Ok(bytes)).err(),
        Err(_) => Some(StoreError::NoMemory),
    }
}

// ---- the checkpoint

fn load_checkpoint(alloc: Global, disk: MemDisk) -> Result<Checkpoint<MemDisk>, StoreError>
    ensures { IfOk result (λ checkpoint. checkpoint.store.log.failed ≡ false) }
{
    match Checkpoint::load(alloc, disk) {
        Ok(checkpoint) => Ok(checkpoint),
        Err(refused) => Err(refused.error),
    }
}

fn refusal_of_checkpoint(alloc: Global, content: &[u8]) -> Option<StoreError> {
    match content.to_vec(alloc) {
        Ok(bytes) => load_checkpoint(alloc, MemDisk::new(alloc, bytes)).err(),
        Err(_) => Some(StoreError::NoMemory),
    }
}

fn add_parts(
    alloc: Global,
    checkpoint: &mut Checkpoint<MemDisk>,
    first: u8,
    last: u8,
) -> Result<(), StoreError> {
    for seq in first..=last {
        if checkpoint.failed() {
            return Err(StoreError::Device);
        }
        match checkpoint.add_part(&part(alloc, seq)?) {
            Ok(()) => {}
            Err(error) => return Err(error),
        }
    }
    Ok(())
}

fn fold(checkpoint: &mut Checkpoint<MemDisk>, seq: u64) -> Result<(), StoreError> {
    if checkpoint.failed() || !checkpoint.can_fold() {
        return Err(StoreError::Device);
    }
    checkpoint.fold_to(seq)
}

// A checkpoint with the base of session 1 and the parts from 1 on.
fn with_parts(alloc: Global, last: u8) -> Result<Checkpoint<MemDisk>, StoreError> {
    let bytes = match first_log(alloc, b"SALUSCK1\0\0\0\0\0\0\0\0") {
        Ok(bytes) => bytes,
        Err(_) => return Err(StoreError::NoMemory),
    };
    let mut checkpoint = load_checkpoint(alloc, MemDisk::new(alloc, bytes))?;
    add_parts(alloc, &mut checkpoint, 1, last)?;
    Ok(checkpoint)
}

// Whether a checkpoint, crashed and loaded, holds this base and these parts of session 1.
fn holds(
    alloc: Global,
    checkpoint: Checkpoint<MemDisk>,
    crash: (u64, u8),
    base: (u64, u64),
    parts: (u64, u64),
) -> Result<bool, StoreError> {
    let mut disk = checkpoint.into_disk();
    disk.crash(crash.0, crash.1);
    let again = load_checkpoint(alloc, disk)?;
    match of_session(alloc, base, parts.0, parts.1) {
        Ok(want) => Ok(is_held(alloc, again.held(), want.as_slice()) == Ok(true)),
        Err(_) => Err(StoreError::NoMemory),
    }
}

// A fold of 24 parts to number 8.
fn is_folded(alloc: Global, stop: (u64, u64, u8), letter: u8) -> Result<bool, StoreError> {
    let (calls, keep, fill) = stop;
    let mut checkpoint = with_parts(alloc, 24)?;
    checkpoint.stop_after(calls);
    let done = fold(&mut checkpoint, 8).is_ok();
    let (base, first) = if letter == b'n' {
        ((8, 8), 9)
    } else {
        ((0, 7), 1)
    };
    let is = holds(alloc, checkpoint, (keep, fill), base, (first, 24))?;
    Ok(is && done == (calls >= 5))
}

// Fill, page, sync, selector, sync.
fn after_a_fold() -> &'static str {
    "oooooooooooooooooooooooooooooooooooo\
     ononnnnnn\
     nnnnnnnnn"
}

// The part that begins in the lane's first page and ends in its second.
fn is_crossed(alloc: Global, stop: (u64, u64, u8), letter: u8) -> Result<bool, StoreError> {
    let (calls, keep, fill) = stop;
    let mut checkpoint = with_parts(alloc, 26)?;
    checkpoint.stop_after(calls);
    let done = add_parts(alloc, &mut checkpoint, 27, 27).is_ok();
    let last = if letter == b'n' { 27 } else { 26 };
    let is = holds(alloc, checkpoint, (keep, fill), (0, 7), (1, last))?;
    Ok(is && done == (calls >= 6))
}

// Page, fill, page, sync, gate, sync.
fn after_a_crossing() -> &'static str {
    "ooooooooooooooooooooooooooooooooooooooooooooo\
     ononnnnnn\
     nnnnnnnnn\
     nnnnnnnnn"
}

fn folded_twice(alloc: Global) -> Result<bool, StoreError> {
    let mut checkpoint = with_parts(alloc, 24)?;
    fold(&mut checkpoint, 8)?;
    fold(&mut checkpoint, 8)?;
    add_parts(alloc, &mut checkpoint, 25, 32)?;
    fold(&mut checkpoint, 16)?;
    add_parts(alloc, &mut checkpoint, 33, 34)?;
    holds(alloc, checkpoint, (0, 0), (16, 16), (17, 34))
}

fn formatted(alloc: Global) -> Result<bool, StoreError> {
    let mut disk = MemDisk::new(alloc, Vec::new(alloc));
    Checkpoint::format(&mut disk)?;
    let mut checkpoint = load_checkpoint(alloc, disk)?;
    if checkpoint.fail_at(2).is_err() || checkpoint.failed() {
        return Ok(false);
    }
    let other = store_of(alloc, second_log(alloc))?;
    let failed = match other.held().bases.as_slice() {
        [] => false,
        [base, ..] => checkpoint.add_base(base) == Err(StoreError::Device),
    };
    let mut disk = checkpoint.into_disk();
    disk.crash(0, 0);
    let mut again = load_checkpoint(alloc, disk)?;
    let done = again.switch(3).is_ok();
    Ok(failed && done && is_held(alloc, again.held(), &[3, 0]) == Ok(true))
}

// ---- all of them

/// Whether a call of that kind, stopped and crashed so, leaves what the letter says.
fn is_right(alloc: Global, kind: u64, stop: (u64, u64, u8), letter: u8) -> bool {
    match kind {
        0..=2 => matches!(is_store(alloc, kind, stop, letter), Ok(true)),
        3 => matches!(is_log(alloc, stop, letter), Ok(true)),
        4 => matches!(is_folded(alloc, stop, letter), Ok(true)),
        _ => matches!(is_crossed(alloc, stop, letter), Ok(true)),
    }
}

/// The place of the first letter that isn't right.
fn wrong_stop(alloc: Global, kind: u64, letters: &[u8]) -> Option<usize> {
    for at in 0..letters.len() {
        if !is_right(alloc, kind, stops_of(at), letters[at]) {
            return Some(at);
        }
    }
    None
}

#[test]
fn stopped_calls_leave_what_was_held_or_what_is(rt: HostRuntime) {
    for (kind, letters) in [
        (0, after_an_append()),
        (1, after_an_append()),
        (2, after_an_append()),
        (3, after_an_append()),
        (4, after_a_fold()),
        (5, after_a_crossing()),
    ] {
        let wrong = wrong_stop(rt.alloc(), kind, letters.as_bytes());
        assert_eq!(rt; wrong, None, "kind {kind}");
    }
}

/// What isn't as it should be.
fn wrong_file(alloc: Global) -> Option<&'static str> {
    let bad = refusal_of_store(alloc, b"SALUSLG1\x01\x00\x00\x00\x01\x09\x00");
    if bad != Some(StoreError::BadRecord { at: 0 }) {
        return Some("an entry that is no record");
    }
    if refusal_of_store(alloc, b"SALUSLG1") != Some(StoreError::Foreign) {
        return Some("a store without a gate");
    }
    if refusal_of_checkpoint(alloc, b"SALUSLG1\x00") != Some(StoreError::Foreign) {
        return Some("a checkpoint over a log");
    }
    if !matches!(folded_twice(alloc), Ok(true)) {
        return Some("two folds");
    }
    if !matches!(formatted(alloc), Ok(true)) {
        return Some("a formatted checkpoint");
    }
    None
}

#[test]
fn files_are_read_and_both_lanes_are_live_in_turn(rt: HostRuntime) {
    assert_eq!(rt; wrong_file(rt.alloc()), None);
}
