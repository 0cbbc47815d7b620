//! Geometry, numbers in bytes, records and messages: the worked examples, and of each message kind one spelling, made
//! here by hand, each proper front of which is short and which with one byte more is trailing.

use client_tag::{payload, read_base, read_record, write_record};
use salus_codec::{FieldError, Fields, put_bytes, put_u8, put_u16, put_u32, put_u64};
use salus_message::{Message, MessageError, decode, encode};
use salus_types::{
    Geometry, GeometryError, Items, NoMemory, TryClone, Write, same_base, same_batch, same_record,
};
use std::alloc::Global;
use std::test::*;

fn refused(regions_log: u64, height: u64, block: u64, replicas: u64) -> Option<GeometryError> {
    Geometry::new(regions_log, height, block, replicas).err()
}

fn numbers_of(geometry: &Geometry) -> [u32; 7] {
    [
        geometry.regions(),
        geometry.height(),
        geometry.region_blocks(),
        geometry.blocks(),
        geometry.block_size(),
        geometry.replicas(),
        geometry.nodes(),
    ]
}

#[test]
fn geometry_examples(rt: HostRuntime) {
    for (numbers, error) in [
        ((5, 0, 1, 1), GeometryError::RegionsRange),
        ((5, 11, 0, 0), GeometryError::RegionsRange),
        ((0, 11, 1, 1), GeometryError::HeightRange),
        ((0, 0, 4097, 1), GeometryError::BlockRange),
        ((0, 0, 0, 1), GeometryError::BlockRange),
        ((0, 0, 1, 6), GeometryError::ReplicasRange),
        ((0, 0, 1, 0), GeometryError::ReplicasRange),
        ((4, 10, 128, 1), GeometryError::VolumeLarge),
    ] {
        let (regions_log, height, block, replicas) = numbers;
        assert!(rt; refused(regions_log, height, block, replicas) == Some(error));
    }
    match Geometry::new(4, 10, 64, 1) {
        Ok(geometry) => { assert!(rt; numbers_of(&geometry) == [16, 10, 1024, 16384, 64, 1, 16]) }
        Err(_) => assert!(rt; false),
    }
    match Geometry::new(1, 3, 7, 5) {
        Ok(geometry) => assert!(rt; numbers_of(&geometry) == [2, 3, 8, 16, 7, 5, 10]),
        Err(_) => assert!(rt; false),
    }
}

/// So many times the byte.
fn fill(out: &mut Vec<u8>, byte: u8, count: usize) -> Result<(), NoMemory> {
    for _ in 0..count {
        out.push(byte)?;
    }
    Ok(())
}

/// A number below 256 after so many zero bytes.
fn number(out: &mut Vec<u8>, zeros: usize, value: u8) -> Result<(), NoMemory> {
    fill(out, 0, zeros)?;
    out.push(value)?;
    Ok(())
}

fn spell_header(out: &mut Vec<u8>) -> Result<(), NoMemory> {
    out.push(1)?;
    number(out, 7, 3)?;
    number(out, 7, 9)?;
    number(out, 1, 1)?;
    number(out, 7, 8)?;
    spell_lists(out)
}

fn spell_lists(out: &mut Vec<u8>) -> Result<(), NoMemory> {
    number(out, 1, 0)?;
    out.push(2)?;
    number(out, 7, 7)?;
    number(out, 7, 9)?;
    out.push(1)?;
    number(out, 1, 1)
}

fn spell_record(out: &mut Vec<u8>) -> Result<(), NoMemory> {
    spell_header(out)?;
    fill(out, 0xaa, 32)?;
    fill(out, 0xbb, 32)?;
    out.push(2)?;
    spell_write(out, 0, 0x11)?;
    spell_write(out, 5, 0x22)?;
    fill(out, 0xcc, 32)
}

fn spell_write(out: &mut Vec<u8>, place: u8, byte: u8) -> Result<(), NoMemory> {
    number(out, 1, place)?;
    number(out, 1, 3)?;
    fill(out, byte, 3)
}

fn spell_blocks(out: &mut Vec<u8>) -> Result<(), NoMemory> {
    number(out, 3, 2)?;
    number(out, 1, 3)?;
    fill(out, 0x33, 6)
}

fn spell_base(out: &mut Vec<u8>) -> Result<(), NoMemory> {
    spell_record(out)?;
    spell_blocks(out)
}

fn spell_prepared(out: &mut Vec<u8>) -> Result<(), NoMemory> {
    number(out, 7, 3)?;
    number(out, 7, 9)?;
    number(out, 1, 1)?;
    fill(out, 0xaa, 32)
}

fn spell_asked(out: &mut Vec<u8>) -> Result<(), NoMemory> {
    number(out, 7, 3)?;
    number(out, 7, 4)?;
    number(out, 3, 5)?;
    number(out, 7, 6)
}

fn spell_answer(out: &mut Vec<u8>) -> Result<(), NoMemory> {
    spell_asked(out)?;
    number(out, 1, 3)?;
    fill(out, 0x11, 3)?;
    out.push(2)?;
    fill(out, 0xdd, 64)
}

fn spell_gathered(out: &mut Vec<u8>) -> Result<(), NoMemory> {
    number(out, 7, 3)?;
    number(out, 7, 2)?;
    number(out, 3, 1)?;
    spell_base(out)?;
    number(out, 3, 2)?;
    spell_two(out)
}

fn spell_two(out: &mut Vec<u8>) -> Result<(), NoMemory> {
    spell_record(out)?;
    spell_record(out)
}

fn spell_dumped(out: &mut Vec<u8>) -> Result<(), NoMemory> {
    number(out, 7, 3)?;
    number(out, 1, 1)?;
    number(out, 7, 6)?;
    spell_blocks(out)
}

fn spell_pair(out: &mut Vec<u8>, zeros: usize) -> Result<(), NoMemory> {
    number(out, 7, 3)?;
    number(out, zeros, 9)
}

fn spell_fields(out: &mut Vec<u8>, kind: u8) -> Result<(), NoMemory> {
    match kind {
        1 => spell_record(out),
        2 => spell_prepared(out),
        3 => spell_pair(out, 7),
        4 => spell_asked(out),
        5 => spell_answer(out),
        7 => spell_gathered(out),
        8 => spell_base(out),
        12 => spell_pair(out, 1),
        13 => spell_dumped(out),
        _ => number(out, 7, 3),
    }
}

fn spelled(alloc: Global, kind: u8) -> Result<Vec<u8>, NoMemory> {
    let mut out = Vec::new(alloc);
    out.push(kind)?;
    spell_fields(&mut out, kind)?;
    Ok(out)
}

fn kind_of(message: &Message) -> u8 {
    match message {
        Message::Part(_) => 1,
        Message::Prepared(_) => 2,
        Message::Committed(_) => 3,
        Message::Ask(_) => 4,
        Message::Answer(_) => 5,
        Message::Gather(_) => 6,
        Message::Gathered(_) => 7,
        Message::Stage(_) => 8,
        Message::Staged(_) => 9,
        Message::Switch(_) => 10,
        Message::Switched(_) => 11,
        Message::Dump(_) => 12,
        Message::Dumped(_) => 13,
    }
}

/// The bytes are a message of that kind, and it is written with the same bytes.
fn is_read_and_written(alloc: Global, kind: u8, bytes: &[u8]) -> Result<bool, NoMemory> {
    match decode(alloc, bytes) {
        Ok(message) => {
            let again = encode(alloc, &message)?;
            Ok(kind_of(&message) == kind && again.as_slice() == bytes)
        }
        Err(_) => Ok(false),
    }
}

/// Each proper front of the bytes is short.
fn fronts_are_short(alloc: Global, bytes: &[u8]) -> bool {
    for length in 0..bytes.len() {
        if !matches!(decode(alloc, &bytes[..length]), Err(MessageError::Short)) {
            return false;
        }
    }
    true
}

fn one_spelling(alloc: Global, kind: u8) -> Result<bool, NoMemory> {
    let mut bytes = spelled(alloc, kind)?;
    let read = is_read_and_written(alloc, kind, bytes.as_slice())?;
    let fronts = fronts_are_short(alloc, bytes.as_slice());
    bytes.push(0)?;
    let trailing = matches!(decode(alloc, bytes.as_slice()), Err(MessageError::Trailing));
    Ok(read && fronts && trailing)
}

#[test]
fn each_kind_has_one_spelling(rt: HostRuntime) {
    for kind in 1..14 {
        assert!(rt; one_spelling(rt.alloc(), kind) == Ok(true), "at {kind}");
    }
}

fn refusal(alloc: Global, bytes: &[u8]) -> Option<MessageError> {
    decode(alloc, bytes).err()
}

/// The spelling of that kind, with another byte in one place.
fn refusal_of_changed(
    alloc: Global,
    kind: u8,
    place: usize,
    byte: u8,
) -> Result<Option<MessageError>, NoMemory> {
    let mut bytes = spelled(alloc, kind)?;
    if place < bytes.len() {
        bytes[place] = byte;
    }
    Ok(refusal(alloc, bytes.as_slice()))
}

/// An answer whose bytes end with its length, which is 4,097.
fn long_answer(alloc: Global) -> Result<Option<MessageError>, NoMemory> {
    let mut bytes = Vec::new(alloc);
    bytes.push(5)?;
    spell_asked(&mut bytes)?;
    put_u16(&mut bytes, 4097)?;
    Ok(refusal(alloc, bytes.as_slice()))
}

#[test]
fn refusals(rt: HostRuntime) {
    assert!(rt; refusal(rt.alloc(), &[]) == Some(MessageError::Short));
    assert!(rt; refusal(rt.alloc(), &[14]) == Some(MessageError::Tag));
    assert!(rt; refusal(rt.alloc(), &[0, 1, 2]) == Some(MessageError::Tag));
    assert!(rt; refusal(rt.alloc(), &[6, 0, 0, 0, 0, 0, 0, 0, 3]) == None);
    assert!(rt;
        refusal(rt.alloc(), &[6, 0, 0, 0, 0, 0, 0, 0, 3, 0]) == Some(MessageError::Trailing)
    );
    assert!(rt; long_answer(rt.alloc()) == Ok(Some(MessageError::Count)));
    for (kind, place, byte) in [
        // another version; no fronts, 17 of them; no touched region; 65 writes; an empty write
        (1, 1, 2),
        (1, 30, 0),
        (1, 30, 17),
        (1, 47, 0),
        (1, 114, 65),
        (1, 118, 0),
        // 13 digests; too many blocks; blocks without a size; a size without blocks
        (5, 34, 13),
        (8, 161, 0x10),
        (8, 166, 0),
        (8, 164, 0),
    ] {
        assert!(rt;
            refusal_of_changed(rt.alloc(), kind, place, byte) == Ok(Some(MessageError::Count)),
            "at {kind} {place} {byte}"
        );
    }
}

fn numbers_in_bytes(alloc: Global) -> Result<bool, NoMemory> {
    let mut out = Vec::new(alloc);
    put_u8(&mut out, 0x01)?;
    put_u16(&mut out, 0x0203)?;
    put_u32(&mut out, 0x04050607)?;
    put_u64(&mut out, 0x08090a0b0c0d0e0f)?;
    put_bytes(&mut out, &[0x10; 33])?;
    Ok(are_read(out.as_slice()))
}

fn are_read(bytes: &[u8]) -> bool {
    let mut fields = Fields::new(bytes);
    let first = fields.u8().ok() == Some(0x01) && fields.u16().ok() == Some(0x0203);
    let next = fields.u32().ok() == Some(0x04050607)
        && fields.u64().ok() == Some(0x08090a0b0c0d0e0f);
    let array = fields.array32().ok() == Some([0x10; 32]);
    let short = fields.rest() == 1 && fields.u16().is_err() && fields.rest() == 1;
    first && next && array && short && fields.u8_within(0x11, 0x12) == Err(FieldError::Count)
}

#[test]
fn numbers(rt: HostRuntime) {
    assert!(rt; numbers_in_bytes(rt.alloc()) == Ok(true));
}

/// A record is read, copied and written, whole and without its tag.
fn record_again(alloc: Global) -> Result<bool, NoMemory> {
    let mut bytes = Vec::new(alloc);
    spell_record(&mut bytes)?;
    let mut fields = Fields::new(bytes.as_slice());
    match read_record(alloc, &mut fields) {
        Ok(rec) => {
            let copy = rec.try_clone(alloc)?;
            let mut out = Vec::new(alloc);
            write_record(&rec, &mut out)?;
            let front = payload(alloc, &rec)?;
            let cut = front.len() + 32 == bytes.len();
            Ok(
                same_record(&rec, &copy)
                    && out.as_slice() == bytes.as_slice()
                    && cut
                    && bytes.starts_with(front.as_slice()),
            )
        }
        Err(_) => Ok(false),
    }
}

fn base_again(alloc: Global) -> Result<bool, NoMemory> {
    let mut bytes = Vec::new(alloc);
    spell_base(&mut bytes)?;
    let mut fields = Fields::new(bytes.as_slice());
    match read_base(alloc, &mut fields) {
        Ok(base) => {
            let copy = base.try_clone(alloc)?;
            Ok(same_base(&base, &copy) && fields.rest() == 0)
        }
        Err(_) => Ok(false),
    }
}

fn batches_compared(alloc: Global) -> Result<bool, NoMemory> {
    let mut batch = Items::new(alloc);
    batch.push(Write {
        block: 7,
        bytes: Items::from_slice(alloc, &[1, 2])?,
    })?;
    let copy = batch.try_clone(alloc)?;
    let other = Items::new(alloc);
    Ok(same_batch(&batch, &copy) && !same_batch(&batch, &other))
}

#[test]
fn records(rt: HostRuntime) {
    assert!(rt; record_again(rt.alloc()) == Ok(true));
    assert!(rt; base_again(rt.alloc()) == Ok(true));
    assert!(rt; batches_compared(rt.alloc()) == Ok(true));
}
