//! Tags: HMAC under keys of several lengths, the bytes of a sealed record, and records that are genuine until one byte
//! is changed. What is expected was computed with Python's `hmac`.

ghost use Rattle.std.specs.Prelude.{◌≡◌, All, length, IfOk};
ghost use Rattle.client_tag.specs.Ranges.{IsHeader, IsRecord, IsWrite};

use client_tag::{is_genuine, payload, read_record, seal, write_record};
use salus_codec::{FieldError, Fields, put_bytes, put_u8, put_u16, put_u64};
use salus_hash::{Digest, HmacKey, hmac, leaf_digest};
use salus_message::{Message, Part, encode};
use salus_types::{Header, Items, NoMemory, PlaceWrite, Record, Writes};
use std::alloc::Global;
use std::test::*;

/// The first bytes of 01, 02, 03 and so on.
fn key_bytes() -> [u8; 64] {
    let mut bytes = [0; 64];
    for (i, byte) in bytes.iter_mut().enumerate() {
        *byte = i as u8 + 1;
    }
    bytes
}

fn is_hex_of(text: &str, digest: &Digest) -> bool {
    let mut bytes = [0; 32];
    hex::decode_to_slice(text, &mut bytes).is_ok() && Digest::from_bytes(bytes) == *digest
}

#[test]
fn keys_of_several_lengths(rt: HostRuntime) {
    let bytes = key_bytes();
    let text = b"what do ya want for nothing?";
    for (length, expected) in [
        (
            0,
            "76d9e7194e7dbc3aa00bbe8ffb9f6fcb5a932170f971f948bb2ab61607d2b9d6",
        ),
        (
            1,
            "0d11795ed0f2a7bb4baee1b5fd05ce26c0d7a6584d1584c68cf1c4f89c52a9d5",
        ),
        (
            63,
            "7349b51c4d72f90e7747ea9f748ad34b8c68a378b860bb1be0714e99f52af36c",
        ),
        (
            64,
            "92b2e4167c6e7e95288a255c9fd44870fdb069d7792d5f77482ff04243494a70",
        ),
    ] {
        let key = &bytes[..length];
        assert!(rt; is_hex_of(expected, &hmac(key, text)), "of {length} bytes");
        assert!(rt;
            is_hex_of(expected, &HmacKey::new(key).hmac(text)),
            "of {length} bytes"
        );
    }
}

fn first_header(alloc: Global) -> Result<Header, NoMemory>
    ensures { IfOk result IsHeader }
{
    let root = leaf_digest(&[7]);
    Ok(Header {
        version: 1,
        session: 1,
        seq: 1,
        region: 0,
        previous: 0,
        leader_before: 0,
        fronts: Items::from_slice(alloc, &[1])?,
        touched: Items::from_slice(alloc, &[0])?,
        root,
        top: root,
    })
}

fn first_writes(alloc: Global) -> Result<Writes, NoMemory>
    ensures { IfOk result (λ writes. (length writes ≡ 1) × All IsWrite writes) }
{
    let mut writes = Items::new(alloc);
    writes.push(PlaceWrite {
        place: 0,
        bytes: Items::from_slice(alloc, &[7])?,
    })?;
    Ok(writes)
}

/// The part of the first batch of a volume of one block, which writes the byte 07.
fn first_part(alloc: Global) -> Result<Record, NoMemory>
    ensures { IfOk result IsRecord }
{
    let header = first_header(alloc)?;
    let writes = first_writes(alloc)?;
    Ok(Record {
        header,
        writes,
        run: None,
        tag: Digest::from_bytes([0; 32]),
    })
}

/// Its bytes without the tag: 111 of them.
const FIRST_PAYLOAD: &str = "\
    01\
    0000000000000001\
    0000000000000001\
    0000\
    0000000000000000\
    0000\
    010000000000000001\
    010000\
    2ecd8a6b7d2845546659ad4cf443533cf921b19dc81fa83934e83821b4dfdcb7\
    2ecd8a6b7d2845546659ad4cf443533cf921b19dc81fa83934e83821b4dfdcb7\
    010000000107";

/// Its tag under the key 6b.
const FIRST_TAG: &str = "4c62ae4068f95a31d20109b8109900f0d4f1ea63eaed1ad336ed9d7fd3d8b8e8";

/// The part's payload before it is sealed, and the message that carries it sealed.
fn sealed_first_part(alloc: Global) -> Result<(Vec<u8>, Vec<u8>), NoMemory> {
    let mut rec = first_part(alloc)?;
    let front = payload(alloc, &rec)?;
    seal(alloc, &HmacKey::new(&[0x6b]), &mut rec)?;
    let message = encode(alloc, &Message::Part(Part { rec }))?;
    Ok((front, message))
}

#[test]
fn the_first_part_sealed(rt: HostRuntime) -> Result<(), Fail> {
    let (front, message) = sealed_first_part(rt.alloc())?;
    assert!(rt; front.len() == 111 && message.len() == 144);
    assert!(rt; hex::encode(rt.alloc(), front)?.as_str() == FIRST_PAYLOAD);
    assert!(rt; message[0] == 1);
    assert!(rt; hex::encode(rt.alloc(), &message[1..112])?.as_str() == FIRST_PAYLOAD);
    assert!(rt; hex::encode(rt.alloc(), &message[112..])?.as_str() == FIRST_TAG);
    Ok(())
}

/// A record's bytes with a tag of zeros: so many regions, and so many writes of so many bytes each.
fn spelled(alloc: Global, regions: u8, writes: u8, size: u16) -> Result<Vec<u8>, NoMemory> {
    let mut out = Vec::new(alloc);
    put_bytes(
        &mut out,
        &[1, 0, 0, 0, 0, 0, 0, 0, 3, 0, 0, 0, 0, 0, 0, 0, 9, 0, 1],
    )?;
    put_bytes(&mut out, &[0, 0, 0, 0, 0, 0, 0, 8, 0, 0])?;
    spell_regions(&mut out, regions)?;
    put_bytes(&mut out, &[0xaa; 32])?;
    put_bytes(&mut out, &[0xbb; 32])?;
    spell_writes(&mut out, writes, size)?;
    put_bytes(&mut out, &[0; 32])?;
    Ok(out)
}

fn spell_regions(out: &mut Vec<u8>, regions: u8) -> Result<(), NoMemory> {
    put_u8(out, regions)?;
    for _ in 0..regions {
        put_u64(out, 9)?;
    }
    put_u8(out, regions)?;
    for region in 0..regions {
        put_u16(out, region as u16)?;
    }
    Ok(())
}

fn spell_writes(out: &mut Vec<u8>, writes: u8, size: u16) -> Result<(), NoMemory> {
    put_u8(out, writes)?;
    for place in 0..writes {
        put_u16(out, place as u16)?;
        put_u16(out, size)?;
        for _ in 0..size {
            out.push(0x11)?;
        }
    }
    Ok(())
}

/// The bytes of the record that these bytes are, sealed; none where they are no record.
fn sealed(alloc: Global, key: &HmacKey, bytes: &[u8]) -> Result<Vec<u8>, NoMemory> {
    let mut out = Vec::new(alloc);
    if let Ok(mut rec) = read_record(alloc, &mut Fields::new(bytes)) {
        seal(alloc, key, &mut rec)?;
        write_record(&rec, &mut out)?;
    }
    Ok(out)
}

#[derive(Clone, Copy, PartialEq, Eq, Debug, Drop)]
enum Finding {
    NoRecord,
    Genuine,
    Forged,
}

fn judged(alloc: Global, key: &HmacKey, bytes: &[u8]) -> Result<Finding, NoMemory> {
    match read_record(alloc, &mut Fields::new(bytes)) {
        Ok(rec) => {
            if is_genuine(alloc, key, &rec)? {
                Ok(Finding::Genuine)
            } else {
                Ok(Finding::Forged)
            }
        }
        Err(FieldError::NoMemory) => Err(NoMemory),
        Err(_) => Ok(Finding::NoRecord),
    }
}

/// At how many places of the bytes another byte makes a forged record; none where a place makes a genuine one.
fn forged_places(
    alloc: Global,
    key: &HmacKey,
    bytes: &mut Vec<u8>,
    change: u8,
) -> Result<Option<usize>, NoMemory> {
    let mut forged: usize = 0;
    for place in 0..bytes.len() {
        bytes[place] ^= change;
        match judged(alloc, key, bytes.as_slice())? {
            Finding::NoRecord => {}
            Finding::Genuine => return Ok(None),
            Finding::Forged => forged = forged.saturating_add(1),
        }
        bytes[place] ^= change;
    }
    Ok(Some(forged))
}

#[test]
fn genuine_until_a_byte_is_changed(rt: HostRuntime) -> Result<(), Fail> {
    let alloc = rt.alloc();
    let key = HmacKey::new(b"Jefe");
    let other = HmacKey::new(b"Jeff");
    // a record's regions, writes and bytes a write; at how many places it is still a record with the last bit of the
    // byte there changed, and with the first
    for (regions, writes, size, last, first) in [
        (1, 0, 1, 134, 134),
        (1, 1, 1, 138, 137),
        (2, 3, 5, 168, 165),
        (16, 2, 300, 889, 888),
        (4, 64, 2, 422, 420),
    ] {
        let plain = spelled(alloc, regions, writes, size)?;
        assert!(rt; judged(alloc, &key, plain.as_slice()) == Ok(Finding::Forged));
        let mut bytes = sealed(alloc, &key, plain.as_slice())?;
        assert!(rt; bytes.len() == plain.len());
        assert!(rt; judged(alloc, &key, bytes.as_slice()) == Ok(Finding::Genuine));
        assert!(rt; judged(alloc, &other, bytes.as_slice()) == Ok(Finding::Forged));
        assert!(rt; forged_places(alloc, &key, &mut bytes, 0x01) == Ok(Some(last)));
        assert!(rt; forged_places(alloc, &key, &mut bytes, 0x80) == Ok(Some(first)));
    }
    Ok(())
}
