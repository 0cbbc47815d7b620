ghost use Rattle.std.specs.Prelude.{◌≡◌, All, length, IfOk};
ghost use Rattle.client_tag.specs.Ranges.{IsBetween, IsHeader, IsRecord, IsWrite};

use client_tag::{is_genuine, seal};
use salus_hash::{Digest, HmacKey, leaf_digest};
use salus_types::{Header, Items, NoMemory, PlaceWrite, Record, Writes};
use sha2::{Digest as _, Sha256};
use std::alloc::Global;

/// The payload of such a record: 110 bytes and those written.
const PAYLOAD_BYTES: usize = 366;

/// Two blocks of SHA-256 more.
const HASHED_BYTES: usize = PAYLOAD_BYTES + 128;

fn header(alloc: Global) -> Result<Header, NoMemory>
    ensures { IfOk result IsHeader }
{
    let root = leaf_digest(&[7]);
    Ok(Header {
        version: 1,
        session: 1,
        seq: 1,
        region: 0,
        previous: 0,
        leader_before: 0,
        fronts: Items::from_slice(alloc, &[1])?,
        touched: Items::from_slice(alloc, &[0])?,
        root,
        top: root,
    })
}

fn one_write(alloc: Global, bytes: &[u8]) -> Result<Writes, NoMemory>
    requires { IsBetween 1 4096 (length bytes.now) }
    ensures { IfOk result (λ writes. (length writes ≡ 1) × All IsWrite writes) }
{
    let mut writes = Items::new(alloc);
    writes.push(PlaceWrite {
        place: 0,
        bytes: Items::from_slice(alloc, bytes)?,
    })?;
    Ok(writes)
}

/// The part of a batch that writes one block of 256 bytes.
pub fn part(alloc: Global) -> Result<Record, NoMemory>
    ensures { IfOk result IsRecord }
{
    let header = header(alloc)?;
    let writes = one_write(alloc, &[7; 256])?;
    Ok(Record {
        header,
        writes,
        run: None,
        tag: Digest::from_bytes([0; 32]),
    })
}

/// Seals the record under each number from the one to before the other. The answer is a mix of the tags.
pub fn seal_each(
    alloc: Global,
    key: &HmacKey,
    rec: &mut Record,
    from: u32,
    to: u32,
) -> Result<u8, NoMemory>
    requires { IsRecord rec.old }
    ensures { IsRecord rec.new }
{
    let mut mixed: u8 = 0;
    'each: for number in from..to {
        rec.header.seq = number as u64;
        seal(alloc, key, rec)?;
        mixed ^= rec.tag.as_bytes()[0];
    }
    Ok(mixed)
}

/// How many of these records are genuine as soon as they are sealed, and not before.
pub fn sealed_well(
    alloc: Global,
    key: &HmacKey,
    rec: &mut Record,
    count: u32,
) -> Result<u32, NoMemory>
    requires { IsRecord rec.old }
{
    let mut good: u32 = 0;
    'each: for number in 0..count {
        rec.header.seq = number as u64;
        let before = is_genuine(alloc, key, rec)?;
        seal(alloc, key, rec)?;
        if is_genuine(alloc, key, rec)? && !before {
            good = good.saturating_add(1);
        }
    }
    Ok(good)
}

/// Hashes as many bytes as the payload and two blocks of SHA-256 have, under each number from the one to before the other.
/// The answer is a mix of the digests.
pub fn hash_each(from: u32, to: u32) -> u8 {
    let mut bytes = [7; HASHED_BYTES];
    let mut mixed: u8 = 0;
    for number in from..to {
        bytes[..4].copy_from_slice(&number.to_be_bytes());
        mixed ^= Sha256::digest(bytes.as_slice())[0];
    }
    mixed
}
