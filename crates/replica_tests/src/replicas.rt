//! A replica of one block of one byte, of a view at number 0: the part numbered n writes the byte n. Each row of a text has
//! five bytes: it hands over a part, or asks, and says what is answered, with its numbers in decimal digits.
ghost use Rattle.std.specs.Prelude.{◌≡◌, ◌<◌, IfSome};

use crate::fitting::has_shape;
use region_replica::{PartAnswer, RegionReplica};
use region_view::RegionView;
use salus_hash::{Digest, leaf_digest};
use salus_message::{Answer, Ask};
use salus_types::{Base, Bytes, Geometry, Header, Items, NoMemory, NodeName, PlaceWrite, Record};
use std::alloc::Global;
use std::test::*;

fn root_of_byte(byte: u8) -> Digest {
    leaf_digest([byte].as_slice())
}

fn block_of(alloc: Global, byte: u8) -> Result<Bytes, NoMemory> {
    Items::from_slice(alloc, [byte].as_slice())
}

/// The header of a part of the region that goes on from the number before.
fn header_of(alloc: Global, session: u64, seq: u64, root: Digest) -> Result<Header, NoMemory> {
    Ok(Header {
        version: 1,
        session,
        seq,
        region: 0,
        previous: seq.saturating_sub(1),
        leader_before: 0,
        fronts: Items::from_slice(alloc, [seq].as_slice())?,
        touched: Items::from_slice(alloc, [0u16].as_slice())?,
        root,
        top: root,
    })
}

/// The part that writes that byte.
fn part_of(
    alloc: Global,
    session: u64,
    seq: u64,
    byte: u8,
    root: Digest,
) -> Result<Record, NoMemory> {
    let mut writes = Items::new(alloc);
    writes.push(PlaceWrite {
        place: 0,
        bytes: block_of(alloc, byte)?,
    })?;
    Ok(Record {
        header: header_of(alloc, session, seq, root)?,
        writes,
        run: None,
        tag: root,
    })
}

/// The base of the region: the byte 0, with number 0.
fn base_of(alloc: Global) -> Result<Base, NoMemory> {
    let root = root_of_byte(0);
    let mut blocks = Items::new(alloc);
    blocks.push(block_of(alloc, 0)?)?;
    Ok(Base {
        rec: Record {
            header: header_of(alloc, 1, 0, root)?,
            writes: Items::new(alloc),
            run: None,
            tag: root,
        },
        blocks,
    })
}

/// The view of the base, if it fits.
fn view_of(alloc: Global, geometry: &Geometry, base: &Base) -> Option<RegionView>
    ensures { IfSome result (λ view. view.shape ≡ geometry.now) }
{
    if has_shape(geometry, base.blocks.as_slice()) {
        RegionView::new(alloc, geometry, base).ok()
    } else {
        None
    }
}

/// The view of a base of its own.
fn first_view(alloc: Global, geometry: &Geometry) -> Option<RegionView>
    ensures { IfSome result (λ view. view.shape ≡ geometry.now) }
{
    match base_of(alloc) {
        Ok(base) => view_of(alloc, geometry, &base),
        Err(NoMemory) => None,
    }
}

fn digit(byte: u8) -> u64
    ensures { result < 256 }
{
    u64::from(byte.saturating_sub(b'0'))
}

fn number(tens: u8, ones: u8) -> u64 {
    digit(tens) * 10 + digit(ones)
}

// ---- parts

/// The number of a part of one write that is given; 0 where none is.
fn number_given(part: &Option<Record>) -> u64 {
    match part {
        Some(rec) if rec.writes.len() == 1 => rec.header.seq,
        Some(_) => u64::MAX,
        None => 0,
    }
}

/// What is told of a part of that number, as a letter of the rows.
fn letter_of(answer: &PartAnswer, seq: u64) -> u8 {
    match answer {
        PartAnswer::Foreign => b'f',
        PartAnswer::Known => b'k',
        PartAnswer::Early => b'e',
        PartAnswer::Full => b'x',
        PartAnswer::Differs { .. } => b'd',
        PartAnswer::Next(rec) => {
            if rec.header.seq == seq && rec.writes.len() == 1 {
                b'n'
            } else {
                b'?'
            }
        }
    }
}

/// Hands over a part, and says whether it is told so of it.
fn hands(
    alloc: Global,
    replica: &mut RegionReplica,
    session: u64,
    seq: u64,
    told: u8,
) -> Result<bool, NoMemory> {
    let byte = (seq % 256) as u8;
    let rec = part_of(alloc, session, seq, byte, root_of_byte(byte))?;
    match replica.take_part(alloc, rec) {
        Ok(answer) => Ok(letter_of(&answer, seq) == told),
        Err(NoMemory) => Err(NoMemory),
    }
}

fn names_both(answer: &PartAnswer) -> bool {
    match answer {
        PartAnswer::Differs { held, got } => *held == root_of_byte(2) && *got == root_of_byte(1),
        _ => false,
    }
}

/// Hands over a part that names another root, and says whether it is refused with both.
fn differs(alloc: Global, replica: &mut RegionReplica) -> Result<bool, NoMemory> {
    let rec = part_of(alloc, 1, 1, 1, root_of_byte(2))?;
    match replica.take_part(alloc, rec) {
        Ok(answer) => Ok(names_both(&answer)),
        Err(NoMemory) => Err(NoMemory),
    }
}

/// Takes the next kept part, and says whether it is that of the number; 0 is none.
fn takes_kept(alloc: Global, replica: &mut RegionReplica, seq: u64) -> Result<bool, NoMemory> {
    match replica.take_kept(alloc) {
        Ok(part) => Ok(number_given(&part) == seq),
        Err(NoMemory) => Err(NoMemory),
    }
}

// ---- asks

/// Whether it is the answer to that read, of the byte as of that number; a read of 0 is none.
fn is_answer(answer: &Option<Answer>, read: u64, at: u64) -> bool {
    match answer {
        Some(answer) => {
            answer.session == 1
                && answer.read == read
                && answer.at == at
                && answer.bytes.as_slice() == [(at % 256) as u8].as_slice()
                && answer.path.is_empty()
        }
        None => read == 0,
    }
}

/// Asks, and says whether that read is answered at once.
fn asks(
    alloc: Global,
    replica: &mut RegionReplica,
    read: u64,
    at: u64,
    answered: u64,
) -> Result<bool, NoMemory> {
    let ask = Ask {
        session: 1,
        read,
        block: 0,
        at,
    };
    match replica.take_ask(alloc, ask) {
        Ok(answer) => Ok(is_answer(&answer, answered, at)),
        Err(NoMemory) => Err(NoMemory),
    }
}

/// Whether the answer to that read is due next.
fn is_due(
    alloc: Global,
    replica: &mut RegionReplica,
    read: u64,
    at: u64,
) -> Result<bool, NoMemory> {
    match replica.due(alloc) {
        Ok(answer) => Ok(is_answer(&answer, read, at)),
        Err(NoMemory) => Err(NoMemory),
    }
}

// ---- rows: `p` hands over a part by its session and number, `w` one with another root, `k` takes a kept one, `a` asks by a
// read and a number, `d` asks what is due, `n` says the view's number

fn row_holds(alloc: Global, replica: &mut RegionReplica, row: &[u8]) -> Result<bool, NoMemory> {
    match row {
        [b'p', session, tens, ones, told] => hands(
            alloc,
            replica,
            digit(*session),
            number(*tens, *ones),
            *told,
        ),
        [b'w', ..] => differs(alloc, replica),
        [b'k', tens, ones, ..] => takes_kept(alloc, replica, number(*tens, *ones)),
        [b'a', read, at, answered, _] => {
            asks(alloc, replica, digit(*read), digit(*at), digit(*answered))
        }
        [b'd', read, at, ..] => is_due(alloc, replica, digit(*read), digit(*at)),
        [b'n', tens, ones, ..] => Ok(replica.view().number() == number(*tens, *ones)),
        _ => Ok(false),
    }
}

/// The first row that doesn't hold.
fn wrong_in<'a>(alloc: Global, replica: &mut RegionReplica, text: &'a [u8]) -> Option<&'a [u8]> {
    for row in text.chunks(5) {
        if !matches!(row_holds(alloc, replica, row), Ok(true)) {
            return Some(row);
        }
    }
    None
}

/// The first row that doesn't hold of a replica in session 1 that keeps nothing yet.
fn wrong_row<'a>(alloc: Global, geometry: &Geometry, text: &'a [u8]) -> Option<&'a [u8]> {
    let name = NodeName {
        region: 0,
        replica: 0,
    };
    match first_view(alloc, geometry) {
        Some(view) => {
            let mut replica = RegionReplica::new(alloc, geometry, name, 1, view);
            wrong_in(alloc, &mut replica, text)
        }
        None => Some(text),
    }
}

/// Parts in the wrong order, and then those that were kept.
fn parts() -> &'static [u8] {
    b"p102ep103ep104ep105ep106ep107ep108ep109ep110ep111ep112ep113ep114ep115ep116ep117e\
        p118xp102ep101np101kp902f\
        k02..k03..k04..k05..k06..k07..k08..k09..k10..k11..k12..k13..k14..k15..k16..k17..k00..n17.."
}

/// Asks as of the numbers 0 to 3, of which one is asked anew.
fn questions() -> &'static [u8] {
    b"a404.a910.a530.a710.a510.a620.d00..p101nd51..d71..d91..d00..p102nd62..d00.."
}

#[test]
fn parts_are_taken_in_order(rt: HostRuntime) {
    let geometry = Geometry::new(0, 0, 1, 1).expect(&rt, "a geometry");
    for text in [parts(), b"w....n00..".as_slice(), questions()] {
        assert_eq!(rt; wrong_row(rt.alloc(), &geometry, text), None);
    }
}
