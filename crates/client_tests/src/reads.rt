//! Verified reads: an answer of each verdict in turn, strikes and faults. A volume of two regions
//! of four blocks of one byte, with three replicas; region 1 is as of batch 5, and holds 0b, 0c, 0d and 0e as the volume's
//! blocks 4 to 7. Paths and digests are those of the plain functions on the blocks.

use merkle_region::{path_of, root};
use salus_hash::Digest;
use salus_message::Answer;
use salus_types::{Bytes, Geometry, Items, NoMemory, NodeName, Path, Strike};
use std::alloc::Global;
use std::test::*;
use verified_read::{Question, Reads, Standing, Verdict};

const NUMBER: u64 = 5;

fn block_of(alloc: Global, byte: u8) -> Result<Bytes, NoMemory> {
    Items::from_slice(alloc, [byte].as_slice())
}

/// The blocks of region 1, with that byte as the third.
fn blocks_with(alloc: Global, third: u8) -> Result<Vec<Bytes>, NoMemory> {
    let mut blocks = Vec::new(alloc);
    for byte in [11, 12, third, 14] {
        blocks.push(block_of(alloc, byte)?)?;
    }
    Ok(blocks)
}

fn root_of(blocks: &[Bytes]) -> Option<Digest> {
    if blocks.len() == 4 {
        Some(root(2, blocks))
    } else {
        None
    }
}

fn root_with(alloc: Global, third: u8) -> Option<Digest> {
    match blocks_with(alloc, third) {
        Ok(blocks) => root_of(blocks.as_slice()),
        Err(NoMemory) => None,
    }
}

fn path_among(alloc: Global, blocks: &[Bytes], place: u32) -> Result<Path, NoMemory> {
    if blocks.len() == 4 && place < 4 {
        path_of(alloc, 2, blocks, place)
    } else {
        Ok(Items::new(alloc))
    }
}

fn path_at(alloc: Global, place: u32) -> Result<Path, NoMemory> {
    match blocks_with(alloc, 13) {
        Ok(blocks) => path_among(alloc, blocks.as_slice(), place),
        Err(NoMemory) => Err(NoMemory),
    }
}

/// The answer to a read of the volume's block 6, the third of region 1.
fn answer(alloc: Global, read: u64, at: u64, byte: u8) -> Result<Answer, NoMemory> {
    Ok(Answer {
        session: 1,
        read,
        block: 6,
        at,
        bytes: block_of(alloc, byte)?,
        path: path_at(alloc, 2)?,
    })
}

/// As a row changes it: `o` is of another block, `l` has two bytes, `s` has no path.
fn change(alloc: Global, answer: &mut Answer, kind: u8) -> Result<(), NoMemory> {
    match kind {
        b'o' => answer.block = 7,
        b'l' => answer.bytes.push(13)?,
        b's' => answer.path = Items::new(alloc),
        _ => {}
    }
    Ok(())
}

fn node(region: u16, replica: u8) -> NodeName {
    NodeName { region, replica }
}

/// Asks, if there is room and the number is new.
fn ask(alloc: Global, reads: &mut Reads, event: u64, number: u64) -> bool {
    if reads.is_full() {
        return false;
    }
    match reads.question(number) {
        Some(_) => false,
        None => {
            let question = Question {
                event,
                number,
                block: 6,
            };
            reads.ask(alloc, question).is_ok()
        }
    }
}

// ---- verdicts

/// The root with that third block, by the letter of a row.
fn third_of(letter: u8) -> u8 {
    match letter {
        b'w' => 99,
        b'v' => 98,
        _ => 13,
    }
}

/// The verdict as a letter, where it names these roots, or that batch.
fn letter_of(verdict: Verdict, at: u64, held: Digest, got: Digest) -> u8 {
    match verdict {
        Verdict::Unknown => b'u',
        Verdict::Block => b'g',
        Verdict::Stale { .. } if verdict == Verdict::Stale { at } => b's',
        Verdict::Past { .. } if verdict == Verdict::Past { at } => b'p',
        Verdict::Bad { .. } if verdict == Verdict::Bad { held, got } => b'b',
        _ => b'?',
    }
}

/// What an answer is worth, as a letter.
fn take(reads: &mut Reads, from: NodeName, answer: &Answer, held: Digest, got: Digest) -> u8 {
    let verdict = reads.take_answer(from, answer, NUMBER, &held);
    letter_of(verdict, answer.at, held, got)
}

fn judged(
    alloc: Global,
    reads: &mut Reads,
    from: NodeName,
    made: Result<Answer, NoMemory>,
    third: u8,
) -> u8 {
    let (Some(held), Some(got)) = (root_with(alloc, 13), root_with(alloc, third)) else {
        return b'?';
    };
    match &made {
        Ok(answer) => take(reads, from, answer, held, got),
        Err(NoMemory) => b'?',
    }
}

fn answer_of(alloc: Global, kind: u8, read: u64, at: u64, third: u8) -> Result<Answer, NoMemory> {
    match answer(alloc, read, at, third) {
        Ok(mut made) => match change(alloc, &mut made, kind) {
            Ok(()) => Ok(made),
            Err(NoMemory) => Err(NoMemory),
        },
        Err(NoMemory) => Err(NoMemory),
    }
}

/// Whether these are the strikes of all three replicas, the first of its first answer.
fn are_all_struck(strikes: &[Option<Strike>], held: Digest, first: Digest, second: Digest) -> bool {
    let past = Strike::Past {
        at: 7,
        number: NUMBER,
    };
    strikes
        == [
            Some(past),
            Some(Strike::Bad { held, got: second }),
            Some(Strike::Bad { held, got: first }),
        ]
        .as_slice()
}

fn is_fault_of_all(alloc: Global, reads: &Reads, read: u64) -> bool {
    match (
        reads.faulted(read),
        root_with(alloc, 13),
        root_with(alloc, 99),
        root_with(alloc, 98),
    ) {
        (Some(strikes), Some(held), Some(first), Some(second)) => {
            are_all_struck(strikes.as_slice(), held, first, second)
        }
        _ => false,
    }
}

fn digit(byte: u8) -> u8 {
    byte.saturating_sub(b'0')
}

fn number(tens: u8, ones: u8) -> u64 {
    digit(tens) as u64 * 10 + digit(ones) as u64
}

/// A row that asks, closes, or looks.
fn is_so(alloc: Global, reads: &mut Reads, step: u8, number: u64) -> bool {
    match step {
        b'q' => ask(alloc, reads, number, number),
        b'c' => {
            reads.close(number);
            true
        }
        b'n' => reads.count() == number,
        b'f' => reads.faulted(number).is_none(),
        b'k' => reads.question(number).is_none(),
        _ => is_fault_of_all(alloc, reads, number),
    }
}

/// Whether a row of seven bytes holds: a step with a number, or an answer by its kind, its replica, its read, its batch and
/// its third block, with its verdict.
fn row_holds(alloc: Global, reads: &mut Reads, row: &[u8]) -> bool {
    let [kind, replica, tens, ones, at, third, letter] = row else {
        return false;
    };
    let read = number(*tens, *ones);
    if *replica == b'.' {
        return is_so(alloc, reads, *kind, read);
    }
    let from = node(u16::from(*kind != b'r'), digit(*replica));
    let third = third_of(*third);
    let made = answer_of(alloc, *kind, read, u64::from(digit(*at)), third);
    judged(alloc, reads, from, made, third) == *letter
}

fn wrong_in<'a>(alloc: Global, reads: &mut Reads, text: &'a [u8]) -> Option<&'a [u8]> {
    for row in text.chunks(7) {
        if !row_holds(alloc, reads, row) {
            return Some(row);
        }
    }
    None
}

/// Answers that fit no question: another number, another block, a sender of region 0, a block and a path of another length.
/// Two of three replicas are struck, one of them after a stale answer and one that is past, and then one of these gives the
/// block. Then all three are struck, the first of them twice; its first strike stays.
fn verdicts() -> &'static [u8] {
    b"q.09...t0085aur0095auo0095aul0095aus0095aun.01...\
        t0094ast0096apt1095wbt0095wbf.09...n.01...t1095agn.00...k.09...\
        q.10...t0107apt0105vbt2105wbf.10...t1105vbx.10...c.10...f.10...n.00..."
}

fn wrong_verdict(alloc: Global) -> Option<&'static [u8]> {
    let Ok(geometry) = Geometry::new(1, 2, 1, 3) else {
        return Some(b"");
    };
    wrong_in(alloc, &mut Reads::new(alloc, &geometry), verdicts())
}

// ---- as a caller does who climbs the path by itself

/// Whether an answer with another block is judged before its path, and strikes by the path's root then.
fn strikes(asks: &mut Reads, wrong: &Answer, held: Digest, got: Digest) -> bool {
    let is_judged = asks.judge(node(0, 0), wrong, NUMBER) == Standing::Unknown
        && asks.judge(node(1, 0), wrong, NUMBER) == Standing::Present
        && asks.faulted(wrong.read).is_none();
    asks.take_differing(node(1, 0), wrong, &held, &got);
    let is_past = asks.judge(node(1, 0), wrong, 3) == Standing::Past { at: NUMBER };
    match asks.faulted(wrong.read) {
        Some(strikes) => {
            is_judged
                && is_past
                && strikes.as_slice() == [Some(Strike::Bad { held, got })].as_slice()
        }
        None => false,
    }
}

fn is_stale(alloc: Global, asks: &mut Reads, read: u64) -> bool {
    match answer(alloc, read, 4, 13) {
        Ok(stale) => asks.judge(node(1, 0), &stale, NUMBER) == Standing::Stale { at: 4 },
        Err(NoMemory) => false,
    }
}

fn is_judged_first(alloc: Global, asks: &mut Reads, read: u64) -> bool {
    let (Some(held), Some(got)) = (root_with(alloc, 13), root_with(alloc, 99)) else {
        return false;
    };
    match answer(alloc, read, NUMBER, 99) {
        Ok(wrong) => is_stale(alloc, asks, read) && strikes(asks, &wrong, held, got),
        Err(NoMemory) => false,
    }
}

fn judged_first(alloc: Global) -> bool {
    let Ok(geometry) = Geometry::new(1, 2, 1, 1) else {
        return false;
    };
    let mut asks = Reads::new(alloc, &geometry);
    let number = 4294967298;
    ask(alloc, &mut asks, 2, number) && is_judged_first(alloc, &mut asks, number)
}

#[test]
fn answers_are_judged(rt: HostRuntime) {
    assert_eq!(rt; wrong_verdict(rt.alloc()), None);
    assert!(rt; judged_first(rt.alloc()));
}
