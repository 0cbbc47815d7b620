//! The waiting line of a client, and what a serving client refuses. A volume of two regions of two blocks of one byte.
ghost use Rattle.std.specs.Prelude.{◌≡◌, ◌<◌, ◌^◌};

use printed_lines::RequestRefusal;
use salus_model::Request;
use salus_types::{Batch, Geometry, Items, NoMemory, Write};
use std::alloc::Global;
use std::str::SplitWhitespace;
use std::test::*;
use waiting_line::{Standing, Taken, WaitingLine, refusal};

/// A write to a block.
fn write_to(alloc: Global, block: u64) -> Result<Request, NoMemory> {
    let bytes = Items::from_slice(alloc, [7].as_slice())?;
    let mut batch: Batch = Items::new(alloc);
    batch.push(Write { block, bytes })?;
    Ok(Request::Write { batch })
}

fn request_of(alloc: Global, letter: u8) -> Result<Request, NoMemory> {
    match letter {
        b'w' => write_to(alloc, 0),
        b'r' => Ok(Request::Read { block: 1 }),
        _ => Ok(Request::Barrier),
    }
}

/// By letters: a write, a read, a barrier; `-` is none. Their events count from 1.
fn line_of(alloc: Global, letters: &str) -> Result<WaitingLine, NoMemory> {
    let mut line = WaitingLine::new(alloc);
    let mut event = 0u64;
    for letter in letters.as_bytes() {
        if *letter != b'-' {
            event = event.wrapping_add(1);
            line.join(Taken::new(event, request_of(alloc, *letter)?))?;
        }
    }
    Ok(line)
}

/// The event of the request that leaves; 0 where none does.
fn event_left(line: &mut WaitingLine) -> u64 {
    match line.leave() {
        Some(taken) => taken.event(),
        None => 0,
    }
}

fn digit(byte: u8) -> u64 {
    u64::from(byte.saturating_sub(b'0'))
}

/// Whether those of these events leave, and then none; `-` is none.
fn leave(line: &mut WaitingLine, events: &str) -> bool {
    for event in events.as_bytes() {
        if *event != b'-' && event_left(line) != digit(*event) {
            return false;
        }
    }
    event_left(line) == 0
}

/// Whether the write of that event stands at the head; 0 is none.
fn is_head(line: &WaitingLine, event: u64) -> bool {
    match line.head() {
        Some(taken) => taken.event() == event && line.is_held_up(),
        None => event == 0,
    }
}

fn takes_a_write(line: &mut WaitingLine) -> bool {
    match line.take_head() {
        Some(taken) => matches!(taken.into_request(), Request::Write { .. }),
        None => false,
    }
}

/// Whether these leave before the first write, that write stands at the head then, and these leave behind it.
fn leaves(line: &mut WaitingLine, first: &str, head: &str, then: &str) -> bool {
    if !leave(line, first) {
        return false;
    }
    match head.as_bytes() {
        [event @ b'1'..=b'9'] => {
            is_head(line, digit(*event)) && takes_a_write(line) && leave(line, then)
        }
        _ => is_head(line, 0) && leave(line, then),
    }
}

/// Whether the requests of a row leave as it says: their letters, the events of those before the first write, that of the
/// write, and those behind it.
fn row_leaves(alloc: Global, row: &str) -> bool {
    let mut words = row.split_whitespace();
    let letters = words.next().unwrap_or("");
    let first = words.next().unwrap_or("");
    let head = words.next().unwrap_or("");
    match line_of(alloc, letters) {
        Ok(mut line) => leaves(&mut line, first, head, words.next().unwrap_or("")),
        Err(NoMemory) => false,
    }
}

fn wrong_leave(alloc: Global) -> Option<&'static str> {
    for row in "rbwrwb 12 3 4\nwrb - 1 23\nrr 12 - -\n- - - -".lines() {
        if !row_leaves(alloc, row) {
            return Some(row);
        }
    }
    None
}

/// Whether so many writes, reads and barriers wait.
fn counts(alloc: Global, letters: &str, writes: u64, reads: u64, barriers: u64) -> bool {
    match line_of(alloc, letters) {
        Ok(line) => {
            line.writes() == writes && line.reads() == reads && line.barriers() == barriers
        }
        Err(NoMemory) => false,
    }
}

/// What is refused beside these numbers; they are small, so no sum goes past its type.
fn refused(
    standing: Standing,
    line: &WaitingLine,
    request: &Request,
) -> Option<Option<RequestRefusal>> {
    let Ok(geometry) = Geometry::new(1, 1, 1, 1) else {
        return None;
    };
    let Standing {
        last,
        reads,
        barriers,
        ..
    } = standing;
    let most = 1u64 << 32;
    if last >= most || reads >= most || barriers >= most {
        return None;
    }
    if line.writes() >= most || line.reads() >= most || line.barriers() >= most {
        return None;
    }
    Some(refusal(&geometry, &standing, line, request))
}

fn number(words: &mut SplitWhitespace) -> u64 {
    match words.next() {
        Some(word) => word.parse::<u64>().unwrap_or(u64::MAX),
        None => u64::MAX,
    }
}

/// The numbers of the last batch and of the last acknowledged one, and of open reads and barriers.
fn standing(words: &mut SplitWhitespace) -> Standing {
    let last = number(words);
    let acked = number(words);
    let reads = number(words);
    let barriers = number(words);
    Standing {
        last,
        acked,
        reads,
        barriers,
    }
}

fn request(alloc: Global, words: &mut SplitWhitespace) -> Result<Request, NoMemory> {
    let word = words.next().unwrap_or("");
    let first = number(words);
    match word.as_bytes() {
        b"write" => write_to(alloc, first),
        b"read" => Ok(Request::Read { block: first }),
        b"restart" => Ok(Request::Restart { session: 2 }),
        b"reassign" => Ok(Request::Reassign {
            session: 2,
            region: first,
        }),
        _ => Ok(Request::Barrier),
    }
}

fn cause(words: &mut SplitWhitespace) -> Option<RequestRefusal> {
    let word = words.next().unwrap_or("");
    let first = number(words);
    match word.as_bytes() {
        b"range" => Some(RequestRefusal::Range { number: first }),
        b"full" => Some(RequestRefusal::Full { limit: first }),
        b"open" => Some(RequestRefusal::Open),
        b"inflight" => {
            let acked = number(words);
            let reads = number(words);
            Some(RequestRefusal::Inflight {
                submitted: first,
                acked,
                reads,
            })
        }
        _ => None,
    }
}

/// Whether the request that the words spell is refused for the cause behind it.
fn asks(
    alloc: Global,
    standing: Standing,
    line: &WaitingLine,
    words: &mut SplitWhitespace,
) -> bool {
    match request(alloc, words) {
        Ok(request) => refused(standing, line, &request) == Some(cause(words)),
        Err(NoMemory) => false,
    }
}

fn row_is_refused(alloc: Global, row: &str) -> bool {
    let mut words = row.split_whitespace();
    let standing = standing(&mut words);
    match line_of(alloc, words.next().unwrap_or("")) {
        Ok(line) => asks(alloc, standing, &line, &mut words),
        Err(NoMemory) => false,
    }
}

/// In each row the client's four numbers, what waits, a request with a number, and why it is refused.
fn refusals() -> &'static str {
    "\
    20 5 0 0 - write 3 none\n\
    21 5 0 0 - write 3 full 16\n\
    19 5 0 0 wrbw write 3 full 16\n\
    21 5 0 0 - write 4 range 4\n\
    0 0 62 0 wrbw read 3 none\n\
    0 0 63 0 wrbw read 3 full 64\n\
    0 0 64 0 - read 9 range 9\n\
    0 0 0 63 - barrier 0 none\n\
    0 0 0 63 wrbw barrier 0 full 64\n\
    0 0 0 0 - restart 2 open\n\
    0 0 0 0 - reassign 2 range 2\n\
    4 4 0 0 - reassign 1 none\n\
    4 3 5 0 wrbw reassign 1 inflight 6 3 6\n\
    4 4 0 1 - reassign 1 inflight 4 4 0"
}

fn wrong_refusal(alloc: Global) -> Option<&'static str> {
    for row in refusals().lines() {
        if !row_is_refused(alloc, row) {
            return Some(row);
        }
    }
    None
}

#[test]
fn requests_leave_the_waiting_line_or_are_refused(rt: HostRuntime) {
    assert_eq!(rt; wrong_leave(rt.alloc()), None);
    assert!(rt; counts(rt.alloc(), "rbwrwbr", 2, 3, 2));
    assert_eq!(rt; wrong_refusal(rt.alloc()), None);
}
