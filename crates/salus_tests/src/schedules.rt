//! The schedule language and the printed lines, by examples: texts that are refused, with the line and the cause; a
//! text of every event, read, looked at and printed again; and each printed line.

use printed_lines::{Line, RequestRefusal, write_line};
use salus_hash::Digest;
use salus_types::{Items, NoMemory, NodeName, Sender, Strike, Write};
use schedule_text::{Cause, Event, ParseError, parse, print};
use std::alloc::Global;

// The most events of a schedule, and the most bytes of its text.
const MOST_EVENTS: usize = 65_536;

const MOST_BYTES: usize = 67_108_864;

/// Volume lines that are none, each in a row of its own; `~` stands for a line end.
fn no_volumes() -> &'static str {
    "\
~
~volume 0 0 1 1 6b
barrier~
volume 5 0 1 1 6b
volume 0 11 1 1 6b
volume 0 0 0 1 6b
volume 0 0 4097 1 6b
volume 0 0 1 0 6b
volume 0 0 1 6 6b
volume 0 0 18446744073709551616 1 6b
volume 0 10 1025 1 6b
volume 4 10 65 1 6b
volume 00 0 1 1 6b
volume 0 0 +1 1 6b
volume 0 0 1 1 6
volume 0 0 1 1 6b6
volume 0 0 1 1 6g
volume 0 0 1 1 *6b
volume 0 0 1 1 -
volume 0 0 1 1
volume
volume 0 0 1 1 6b 6b
volume  0 0 1 1 6b
 volume 0 0 1 1 6b
Volume 0 0 1 1 6b
volume 5 0 1 1 6b~sleep~"
}

/// Lines behind `volume 0 0 1 1 6b`: the cause and the number of the first wrong line, and the lines.
fn no_events() -> &'static str {
    "\
Word 2 sleep
Word 2 ~
Word 3 barrier~~
Word 3 barrier~sleep~read x~
Word 2 volume 0 0 1 1 6b
Word 2 Read 0
Word 2  read 0
Word 2 read
Word 2 read 0 ~
Word 2 clientcrash 0
Word 2 deliver
Word 2 settle 1 1
Word 2 drop
Word 2 lie client client
Word 2 stop 1 2 3
Word 2 crash 0.0 1 00 00
Word 2 fail 0.0
Word 2 replace
Word 2 restart 2 0
Word 2 reassign 2
Word 2 tick
Word 2 write 0
Word 2 write 0 *07 ~
Word 2 write ~
Number 2 write  ~
Empty 2 write
Number 2 write x *07
Number 2 write 0 *07 x *07
Hex 2 write 0 0
Hex 2 write 0 010
Hex 2 write 0 0g
Hex 2 write 0 -
Hex 2 write 0 ~
Hex 2 write 0 *
Hex 2 write 0 *7
Hex 2 write 0 *0102
Size 2 write 0 0102
Size 2 write 0 0102 x 0g
Number 2 read 18446744073709551616
Number 2 read 01
Number 2 read +1
Number 2 read ~
Number 2 deliver -1
Number 2 settle 1.0
Number 2 drop x
Number 2 stop 1 x 3 zz
Hex 2 stop 1 2 3 0
Number 2 crash 0.0 x 0
Hex 2 crash 0.0 1 0
Hex 2 crash 0.0 1 *00
Node 2 crash client 1 00
Number 2 fail 0.0 0
Number 2 fail 0.0 00
Node 2 fail 9.9 0
Node 2 replace client
Node 2 tick 0.1
Node 2 tick 1.0
Node 2 tick 0.0.0
Node 2 tick 0.00
Node 2 tick 0.
Node 2 tick 0
Node 2 tick Client
Node 2 lie 0.1 x 0
Node 2 lie client 0.1 0
Hex 2 lie client 0.0 0
Hex 2 lie client 0.0 ~
Hex 2 lie client 0.0 --
Hex 2 lie client 0.0 *07
Number 2 restart x
Order 2 restart 0
Order 2 restart 1
Order 3 restart 2~restart 2
Order 4 restart 3~barrier~reassign 2 0
Order 3 reassign 2 0~restart 2
Order 2 reassign 1 0
Number 2 reassign 1 x
Number 2 reassign 2 x
Order 3 restart 2~restart 2~sleep"
}

/// Appends a row's text, in which `~` stands for a line end.
fn add_lines(text: &mut Vec<u8>, row: &str) -> Result<(), NoMemory> {
    for byte in row.as_bytes() {
        text.push(if *byte == b'~' { b'\n' } else { *byte })?;
    }
    Ok(())
}

fn cause_named(name: &str) -> Cause {
    match name {
        "Word" => Cause::Word,
        "Number" => Cause::Number,
        "Node" => Cause::Node,
        "Hex" => Cause::Hex,
        "Size" => Cause::Size,
        "Empty" => Cause::Empty,
        "Order" => Cause::Order,
        "Long" => Cause::Long,
        _ => Cause::Volume,
    }
}

/// Whether the text is refused at that line for that cause.
fn is_refused(alloc: Global, text: &[u8], line: u64, cause: Cause) -> bool {
    match parse(alloc, text) {
        Err(ParseError::Refused(error)) => error.line == line && error.cause == cause,
        _ => false,
    }
}

fn is_no_volume(alloc: Global, row: &str) -> Result<bool, NoMemory> {
    let mut text = Vec::new(alloc);
    add_lines(&mut text, row)?;
    Ok(is_refused(alloc, text.as_slice(), 1, Cause::Volume))
}

/// Whether a row's lines are refused as it says.
fn is_no_event(alloc: Global, row: &str) -> Result<bool, NoMemory> {
    let (name, rest) = row.split_once(' ').unwrap_or(("", ""));
    let (line, lines) = rest.split_once(' ').unwrap_or(("", ""));
    let mut text = Vec::from_slice(alloc, b"volume 0 0 1 1 6b\n")?;
    add_lines(&mut text, lines)?;
    let line = line.parse::<u64>().unwrap_or(0);
    Ok(is_refused(alloc, text.as_slice(), line, cause_named(name)))
}

/// A row's text with a piece that stands behind it so many times, and a back.
fn repeated(
    alloc: Global,
    front: &str,
    piece: &str,
    count: usize,
    back: &str,
) -> Result<Vec<u8>, NoMemory> {
    let mut text = Vec::new(alloc);
    add_lines(&mut text, front)?;
    for _ in 0..count {
        text.extend_from_slice(piece.as_bytes())?;
    }
    add_lines(&mut text, back)?;
    Ok(text)
}

/// Whether so many spaces are refused so.
fn are_refused(alloc: Global, spaces: usize, line: u64, cause: Cause) -> Result<bool, NoMemory> {
    let text = vec![in alloc; b' '; spaces]?;
    Ok(is_refused(alloc, text.as_slice(), line, cause))
}

/// Whether a made text is refused so: `front`, so many times `piece`, `back`.
fn made_is_refused(
    alloc: Global,
    front: &str,
    piece: &str,
    count: usize,
    back: &str,
    line: u64,
    cause: Cause,
) -> bool {
    match repeated(alloc, front, piece, count, back) {
        Ok(text) => is_refused(alloc, text.as_slice(), line, cause),
        Err(_) => false,
    }
}

fn long_lines_are_refused(alloc: Global) -> bool {
    let write = "volume 0 0 1 1 6b~write";
    let read = "volume 0 0 1 1 6b~read";
    let wrong = "volume 0 0 1 1 6b~write x 0g";
    made_is_refused(alloc, write, " 0 *07", 65, "", 2, Cause::Long)
        && made_is_refused(alloc, wrong, " 0 *07", 64, "", 2, Cause::Long)
        && made_is_refused(alloc, write, " 0", 129, "", 2, Cause::Long)
        && made_is_refused(alloc, write, " 0", 127, "", 2, Cause::Word)
        && made_is_refused(alloc, write, " 0", 128, "", 2, Cause::Hex)
        && made_is_refused(alloc, read, " 0", 200, "", 2, Cause::Word)
}

fn long_texts_are_refused(alloc: Global) -> bool {
    let volume = "volume 0 0 1 1 6b~";
    let barrier = "barrier\n";
    made_is_refused(alloc, "volume 0 0 1 1 ", "6b", 65, "", 1, Cause::Volume)
        && made_is_refused(
            alloc,
            volume,
            barrier,
            MOST_EVENTS,
            "tick client",
            65_538,
            Cause::Long,
        )
        && made_is_refused(
            alloc,
            volume,
            barrier,
            MOST_EVENTS - 1,
            "sleep~sleep",
            65_537,
            Cause::Word,
        )
}

/// The first of the rows that isn't refused as it should be.
fn wrong_volume<'a>(alloc: Global, rows: &'a str) -> Option<&'a str> {
    for row in rows.lines() {
        if !matches!(is_no_volume(alloc, row), Ok(true)) {
            return Some(row);
        }
    }
    None
}

fn wrong_event<'a>(alloc: Global, rows: &'a str) -> Option<&'a str> {
    for row in rows.lines() {
        if !matches!(is_no_event(alloc, row), Ok(true)) {
            return Some(row);
        }
    }
    None
}

#[test]
fn texts_are_refused(rt: HostRuntime) {
    let alloc = rt.alloc();
    assert!(rt; is_refused(alloc, b"", 1, Cause::Volume), "no text");
    assert_eq!(rt; wrong_volume(alloc, no_volumes()), None);
    assert_eq!(rt; wrong_event(alloc, no_events()), None);
    assert!(rt; long_lines_are_refused(alloc), "long lines");
    assert!(rt; long_texts_are_refused(alloc), "long texts");
    let longest = are_refused(alloc, MOST_BYTES, 1, Cause::Volume);
    assert!(rt; matches!(longest, Ok(true)), "a text as long as can be");
    let longer = are_refused(alloc, MOST_BYTES + 1, 0, Cause::Long);
    assert!(rt; matches!(longer, Ok(true)), "a byte more");
}

/// Every event, as it is printed.
fn every_event() -> &'static str {
    "volume 2 3 4 3 0aff~write 9 *07 10 ab000f01~read 18446744073709551615~barrier~deliver 0~settle 100~drop 7~lie 1.2 client -~lie client 0.0 00ff~stop 12 3 0 ff~crash 3.0 5 00~fail 0.2 5~replace 1.1~clientcrash~restart 2~reassign 3 99~tick client~tick 2.2~"
}

/// The same schedule, with hex in upper case, a block of equal bytes in full, and no last line end.
fn same_events() -> &'static str {
    "volume 2 3 4 3 0AFF~write 9 07070707 10 AB000f01~read 18446744073709551615~barrier~deliver 0~settle 100~drop 7~lie 1.2 client -~lie client 0.0 00Ff~stop 12 3 0 FF~crash 3.0 5 00~fail 0.2 5~replace 1.1~clientcrash~restart 2~reassign 3 99~tick client~tick 2.2"
}

fn is_server(party: &Sender, region: u16, replica: u8) -> bool {
    *party == Sender::Node(NodeName { region, replica })
}

fn is_pair(writes: &[Write]) -> bool {
    match writes {
        [first, second] => {
            first.block == 9
                && first.bytes.as_slice() == [7, 7, 7, 7].as_slice()
                && second.block == 10
                && second.bytes.as_slice() == [0xab, 0, 0x0f, 1].as_slice()
        }
        _ => false,
    }
}

fn requests_hold(events: &[Event]) -> bool {
    match events {
        [
            Event::Write { batch },
            Event::Read { block },
            Event::Barrier,
            ..
        ] => { is_pair(batch.as_slice()) && *block == u64::MAX }
        _ => false,
    }
}

fn messages_hold(events: &[Event]) -> bool {
    match events {
        [
            Event::Deliver { message },
            Event::Settle { count },
            Event::Drop { message: dropped },
            ..
        ] => { *message == 0 && *count == 100 && *dropped == 7 }
        _ => false,
    }
}

fn lies_hold(events: &[Event]) -> bool {
    match events {
        [
            Event::Lie { from, to, bytes },
            Event::Lie {
                from: client,
                to: server,
                bytes: told,
            },
            ..
        ] => {
            is_server(from, 1, 2)
                && *to == Sender::Client
                && bytes.is_empty()
                && *client == Sender::Client
                && is_server(server, 0, 0)
                && told.as_slice() == [0, 0xff].as_slice()
        }
        _ => false,
    }
}

fn stops_hold(events: &[Event]) -> bool {
    match events {
        [
            Event::Stop {
                message,
                calls,
                keep,
                fill,
            },
            Event::Crash {
                node,
                keep: kept,
                fill: filled,
            },
            ..
        ] => {
            (*message, *calls, *keep, *fill) == (12, 3, 0, 0xff)
                && *node
                    == (NodeName {
                        region: 3,
                        replica: 0,
                    })
                && *kept == 5
                && *filled == 0
        }
        _ => false,
    }
}

fn outages_hold(events: &[Event]) -> bool {
    match events {
        [
            Event::Fail { node, call },
            Event::Replace { node: other },
            Event::ClientCrash,
            ..
        ] => {
            *node
                == (NodeName {
                    region: 0,
                    replica: 2,
                })
                && *call == 5
                && *other
                    == (NodeName {
                        region: 1,
                        replica: 1,
                    })
        }
        _ => false,
    }
}

fn sessions_hold(events: &[Event]) -> bool {
    match events {
        [
            Event::Restart { session },
            Event::Reassign {
                session: next,
                region,
            },
            Event::Tick { party },
            Event::Tick { party: other },
        ] => {
            *session == 2
                && *next == 3
                && *region == 99
                && *party == Sender::Client
                && is_server(other, 2, 2)
        }
        _ => false,
    }
}

/// Whether the events of the text are read with these fields.
fn fields_hold(alloc: Global, row: &str) -> Result<bool, NoMemory> {
    let mut text = Vec::new(alloc);
    add_lines(&mut text, row)?;
    let schedule = match parse(alloc, text.as_slice()) {
        Ok(schedule) => schedule,
        Err(_) => return Ok(false),
    };
    let events = schedule.events.as_slice();
    Ok(
        events.len() == 17
            && requests_hold(events)
            && messages_hold(&events[3..])
            && lies_hold(&events[6..])
            && stops_hold(&events[8..])
            && outages_hold(&events[10..])
            && sessions_hold(&events[13..]),
    )
}

/// Whether the schedule of a text is printed so.
fn prints(alloc: Global, row: &str, wanted: &str) -> Result<bool, NoMemory> {
    let mut text = Vec::new(alloc);
    add_lines(&mut text, row)?;
    let mut expected = Vec::new(alloc);
    add_lines(&mut expected, wanted)?;
    match parse(alloc, text.as_slice()) {
        Ok(schedule) => Ok(print(alloc, &schedule)?.as_slice() == expected.as_slice()),
        Err(_) => Ok(false),
    }
}

/// Whether a made text is a schedule of so many events.
fn has_events(
    alloc: Global,
    front: &str,
    piece: &str,
    count: usize,
    events: usize,
) -> Result<bool, NoMemory> {
    let text = repeated(alloc, front, piece, count, "")?;
    match parse(alloc, text.as_slice()) {
        Ok(schedule) => Ok(schedule.events.len() == events),
        Err(_) => Ok(false),
    }
}

/// Whether texts are printed in the one form.
fn prints_hold(alloc: Global) -> Result<bool, NoMemory> {
    Ok(
        prints(alloc, every_event(), every_event())?
            && prints(alloc, same_events(), every_event())?
            && prints(
                alloc,
                "volume 0 0 1 1 6B~write 0 0A",
                "volume 0 0 1 1 6b~write 0 *0a~",
            )?
            && prints(
                alloc,
                "volume 4 10 64 5 00~lie client 0.0 -",
                "volume 4 10 64 5 00~lie client 0.0 -~",
            )?,
    )
}

/// Whether texts at the limits are read.
fn limits_hold(alloc: Global) -> Result<bool, NoMemory> {
    Ok(
        has_events(alloc, "volume 0 0 1 1 ", "6b", 64, 0)?
            && has_events(alloc, "volume 0 0 1 1 6b~write", " 0 *07", 64, 1)?
            && has_events(
                alloc,
                "volume 0 0 1 1 6b~",
                "barrier\n",
                MOST_EVENTS,
                MOST_EVENTS,
            )?,
    )
}

#[test]
fn texts_are_read_and_printed(rt: HostRuntime) {
    let alloc = rt.alloc();
    assert!(rt;
        matches!(fields_hold(alloc, every_event()), Ok(true)),
        "the fields"
    );
    assert!(rt;
        matches!(fields_hold(alloc, same_events()), Ok(true)),
        "the same fields"
    );
    assert!(rt; matches!(prints_hold(alloc), Ok(true)), "the prints");
    assert!(rt; matches!(limits_hold(alloc), Ok(true)), "at the limits");
}

/// Whether the line is printed so, without its end.
fn line_is(alloc: Global, line: &Line, text: &str) -> Result<bool, NoMemory> {
    let mut out = Vec::new(alloc);
    write_line(line, &mut out)?;
    Ok(out.strip_suffix(b"\n".as_slice()) == Some(text.as_bytes()))
}

fn batches_hold(alloc: Global) -> Result<bool, NoMemory> {
    Ok(
        line_is(alloc, &Line::Submit { event: 1, seq: 2 }, "submit 1 2")?
            && line_is(
                alloc,
                &Line::Ack { seq: u64::MAX },
                "ack 18446744073709551615",
            )?
            && line_is(alloc, &Line::Barrier { event: 5, seq: 0 }, "barrier 5 0")?
            && line_is(
                alloc,
                &Line::Skip {
                    event: 8,
                    message: 0,
                },
                "skip 8 0",
            )?,
    )
}

fn blocks_hold(alloc: Global) -> Result<bool, NoMemory> {
    let mixed = Line::Read {
        event: 3,
        block: 4,
        bytes: Items::from_slice(alloc, &[0x0a, 0xff])?,
    };
    let uniform = Line::Read {
        event: 3,
        block: 4,
        bytes: Items::from_slice(alloc, &[0xab, 0xab])?,
    };
    Ok(line_is(alloc, &mixed, "read 3 4 0aff")? && line_is(alloc, &uniform, "read 3 4 *ab")?)
}

fn faults_hold(alloc: Global) -> Result<bool, NoMemory> {
    let strikes = [
        Some(Strike::Bad {
            held: Digest::from_bytes([0x1a; 32]),
            got: Digest::from_bytes([0xf0; 32]),
        }),
        Some(Strike::Past { at: 5, number: 6 }),
    ];
    let fault = Line::Fault {
        event: 5,
        block: 6,
        strikes: Items::from_slice(alloc, &strikes)?,
    };
    line_is(
        alloc,
        &fault,
        "fault 5 6 1a1a1a1a1a1a1a1a1a1a1a1a1a1a1a1a1a1a1a1a1a1a1a1a1a1a1a1a1a1a1a1a:f0f0f0f0f0f0f0f0f0f0f0f0f0f0f0f0f0f0f0f0f0f0f0f0f0f0f0f0f0f0f0f0 past:5:6",
    )
}

fn refusal_is(alloc: Global, cause: RequestRefusal, text: &str) -> Result<bool, NoMemory> {
    line_is(alloc, &Line::Refused { event: 7, cause }, text)
}

fn refusals_hold(alloc: Global) -> Result<bool, NoMemory> {
    let inflight = RequestRefusal::Inflight {
        submitted: 9,
        acked: 8,
        reads: 10,
    };
    Ok(
        refusal_is(alloc, RequestRefusal::Closed, "refused 7 closed")?
            && refusal_is(alloc, RequestRefusal::Open, "refused 7 open")?
            && refusal_is(
                alloc,
                RequestRefusal::Range { number: 16 },
                "refused 7 range 16",
            )?
            && refusal_is(
                alloc,
                RequestRefusal::Full { limit: 64 },
                "refused 7 full 64",
            )?
            && refusal_is(alloc, inflight, "refused 7 inflight 9 8 10")?,
    )
}

fn openings_hold(alloc: Global) -> Result<bool, NoMemory> {
    let stage = Line::Stage {
        session: 3,
        from: 2,
        seq: 11,
    };
    Ok(
        line_is(alloc, &stage, "stage 3 from 2 11")?
            && line_is(alloc, &Line::Open { session: 3 }, "open 3")?
            && line_is(alloc, &Line::Lost { session: 4 }, "lost 4")?,
    )
}

#[test]
fn lines_are_printed(rt: HostRuntime) {
    let alloc = rt.alloc();
    assert!(rt;
        matches!(batches_hold(alloc), Ok(true)),
        "submit, ack, barrier, skip"
    );
    assert!(rt; matches!(blocks_hold(alloc), Ok(true)), "read");
    assert!(rt; matches!(faults_hold(alloc), Ok(true)), "fault");
    assert!(rt; matches!(refusals_hold(alloc), Ok(true)), "refused");
    assert!(rt;
        matches!(openings_hold(alloc), Ok(true)),
        "stage, open, lost"
    );
}
