//! Reads standard input to its end and parses it as a schedule. How many events it has goes to standard output, and to
//! standard error with the time that the parse took; the reading isn't timed.
#![tactic(auto)]

use salus_io::{StdSource, read_whole};
use schedule_text::{ParseError, parse};
use std::alloc::Global;
use std::io;
use std::rt::Runtime;
use std::time::Instant;

/// No schedule has more bytes.
const MOST_BYTES: usize = 67_108_864;

/// Parses the text, and says how many events it has and how long that took.
fn measure(rt: &impl Runtime, alloc: Global, text: &[u8]) -> io::Result<()> {
    let start = Instant::now(rt)?;
    let parsed = parse(alloc, text);
    let micros = start.elapsed(rt)?.as_micros();
    match parsed {
        Ok(schedule) => {
            let events = schedule.events.len();
            println!(rt; "{events} events")?;
            eprintln!(rt;
                "{events} events: {}.{:03} ms",
                micros / 1000,
                micros % 1000
            )
        }
        Err(ParseError::Refused(error)) => {
            println!(rt; "line {} is wrong: {}", error.line, error.cause)
        }
        Err(ParseError::NoMemory) => println!(rt; "no memory"),
    }
}

fn main(rt: HostRuntime) -> io::Result<()> {
    let mut source = StdSource::new(rt.stdin());
    match read_whole(rt.alloc(), &mut source, MOST_BYTES) {
        Ok(text) => measure(&rt, rt.alloc(), text.as_slice()),
        Err(error) => println!(rt; "standard input: {error:?}"),
    }
}
