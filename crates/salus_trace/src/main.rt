//! The program `salus_trace`: it reads a schedule from standard input, runs it over the world of `salus`, and writes the run as
//! a table in text, a line for each step: the event, the party, what it was handed, what it sent, what its disk did, and the
//! lines printed. `--from N` and `--to M` choose the events whose steps are written; the events before them are run too.
//!
//! It promises nothing but what the world does.
#![tactic(auto)]

ghost use Rattle.std.specs.Prelude.{IfOk};
ghost use Rattle.schedule_text.specs.Limits.{IsWithinLimits};

mod cells;
mod describing;
mod names;
mod table;
mod tracing;
mod words;

use crate::tracing::trace_schedule;
use crate::words::{Span, span_of};
use salus_io::{ReadError, StdSink, StdSource, read_whole, write_all};
use schedule_text::{ParseError, Schedule, parse};
use std::process::ExitCode;
use std::{env, io};

// The statuses, as those of `salus`.
const DONE: u8 = 0;

const USAGE: u8 = 2;

const REFUSED: u8 = 3;

const SOURCE_FAILED: u8 = 4;

const SINK_FAILED: u8 = 5;

const NO_MEMORY: u8 = 6;

// How many bytes the text of a schedule may have.
const MOST_BYTES: usize = 67_108_864;

fn words_of(rt: &HostRuntime) -> io::Result<Vec<String>> {
    let mut words = Vec::new(rt.alloc());
    for word in env::args(rt)? {
        words.push(word)?;
    }
    Ok(words)
}

/// The schedule on standard input, or the status that its want ends with. A refused text is answered on standard error.
fn read_schedule(rt: &HostRuntime) -> Result<Schedule, u8>
    ensures { IfOk result IsWithinLimits }
{
    let mut source = StdSource::new(rt.stdin());
    let text = match read_whole(rt.alloc(), &mut source, MOST_BYTES) {
        Ok(text) => text,
        Err(ReadError::Failed) => return Err(SOURCE_FAILED),
        Err(ReadError::NoMemory) => return Err(NO_MEMORY),
        Err(ReadError::TooLong) => {
            let _ = eprintln!(rt; "error 0 long");
            return Err(REFUSED);
        }
    };
    match parse(rt.alloc(), text.as_slice()) {
        Ok(schedule) => Ok(schedule),
        Err(ParseError::Refused(error)) => {
            let _ = eprintln!(rt; "error {} {}", error.line, error.cause);
            Err(REFUSED)
        }
        Err(ParseError::NoMemory) => Err(NO_MEMORY),
    }
}

/// Writes the table of a schedule's run.
fn write_trace(rt: &HostRuntime, schedule: Schedule, span: Span) -> u8
    requires { IsWithinLimits schedule }
{
    let table = match trace_schedule(rt.alloc(), schedule, span) {
        Ok(table) => table,
        Err(_) => return NO_MEMORY,
    };
    let mut sink = StdSink::new(rt.stdout());
    match write_all(&mut sink, table.as_slice()) {
        Ok(()) => DONE,
        Err(_) => SINK_FAILED,
    }
}

fn status_of(rt: &HostRuntime) -> u8 {
    let words = match words_of(rt) {
        Ok(words) => words,
        Err(_) => return USAGE,
    };
    let span = match span_of(rt.alloc(), words.as_slice()) {
        Ok(span) => span,
        Err(error) => {
            let _ = eprint!(rt; "{error}");
            return USAGE;
        }
    };
    match read_schedule(rt) {
        Ok(schedule) => write_trace(rt, schedule, span),
        Err(status) => status,
    }
}

fn main(rt: HostRuntime) -> ExitCode {
    ExitCode::from(status_of(&rt))
}
