//! The program `salus`: the words after its name are a command, standard input is the source, standard output the
//! sink. It ends with the status of the command.
#![tactic(auto)]

mod usage;

use crate::usage::usage_text;
use salus_commands::{Report, salus};
use salus_io::{StdSink, StdSource};
use std::env;
use std::io::{self, ErrorKind};
use std::process::ExitCode;

// The statuses that come with a line on standard error: the words are no command, the source failed, the sink failed,
// there was no memory.
const USAGE: u8 = 2;

const SOURCE_FAILED: u8 = 4;

const SINK_FAILED: u8 = 5;

const NO_MEMORY: u8 = 6;

fn words_of(rt: &HostRuntime) -> io::Result<Vec<String>> {
    let mut words = Vec::new(rt.alloc());
    for word in env::args(rt)?.skip(1) {
        words.push(word)?;
    }
    Ok(words)
}

fn status_of(rt: &HostRuntime) -> u8 {
    let words = match words_of(rt) {
        Ok(words) => words,
        // A word that is no text is no command.
        Err(error) => return if error.kind() == ErrorKind::InvalidData {
            USAGE
        } else {
            NO_MEMORY
        },
    };
    let mut source = StdSource::new(rt.stdin());
    let mut sink = StdSink::new(rt.stdout());
    let mut report = Report::new(rt.alloc());
    salus(rt.alloc(), &words, &mut source, &mut sink, &mut report)
}

/// What standard error is told of a status but that of wrong words. Writing it takes no memory.
fn line_of(status: u8) -> Option<&'static str> {
    match status {
        SOURCE_FAILED => Some("salus: standard input could not be read"),
        SINK_FAILED => Some("salus: standard output could not be written"),
        NO_MEMORY => Some("salus: out of memory"),
        _ => None,
    }
}

/// Tells what the commands are, if there is memory for it.
fn tell_usage(rt: &HostRuntime) {
    if let Ok(text) = usage_text(rt.alloc()) {
        let _ = eprint!(rt; "{text}");
    }
}

fn main(rt: HostRuntime) -> ExitCode {
    let status = status_of(&rt);
    if status == USAGE {
        tell_usage(&rt);
    }
    if let Some(line) = line_of(status) {
        let _ = eprintln!(rt; "{line}");
    }
    ExitCode::from(status)
}
