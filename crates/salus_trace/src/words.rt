use clap::{Arg, ArgAction, Command, Error};
use std::alloc::Global;

/// The events whose steps are written: from one number to another, both among them.
#[derive(Clone, Copy, Drop)]
pub struct Span {
    from: u64,
    to: u64,
}

impl Span {
    pub fn has(self, number: u64) -> bool {
        self.from <= number && number <= self.to
    }
}

/// The span that the words ask for, of which the first is the program's name.
pub fn span_of(alloc: Global, words: &[String]) -> Result<Span, Error> {
    let from = Arg::new(alloc, "from")
        .long("from")
        .value_name("N")
        .help("The first event whose steps are written")
        .action(ArgAction::Set)
        .value_parser(clap::value_parser!(u64));
    let to = Arg::new(alloc, "to")
        .long("to")
        .value_name("M")
        .help("The last event whose steps are written")
        .action(ArgAction::Set)
        .value_parser(clap::value_parser!(u64));
    let command = Command::new(alloc, "salus_trace")
        .about("Writes the run of the schedule on standard input as a table")
        .arg(from)?
        .arg(to)?;
    let matches = command.try_get_matches_from(words)?;
    Ok(Span {
        from: matches.get_one::<u64>("from").unwrap_or(1),
        to: matches.get_one::<u64>("to").unwrap_or(u64::MAX),
    })
}
