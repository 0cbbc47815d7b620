ghost use Rattle.std.specs.Prelude.{◌≡◌, IfSome, Some, map, string_bytes};
ghost use Rattle.text_words.specs.Reading.{number_of};
ghost use Rattle.salus_commands.specs.Words.{IsCommand};
ghost use Rattle.salus_commands.specs.Spelling.{are_rounds, seeded, numbered, lone, command_of};

use text_words::number_of;

/// What the words after the program's name ask for.
#[derive(Clone, Copy, PartialEq, Eq, Debug, Drop)]
pub enum Command {
    /// The schedule of the source is run, and its lines are written.
    Replay,
    /// The schedule of that seed is written.
    Generate {
        seed: u64,
        /// 1 to 10,000.
        rounds: u64,
    },
    /// The schedule of that seed is run, and the summary of its lines is written.
    Trial {
        seed: u64,
        /// 1 to 10,000.
        rounds: u64,
    },
}

/// What a user is told of a command.
#[derive(Clone, Copy)]
pub struct CommandHelp {
    pub name: &'static str,
    /// The names of the words behind the command's name.
    pub arguments: &'static [&'static str],
    /// What it does, in one line.
    pub about: &'static str,
    /// An example of its use.
    pub example: &'static str,
}

const SEED_AND_ROUNDS: &[&str] = &["N", "M"];

/// The commands that there are.
pub const COMMANDS: [CommandHelp; 3] = [
    CommandHelp {
        name: "replay",
        arguments: &[],
        about: "Runs the schedule that standard input has, and prints the client's lines",
        example: "salus replay < ordinary.schedule",
    },
    CommandHelp {
        name: "generate",
        arguments: SEED_AND_ROUNDS,
        about: "Prints the schedule of the seed N with M rounds of a write and a read, M from 1 to 10000",
        example: "salus generate 7 100 > hundred.schedule",
    },
    CommandHelp {
        name: "trial",
        arguments: SEED_AND_ROUNDS,
        about: "Runs that schedule, and prints how many lines of each kind it gives",
        example: "salus trial 7 100",
    },
];

fn are_rounds(rounds: u64) -> bool
    ensures { result ≡ are_rounds rounds }
{
    1 <= rounds && rounds <= 10_000
}

fn seeded(name: &[u8], seed: u64, rounds: u64) -> Option<Command>
    ensures { result ≡ seeded name.now seed rounds }
{
    if name == b"generate".as_slice() {
        Some(Command::Generate { seed, rounds })
    } else if name == b"trial".as_slice() {
        Some(Command::Trial { seed, rounds })
    } else {
        None
    }
}

fn numbered(name: &[u8], seed: Option<u64>, rounds: Option<u64>) -> Option<Command>
    ensures { result ≡ numbered name.now seed rounds }
{
    let seed = seed?;
    let rounds = rounds?;
    if are_rounds(rounds) {
        seeded(name, seed, rounds)
    } else {
        None
    }
}

fn lone(name: &[u8]) -> Option<Command>
    ensures { result ≡ lone name.now }
{
    if name == b"replay".as_slice() {
        Some(Command::Replay)
    } else {
        None
    }
}

fn spelled(words: &[String]) -> Option<Command>
    ensures { result ≡ command_of (map (λ w. string_bytes w) words.now) }
{
    match words {
        [name] => lone(name.as_bytes()),
        [name, seed, rounds] => numbered(
            name.as_bytes(),
            number_of(seed.as_bytes()),
            number_of(rounds.as_bytes()),
        ),
        _ => None,
    }
}

/// The command whose words these are, exactly; there is at most one.
pub(crate) fn command_of(words: &Vec<String>) -> Option<Command>
    ensures found { IfSome result (IsCommand (map (λ w. string_bytes w) words.now.items)) }
    ensures only { (c : Command) → IsCommand (map (λ w. string_bytes w) words.now.items) c → result ≡ Some c }
{
    spelled(words.as_slice())
}
