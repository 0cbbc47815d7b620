ghost use Rattle.std.specs.Prelude.{◌≡◌, Some};
ghost use Rattle.schedule_text.specs.Outcome.{cause_word};
ghost use Rattle.schedule_text.specs.declared.error.LineError.TheVariants as failure;
ghost use Rattle.schedule_text.specs.declared.error.ParseError.TheVariants as error;

use salus_types::NoMemory;
use std::fmt;

/// Why a line is wrong. Where a line is wrong in several ways, the first of `Long`, `Empty`, `Word`, then that of the
/// first wrong word, and `Order` last, is its cause.
#[derive(Clone, Copy, PartialEq, Eq, Debug, Drop)]
pub enum Cause {
    /// The first line is no volume line within the limits.
    Volume,
    /// The first word is no event, or the number of words is wrong.
    Word,
    /// A word is no number, or 0 where numbers count from 1.
    Number,
    /// A word is no node or party of the volume.
    Node,
    /// A word isn't hexadecimal as it should be.
    Hex,
    /// A block's bytes are too few or too many.
    Size,
    /// A write of no block.
    Empty,
    /// A session's number isn't above 1 and all earlier ones.
    Order,
    /// More than 67,108,864 bytes, 65,536 events, or 64 blocks in a write.
    Long,
}

/// The cause's name in lower case.
impl fmt::Display for Cause {
    ghost output = { λ cause. Some (cause_word cause) };

    fn fmt<W: fmt::Write>(&self, f: &mut fmt::Formatter<W>) -> fmt::Result {
        match self {
            Cause::Volume => write!(f, "volume"),
            Cause::Word => write!(f, "word"),
            Cause::Number => write!(f, "number"),
            Cause::Node => write!(f, "node"),
            Cause::Hex => write!(f, "hex"),
            Cause::Size => write!(f, "size"),
            Cause::Empty => write!(f, "empty"),
            Cause::Order => write!(f, "order"),
            Cause::Long => write!(f, "long"),
        }
    }
}

/// The first wrong line of a text, counted from 1, and why it is wrong. Line 0 is a text that is too long.
#[derive(Clone, Copy, PartialEq, Eq, Debug, Drop)]
pub struct ScheduleError {
    pub line: u64,
    pub cause: Cause,
}

/// Why a text gives no schedule.
#[derive(Clone, Copy, PartialEq, Eq, Debug, Drop)]
pub enum ParseError {
    /// The text is no schedule.
    Refused(ScheduleError),
    /// There was no memory.
    NoMemory,
}

impl From<NoMemory> for ParseError {
    ghost from_gives = { λ _ e. e ≡ error.NoMemory };

    fn from(_error: NoMemory) -> ParseError {
        ParseError::NoMemory
    }
}

/// Why a line gives no event.
#[derive(Clone, Copy, PartialEq, Eq, Debug, Drop)]
pub enum LineError {
    Wrong(Cause),
    NoMemory,
}

impl From<NoMemory> for LineError {
    ghost from_gives = { λ _ e. e ≡ failure.NoMemory };

    fn from(_error: NoMemory) -> LineError {
        LineError::NoMemory
    }
}

impl From<Cause> for LineError {
    ghost from_gives = { λ cause e. e ≡ failure.Wrong cause };

    fn from(cause: Cause) -> LineError {
        LineError::Wrong(cause)
    }
}
