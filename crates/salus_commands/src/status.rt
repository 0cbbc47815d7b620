// The statuses: the command is done; the words are no command; the text is no schedule; the source failed; the sink
// failed; there was no memory.
pub(crate) const DONE: u8 = 0;

pub(crate) const USAGE: u8 = 2;

pub(crate) const REFUSED: u8 = 3;

pub(crate) const SOURCE_FAILED: u8 = 4;

pub(crate) const SINK_FAILED: u8 = 5;

pub(crate) const NO_MEMORY: u8 = 6;
