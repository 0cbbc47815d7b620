use open_session::Turn;
use salus_types::{Base, Outs};

/// What a handling is to do: the changes that are stored first, and then the messages.
#[derive(Debug, Drop)]
pub enum Planned {
    /// Nothing is stored.
    Told(Outs),
    /// As a turn of the open session asks for it.
    Turned(Turn),
    /// A base is stored.
    Staged { base: Base, outs: Outs },
    /// The session is opened.
    Switched { session: u64, outs: Outs },
}
