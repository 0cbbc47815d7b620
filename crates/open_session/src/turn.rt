use salus_types::Outs;

/// What a session does when something is handed to it: the messages, and the changes of what is held that must be made
/// before they are sent.
#[derive(Debug, Drop)]
pub struct Turn {
    pub outs: Outs,
    /// So many of the newest parts of the session are to be stored, in their order.
    pub added: usize,
    /// Then the parts up to that number are to be folded into the base.
    pub fold: Option<u64>,
}
