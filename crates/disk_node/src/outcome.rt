use salus_types::Outs;

/// What a handling gave: its messages, and whether a call of the disk failed in it.
#[derive(Debug, Drop)]
pub struct Outcome {
    pub outs: Outs,
    pub failed: bool,
}
