use std::marker::Model;

/// A block that is asked for.
#[derive(Clone, Copy, PartialEq, Eq, Debug, Drop)]
pub struct Question {
    /// The event of the request that waits for the block.
    pub event: u64,
    /// The number that an answer names.
    pub number: u64,
    /// The block's number in the volume.
    pub block: u32,
}

impl Model for Question {
    ghost use Rattle.salus_model.specs.Waiting.{Question as Asked};

    ghost Value = { Asked };

    ghost view = { λ q. record { event = q.event; number = q.number; block = q.block } };

    ghost inverse = { λ q. record { event = q.event; number = q.number; block = q.block } };
}
