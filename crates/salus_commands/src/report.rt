use printed_lines::Lines;
use salus_model::Messages;
use salus_types::Items;
use std::alloc::Global;

/// What a command leaves: the lines of a run, and all its messages in the order sent.
#[derive(Drop)]
pub struct Report {
    pub lines: Lines,
    pub messages: Messages,
}

impl Report {
    ghost use Rattle.std.specs.Prelude.{◌≡◌};
    ghost use Rattle.salus_commands.specs.Replaying.{empty_report};

    /// A report of nothing.
    pub fn new(alloc: Global) -> Report
        ensures { result ≡ empty_report }
    {
        Report {
            lines: Items::new(alloc),
            messages: Items::new(alloc),
        }
    }
}
