use printed_lines::Line;
use salus_types::Out;
use std::alloc::Global;

/// What a step of the client gives: messages and lines, each in order.
#[derive(Debug, Drop)]
pub struct Step {
    pub outs: Vec<Out>,
    pub lines: Vec<Line>,
}

impl Step {
    /// Nothing is sent, and no line is printed.
    pub fn new(alloc: Global) -> Step {
        Step {
            outs: Vec::new(alloc),
            lines: Vec::new(alloc),
        }
    }
}
