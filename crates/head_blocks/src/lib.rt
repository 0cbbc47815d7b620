//! Answers to the questions of the write at the head of the waiting line: which of its blocks are known, and when it can be
//! submitted.
//!
//! A block whose path leads to its region's root is known, and its question is closed; a path to another root, or an answer
//! from past the region's number, strikes its replica. Where no question is left, every block that the head writes is known;
//! where each replica of a block's group is struck, the head ends with a fault. Contracts say it by the rules of a serving
//! client whose contents the pruned trees agree with, behind the premise that no two strings at hand share a digest.
#![tactic(auto)]

mod answering;
mod ending;
mod headway;
mod weighing;

pub use answering::answer_head;
pub use headway::Headway;
