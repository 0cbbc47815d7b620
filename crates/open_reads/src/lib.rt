//! A serving client's answers to its open reads.
//!
//! An answer of the served session is judged beside the number and the root that the client holds of the sender's region. A
//! block whose path leads to that root ends its read, with a line that has the block. An answer of an older number is asked for
//! again, of that replica alone. Any other answer to an open read strikes its replica, and a read ends with a fault where every
//! replica of its group is struck. Contracts say it by the rules of each serving client that the pipeline stands for.
#![tactic(auto)]

mod answering;
mod ending;

pub use answering::answer_read;
