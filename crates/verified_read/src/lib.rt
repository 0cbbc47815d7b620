//! Questions for blocks that wait for their answers, and what an answer is worth: a block is believed only where its path
//! leads to the root that the client holds.
//!
//! An answer closes its question, asks for nothing, or strikes the replica that gave it; of each replica the first
//! strike is kept. A question fails where every replica of its block's group is struck. A client has two such tables, for
//! the open reads and for what the write at its head asks for, and the table knows nothing of either. Memory is taken
//! where a question is asked, and never where an answer comes.
#![tactic(auto)]

mod asked;
mod question;
mod reads;
mod verdict;

pub use question::Question;
pub use reads::Reads;
pub use verdict::{Standing, Verdict};
