//! The ten lines that a run prints, and their text: words with one space between them, numbers in decimal, digests and blocks in
//! lower-case hex, and the byte 0a at the end of each line.
//!
//! What is written is exactly the text that `specs/LineText.antt` gives. Only memory can be wanting, and the text
//! that was being written then is of no use.
#![tactic(auto)]

pub mod line;
mod lines;
mod strikes;

pub use line::{Line, Lines, RequestRefusal};
pub use lines::{text_of_lines, write_line, write_lines};
