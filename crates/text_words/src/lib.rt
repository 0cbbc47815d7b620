//! The words of a text: what a line's words are, and how numbers, hexadecimal and blocks are read and written.
//!
//! `specs/Grammar.antt` says what each word is, and a reader gives the one value that a word spells, or `None`. A writer
//! appends exactly the text of `specs/Writing.antt`; that this is a spelling is a law in `proofs/Written.antt`.
#![tactic(auto)]

mod bytes;
mod hex;
mod number;
mod spelled;
mod word;
mod words;
mod writer;

pub use hex::{pair, put_block, put_hex};
pub use spelled::{block_of, byte_of, is_hex, key_of, lie_bytes_of, number_of};
pub use word::split_first;
pub use words::{count_words, split_words};
pub use writer::{put, put_number};
