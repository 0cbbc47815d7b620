//! The thirteen messages between client and servers, and their bytes. Each message has one spelling: `decode` gives a
//! message exactly where the bytes are its spelling, and else says what is wrong with the first field that fails, from
//! left to right. A bad or cut message is an answer, and changes nothing.
#![tactic(auto)]

mod carried;
mod kinds;
mod replies;
mod small;
mod wire;

pub use carried::{Dumped, Gathered, Part, Stage};
pub use kinds::Kind;
pub use replies::Answer;
pub use small::{Ask, Committed, Dump, Gather, Prepared, Staged, Switch, Switched};
pub use wire::{Message, MessageError, decode, encode};
