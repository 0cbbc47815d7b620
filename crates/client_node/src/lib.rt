//! The client of a volume: bytes and requests in, bytes and lines out. It serves a session, opens one, or is closed: after a
//! crash it has the volume's geometry and key alone, and refuses every request but a restart.
//!
//! Contracts say which client of the rules a node stands for (`IsClient`), and that each call is the rules' one: a message and
//! a request change it to what the rules say, and give their messages and lines (`IsTold`). The clause of an answer, and of a
//! reply to one that gathers, stands behind the rules' premise that no two strings at hand share a digest.
#![tactic(auto)]

mod asking;
mod hearing;
mod node;
mod opening;
mod phase;
mod replies;
mod ticking;
mod zeros;

pub use node::ClientNode;
