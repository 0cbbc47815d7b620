//! A client that opens a session: after a restart it gathers what the nodes hold and chooses, for a reassignment it fetches
//! the region's blocks; then every node is to stage the session, and then to switch to it. What has to be sent again is sent
//! to the nodes that haven't answered, and blocks are lent for it, not copied.
//!
//! Contracts say which client of the rules an opening stands for (`StandsFor`), and that each call is the rules' one: what
//! comes of it (`Outcome`) stands for what the rules make of that client, and their messages and lines are added to the step
//! (`IsTold`). A reply's clause stands behind the rules' premise that no two records of the pool share a name, and no two
//! strings of its chains a digest.
#![tactic(auto)]

mod beginning;
mod carried;
mod fetching;
mod gathering;
mod lent;
mod opening;
mod phase;
mod records;
mod regions;
mod waiting;

pub use client_asking::Step;
pub use fetching::Served;
pub use opening::{Opening, Outcome};
