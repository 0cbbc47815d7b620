//! Messages on their way. A message is encoded once, and each receiver gets an `Out` with bytes of its own: one receiver, the
//! replicas of a region's group in order, or all nodes in order of region and replica.
//!
//! Parts, bases, what a node holds and a region's blocks are encoded from what is lent: no record and no block is cloned to be
//! sent. After `NoMemory` some of the messages may have been posted.
#![tactic(auto)]

mod lent;
mod receivers;

pub use lent::{encode_dumped, encode_gathered, encode_part, encode_stage};
pub use receivers::{
    post, post_bytes, post_bytes_to_all, post_bytes_to_group, post_to_all, post_to_group,
};
