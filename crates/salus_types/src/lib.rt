//! The plain values that all of Salus is built of: lists, names, and the want of memory; the shape of a volume; and
//! what records and messages carry.
//!
//! A contract sees an `Items<T>` as the list of its elements, so a copy equals what it copies and a struct over
//! such lists is a record of pure data.
#![tactic(auto)]

pub mod geometry;
pub mod items;
pub mod memory;
pub mod names;
pub mod records;
pub mod same;
pub mod strike;

pub use geometry::{Geometry, GeometryError};
pub use items::{Blocks, Bytes, Digests, Items, Path, TryClone};
pub use memory::NoMemory;
pub use names::{NodeName, Sender};
pub use records::{
    Base, Bases, Batch, Header, Headers, Held, Nodes, Numbers, Out, Outs, PlaceWrite, Record,
    Records, Regions, Trim, Write, Writes,
};
pub use same::{
    same_base, same_batch, same_blocks, same_bytes, same_header, same_record, same_strikes,
    same_writes,
};
pub use strike::{Strike, Strikes};
