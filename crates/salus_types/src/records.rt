ghost use Rattle.std.specs.Prelude.{◌≡◌, ◌↔◌, IsTrue};

use crate::items::{Blocks, Bytes, Items, TryClone};
use crate::memory::NoMemory;
use crate::names::{NodeName, Sender};
use crate::strike::Strikes;
use salus_hash::Digest;
use std::alloc::Global;

/// Batch numbers, one for each region.
pub type Numbers = Items<u64>;
/// Regions, in order.
pub type Regions = Items<u16>;
/// Nodes, in order.
pub type Nodes = Items<NodeName>;

impl TryClone for Numbers {
    fn try_clone(&self, alloc: Global) -> Result<Numbers, NoMemory> {
        Items::from_slice(alloc, self.as_slice())
    }
}

impl TryClone for Regions {
    fn try_clone(&self, alloc: Global) -> Result<Regions, NoMemory> {
        Items::from_slice(alloc, self.as_slice())
    }
}

impl TryClone for Nodes {
    fn try_clone(&self, alloc: Global) -> Result<Nodes, NoMemory> {
        Items::from_slice(alloc, self.as_slice())
    }
}

impl TryClone for Strikes {
    fn try_clone(&self, alloc: Global) -> Result<Strikes, NoMemory> {
        Items::from_slice(alloc, self.as_slice())
    }
}

/// A block of the volume as it was asked to be: its number may lie outside the volume.
#[derive(PartialEq, Eq, Debug, Drop)]
pub struct Write {
    pub block: u64,
    pub bytes: Bytes,
}

/// The writes of one request, in order.
pub type Batch = Items<Write>;

/// A block of a region, by its place there.
#[derive(PartialEq, Eq, Debug, Drop)]
pub struct PlaceWrite {
    pub place: u16,
    pub bytes: Bytes,
}

/// The part of a batch in one region: ascending places.
pub type Writes = Items<PlaceWrite>;

/// A run of 2^`log` blocks from `place` on, which becomes zero.
#[derive(Clone, Copy, PartialEq, Eq, Debug, Drop)]
pub struct Trim {
    pub place: u16,
    pub log: u8,
}

/// What a record says of its batch and its region.
#[derive(PartialEq, Eq, Debug, Drop)]
pub struct Header {
    pub version: u8,
    pub session: u64,
    pub seq: u64,
    pub region: u16,
    /// The region's number before the batch.
    pub previous: u64,
    /// The leader of the batch before.
    pub leader_before: u16,
    /// Every region's number after the batch.
    pub fronts: Numbers,
    /// The regions that the batch touches.
    pub touched: Regions,
    /// The region's root after the batch.
    pub root: Digest,
    /// The volume's top after the batch.
    pub top: Digest,
}

pub type Headers = Items<Header>;

/// A part of a batch, with its tag.
#[derive(PartialEq, Eq, Debug, Drop)]
pub struct Record {
    pub header: Header,
    pub writes: Writes,
    pub run: Option<Trim>,
    pub tag: Digest,
}

pub type Records = Items<Record>;

/// A record and the region's blocks as of it.
#[derive(PartialEq, Eq, Debug, Drop)]
pub struct Base {
    pub rec: Record,
    pub blocks: Blocks,
}

pub type Bases = Items<Base>;

/// What a node's disk holds.
#[derive(PartialEq, Eq, Debug, Drop)]
pub struct Held {
    pub session: u64,
    pub bases: Bases,
    pub parts: Records,
}

/// A message on its way.
#[derive(PartialEq, Eq, Debug, Drop)]
pub struct Out {
    pub to: Sender,
    pub bytes: Bytes,
}

pub type Outs = Items<Out>;

impl TryClone for Write {
    fn try_clone(&self, alloc: Global) -> Result<Write, NoMemory> {
        Ok(Write {
            block: self.block,
            bytes: self.bytes.try_clone(alloc)?,
        })
    }
}

impl TryClone for PlaceWrite {
    fn try_clone(&self, alloc: Global) -> Result<PlaceWrite, NoMemory> {
        Ok(PlaceWrite {
            place: self.place,
            bytes: self.bytes.try_clone(alloc)?,
        })
    }
}

impl TryClone for Header {
    fn try_clone(&self, alloc: Global) -> Result<Header, NoMemory> {
        Ok(Header {
            version: self.version,
            session: self.session,
            seq: self.seq,
            region: self.region,
            previous: self.previous,
            leader_before: self.leader_before,
            fronts: self.fronts.try_clone(alloc)?,
            touched: self.touched.try_clone(alloc)?,
            root: self.root,
            top: self.top,
        })
    }
}

impl TryClone for Record {
    fn try_clone(&self, alloc: Global) -> Result<Record, NoMemory> {
        Ok(Record {
            header: self.header.try_clone(alloc)?,
            writes: self.writes.try_clone(alloc)?,
            run: self.run,
            tag: self.tag,
        })
    }
}

impl TryClone for Base {
    fn try_clone(&self, alloc: Global) -> Result<Base, NoMemory> {
        Ok(Base {
            rec: self.rec.try_clone(alloc)?,
            blocks: self.blocks.try_clone(alloc)?,
        })
    }
}

impl TryClone for Held {
    fn try_clone(&self, alloc: Global) -> Result<Held, NoMemory> {
        Ok(Held {
            session: self.session,
            bases: self.bases.try_clone(alloc)?,
            parts: self.parts.try_clone(alloc)?,
        })
    }
}

impl TryClone for Out {
    fn try_clone(&self, alloc: Global) -> Result<Out, NoMemory> {
        Ok(Out {
            to: self.to,
            bytes: self.bytes.try_clone(alloc)?,
        })
    }
}
