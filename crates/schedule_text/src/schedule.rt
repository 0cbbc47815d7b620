use salus_types::{Batch, Bytes, Geometry, Items, NodeName, Sender};

/// What a schedule's first line says.
#[derive(Debug, Drop)]
pub struct Volume {
    pub geometry: Geometry,
    /// 1 to 64 bytes.
    pub key: Bytes,
}

/// What happens next in a run. Events are numbered from 1.
#[derive(Debug, Drop)]
pub enum Event {
    /// Request to write these blocks, 1 to 64 of them; the later of two writes to one block wins.
    Write {
        batch: Batch,
    },
    /// Request to read that block.
    Read {
        block: u64,
    },
    /// Request that is answered when all batches so far are acknowledged.
    Barrier,
    /// That message is handed to its receiver, as often as wanted.
    Deliver {
        message: u64,
    },
    /// At most so many times the lowest message that is neither delivered nor dropped is delivered.
    Settle {
        count: u64,
    },
    /// That message is marked as dropped.
    Drop {
        message: u64,
    },
    /// The bytes are handed to `to` as a message of `from`.
    Lie {
        from: Sender,
        to: Sender,
        bytes: Bytes,
    },
    /// That message is handed to its node, whose disk stops after so many calls; then the node crashes.
    Stop {
        message: u64,
        calls: u64,
        keep: u64,
        fill: u8,
    },
    /// The node's disk keeps the first so many places that weren't synced, the others are filled; the node is loaded.
    Crash {
        node: NodeName,
        keep: u64,
        fill: u8,
    },
    /// That device call of the node, counted from now and from 1, fails.
    Fail {
        node: NodeName,
        call: u64,
    },
    /// The node starts anew on a formatted disk.
    Replace {
        node: NodeName,
    },
    /// The client loses all but geometry and key.
    ClientCrash,
    /// Request to open that session from the servers.
    Restart {
        session: u64,
    },
    /// Request to open that session from the open client, with the contents of that region fetched.
    Reassign {
        session: u64,
        region: u64,
    },
    /// The party sends again what it waits for.
    Tick {
        party: Sender,
    },
}

pub type Events = Items<Event>;

/// A volume and what happens to it.
#[derive(Debug, Drop)]
pub struct Schedule {
    pub volume: Volume,
    pub events: Events,
}
