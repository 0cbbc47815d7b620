use datanode_store::StoreError;
use salus_types::NodeName;

/// Why a world doesn't come about.
#[derive(Drop)]
pub enum WorldError<D> {
    /// A call of one of these disks failed. They are handed back in their order, each with all or a part of what it is to hold.
    Device {
        disks: Vec<D>,
    },
    /// What was written to the disk of that node can't be loaded: it doesn't hold what was written.
    Node {
        name: NodeName,
        error: StoreError,
        disks: Vec<D>,
    },
    /// There was no memory. The disks are dropped.
    NoMemory,
}
