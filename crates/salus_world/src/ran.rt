use client_node::ClientNode;
use disk_model::MemDisk;
use disk_node::DiskNode;
use printed_lines::Lines;
use salus_model::Messages;

/// What a run gives.
#[derive(Drop)]
pub struct Ran {
    /// The lines, in order.
    pub lines: Lines,
    /// All messages, in the order sent.
    pub messages: Messages,
    /// The nodes at its end, in order of region and replica.
    pub nodes: Vec<DiskNode<MemDisk>>,
    /// The client at its end.
    pub client: ClientNode,
}
