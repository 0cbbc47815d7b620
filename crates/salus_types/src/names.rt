/// A server, by its region and its replica in the region's group, both counted from 0.
#[derive(Clone, Copy, PartialEq, Eq, Debug, Drop)]
pub struct NodeName {
    pub region: u16,
    pub replica: u8,
}

/// Who sends or receives a message.
#[derive(Clone, Copy, PartialEq, Eq, Debug, Drop)]
pub enum Sender {
    Client,
    Node(NodeName),
}
