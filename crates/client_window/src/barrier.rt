/// A barrier that waits until every batch up to its front is acknowledged.
#[derive(Clone, Copy, Debug, Drop)]
pub struct Barrier {
    pub event: u64,
    pub front: u64,
}
