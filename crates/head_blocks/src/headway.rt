/// How far an answer has brought the write at the head.
#[derive(Clone, Copy, PartialEq, Eq, Debug, Drop)]
pub enum Headway {
    /// It waits on.
    Waits,
    /// Every block that it writes is known.
    Known,
    /// Every replica of a block's group is struck: it ends with that fault.
    Faulted,
}
