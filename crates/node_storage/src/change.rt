use salus_types::{Base, Record};

/// A change of what a node holds. What is added is lent.
#[derive(Clone, Copy, Debug)]
pub enum Change<'a> {
    /// Adds a part.
    Part(&'a Record),
    /// Adds a base.
    Base(&'a Base),
    /// Opens the session; bases and parts of sessions below it are dropped.
    Switch(u64),
    /// Folds the parts of the open session numbered at most this into its base.
    Fold(u64),
}
