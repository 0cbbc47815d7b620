//! How far the opening of a session is.
ghost use Rattle.std.specs.Prelude.{◌≡◌};

use crate::beginning::Beginning;
use crate::fetching::Fetching;
use crate::gathering::Gathering;

/// What is waited for.
#[derive(Drop)]
pub enum Phase {
    /// What all nodes hold.
    Gathers(Gathering),
    /// A region's blocks.
    Fetches(Fetching),
    /// That every node stages the session, or switches to it.
    Begins(Beginning),
}
