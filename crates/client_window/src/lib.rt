//! The numbers of a client that serves a volume: which batch comes next and what its parts say, which batches are
//! acknowledged, and which barriers wait for them.
//!
//! It keeps numbers, roots and the names of leaders, and no block. Contracts say which client of the rules it stands for
//! (`StandsFor`): the rules keep the volume's contents, and the window their roots.
#![tactic(auto)]

mod barrier;
mod batch;
mod parts;
mod queue;
mod window;
mod written;

pub use batch::touched_regions;
pub use window::Window;
