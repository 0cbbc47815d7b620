//! A replica's view of its region: the blocks as they are after the record of some number, in a kept tree.
//!
//! A contract sees a `RegionView` as the volume's shape and the `View` of the rules: a number and the region's blocks, of
//! which there is always one for each place, each of the volume's length. A view begins with a base; `apply` takes it on
//! by a record, where the blocks after the record have the root that the record names, and else leaves it as it was.
//! `answer` hands out a block with its path and the number.
#![tactic(auto)]

mod change;
mod view;

pub use view::{ApplyError, RegionView, ViewAnswer};
