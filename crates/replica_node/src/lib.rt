//! A replica over its disk. A message or a tick is handled by the rules in two steps: first all that it does is planned in
//! memory, by what is held and by the open session; then the plan's changes are stored, in their order, and only then are
//! its messages given. After the first error a node is silent: it answers nothing and doesn't call its disk.
//!
//! A contract says it of each node of the rules that the node stands for (`IsIn`): what it becomes, its messages, and what
//! each image of its disk means at each moment.
#![tactic(auto)]

mod dispatch;
mod error;
mod handling;
mod held_rules;
mod node;
mod opening;
mod planned;
mod session_rules;
mod storing;
mod telling;

pub use error::NodeError;
pub use node::ReplicaNode;
