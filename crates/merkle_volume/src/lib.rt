//! The top of a volume: one digest over the roots of its regions. It is this project's own tree, of the shape of the
//! regions' and hashed after another byte.
//!
//! No call here takes memory or refuses anything.
#![tactic(auto)]

pub mod kept;
pub mod plain;

pub use kept::Tops;
pub use plain::top;
