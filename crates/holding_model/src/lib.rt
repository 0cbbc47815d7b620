//! What a node holds: how records fit a volume and what they do to a region's blocks, what the entries of a node's log
//! mean, and how changes, folds among them, change what is held. `specs/` has the definitions; there is no code.
#![tactic(auto)]
