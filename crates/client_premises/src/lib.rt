//! What a client that keeps roots in place of blocks asks of digests: that no two of the strings at hand in a step share
//! one. `specs/` has the premise of each step, and what it means that a run's client goes by its rules behind these
//! premises; there is no code.
#![tactic(auto)]
