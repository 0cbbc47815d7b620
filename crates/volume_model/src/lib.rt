//! A volume as its client means it: contents and batches with their digests, the nodes of its groups, the records of
//! each batch and session, and what can be recovered from records that nodes hold. `specs/` has the definitions; there
//! is no code.
#![tactic(auto)]
