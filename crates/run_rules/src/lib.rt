//! The run by the rules, told by its trace: what is known of each node and of the client after each step, and what it
//! means that a run follows its schedule and goes by the rules. `specs/` has the definitions; there is no code.
#![tactic(auto)]
