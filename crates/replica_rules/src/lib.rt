//! The rules of a node on plain data: its view and replica, votes and claims, the leader, what it keeps in memory, and
//! what it answers to each thing that it is handed. `specs/` has the definitions; there is no code.
#![tactic(auto)]
