//! The rules of the client on plain data, in all its phases, with the contents kept. `specs/` has the definitions;
//! there is no code.
#![tactic(auto)]
