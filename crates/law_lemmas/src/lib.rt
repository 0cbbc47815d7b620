//! Lemmas that several laws stand on: a volume's contents and a session's numbers, known sessions that grow and what they
//! have tagged, and what a trace that follows its schedule hands over. `proofs/` has them; there is no code, and no
//! definition that a clause cites.
#![tactic(auto)]
