//! Lemmas on tests, on lists and their members, and on lists of blocks with one root, each stated once for the crates
//! above. `proofs/` has them; there is no code, and no definition that a clause cites.
#![tactic(auto)]
