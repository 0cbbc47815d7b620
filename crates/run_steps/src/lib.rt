//! A run while it goes on. What holds of its steps so far is said by the messages of the whole run, whatever messages follow
//! those that were sent: so one more step adds to what holds, and changes nothing of it. `proofs/` has the lemmas on one more
//! step, event by event. There is no code.
#![tactic(auto)]
