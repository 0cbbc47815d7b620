//! The course of a run, event by event: its steps, the messages dropped, and the lines of each step. `specs/` says what an
//! event makes of it. `proofs/` has what follows for a whole run: its trace follows the schedule, and its lines are those of its
//! steps, with those of the events that are skipped. There is no code.
#![tactic(auto)]
