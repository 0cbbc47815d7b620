//! The tests of the program and of what it reads and writes: records, messages, schedules, lines. Each is a table of worked
//! examples: what a proof can't see, as that a call finds the memory that there is, and that the clauses say what was meant.
#![tactic(auto)]

#[cfg(test)]
mod calls;
#[cfg(test)]
mod codec;
#[cfg(test)]
mod replay;
#[cfg(test)]
mod schedules;
#[cfg(test)]
mod tags;
