//! Both ends without a world: a node and a client are handed messages by hand. What must come of it was written by a
//! program in Python that follows the formats and the rules, and knows nothing of ours.
#![tactic(auto)]

#[cfg(test)]
mod client_rows;
#[cfg(test)]
mod clients;
#[cfg(test)]
mod node_rows;
#[cfg(test)]
mod nodes;
#[cfg(test)]
mod words;
