//! That the store answers: the laws of quiet runs, in which nothing fails, lies or stays undelivered, and of reads beside lies where every
//! group keeps a node that counts. Its calls do nothing; their clauses are the laws. `whole` has the two that all others lead to.
#![tactic(auto)]

mod faults;
mod hearing;
mod opening;
mod questions;
mod rooms;
mod sessions;
mod whole;

pub use faults::faults_have_no_sound_server;
pub use hearing::claims_heard_are_submitted;
pub use opening::last_session_opens;
pub use questions::no_question_is_left;
pub use rooms::sound_servers_have_room;
pub use sessions::{
    batches_behind_the_window_are_claimed, heard_claims_are_news, messages_are_brought,
    nodes_begin_their_session, nodes_reach_every_part, nodes_serve_their_session, votes_are_rooted,
};
pub use whole::{quiet_runs_are_complete, reads_end_with_room};
