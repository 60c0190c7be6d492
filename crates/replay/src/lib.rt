//! The replay of a journal: each of its lines through the table of jobs, and a line of outcome for each.
#![tactic(auto)]

mod journal_machine;
pub mod laws;
mod lines;
mod opening;
mod replaying;
mod status;
mod streams;

pub use replay_loop::{LINE_LIMIT, ReplayFault};
pub use replaying::{replay, replay_within};
pub use status::status_of;
pub use streams::replay_input;
