//! The launcher: a table of jobs, the outside that its orders are carried out on, the store of settings and the journal.
//! One input after another is made an event of the machine, and each answer of the outside too.
#![tactic(auto)]

mod answer_queue;
mod answers;
mod client_requests;
mod events;
mod finishing;
mod host;
mod host_parts;
mod input;
mod journal;
mod journal_writer;
pub mod laws;
mod lent_facts;
mod loading;
mod orders;
mod replies;
mod request_lines;
mod setting;
mod settings;
mod turns;

pub use host::{Host, HostFault};
pub use input::Input;
pub use journal::{Journal, Phase};
pub use journal_writer::Cause;
