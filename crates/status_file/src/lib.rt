//! The launcher's status file: a line of JSON for the launcher, and one for each loaded job. The content of the lines is plain data, and only this
//! crate writes and reads it. It also collects the facts that a table of jobs has of a job. The launcher writes those of its own table, and
//! `jobscope` reports those of the table of a journal.
#![tactic(auto)]

/// The version of the programs, as the file VERSION of the repository has it.
pub const VERSION: &str = "0.4.0";

mod facts;
mod fields;
mod front;
mod jobs;
pub mod laws;
mod line;
mod names;
mod read;
mod refused_binds;
mod run_notes;
mod settings_made;
mod status;
mod write;

pub use facts::{JobFacts, facts_of};
pub use front::{LineFront, LineRoom};
pub use jobs::{add_jobs, job_count};
pub use line::StatusText;
pub use names::state_name;
pub use read::{StatusFault, StatusLine, read_line};
pub use refused_binds::{MOST_BINDS, RefusedBinds};
pub use run_log::{RefusedStart, RunEnd};
pub use run_notes::RunNotes;
pub use status::{
    BindStatus, DisabledBy, JobKeys, JobNote, JobStatus, JournalStatus, KeyPaths, LauncherStatus,
    state_of,
};
pub use write::add_launcher;
