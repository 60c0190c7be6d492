//! One recorder of the runs of a load of a job. It keeps the last start, the last exit, the last refused start with the reason,
//! and since when the job's state lasts. It counts each of them. The launcher has one for each loaded job, for its status file,
//! and `jobscope` has one for each job of a journal.
#![tactic(auto)]

mod facts;
mod failures;
mod log;

pub use facts::{RefusedStart, RunEnd, RunFacts, RunItem};
pub use failures::is_failure;
pub use log::RunLog;
