//! What happens to the runs of a load of a job, and what is known of them, as plain data.

ghost use Rattle.std.specs.Prelude.{◌≡◌, []};
ghost use Rattle.run_log.specs.Kept.{kept_of};
ghost use Rattle.run_log.specs.Shown.{shown};

use history_model::{Ended, Reading, Text};

/// What happens to the runs of a load of a job.
#[derive(Drop)]
pub enum RunItem {
    /// The start of this run was ordered.
    Ordered(u64),
    /// The system started it.
    Begun,
    /// The system refused to start this run, for this reason. None: the reason is not known, or there was no memory for it.
    Refused(u64, Option<Text>),
    /// TERM was ordered for the present run.
    Termed,
    /// KILL was ordered for it.
    Killed,
    /// This run exited so.
    Exited(u64, Ended),
}

/// How a run ended, and the clock readings at which it began and ended.
#[derive(Clone, Copy)]
pub struct RunEnd {
    pub run: u64,
    pub how: Ended,
    /// Whether TERM or KILL was ordered for it. None: it is not known, since a launcher of version 0.3.0 does not write it.
    pub ordered: Option<bool>,
    /// When the system started it. Of a run whose start was not heard of, when it ended.
    pub began: Reading,
    pub ended: Reading,
}

/// A start that the system refused.
#[derive(Clone, Copy)]
pub struct RefusedStart<'a> {
    pub run: u64,
    /// What could not be done, with the system's reason. None if it is not known, or if there was no memory for it.
    pub reason: Option<&'a str>,
    pub at: Reading,
}

/// What is known of the runs of a load of a job.
#[derive(Clone, Copy)]
pub struct RunFacts<'a> {
    /// When the job was loaded.
    pub loaded: Reading,
    /// When its last run began, was refused or ended, whichever came last. Of a job without a start, when it was loaded.
    pub since: Reading,
    /// The number of its last start, 0 if there was none.
    pub run: u64,
    /// How many starts were ordered, refused ones too.
    pub starts: u64,
    /// How many starts were refused.
    pub refusals: u64,
    /// How many runs ended.
    pub ends: u64,
    /// How many of these failed (`is_failure`).
    pub failures: u64,
    /// When its last start was ordered, also if it was refused.
    pub started: Option<Reading>,
    /// When a run of it last began.
    pub begun: Option<Reading>,
    /// When the first TERM, and when the last KILL, was ordered since its last start.
    pub term: Option<Reading>,
    pub kill: Option<Reading>,
    pub last_end: Option<RunEnd>,
    /// When a run of it last exited with code 0.
    pub succeeded: Option<Reading>,
    /// The last start that was refused.
    pub refused: Option<RefusedStart<'a>>,
    /// Whether that was the last start that was answered.
    pub is_refused: bool,
}

impl<'a> RunFacts<'a> {
    /// Of a job that was loaded at this clock reading, and of whose runs nothing was heard.
    pub fn of_load(loaded: Reading) -> RunFacts<'a>
        ensures { shown result ≡ kept_of loaded [] }
    {
        RunFacts {
            loaded,
            since: loaded,
            run: 0,
            starts: 0,
            refusals: 0,
            ends: 0,
            failures: 0,
            started: None,
            begun: None,
            term: None,
            kill: None,
            last_end: None,
            succeeded: None,
            refused: None,
            is_refused: false,
        }
    }
}
