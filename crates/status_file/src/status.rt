//! What a status file says, as plain data. Its texts are borrowed: of the launcher that writes it, or of the line that was read.

ghost use Rattle.std.specs.Prelude.{◌≡◌};
ghost use Rattle.status_file.specs.States.{state_by_reasons};

use crate::facts::JobFacts;
use history_model::definition::{Def, PathState};
use history_model::{Act, JobState, Reading, Reasons, Text};
pub(crate) use run_log::{RefusedStart, RunEnd};

/// The state of a launcher's journal.
#[derive(Clone, Copy)]
pub enum JournalStatus<'a> {
    /// The launcher writes none.
    None,
    /// Each line so far was written.
    Open,
    /// Nothing more is written to it, for this reason.
    Closed(&'a str),
}

/// The launcher, at the pass of its event loop in which it wrote the file.
#[derive(Clone, Copy)]
pub struct LauncherStatus<'a> {
    pub version: &'a str,
    /// Its process.
    pub pid: u32,
    /// The time of its start, in ticks since the boot, as field 22 of `/proc/PID/stat` has it. Another process with the same PID has another one.
    pub began: u64,
    /// The line, without its newline, of the header with which a journal of this launcher begins, but without settings. `ctl_protocol::read_header`
    /// reads the zone and the launcher's first clock reading from it.
    pub header: &'a str,
    /// The clock reading of that pass.
    pub at: Reading,
    pub journal: JournalStatus<'a>,
    /// What the store refused last, if it refused something.
    pub store: Option<&'a str>,
    /// How many seconds pass at most until the launcher renews the file's modification time. None also if a launcher of version 0.3.0 wrote the file:
    /// it renews it only if something happens.
    pub renewed_each: Option<u64>,
    /// How many calls for its jobs the system refused since the launcher began: starts, signals, questions about exits, binds and path checks, and
    /// clock readings. None also if a launcher of version 0.3.0 wrote the file.
    pub failed_calls: Option<u64>,
    /// Whether a shutdown was accepted: then the launcher starts no job, and it ends once no job is loaded. None also if a launcher of version 0.3.0
    /// wrote the file.
    pub is_shutting_down: Option<bool>,
    /// How many jobs are loaded, and so how many lines follow this one.
    pub jobs: u64,
}

/// A load that was refused, since a socket could not be bound.
#[derive(Clone, Copy)]
pub struct BindStatus<'a> {
    pub label: &'a str,
    /// What could not be done, with the system's reason.
    pub reason: &'a str,
    pub at: Reading,
}

/// By what a label is disabled.
#[derive(Clone, Copy)]
pub enum DisabledBy {
    /// Its definition's `Disabled`.
    Definition,
    /// A setting: `disable`, or `unload -w`.
    Override,
}

/// What a launcher knows of a job since its load.
#[derive(Clone, Copy)]
pub struct JobNote<'a> {
    /// When its last run began, was refused or ended, whichever came last. Of a job without a start, when it was loaded.
    pub since: Reading,
    /// The number of its last start, 0 if there was none.
    pub run: u64,
    /// How many starts were ordered, refused ones too.
    pub starts: u64,
    /// How many starts were refused, and how many runs failed, together: the file's `failures`. A launcher of version 0.3.0 counts each run that did not exit
    /// with code 0.
    pub unsuccessful: u64,
    /// How many starts were refused.
    pub refusals: u64,
    /// When its last start was ordered, also if it was refused.
    pub started: Option<Reading>,
    /// When the first TERM, and when the last KILL, was ordered for its last run.
    pub term: Option<Reading>,
    pub kill: Option<Reading>,
    pub last_end: Option<RunEnd>,
    /// When a run of it last exited with code 0. None also if a launcher of version 0.3.0 wrote the file.
    pub succeeded: Option<Reading>,
    /// The last start that was refused.
    pub refused: Option<RefusedStart<'a>>,
    /// The SHA-256 of its definition as it was loaded, in 64 hexadecimal digits. None if there was no memory for it, or just after the load.
    pub definition: Option<&'a str>,
    /// When its label was disabled, if it is: the clock reading at which that was written first, at most a second after the setting. None if it was
    /// disabled before its launcher began, or before it was loaded, or if a launcher of version 0.3.0 wrote the file.
    pub disabled_at: Option<Reading>,
}

/// Paths that a definition has under a key: how many, and the first one.
#[derive(Clone, Copy)]
pub struct KeyPaths<'a> {
    pub count: u64,
    /// The first of them, as the definition has it. None if there is none.
    pub first: Option<&'a str>,
}

/// What a definition says, as far as it makes a difference to what is reported of its job.
#[derive(Clone, Copy)]
pub struct JobKeys<'a> {
    pub run_at_load: bool,
    pub successful_exit: Option<bool>,
    pub crashed: Option<bool>,
    /// The paths of the conditions of `PathState`.
    pub path_state: KeyPaths<'a>,
    /// Whether the first of them wants its path to be there. None if there is none.
    pub first_exists: Option<bool>,
    /// Whether the condition of `PathState` that holds wants its path to be there. None if none holds.
    pub path_exists: Option<bool>,
    /// In seconds, and so are the next two.
    pub start_interval: Option<u32>,
    pub throttle_interval: u32,
    pub exit_time_out: u32,
    pub watch_paths: KeyPaths<'a>,
    pub queue_directories: KeyPaths<'a>,
    pub has_sockets: bool,
    /// The file that its errors go to.
    pub errors: Option<&'a str>,
    /// Whether it is known where they go: a launcher of version 0.3.0 does not say it.
    pub knows_errors: bool,
}

impl<'a> JobKeys<'a> {
    /// The keys of a definition. The path is the one that holds its job wanted.
    pub fn of(def: &'a Def, path: Option<&str>) -> JobKeys<'a> {
        let (path_state, first_exists) = conditions_of(def.path_state());
        let path_exists = match path {
            Some(path) => wish_of(def, path),
            None => None,
        };
        JobKeys {
            run_at_load: def.run_at_load(),
            successful_exit: def.successful_exit(),
            crashed: def.crashed(),
            path_state,
            first_exists,
            path_exists,
            start_interval: def.start_interval(),
            throttle_interval: def.throttle_interval(),
            exit_time_out: def.exit_time_out(),
            watch_paths: paths_of(def.watch_paths()),
            queue_directories: paths_of(def.queue_directories()),
            has_sockets: def.has_sockets(),
            errors: def.standard_error_path(),
            knows_errors: true,
        }
    }
}

// The paths of a key.
fn paths_of(paths: &[Text]) -> KeyPaths<'_> {
    let first = match paths.first() {
        Some(first) => Some(first.as_str()),
        None => None,
    };
    KeyPaths {
        count: paths.len() as u64,
        first,
    }
}

// The paths of the conditions of `PathState`, and whether the first wants its path to be there.
fn conditions_of(conditions: &[PathState]) -> (KeyPaths<'_>, Option<bool>) {
    let (first, exists) = match conditions.first() {
        Some(first) => (Some(first.path.as_str()), Some(first.present)),
        None => (None, None),
    };
    let count = conditions.len() as u64;
    (KeyPaths { count, first }, exists)
}

// What the first condition of `PathState` on this path wants.
fn wish_of(def: &Def, path: &str) -> Option<bool> {
    for state in def.path_state() {
        if state.path.as_str() == path {
            return Some(state.present);
        }
    }
    None
}

/// A loaded job, but for the entries of its calendar.
#[derive(Clone, Copy)]
pub struct JobStatus<'a> {
    pub label: &'a str,
    /// What the launcher's table says of it.
    pub facts: JobFacts<'a>,
    pub note: JobNote<'a>,
    pub keys: JobKeys<'a>,
    /// By what its label is disabled now, if it is.
    pub disabled: Option<DisabledBy>,
}

/// What a job is doing, by its reasons.
pub fn state_of(reasons: &Reasons) -> JobState
    ensures { result ≡ state_by_reasons reasons.now }
{
    let (has_child, is_ending) = match &reasons.child {
        Some(child) => (true, child.is_stopped || child.is_struck),
        None => (false, false),
    };
    if reasons.is_removing {
        JobState::Removing
    } else if matches!(reasons.awaited, Some(Act::Spawn { .. })) {
        JobState::Spawning
    } else if !has_child {
        JobState::Idle
    } else if is_ending {
        JobState::Stopping
    } else {
        JobState::Running
    }
}
