//! The processes that runs of a launcher left running, if there can be some.

ghost use Rattle.std.specs.Prelude.{◌≡◌};
ghost use Rattle.scope.specs.Left.{is_late, may_have_left};

use crate::joined::line_with;
use crate::journal::reader::OpenJournal;
use crate::kept_journals::begun_of;
use files_and_process::processes::{add_pids, process_at, ticks_now};
use files_and_process::run_names::LauncherId;
use history_model::{Reading, Text};
use launchctl_words::{ScopeCommand, ScopeTask};
use leftovers::{RunProcess, run_processes_among};
use status_file::{JobNote, JobStatus, JournalStatus};
use status_page::{StatusRead, is_asked};
use std::alloc::{AllocError, Global};

/// For how many clock ticks, of which a second has 100, a status file may lag. It is written within a second of a change, and a pass of the loop later.
const LAG: u64 = 200;

/// How many milliseconds after its launcher began the definitions of a boot are loaded. A label that is loaded by then had no load before.
pub const BOOT: u64 = 2_000;

/// What the arguments ask of the processes that runs left: `why` names those of the file's jobs, or of the named ones.
pub(crate) fn left_for(
    host: &HostRuntime,
    alloc: Global,
    standing: &StatusRead,
    journal: Option<&OpenJournal>,
    of: &ScopeCommand,
) -> Result<Vec<RunProcess>, AllocError> {
    match &of.task {
        ScopeTask::Why(why) if !why.is_failing => {
            left_running(host, alloc, standing, journal, of.words.as_slice())
        }
        ScopeTask::Why(_)
        | ScopeTask::Check(_)
        | ScopeTask::Next(_)
        | ScopeTask::Status
        | ScopeTask::Metrics
        | ScopeTask::Log(_)
        | ScopeTask::Runs(_)
        | ScopeTask::Picture(_)
        | ScopeTask::Cron(_)
        | ScopeTask::Plist(_)
        | ScopeTask::Show
        | ScopeTask::Drift => Ok(Vec::new(alloc)),
    }
}

// The processes of each job of the file, or of those named, that are not of its present run. None if the launcher has exited, and none is looked for if
// no run can have left one: a look at a process costs some ten microseconds.
fn left_running(
    host: &HostRuntime,
    alloc: Global,
    standing: &StatusRead,
    journal: Option<&OpenJournal>,
    labels: &[Text],
) -> Result<Vec<RunProcess>, AllocError> {
    let launcher = match standing.launcher() {
        Some(launcher) if standing.may_live() && is_numbered_here(standing, launcher.pid) =>
            LauncherId {
                pid: launcher.pid,
                began: launcher.began,
            },
        _ => return Ok(Vec::new(alloc)),
    };
    if !can_be_left(standing, journal, labels, begun_of(alloc, standing)?) {
        return Ok(Vec::new(alloc));
    }
    let mut left = processes_unknown(host, alloc, standing, launcher)?;
    left.retain(|process| is_asked(labels, process.label.as_str()));
    if left.is_empty() {
        return Ok(left);
    }
    // What began later may be of a run that the file does not have yet.
    let oldest = ticks_now(host, alloc).unwrap_or(0).saturating_sub(LAG);
    for line in standing.jobs() {
        if let Ok(job) = line.job() {
            let since = present_since(host, alloc, &left, &job, oldest);
            left.retain(|process| { process.label.as_str() != job.label || process.began < since });
        }
    }
    left.retain(|process| process.began < oldest);
    Ok(left)
}

// The processes of its runs but for those that the file has as processes of present runs: 1,000 jobs that run need no look. A process that took the PID of
// one of these since is younger than the file, and so not looked for, if the launcher still writes the file.
fn processes_unknown(
    host: &HostRuntime,
    alloc: Global,
    standing: &StatusRead,
    launcher: LauncherId,
) -> Result<Vec<RunProcess>, AllocError> {
    let mut known = Vec::new(alloc);
    if standing.foretells() {
        known.extend_from_slice(standing.pids())?;
    }
    known.sort()?;
    let mut pids = Vec::new(alloc);
    let _listed = add_pids(host, alloc, &mut pids);
    pids.retain(|pid| known.binary_search(pid).is_err());
    let found = run_processes_among(host, alloc, launcher, pids.as_slice());
    drop(pids);
    drop(known);
    found
}

// Whether a run can have left something, of one of the labels; without labels of any.
fn can_be_left(
    standing: &StatusRead,
    journal: Option<&OpenJournal>,
    labels: &[Text],
    begun: Option<Reading>,
) -> bool {
    let journal = if is_whole(standing) { journal } else { None };
    for label in labels {
        if can_be_left_of(standing, journal, label.as_str(), begun) {
            return true;
        }
    }
    labels.is_empty()
}

// Whether the launcher still writes its journal, so that it has each run.
fn is_whole(standing: &StatusRead) -> bool {
    match standing.launcher() {
        Some(launcher) => match launcher.journal {
            JournalStatus::Open => true,
            JournalStatus::None | JournalStatus::Closed(_) => false,
        },
        None => false,
    }
}

// By the journal exactly; else as far as the file has the job.
fn can_be_left_of(
    standing: &StatusRead,
    journal: Option<&OpenJournal>,
    label: &str,
    begun: Option<Reading>,
) -> bool {
    if let Some(journal) = journal {
        return match journal.past.jobs.get(label) {
            Some(job) => job.record.has_ended(),
            None => true,
        };
    }
    match line_with(standing.jobs(), label) {
        Some(line) => match line.job() {
            Ok(job) => may_have_left(&job.note, begun),
            Err(_) => true,
        },
        None => true,
    }
}

/// Whether a run of a job's label may have left something: a run of the load ended, or one was started and the label may have been loaded before. `begun` is
/// its launcher's first clock reading.
fn may_have_left(note: &JobNote<'_>, begun: Option<Reading>) -> bool
    ensures { result ≡ may_have_left note.now begun }
{
    note.last_end.is_some() || is_late(note.started, begun)
}

// Whether a start was ordered later than the loads of a boot.
fn is_late(started: Option<Reading>, begun: Option<Reading>) -> bool
    ensures { result ≡ is_late started begun }
{
    match (started, begun) {
        (Some(at), Some(begun)) => at.up.saturating_sub(begun.up) > BOOT,
        (Some(_), None) => true,
        (None, _) => false,
    }
}

// Whether the numbers of processes that the file has are those of this PID namespace, as far as that is known.
fn is_numbered_here(standing: &StatusRead, pid: u32) -> bool {
    match standing.seen.pid {
        Some(seen) => seen == pid,
        None => true,
    }
}

// When the process of the job's present run began; of a job without one, `oldest`.
fn present_since(
    host: &HostRuntime,
    alloc: Global,
    left: &Vec<RunProcess>,
    job: &JobStatus<'_>,
    oldest: u64,
) -> u64 {
    let Some(child) = job.facts.reasons.child else {
        return oldest;
    };
    if !left
        .iter()
        .any(|process| process.label.as_str() == job.label)
    {
        return oldest;
    }
    match process_at(host, alloc, child.pid) {
        Some(process) => process.began,
        None => oldest,
    }
}
