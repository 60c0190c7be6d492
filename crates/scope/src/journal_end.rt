//! What the end of a journal says: what its runs came to, the loaded definitions, and how files differ from them.

use crate::age::{AsOf, reading_as_of};
use crate::beside::standing_beside;
use crate::by_sources::put_joined;
use crate::drift::drift_of;
use crate::found::{Findings, UNREADABLE, WELL, differing_if, nowhere_if};
use crate::journal::reader::OpenJournal;
use crate::listener::{JournalListener, zone_shown};
use crate::objects::runs::runs_objects;
use crate::painted::paint;
use crate::texts::runs::{has_refused, runs_table};
use crate::texts::show::show_text;
use crate::texts::unknown::unknown_text;
use crate::view::rows::is_known;
use calendar_due::Zone;
use exit_status::DIFFERS;
use history_model::Text;
use launchctl_words::{ScopeCommand, ScopeTask};
use run_times::telling::{put_made, put_outcome, tell_of};
use status_page::StatusRead;
use std::alloc::{AllocError, Global};
use std::io;

/// What is said if a start was refused, and no status file says why.
const NO_REASONS: &str =
    "read without its launcher's status file: why starts were refused is not known";

/// Writes what the journal's end says, and returns what was found. A log was written as it was read.
pub(crate) fn write_report(
    host: &HostRuntime,
    alloc: Global,
    name: &str,
    listener: &JournalListener<'_>,
    as_of: AsOf,
) -> io::Result<Findings> {
    let Some(journal) = &listener.journal else {
        return Ok(WELL);
    };
    let of = listener.of;
    let zone = zone_shown(of, &listener.utc, &journal.zone);
    let labels = of.words.as_slice();
    match &of.task {
        ScopeTask::Why(_) | ScopeTask::Next(_) => {
            return put_joined(host, alloc, name, journal, zone, of, as_of);
        }
        ScopeTask::Drift => return put_drift(host, alloc, journal, zone, of),
        ScopeTask::Log(_) if listener.lacks_reason => tell_of(host, name, &NO_REASONS),
        ScopeTask::Log(_) => {}
        ScopeTask::Runs(_) => put_runs(host, alloc, name, journal, zone, of, as_of)?,
        ScopeTask::Picture(picture) => {
            paint(host, alloc, journal, zone, listener, picture, as_of)?;
        }
        ScopeTask::Show => put_made(host, show_text(alloc, journal, zone, labels, of.is_json))?,
        // No journal is read for these.
        ScopeTask::Check(_)
        | ScopeTask::Cron(_)
        | ScopeTask::Plist(_)
        | ScopeTask::Status
        | ScopeTask::Metrics => return Ok(WELL),
    }
    Ok(nowhere_if(tell_absent(host, alloc, name, listener, journal)?))
}

// How files differ from what is loaded.
fn put_drift(
    host: &HostRuntime,
    alloc: Global,
    journal: &OpenJournal,
    zone: &Zone,
    of: &ScopeCommand,
) -> io::Result<Findings> {
    let made = drift_of(host, alloc, journal, zone, of);
    let status = put_outcome(&mut host.stdout(), made)?;
    Ok(match status {
        0 => WELL,
        DIFFERS => differing_if(true),
        _ => UNREADABLE,
    })
}

fn put_runs(
    host: &HostRuntime,
    alloc: Global,
    name: &str,
    journal: &OpenJournal,
    zone: &Zone,
    of: &ScopeCommand,
    as_of: AsOf,
) -> io::Result<()> {
    if journal.past.dropped > 0 {
        tell_of(host, name, &"medians are over the last 131072 runs");
    }
    let now = reading_as_of(as_of, journal.table.reading());
    let labels = of.words.as_slice();
    let standing = reasons_beside(host, alloc, journal, labels)?;
    if standing.is_none() && has_refused(&journal.past, labels) {
        tell_of(host, name, &NO_REASONS);
    }
    let file = standing.as_ref();
    let made = if of.is_json {
        runs_objects(alloc, &journal.past, file, zone, now, labels)
    } else {
        runs_table(alloc, &journal.past, file, now, labels)
    };
    drop(standing);
    put_made(host, made)
}

/// The status file that says why starts were refused, if one was.
pub(crate) fn reasons_beside(
    host: &HostRuntime,
    alloc: Global,
    journal: &OpenJournal,
    labels: &[Text],
) -> Result<Option<StatusRead>, AllocError> {
    if has_refused(&journal.past, labels) {
        standing_beside(host, alloc, journal.begun, labels)
    } else {
        Ok(None)
    }
}

// Reports that nothing has the label, and those near it.
fn tell_nowhere(
    host: &HostRuntime,
    alloc: Global,
    name: &str,
    journal: &OpenJournal,
    label: &str,
) -> Result<(), AllocError> {
    let told = unknown_text(alloc, journal, label)?;
    tell_of(host, name, &told);
    drop(told);
    Ok(())
}

// Reports each of the labels of the arguments that no line of the journals names, and for `show` each that is not loaded. It returns whether there is
// one. For a picture a note says which label the journal has no load of; this is not a fault.
fn tell_absent(
    host: &HostRuntime,
    alloc: Global,
    name: &str,
    listener: &JournalListener<'_>,
    journal: &OpenJournal,
) -> Result<bool, AllocError> {
    let mut is_absent = false;
    for label in listener.of.words.as_slice() {
        let label = label.as_str();
        if is_nowhere(listener, journal, label) {
            tell_nowhere(host, alloc, name, journal, label)?;
            is_absent = true;
        } else {
            is_absent = is_absent | tell_unloaded(host, alloc, name, listener, journal, label)?;
        }
    }
    Ok(is_absent)
}

// Nothing has the label: no job, no setting, no refused load, and no other line.
fn is_nowhere(listener: &JournalListener<'_>, journal: &OpenJournal, label: &str) -> bool {
    !is_known(journal, label) && !listener.named.has(label)
}

// Reports of a label that the journal has whether it has the job that is asked for. It returns whether its lack is a fault.
fn tell_unloaded(
    host: &HostRuntime,
    alloc: Global,
    name: &str,
    listener: &JournalListener<'_>,
    journal: &OpenJournal,
    label: &str,
) -> Result<bool, AllocError> {
    match &listener.of.task {
        ScopeTask::Show if journal.facts(label).is_none() => {
            let told = format!(in alloc; "{label} is not loaded")?;
            tell_of(host, name, &told);
            drop(told);
            Ok(true)
        }
        ScopeTask::Picture(_) if journal.past.jobs.get(label).is_none() => {
            tell_of(host, label, &"the journal has no load of it");
            Ok(false)
        }
        ScopeTask::Show
        | ScopeTask::Picture(_)
        | ScopeTask::Log(_)
        | ScopeTask::Runs(_)
        | ScopeTask::Drift
        | ScopeTask::Why(_)
        | ScopeTask::Next(_)
        | ScopeTask::Status
        | ScopeTask::Metrics
        | ScopeTask::Check(_)
        | ScopeTask::Cron(_)
        | ScopeTask::Plist(_) => Ok(false),
    }
}
