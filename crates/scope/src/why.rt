//! `jobscope why`: what it writes of a launcher that was read.

use crate::age::AsOf;
use crate::as_root::read_for;
use crate::asked::WhyAsked;
use crate::errors::{FailedRun, put_errors};
use crate::found::{Findings, differing_if, nowhere_if};
use crate::journal::reader::OpenJournal;
use crate::journal::source::INPUT;
use crate::known_runs::KnownRuns;
use crate::objects::why::why_objects;
use crate::texts::failing::failing_text;
use crate::texts::log::is_named;
use crate::texts::unknown::{unknown_in, unknown_text};
use crate::texts::why::why_text;
use crate::view::rows::is_known;
use crate::view::{LauncherView, Present};
use definition_files::check::put_seen;
use history_model::{Ended, Text};
use run_times::telling::{put, put_made, tell_of};
use run_times::{Piece, TextWriter};
use status_page::StatusRead;
use std::alloc::{AllocError, Global};
use std::io;

/// Writes why each job runs or not, or which jobs fail. `name` is that of the source which has the present.
pub(crate) fn put_why<'x>(
    host: &HostRuntime,
    alloc: Global,
    name: &str,
    of: &LauncherView<'x>,
    asked: WhyAsked<'x>,
) -> io::Result<Findings> {
    let mut failed = Vec::new(alloc);
    let made = made_of(alloc, of, asked, &mut failed);
    let found = put_all(host, alloc, name, of, asked, made, failed.as_slice());
    drop(failed);
    found
}

// What is written first, and how many jobs fail, if that is counted. The jobs whose last run failed are added to `failed`, as a text needs them.
fn made_of<'a>(
    alloc: Global,
    of: &LauncherView<'a>,
    asked: WhyAsked<'a>,
    failed: &mut Vec<FailedRun<'a>>,
) -> Result<(String, u64), AllocError> {
    if asked.is_json {
        return why_objects(alloc, of, asked);
    }
    if asked.is_failing {
        return failing_text(alloc, of, asked.labels, failed);
    }
    match why_text(alloc, of, asked.labels, failed) {
        Ok(text) => Ok((text, 0)),
        Err(error) => Err(error),
    }
}

fn put_all(
    host: &HostRuntime,
    alloc: Global,
    name: &str,
    of: &LauncherView<'_>,
    asked: WhyAsked<'_>,
    made: Result<(String, u64), AllocError>,
    failed: &[FailedRun<'_>],
) -> io::Result<Findings> {
    let (text, count) = made?;
    put_made(host, Ok(text))?;
    let is_nowhere = tell_unknown(host, alloc, name, of, asked.labels)?;
    let differs = asked.is_failing && count > 0;
    if !asked.is_json {
        put_ends(host, alloc, name, of, asked, failed)?;
    }
    Ok(nowhere_if(is_nowhere).and(differing_if(differs)))
}

// Where the errors went, and what a start needs now. Both look at paths: they come last, so that one on a file system that hangs holds up nothing else.
fn put_ends(
    host: &HostRuntime,
    alloc: Global,
    name: &str,
    of: &LauncherView<'_>,
    asked: WhyAsked<'_>,
    failed: &[FailedRun<'_>],
) -> io::Result<()> {
    put_failed(host, alloc, name, of, asked.is_failing, failed)?;
    match of.journal() {
        Some(journal) if !asked.is_failing => put_now(host, alloc, journal, asked.labels),
        _ => Ok(()),
    }
}

// Where the errors of the jobs went whose last run failed. For an earlier time it does not print what a file has now.
fn put_failed(
    host: &HostRuntime,
    alloc: Global,
    name: &str,
    of: &LauncherView<'_>,
    is_failing: bool,
    failed: &[FailedRun<'_>],
) -> io::Result<()> {
    if !is_failing && !failed.is_empty() {
        put(host, "\n")?;
    }
    let (is_seen, path) = match of.present {
        Present::Journal(_, AsOf::Moment { .. }, _) => (false, journal_path(name)),
        Present::Journal(_, _, _) => (true, journal_path(name)),
        Present::File(_, _, _) => (true, Some(name)),
    };
    put_errors(host, alloc, failed, is_seen, read_for(host, path))
}

fn journal_path(name: &str) -> Option<&str> {
    if name == INPUT { None } else { Some(name) }
}

// Why what a start needs may be missing: its last start was refused, or its last run exited with 126 or 127. A shell or a wrapper command exits with
// 126 if it can't run the program, and with 127 if the program is missing. None otherwise.
fn why_sought(runs: &KnownRuns<'_>) -> Option<&'static str> {
    match (&runs.refused, &runs.last) {
        (Some(_), _) => Some("whose last start was refused"),
        (None, Some(last)) => match last.how {
            Ended::Code(126) => {
                Some("whose last run exited with 126, as if the program can't be executed")
            }
            Ended::Code(127) => {
                Some("whose last run exited with 127, as if the program is missing")
            }
            _ => None,
        },
        (None, None) => None,
    }
}

// Checks what a start of each job of the journal needs now whose last start was refused, or whose last run ended as if something was missing.
fn put_now(
    host: &HostRuntime,
    alloc: Global,
    journal: &OpenJournal,
    labels: &[Text],
) -> io::Result<()> {
    for (label, job) in &journal.past.jobs {
        let label = label.as_str();
        if let (Some(def), Some(why), true) = (
            &job.def,
            why_sought(&job.record.known()),
            is_named(labels, label),
        ) {
            let mut writer = TextWriter::new(alloc);
            writer.fill("\n$, $:\n", &[Piece::Text(label), Piece::Text(why)]);
            put_made(host, writer.into_text())?;
            put_seen(host, alloc, def)?;
        }
    }
    Ok(())
}

// Reports each of the labels that nothing names: neither source that was read, nor a definition which the boot left out. It returns whether there is one.
fn tell_unknown(
    host: &HostRuntime,
    alloc: Global,
    name: &str,
    of: &LauncherView<'_>,
    labels: &[Text],
) -> Result<bool, AllocError> {
    let mut is_nowhere = false;
    for label in labels {
        let label = label.as_str();
        if is_unknown(of, label) {
            let told = near_text(alloc, of, label)?;
            tell_of(host, name, &told);
            drop(told);
            is_nowhere = true;
        }
    }
    Ok(is_nowhere)
}

fn is_unknown(of: &LauncherView<'_>, label: &str) -> bool {
    let is_in_journal = match of.journal() {
        Some(journal) => is_known(journal, label),
        None => false,
    };
    let is_in_file = match of.present {
        Present::Journal(_, _, standing) => leaves_out(standing, label),
        Present::File(standing, _, _) => {
            standing.has(label)
                || standing.leaves_out(label)
                || standing.refused_bind(label).is_some()
        }
    };
    !is_in_journal && !is_in_file
}

fn leaves_out(standing: Option<&StatusRead>, label: &str) -> bool {
    match standing {
        Some(standing) => standing.leaves_out(label),
        None => false,
    }
}

// That nothing has the label, and those near it, by the source that has the present.
fn near_text(alloc: Global, of: &LauncherView<'_>, label: &str) -> Result<String, AllocError> {
    match of.present {
        Present::Journal(journal, _, _) => unknown_text(alloc, journal, label),
        Present::File(standing, _, _) => unknown_in(alloc, standing, label),
    }
}
