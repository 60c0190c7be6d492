//! Reads the journals that are asked of, and reports their events as they are read or as they come. Once they are read to their end, or to an earlier time,
//! the reports on jobs follow.

ghost use Rattle.std.specs.Prelude.{IfOk};
ghost use Rattle.scope.specs.Findings.{AreFound};

use crate::age::AsOf;
use crate::at::{begun_by, read_up_to};
use crate::beside::file_beside;
use crate::found::{Findings, UNREADABLE, WELL};
use crate::journal::fault::{JournalFault, tell_fault, tell_long};
use crate::journal::lines::JournalLines;
use crate::journal::source::{INPUT, journal_paths, read_journal, reads_input, tell_bad};
use crate::journal_end::write_report;
use crate::launcher::tell_no_launcher;
use crate::listener::{JournalListener, zone_shown};
use crate::log::follow;
use crate::seen::{seen_at, seen_now, with_gap};
use crate::sources::{Answers, answers_of};
use crate::subcommands::Statuses;
use crate::texts::log_ends::add_end;
use crate::window::window_of;
use history_model::{Reading, Text};
use launchctl_words::{ScopeCommand, ScopeTask};
use run_times::Page;
use run_times::telling::put_made;
use status_page::StatusRead;
use std::alloc::{AllocError, Global};
use std::io;
use std::sync::Wait;

/// Writes the report on the jobs of the journal, or on those that are named. A log has the events from the command's second on, a line each. If the
/// command follows the journal, it goes on as the file grows; only this may wait.
///
/// The exit status is 65 if no journal is found, if it can't be read, or if a line is not an event or is too long. It is 65 too if nothing has a
/// label of the arguments, or if the journal begins after the time that is asked for. It is 71 if the clock can't be read.
pub(crate) fn report<W: Wait>(
    host: &HostRuntime,
    waits: &W,
    alloc: Global,
    of: &ScopeCommand,
) -> io::Result<Statuses>
    ensures { IfOk result AreFound }
{
    let window = match window_of(host, of) {
        Ok(window) => window,
        Err(found) => return Ok(Statuses::of(WELL, found)),
    };
    if let Answers::StatusFile = answers_of(&of.task) {
        tell_no_launcher(host, Answers::StatusFile)?;
        return Ok(Statuses::of(WELL, UNREADABLE));
    }
    let paths = journal_paths(host, of)?;
    let beside = log_beside(host, alloc, of);
    let mut lines = JournalLines::new(alloc);
    let mut listener = JournalListener::new(alloc, of, window, file_in(&beside));
    let found = report_on(
        host,
        waits,
        alloc,
        paths.as_slice(),
        &mut lines,
        &mut listener,
    );
    drop(listener);
    drop(lines);
    drop(beside);
    drop(paths);
    match found {
        Ok((before, last)) => Ok(Statuses::of(before, last)),
        Err(error) => Err(error),
    }
}

// The status file that a log takes reasons from. Without memory for it the log has none.
fn log_beside(
    host: &HostRuntime,
    alloc: Global,
    of: &ScopeCommand,
) -> Result<Option<(StatusRead, Reading)>, AllocError> {
    match &of.task {
        ScopeTask::Log(_) => file_beside(host, alloc, of.words.as_slice()),
        ScopeTask::Check(_)
        | ScopeTask::Next(_)
        | ScopeTask::Status
        | ScopeTask::Metrics
        | ScopeTask::Why(_)
        | ScopeTask::Runs(_)
        | ScopeTask::Picture(_)
        | ScopeTask::Cron(_)
        | ScopeTask::Plist(_)
        | ScopeTask::Show
        | ScopeTask::Drift => Ok(None),
    }
}

// The status file, if there is one, and its launcher's first clock reading.
fn file_in(
    beside: &Result<Option<(StatusRead, Reading)>, AllocError>,
) -> Option<(&StatusRead, Reading)> {
    match beside {
        Ok(Some((standing, begun))) => Some((standing, *begun)),
        Ok(None) | Err(_) => None,
    }
}

// Of a journal that comes on standard input. Without one no journal was found, which was reported.
fn report_input(
    host: &HostRuntime,
    alloc: Global,
    lines: &mut JournalLines,
    listener: &mut JournalListener<'_>,
) -> io::Result<(Findings, Findings)> {
    if !reads_input(listener.of) {
        return Ok((WELL, UNREADABLE));
    }
    match report_by(host, alloc, None, lines, listener) {
        Ok(found) => Ok((WELL, found)),
        Err(error) => Err(error),
    }
}

// Of several journals the last is the present launcher's; each of the others is read whole before it. If a time is given, journals that begin later
// are left out.
fn report_on<W: Wait>(
    host: &HostRuntime,
    waits: &W,
    alloc: Global,
    paths: &[Text],
    lines: &mut JournalLines,
    listener: &mut JournalListener<'_>,
) -> io::Result<(Findings, Findings)> {
    let kept = paths.len();
    let paths = up_to_moment(host, alloc, paths, listener);
    listener.is_followed = paths.len() < kept;
    let [before @ .., last] = paths else {
        return report_input(host, alloc, lines, listener);
    };
    let before = read_before(host, alloc, before, listener)?;
    let path = last.as_str();
    let told = if follows(&listener.of.task) {
        follow(host, waits, alloc, path, lines, listener)
    } else {
        report_by(host, alloc, Some(path), lines, listener)
    };
    match told {
        Ok(last) => Ok((before, last)),
        Err(error) => Err(error),
    }
}

// The journals to read up to the time of the arguments, if there is one. In the window, that time is a second then.
fn up_to_moment<'a>(
    host: &HostRuntime,
    alloc: Global,
    paths: &'a [Text],
    listener: &mut JournalListener<'_>,
) -> &'a [Text] {
    let of = listener.of;
    let Some((moment, now)) = listener.window.end(&of.task) else {
        return paths;
    };
    match begun_by(host, alloc, paths, of, moment, now) {
        Some((told, second)) => {
            listener.window = listener.window.up_to(second);
            told
        }
        None => paths,
    }
}

// Reads each journal whole, and reports the faults in it.
fn read_before(
    host: &HostRuntime,
    alloc: Global,
    paths: &[Text],
    listener: &mut JournalListener<'_>,
) -> io::Result<Findings> {
    let mut found = WELL;
    for path in paths {
        let path = path.as_str();
        let mut lines = JournalLines::new(alloc);
        let is_quiet = is_quiet(&listener.of.task);
        let told = match read_journal(host, Some(path), is_quiet, &mut lines, listener) {
            Ok(()) => Ok(damaged_if(tell_bad(host, path, &lines))),
            Err(fault) => tell_fault(host, path, fault),
        };
        drop(lines);
        match told {
            Ok(told) => found = found.and(told),
            Err(error) => return Err(error),
        }
    }
    Ok(found)
}

fn damaged_if(is_damaged: bool) -> Findings {
    Findings { is_damaged, ..WELL }
}

// Nothing is shown while a journal is read.
fn is_quiet(task: &ScopeTask) -> bool {
    !matches!(task, ScopeTask::Log(_))
}

// Whether the journal is read on as it grows.
fn follows(task: &ScopeTask) -> bool {
    match task {
        ScopeTask::Log(log) => log.follows,
        ScopeTask::Check(_)
        | ScopeTask::Next(_)
        | ScopeTask::Status
        | ScopeTask::Metrics
        | ScopeTask::Why(_)
        | ScopeTask::Runs(_)
        | ScopeTask::Picture(_)
        | ScopeTask::Cron(_)
        | ScopeTask::Plist(_)
        | ScopeTask::Show
        | ScopeTask::Drift => false,
    }
}

fn report_by(
    host: &HostRuntime,
    alloc: Global,
    path: Option<&str>,
    lines: &mut JournalLines,
    listener: &mut JournalListener<'_>,
) -> io::Result<Findings> {
    let name = path.unwrap_or(INPUT);
    let is_quiet = is_quiet(&listener.of.task);
    let (read, as_of) = match read_as_of(host, alloc, path, is_quiet, lines, listener) {
        Ok(as_of) => (damaged_if(tell_bad(host, name, lines)), as_of),
        // What came before that line is reported.
        Err(JournalFault::LongLine(line)) => {
            tell_long(host, name, line);
            (UNREADABLE, AsOf::End(None))
        }
        Err(fault) => return tell_fault(host, name, fault),
    };
    if let (Some(path), ScopeTask::Log(_)) = (path, &listener.of.task) {
        put_end(host, alloc, path, listener)?;
    }
    match write_report(host, alloc, name, listener, as_of) {
        Ok(found) => Ok(found.and(read)),
        Err(error) => Err(error),
    }
}

// Reads the journal, and returns the time as of which it is reported.
fn read_as_of(
    host: &HostRuntime,
    alloc: Global,
    path: Option<&str>,
    is_quiet: bool,
    lines: &mut JournalLines,
    listener: &mut JournalListener<'_>,
) -> Result<AsOf, JournalFault> {
    let of = listener.of;
    if let Some((moment, now)) = listener.window.end(&of.task) {
        let as_of = read_up_to(host, alloc, path, moment, now, lines, listener)?;
        return Ok(with_gap(host, alloc, path, listener, as_of));
    }
    read_journal(host, path, is_quiet, lines, listener)?;
    match &of.task {
        ScopeTask::Why(_) | ScopeTask::Next(_) => seen_now(host, alloc, path, listener),
        ScopeTask::Picture(picture) if picture.is_page => {
            Ok(AsOf::End(seen_at(host, alloc, path, listener)))
        }
        ScopeTask::Picture(_)
        | ScopeTask::Log(_)
        | ScopeTask::Runs(_)
        | ScopeTask::Show
        | ScopeTask::Drift
        | ScopeTask::Check(_)
        | ScopeTask::Cron(_)
        | ScopeTask::Plist(_)
        | ScopeTask::Status
        | ScopeTask::Metrics => Ok(AsOf::End(None)),
    }
}

// The line of a log for an end of its last journal that is not one in order.
fn put_end(
    host: &HostRuntime,
    alloc: Global,
    path: &str,
    listener: &JournalListener<'_>,
) -> io::Result<()> {
    match (
        &listener.journal,
        seen_at(host, alloc, Some(path), listener),
    ) {
        (Some(journal), Some(seen)) if listener.tells(journal.table.reading()) => {
            let zone = zone_shown(listener.of, &listener.utc, &journal.zone);
            let mut page = Page::new(alloc, zone, journal.table.reading());
            add_end(&mut page, seen.life);
            put_made(host, page.into_text())
        }
        _ => Ok(()),
    }
}
