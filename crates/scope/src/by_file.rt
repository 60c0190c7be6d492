//! What a launcher's status file reports: the table of `status`, why each job runs or not, and when each starts next.

ghost use Rattle.std.specs.Prelude.{IfOk};
ghost use Rattle.scope.specs.Findings.{AreFound};

use crate::asked::asks_for_failing;
use crate::beside::{BesideJournal, journal_beside, settings_of};
use crate::by_sources::put_view;
use crate::clock::now;
use crate::counted::counts_of;
use crate::found::{Findings, NO_CLOCK, UNREADABLE, WELL, nowhere_if};
use crate::journal::source::{NONE_NAMED, has_variable, open_journal};
use crate::kept_journals::length_at;
use crate::launcher::{LauncherFiles, is_there, launcher_files};
use crate::left::left_for;
use crate::objects::status::status_objects;
use crate::sources::{Answers, NamedSources, Source, answers_of, found_source, named_source};
use crate::subcommands::Statuses;
use crate::table_width::table_columns;
use crate::texts::unknown::unknown_in;
use crate::view::LauncherView;
use calendar_due::Zone;
use ctl_protocol::LINE_LIMIT;
use files_and_process::path_files::read_front;
use history_model::Text;
use launchctl_words::{ScopeCommand, ScopeTask};
use run_times::telling::{put_made, tell_of};
use status_file::{JournalStatus, read_line};
use status_page::{
    Look, RunCounts, StatusRead, has_colour, named_path, print_diagnostic, read_standing,
    samples_text, table_text,
};
use std::alloc::{AllocError, Global};
use std::io;
use std::io::IsTerminal;

/// The path of the status file to read, if one is to be read: `named_source` says which one, and if none is named, `found_source`. If neither finds
/// one, None; whoever reads journals then reports what was looked for.
pub(crate) fn file_asked(host: &HostRuntime, of: &ScopeCommand) -> io::Result<Option<String>> {
    let variable = named_path(host, &None::<Text>)?;
    let named = NamedSources {
        file: of.status_file.is_some(),
        journal: names_journal(of),
        variable_file: variable.is_some(),
        variable_journal: has_variable(host)?,
    };
    match named_source(&of.task, named) {
        Some(Source::VariableFile) => Ok(variable),
        Some(Source::NamedFile) => {
            drop(variable);
            Ok(named_path(host, &of.status_file)?)
        }
        Some(Source::LauncherFile | Source::Journals) => {
            drop(variable);
            Ok(None)
        }
        None => {
            drop(variable);
            launchers_file(host, of)
        }
    }
}

// Whether the arguments name a journal, or ask for what a status file does not hold.
fn names_journal(of: &ScopeCommand) -> bool {
    let is_journals = matches!(answers_of(&of.task), Answers::Journals);
    !of.journals.as_slice().is_empty() || is_journals
}

// The status file of the launcher, if that is what is read. A user who may read it may not be one who may read its journal.
fn launchers_file(host: &HostRuntime, of: &ScopeCommand) -> io::Result<Option<String>> {
    let files = launcher_files(host, host.alloc())?;
    let is_known = files.fault.is_none();
    let opens = is_known && opens(host, &files.journal) && !is_closed(host, of, &files);
    let has_file = is_known && has_file(host, &files);
    let is_noted = files.is_packages && host.stdin().is_terminal();
    let path = files.into_status_file();
    match found_source(&of.task, opens, has_file) {
        Some(Source::LauncherFile) => {
            if is_noted {
                tell_found(host, of, &path);
            }
            Ok(path)
        }
        _ => {
            drop(path);
            Ok(None)
        }
    }
}

// Whether a launcher that may be running writes nothing more to its journal, by its status file. That is looked at for the two tasks that either source
// answers. The file is read whole only if its first line says that the journal is closed.
fn is_closed(host: &HostRuntime, of: &ScopeCommand, files: &LauncherFiles) -> bool {
    let (Answers::Either, Some(path)) = (answers_of(&of.task), &files.status_file) else {
        return false;
    };
    if !says_closed(host, host.alloc(), path.as_str()) {
        return false;
    }
    match read_standing(host, host.alloc(), path.as_str(), of.words.as_slice()) {
        Ok(standing) => {
            let may_live = standing.may_live();
            drop(standing);
            may_live
        }
        Err(diagnostic) => {
            drop(diagnostic);
            false
        }
    }
}

// Whether the first line of the status file says that the journal is closed.
fn says_closed(host: &HostRuntime, alloc: Global, path: &str) -> bool {
    if length_at(host, path).is_none() {
        return false;
    }
    let mut bytes = Vec::new(alloc);
    let is_closed = match read_front(host, path, LINE_LIMIT, &mut bytes) {
        Ok(()) => match bytes.as_slice().split(|byte| *byte == b'\n').next() {
            Some(line) => is_closed_in(alloc, line),
            None => false,
        },
        Err(error) => {
            drop(error);
            false
        }
    };
    drop(bytes);
    is_closed
}

fn is_closed_in(alloc: Global, line: &[u8]) -> bool {
    match read_line(alloc, line) {
        Ok(line) => {
            let is_closed = match line.launcher() {
                Ok(launcher) => match launcher.journal {
                    JournalStatus::Closed(_) => true,
                    JournalStatus::None | JournalStatus::Open => false,
                },
                Err(_) => false,
            };
            drop(line);
            is_closed
        }
        Err(_) => false,
    }
}

fn opens(host: &HostRuntime, journal: &Option<String>) -> bool {
    match journal {
        Some(path) => open_journal(host, path.as_str()).is_ok(),
        None => false,
    }
}

// A file that a launcher named is there, or the fault is that it is not.
fn has_file(host: &HostRuntime, files: &LauncherFiles) -> bool {
    match &files.status_file {
        Some(path) => !files.is_packages || is_there(host, path.as_str()),
        None => false,
    }
}

// In a terminal `why` and `next` print a note that the package's file is read.
fn tell_found(host: &HostRuntime, of: &ScopeCommand, path: &Option<String>) {
    if let (Answers::Either, Some(path)) = (answers_of(&of.task), path) {
        tell_of(host, path.as_str(), &NONE_NAMED);
    }
}

/// Writes what the arguments ask of the file at the path. The exit status is 65 if the file can't be read, is not whole or is not a status file, or
/// if it has no job of a named label. It is 2 if failing jobs are asked for, and there is one; 71 if the clock can't be read.
pub(crate) fn tell_by_file(
    host: &HostRuntime,
    alloc: Global,
    of: &ScopeCommand,
    path: &str,
) -> io::Result<Statuses>
    ensures { IfOk result AreFound }
{
    let second = match of.from {
        Some(second) => Some(second),
        None => now(host),
    };
    let Some(second) = second else {
        return Ok(Statuses::of(WELL, NO_CLOCK));
    };
    match read_standing(host, alloc, path, of.words.as_slice()) {
        Ok(standing) => {
            let told = tell(host, alloc, of, path, &standing, second);
            drop(standing);
            match told {
                Ok(found) => Ok(Statuses::of(WELL, found)),
                Err(error) => Err(error),
            }
        }
        Err(diagnostic) => match print_diagnostic(host, path, diagnostic) {
            Ok(_) => Ok(Statuses::of(WELL, UNREADABLE)),
            Err(error) => Err(error),
        },
    }
}

fn tell(
    host: &HostRuntime,
    alloc: Global,
    of: &ScopeCommand,
    path: &str,
    standing: &StatusRead,
    second: u64,
) -> io::Result<Findings> {
    let labels = of.words.as_slice();
    match &of.task {
        ScopeTask::Why(_) | ScopeTask::Next(_) => {
            return tell_joined(host, alloc, of, path, standing, second);
        }
        ScopeTask::Metrics => {
            let counts = counts_of(host, alloc, standing)?;
            let text = samples_text(host, alloc, standing, labels, second, lent(&counts));
            drop(counts);
            put_made(host, text)?;
        }
        ScopeTask::Status if of.is_json => {
            let settings = settings_of(host, alloc, of, standing)?;
            let text = status_objects(host, alloc, standing, of, second, &settings);
            drop(settings);
            put_made(host, text)?;
        }
        ScopeTask::Status => {
            let look = Look {
                second,
                columns: table_columns(host, alloc, standing, labels),
                has_colour: has_colour(host),
                is_utc: of.is_utc,
            };
            put_made(host, table_text(host, alloc, standing, labels, look))?;
        }
        // No status file is named for these.
        ScopeTask::Check(_)
        | ScopeTask::Log(_)
        | ScopeTask::Runs(_)
        | ScopeTask::Picture(_)
        | ScopeTask::Cron(_)
        | ScopeTask::Plist(_)
        | ScopeTask::Show
        | ScopeTask::Drift => {}
    }
    Ok(nowhere_if(tell_unknown(host, alloc, path, standing, labels)?))
}

// Why each job runs or not, or when each starts, by the file and, if it can be read, by the journal of its launcher. Which jobs fail the file says alone.
fn tell_joined(
    host: &HostRuntime,
    alloc: Global,
    of: &ScopeCommand,
    path: &str,
    standing: &StatusRead,
    second: u64,
) -> io::Result<Findings> {
    let kept = if asks_for_failing(of) {
        BesideJournal::Unneeded
    } else {
        journal_beside(host, alloc, of, standing)?
    };
    let told = tell_by_both(host, alloc, of, path, standing, second, &kept);
    drop(kept);
    told
}

fn tell_by_both(
    host: &HostRuntime,
    alloc: Global,
    of: &ScopeCommand,
    path: &str,
    standing: &StatusRead,
    second: u64,
    kept: &BesideJournal,
) -> io::Result<Findings> {
    let zone = standing.zone(alloc, false)?;
    let told = match standing.zone(alloc, of.is_utc) {
        Ok(shown) => {
            let told = tell_in(host, alloc, of, path, standing, second, kept, &zone, &shown);
            drop(shown);
            told
        }
        Err(error) => Err(io::Error::from(error)),
    };
    drop(zone);
    told
}

// By the launcher's zone, and the one in which times are shown.
fn tell_in<'x>(
    host: &HostRuntime,
    alloc: Global,
    of: &'x ScopeCommand,
    path: &str,
    standing: &'x StatusRead,
    second: u64,
    kept: &'x BesideJournal,
    zone: &'x Zone,
    shown: &'x Zone,
) -> io::Result<Findings> {
    let journal = kept.journal();
    let left = left_for(host, alloc, standing, journal, of)?;
    let processes = left.as_slice();
    let sources = kept.sources();
    let view = LauncherView::by_file(standing, second, journal, sources, processes, zone, shown);
    let told = put_view(host, alloc, path, &view, of);
    drop(left);
    told
}

fn lent(counts: &Option<RunCounts>) -> Option<&RunCounts> {
    match counts {
        Some(counts) => Some(counts),
        None => None,
    }
}

// Reports each of the labels that nothing names: no job of the file, and no definition that the boot left out. It returns whether there is one.
fn tell_unknown(
    host: &HostRuntime,
    alloc: Global,
    path: &str,
    standing: &StatusRead,
    labels: &[Text],
) -> Result<bool, AllocError> {
    let mut is_nowhere = false;
    for label in labels {
        let label = label.as_str();
        if !standing.has(label) && !standing.leaves_out(label) {
            let told = unknown_in(alloc, standing, label)?;
            tell_of(host, path, &told);
            drop(told);
            is_nowhere = true;
        }
    }
    Ok(is_nowhere)
}
