//! Which options of `jobscope` exclude each other.

use crate::command::ZoneWords;
use crate::scope_command::{NextWords, ScopeCommand, ScopeTask};

/// The text if standard input is one of several journals.
const INPUT_AMONG: &str = "jobscope: --journal - and another --journal can't be given together\n";

/// How the arguments name standard input.
const INPUT_WORD: &str = "-";

/// The text that says which of the options exclude each other, if some do.
pub(crate) fn clash_in(command: &ScopeCommand) -> Option<&'static str> {
    let clash = match &command.task {
        ScopeTask::Why(why) => clash_of_why(command, why.at.is_some()),
        ScopeTask::Next(next) => clash_of_next(command, next),
        ScopeTask::Check(_)
        | ScopeTask::Status
        | ScopeTask::Metrics
        | ScopeTask::Log(_)
        | ScopeTask::Runs(_)
        | ScopeTask::Picture(_)
        | ScopeTask::Cron(_)
        | ScopeTask::Plist(_)
        | ScopeTask::Show
        | ScopeTask::Drift => None,
    };
    match clash {
        Some(text) => Some(text),
        None if has_input_among(command) => Some(INPUT_AMONG),
        None => None,
    }
}

// Whether standard input is one of several journals.
fn has_input_among(command: &ScopeCommand) -> bool {
    let journals = command.journals.as_slice();
    journals.len() > 1 && journals.iter().any(|path| path.as_str() == INPUT_WORD)
}

// A status file and a journal, or a status file and what it does not hold.
fn clash_of_why(command: &ScopeCommand, has_time: bool) -> Option<&'static str> {
    if command.status_file.is_none() {
        None
    } else if !command.journals.as_slice().is_empty() {
        Some("jobscope: why: --status-file and --journal can't be given together\n")
    } else if has_time {
        Some("jobscope: why: --status-file and --at can't be given together\n")
    } else {
        None
    }
}

// The same; or an option for definitions without a definition, or one for loaded jobs with a definition.
fn clash_of_next(command: &ScopeCommand, next: &NextWords) -> Option<&'static str> {
    let names_file = command.status_file.is_some();
    let names_journal = !command.journals.as_slice().is_empty();
    let names_zone = match next.zone {
        ZoneWords::Default => false,
        ZoneWords::Rule(_) | ZoneWords::File(_) => true,
    };
    let has_paths = !command.words.as_slice().is_empty();
    if names_file && names_journal {
        Some("jobscope: next: --status-file and --journal can't be given together\n")
    } else if names_zone && !has_paths {
        Some("jobscope: next: --zone and --zone-file need a PATH\n")
    } else if has_paths && (next.is_all || names_file || names_journal) {
        Some("jobscope: next: --journal, --status-file and --all can't be given with a PATH\n")
    } else {
        None
    }
}
