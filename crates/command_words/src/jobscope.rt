//! What the arguments of `jobscope` mean.

use crate::arguments::{is_set, value_of, values_of};
use crate::clashes::clash_in;
use crate::command::{Paths, WordFault};
use crate::jobd::zone_in;
use crate::numbers::{number_of, wrong_number};
use crate::parse::{Explanation, explain_by, parse};
use crate::scope_command::{
    CheckWords, CronWords, ListWords, LogWords, Meaning, NextWords, PictureWords, ScopeCommand,
    ScopeTask, SpanWords, WhyWords,
};
use crate::scope_words::jobscope_words;
use clap::ArgMatches;
use std::alloc::{AllocError, Global};

const BOTH_ZONES: &str = "jobscope: --zone and --zone-file can't be given together\n";

/// A subcommand by its name alone.
#[derive(Clone, Copy)]
enum TaskName {
    Check,
    Next,
    Status,
    Metrics,
    Why,
    Log,
    Runs,
    Picture,
    Show,
    Drift,
    Cron,
    Plist,
}

/// The names of the subcommands, in the order of the help.
const NAMES: &[(&str, TaskName)] = &[
    ("check", TaskName::Check),
    ("next", TaskName::Next),
    ("status", TaskName::Status),
    ("metrics", TaskName::Metrics),
    ("why", TaskName::Why),
    ("log", TaskName::Log),
    ("runs", TaskName::Runs),
    ("picture", TaskName::Picture),
    ("show", TaskName::Show),
    ("drift", TaskName::Drift),
    ("cron", TaskName::Cron),
    ("plist", TaskName::Plist),
];

fn task_named(name: &str) -> Option<TaskName> {
    for (known, task) in NAMES {
        if *known == name {
            return Some(*task);
        }
    }
    None
}

// What the subcommand's arguments say for it alone. None: they name two zones.
fn task_in(
    alloc: Global,
    name: TaskName,
    found: &ArgMatches<'_>,
) -> Result<Option<ScopeTask>, AllocError> {
    let task = match name {
        TaskName::Check => return check_in(alloc, found),
        TaskName::Next => return next_in(alloc, found),
        TaskName::Status => ScopeTask::Status,
        TaskName::Metrics => ScopeTask::Metrics,
        TaskName::Why => ScopeTask::Why(WhyWords {
            is_failing: is_set(found, "failing"),
            at: value_of(alloc, found, "at")?,
        }),
        TaskName::Log => ScopeTask::Log(LogWords {
            follows: is_set(found, "follow"),
            span: span_in(alloc, found)?,
        }),
        TaskName::Runs => ScopeTask::Runs(span_in(alloc, found)?),
        TaskName::Picture => ScopeTask::Picture(PictureWords {
            is_page: is_set(found, "html"),
            span: span_in(alloc, found)?,
        }),
        TaskName::Show => ScopeTask::Show,
        TaskName::Drift => ScopeTask::Drift,
        TaskName::Cron => ScopeTask::Cron(cron_in(alloc, found)?),
        TaskName::Plist => ScopeTask::Plist(ListWords {
            into: value_of(alloc, found, "into")?,
        }),
    };
    Ok(Some(task))
}

fn check_in(alloc: Global, found: &ArgMatches<'_>) -> Result<Option<ScopeTask>, AllocError> {
    match zone_in(alloc, found)? {
        Some(zone) => Ok(Some(ScopeTask::Check(CheckWords {
            is_strict: is_set(found, "strict"),
            zone,
        }))),
        None => Ok(None),
    }
}

fn next_in(alloc: Global, found: &ArgMatches<'_>) -> Result<Option<ScopeTask>, AllocError> {
    match zone_in(alloc, found)? {
        Some(zone) => Ok(Some(ScopeTask::Next(NextWords {
            zone,
            is_all: is_set(found, "all"),
            count: number_of(found, "count"),
        }))),
        None => Ok(None),
    }
}

fn span_in(alloc: Global, found: &ArgMatches<'_>) -> Result<SpanWords, AllocError> {
    let since = value_of(alloc, found, "since");
    let until = value_of(alloc, found, "until");
    match (since, until) {
        (Ok(since), Ok(until)) => Ok(SpanWords { since, until }),
        (since, until) => {
            drop(since);
            drop(until);
            Err(AllocError)
        }
    }
}

fn cron_in(alloc: Global, found: &ArgMatches<'_>) -> Result<CronWords, AllocError> {
    let into = value_of(alloc, found, "into");
    let logs = value_of(alloc, found, "logs");
    match (into, logs) {
        (Ok(into), Ok(logs)) => Ok(CronWords {
            has_user: is_set(found, "system"),
            into,
            logs,
        }),
        (into, logs) => {
            drop(into);
            drop(logs);
            Err(AllocError)
        }
    }
}

// The subcommand's arguments, whose numbers are right, with what they say for it alone.
fn command_in(
    alloc: Global,
    name: TaskName,
    found: &ArgMatches<'_>,
    task: ScopeTask,
) -> Result<ScopeCommand, AllocError> {
    let words = words_in(alloc, name, found);
    let journals = texts_in(alloc, found, "journal");
    let status_file = value_of(alloc, found, "status-file");
    match (words, journals, status_file) {
        (Ok(words), Ok(journals), Ok(status_file)) => Ok(ScopeCommand {
            task,
            journals,
            status_file,
            is_json: is_set(found, "json"),
            is_utc: is_set(found, "utc"),
            from: number_of(found, now_in(name)),
            words,
        }),
        (words, journals, status_file) => {
            drop(words);
            drop(journals);
            drop(status_file);
            drop(task);
            Err(AllocError)
        }
    }
}

// The option whose second is now.
fn now_in(name: TaskName) -> &'static str {
    match name {
        TaskName::Next => "from",
        TaskName::Check
        | TaskName::Status
        | TaskName::Metrics
        | TaskName::Why
        | TaskName::Log
        | TaskName::Runs
        | TaskName::Picture
        | TaskName::Show
        | TaskName::Drift
        | TaskName::Cron
        | TaskName::Plist => "now",
    }
}

fn words_in(alloc: Global, name: TaskName, found: &ArgMatches<'_>) -> Result<Paths, AllocError> {
    let id = match name {
        TaskName::Check | TaskName::Next | TaskName::Plist | TaskName::Drift => "paths",
        TaskName::Cron => "lines",
        TaskName::Status
        | TaskName::Metrics
        | TaskName::Why
        | TaskName::Log
        | TaskName::Runs
        | TaskName::Picture
        | TaskName::Show => "labels",
    };
    texts_in(alloc, found, id)
}

fn texts_in(alloc: Global, found: &ArgMatches<'_>, id: &str) -> Result<Paths, AllocError> {
    match values_of(alloc, found, id)? {
        Some(words) => Ok(words),
        None => Ok(Paths::new(Vec::new(alloc))),
    }
}

// Usage: no command of this name.
fn meaning_of(alloc: Global, matches: &ArgMatches<'_>) -> Result<Meaning, WordFault> {
    let Some((name, found)) = matches.subcommand() else {
        return Err(WordFault::Usage);
    };
    let Some(name) = task_named(name) else {
        return Err(WordFault::Usage);
    };
    match meaning_in(alloc, found, name) {
        Ok(meaning) => Ok(meaning),
        Err(_) => Err(WordFault::NoMemory),
    }
}

fn meaning_in(
    alloc: Global,
    found: &ArgMatches<'_>,
    name: TaskName,
) -> Result<Meaning, AllocError> {
    if let Some(text) = wrong_number(alloc, found)? {
        return Ok(Meaning::Wrong(text));
    }
    let Some(task) = task_in(alloc, name, found)? else {
        return Ok(Meaning::Wrong(String::from_str(alloc, BOTH_ZONES)?));
    };
    unless_clash(alloc, command_in(alloc, name, found, task)?)
}

// The command, or the text that says which of its options exclude each other.
fn unless_clash(alloc: Global, command: ScopeCommand) -> Result<Meaning, AllocError> {
    let Some(text) = clash_in(&command) else {
        return Ok(Meaning::Command(command));
    };
    drop(command);
    Ok(Meaning::Wrong(String::from_str(alloc, text)?))
}

/// What the arguments mean, the first being the program's own name. It is a text that says what is wrong if clap takes them and a
/// value is not a number, or options are given that exclude each other. Usage: clap does not take them as a command of jobscope.
pub fn read_scope_words(alloc: Global, words: &[String]) -> Result<Meaning, WordFault> {
    let Ok(command) = jobscope_words(alloc) else {
        return Err(WordFault::NoMemory);
    };
    match parse(command, words) {
        Ok(matches) => meaning_of(alloc, &matches),
        Err(fault) => Err(fault),
    }
}

/// The text for arguments that do not form a command of jobscope, or that ask for help.
pub fn explain_scope(alloc: Global, words: &[String]) -> Result<Explanation, AllocError> {
    explain_by(alloc, "jobscope", jobscope_words(alloc), words)
}
