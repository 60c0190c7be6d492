//! The subcommands over the files, the streams and the clock of the system.

ghost use Rattle.std.specs.Prelude.{IfOk};
ghost use Rattle.scope.specs.Findings.{AreFound, EndsAs};

use crate::by_file::{file_asked, tell_by_file};
use crate::clock::now;
use crate::ended::{check_ended, cron_ended, next_ended, plist_ended};
use crate::report::report;
use crate::subcommands::{PartWords, Statuses, Subcommands};
use crate::zone::{Named, zone_of};
use ctl_protocol::LINE_LIMIT;
use definition_files::cron::{HostLines, lines_of, surroundings_of};
use definition_files::{DefinitionQuery, HostFiles};
use exit_status::{BAD_CLOCK, BAD_FILE, USAGE};
use files_and_process::path_files::files_at;
use history_model::{MAX_WALL, Text};
use launchctl_words::{
    CronWords, ListWords, Meaning, ScopeCommand, WordFault, ZoneWords, explain_scope,
    read_scope_words,
};
use run_times::telling::put;
use std::alloc::Global;
use std::io;
use std::sync::Wait;

/// How many starts are shown if the arguments do not say it.
const COUNT: u64 = 10;

/// What is made of definitions.
#[derive(Clone, Copy)]
enum DefinitionReport {
    /// What is wrong with them; with `is_strict` a warning fails too.
    Check { is_strict: bool },
    /// Coming starts, and how many of them.
    Starts { count: u64 },
}

/// The subcommands of this process. Both `host` and `waits` are the runtime of `main`: only what takes it as `waits` may wait. Nothing is said of
/// what the system gives them. What reads journals or a status file ends with the statuses of what it found.
#[derive(Drop)]
pub struct HostSubcommands<'a, W> {
    pub host: &'a HostRuntime,
    pub waits: &'a W,
    pub alloc: Global,
}

impl<W: Wait> Subcommands for HostSubcommands<'_, W> {
    ghost Means = { λ _ _ _. Unit {0} };

    ghost Explains = { λ _ _ _. Unit {0} };

    ghost Names = { λ _ _ _. Unit {0} };

    ghost Tells = { λ _ _ _ ended. IfOk ended AreFound };

    ghost Ends = { λ _ part _ ended. EndsAs part ended };

    fn meaning(&self, words: &[String]) -> Result<Meaning, WordFault> {
        read_scope_words(self.alloc, words)
    }

    fn explain(&self, words: &[String]) -> io::Result<u8> {
        explain(self.host, self.alloc, words)
    }

    fn file_named(&self, command: &ScopeCommand) -> io::Result<Option<String>> {
        file_asked(self.host, command)
    }

    fn by_file(&self, command: &ScopeCommand, path: &str) -> io::Result<Statuses> {
        tell_by_file(self.host, self.alloc, command, path)
    }

    fn part(&self, part: PartWords<'_>, command: &ScopeCommand) -> io::Result<Statuses> {
        let (host, alloc) = (self.host, self.alloc);
        match part {
            PartWords::Check(check) => {
                let report = DefinitionReport::Check {
                    is_strict: check.is_strict,
                };
                alone(by_zone(host, alloc, command, &check.zone, report))
            }
            PartWords::Next(next) => {
                let count = next.count.unwrap_or(COUNT);
                let report = DefinitionReport::Starts { count };
                alone(by_zone(host, alloc, command, &next.zone, report))
            }
            PartWords::Crontab(cron) => alone(by_lines(
                host,
                alloc,
                cron,
                command.words.as_slice(),
            )),
            PartWords::Lists(lists) => alone(of_lists(
                host,
                alloc,
                lists,
                command.words.as_slice(),
            )),
            PartWords::Journals => report(host, self.waits, alloc, command),
        }
    }
}

// One status, as those of a part that has no other.
fn alone(ended: io::Result<u8>) -> io::Result<Statuses> {
    match ended {
        Ok(status) => Ok(Statuses::only(status)),
        Err(error) => Err(error),
    }
}

// Makes the definitions from the lines in the arguments; the single argument `-` means the lines of standard input.
fn by_lines(host: &HostRuntime, alloc: Global, cron: &CronWords, lines: &[Text]) -> io::Result<u8> {
    match lines {
        [only] if only.as_str() == "-" => match lines_of(host, alloc)? {
            Some(lines) => {
                let made = of_lines(host, alloc, cron, lines.as_slice());
                drop(lines);
                made
            }
            None => Ok(BAD_FILE),
        },
        lines => of_lines(host, alloc, cron, lines),
    }
}

fn of_lines(host: &HostRuntime, alloc: Global, cron: &CronWords, lines: &[Text]) -> io::Result<u8> {
    let around = surroundings_of(host, alloc, cron.has_user, named(&cron.logs))?;
    let mut keeper = HostLines {
        host,
        into: named(&cron.into),
    };
    let ended = cron_ended(host, alloc, &mut keeper, lines, &around);
    drop(around);
    ended
}

fn named(folder: &Option<Text>) -> Option<&str> {
    match folder {
        Some(folder) => Some(folder.as_str()),
        None => None,
    }
}

// The property lists at the paths, as JSON.
fn of_lists(
    host: &HostRuntime,
    alloc: Global,
    lists: &ListWords,
    paths: &[Text],
) -> io::Result<u8> {
    let mut source = HostFiles { host };
    let into = named(&lists.into);
    plist_ended(host, alloc, &mut source, paths, LINE_LIMIT, into)
}

// Reports on definitions in the zone of the arguments, as of their second, or of now.
fn by_zone(
    host: &HostRuntime,
    alloc: Global,
    of: &ScopeCommand,
    zone: &ZoneWords,
    report: DefinitionReport,
) -> io::Result<u8> {
    let Some(named) = zone_of(host, alloc, zone, of.is_utc)? else {
        return Ok(BAD_FILE);
    };
    let second = match of.from {
        Some(second) => Some(second.min(MAX_WALL)),
        None => now(host),
    };
    let ended = match second {
        Some(second) => ended_by(host, alloc, of, &named, second, report),
        None => Ok(BAD_CLOCK),
    };
    drop(named);
    ended
}

fn ended_by(
    host: &HostRuntime,
    alloc: Global,
    of: &ScopeCommand,
    named: &Named,
    from: u64,
    report: DefinitionReport,
) -> io::Result<u8> {
    let asked = DefinitionQuery {
        longest: LINE_LIMIT,
        zone: &named.zone,
        zone_line: named.line,
        from,
        is_json: of.is_json,
    };
    let files = files_at(host, of.words.as_slice())?;
    let mut source = HostFiles { host };
    let listed = files.as_slice();
    let ended = match report {
        DefinitionReport::Check { is_strict } => {
            check_ended(host, alloc, &mut source, listed, &asked, is_strict)
        }
        DefinitionReport::Starts { count } => {
            next_ended(host, alloc, &mut source, listed, &asked, count)
        }
    };
    drop(files);
    ended
}

// The help goes to the standard output, and what is wrong with the arguments to the standard error.
fn explain(host: &HostRuntime, alloc: Global, words: &[String]) -> io::Result<u8> {
    let explanation = explain_scope(alloc, words)?;
    let text = explanation.text.as_str();
    if explanation.is_help {
        put(host, text)?;
        return Ok(0);
    }
    let _written = eprint!(host; "{text}");
    Ok(USAGE)
}
