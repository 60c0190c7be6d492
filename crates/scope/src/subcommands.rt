//! The subcommands of `jobscope` as parts of one run: what each ends with.

ghost use Rattle.std.specs.Option.{option_map};
ghost use Rattle.std.specs.Prelude.{◌≡◌, ℕ, List, Option, Result, String as OwnText};
ghost use Rattle.std.specs.declared.alloc.Global.{Global as Shared};
ghost use Rattle.std.specs.declared.io.Error.{Error as IoFault};
ghost use Rattle.command_words.specs.declared.command.WordFault.{WordFault as Fault};
ghost use Rattle.command_words.specs.declared.scope_command.Meaning.{Meaning as Meant};
ghost use Rattle.command_words.specs.declared.scope_command.ScopeCommand.{ScopeCommand as Asked};
ghost use Rattle.scope.specs.declared.subcommands.Part.{Part as Kind};
ghost use Rattle.scope.specs.declared.subcommands.Statuses.{Statuses as Both};
ghost use Rattle.scope.specs.Findings.{findings_status};
ghost use Rattle.scope.specs.Parts.{part_in, part_with};

use crate::found::Findings;
use launchctl_words::{
    CheckWords, CronWords, ListWords, Meaning, NextWords, ScopeCommand, ScopeTask, WordFault,
};
use std::io;

/// A part that reads no status file.
#[derive(Clone, Copy)]
pub enum Part {
    /// `check`, and `next` with definitions.
    Definitions,
    /// `cron`.
    Crontab,
    /// `plist`.
    Lists,
    /// Whatever a journal is asked for.
    Journals,
}

/// A part that reads no status file, with what the arguments say for it alone.
#[derive(Clone, Copy)]
pub enum PartWords<'a> {
    Check(&'a CheckWords),
    /// `next` with definitions.
    Next(&'a NextWords),
    Crontab(&'a CronWords),
    Lists(&'a ListWords),
    Journals,
}

/// The exit statuses that a part of two steps ended with. Of several journals, what those before the last came to, and the last. Of a status file,
/// what the labels came to that it has no job of, and the rest.
#[derive(Clone, Copy)]
pub struct Statuses {
    pub before: u8,
    pub last: u8,
}

impl Statuses {
    /// Those of a part of one step.
    pub(crate) fn only(status: u8) -> Statuses
        ensures { result ≡ record { before = 0; last = status } }
    {
        Statuses {
            before: 0,
            last: status,
        }
    }

    /// Those of what each step found.
    pub(crate) fn of(before: Findings, last: Findings) -> Statuses
        ensures { result ≡ record {
          before = findings_status before;
          last = findings_status last;
        } }
    {
        Statuses {
            before: before.status(),
            last: last.status(),
        }
    }
}

/// What a run of `jobscope` may call. Of each call it is said what it may answer. An error is of memory, or of the standard output.
pub trait Subcommands {
    /// The arguments may mean this.
    ghost Means: { Self → List (OwnText Shared) → Result Meant Fault → Type 0 };

    /// To invalid arguments this may be answered.
    ghost Explains: { Self → List (OwnText Shared) → Result ℕ IoFault → Type 0 };

    /// For the command this status file may be named.
    ghost Names: { Self → Asked → Result (Option (OwnText Shared)) IoFault → Type 0 };

    /// With the status file at the path the command may end so.
    ghost Tells: { Self → Asked → List ℕ → Result Both IoFault → Type 0 };

    /// The part may end so.
    ghost Ends: { Self → Kind → Asked → Result Both IoFault → Type 0 };

    /// What the arguments mean.
    fn meaning(&self, words: &[String]) -> Result<Meaning, WordFault>
        ensures { Self.Means self.now words.now result };

    /// Writes what is wrong with the arguments, or the help that they ask for. The exit status is 64, or 0 for a help.
    fn explain(&self, words: &[String]) -> io::Result<u8>
        ensures { Self.Explains self.now words.now result };

    /// The path of the status file that the command reads, if it reads one.
    fn file_named(&self, command: &ScopeCommand) -> io::Result<Option<String>>
        ensures { Self.Names self.now command.now result };

    /// Writes what the command asks of the status file.
    fn by_file(&self, command: &ScopeCommand, path: &str) -> io::Result<Statuses>
        ensures { Self.Tells self.now command.now path.now result };

    /// Does what the command asks, which reads no status file.
    fn part(&self, part: PartWords<'_>, command: &ScopeCommand) -> io::Result<Statuses>
        ensures { Self.Ends self.now (part_with part.entry) command.now result };
}

/// The part that does the task, with further arguments or without. None for a task that a status file or a journal may answer.
pub(crate) fn part_of(task: &ScopeTask, has_words: bool) -> Option<PartWords<'_>>
    ensures { option_map part_with result ≡ part_in task.now has_words }
{
    match task {
        ScopeTask::Check(check) => Some(PartWords::Check(check)),
        ScopeTask::Next(next) if has_words => Some(PartWords::Next(next)),
        ScopeTask::Cron(cron) => Some(PartWords::Crontab(cron)),
        ScopeTask::Plist(lists) => Some(PartWords::Lists(lists)),
        ScopeTask::Next(_)
        | ScopeTask::Status
        | ScopeTask::Metrics
        | ScopeTask::Why(_)
        | ScopeTask::Log(_)
        | ScopeTask::Runs(_)
        | ScopeTask::Picture(_)
        | ScopeTask::Show
        | ScopeTask::Drift => None,
    }
}
