//! One run of the program: which subcommand runs, and the exit status that follows from what it ended with.

ghost use Rattle.std.specs.Prelude.{◌≡◌};
ghost use Rattle.scope.specs.ExitStatus.{IsExit, Runs, RunsBySource, greatest_status};

use crate::subcommands::{PartWords, Statuses, Subcommands, part_of};
use exit_status::USAGE;
use launchctl_words::{Meaning, ScopeCommand, WordFault};
use run_times::telling::{tell_end, want_memory};
use std::io;

/// Does what the arguments ask, and returns the exit status. The first argument is the program's own name. What is asked for goes to the standard
/// output; a fault is one line on the standard error.
///
/// The exit status is 64 for invalid arguments, 65 for a file, 71 for the clock and 74 for the standard output. It is 1 for want of memory, or of a
/// check that found faults. If the standard output's reader has closed it, nothing is reported and the status is 141. It is the greatest of the
/// statuses with which the parts of the subcommand ended that the arguments mean.
pub fn jobscope<P: Subcommands>(host: &HostRuntime, parts: &P, words: &[String]) -> u8
    ensures { IsExit (P.Means parts.now) (P.Explains parts.now) (Runs (P.Names parts.now)
        (P.Tells parts.now) (P.Ends parts.now)) words.now result }
{
    let ended = match parts.meaning(words) {
        Ok(Meaning::Command(command)) => {
            let ended = run(parts, &command);
            drop(command);
            ended
        }
        Ok(Meaning::Wrong(text)) => {
            tell_wrong(host, text.as_str());
            drop(text);
            Ok(USAGE)
        }
        Err(WordFault::Usage) => parts.explain(words),
        Err(WordFault::NoMemory) => return want_memory(host),
    };
    match ended {
        Ok(status) => status,
        Err(error) => tell_end(host, &error),
    }
}

fn tell_wrong(host: &HostRuntime, text: &str) {
    let _written = eprint!(host; "{text}");
}

// Runs the part that the command asks for.
fn run<P: Subcommands>(parts: &P, command: &ScopeCommand) -> io::Result<u8>
    ensures { Runs (P.Names parts.now) (P.Tells parts.now) (P.Ends parts.now) command.now result }
{
    let has_words = !command.words.as_slice().is_empty();
    let ended = match part_of(&command.task, has_words) {
        Some(part) => parts.part(part, command),
        None => by_source(parts, command),
    };
    greatest_of(ended)
}

// Prints what the file says, if one is named, and else what the journals say.
fn by_source<P: Subcommands>(parts: &P, command: &ScopeCommand) -> io::Result<Statuses>
    ensures { RunsBySource (P.Names parts.now) (P.Tells parts.now) (P.Ends parts.now) command.now result }
{
    match parts.file_named(command) {
        Ok(Some(path)) => {
            let told = parts.by_file(command, path.as_str());
            drop(path);
            told
        }
        Ok(None) => parts.part(PartWords::Journals, command),
        Err(error) => Err(error),
    }
}

fn greatest_of(ended: io::Result<Statuses>) -> io::Result<u8>
    ensures { result ≡ greatest_status ended }
{
    match ended {
        Ok(statuses) => Ok(statuses.last.max(statuses.before)),
        Err(error) => Err(error),
    }
}
