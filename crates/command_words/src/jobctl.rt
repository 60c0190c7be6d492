//! What the control program's arguments mean.
ghost use Rattle.std.specs.Prelude.{◌≡◌, IfOk, map, string_bytes};
ghost use Rattle.clap.specs.Words.{subcommand_rows_of};
ghost use Rattle.command_words.specs.Meaning.{rows_in};
ghost use Rattle.command_words.specs.Jobctl as spec;

use crate::arguments::{is_set, value_of, values_of};
use crate::command::{Command, WordFault, Words};
use crate::control_words::jobctl_words;
use crate::parse::{Explanation, explain_by, parse};
use clap::ArgMatches;
use ctl_protocol::{ReadFault, read_target};
use history_model::Text;
use job_defs::is_label;
use std::alloc::{AllocError, Global};

/// What load and unload mean; none if no path was given.
fn read_files(
    alloc: Global,
    name: &str,
    found: &ArgMatches<'_>,
) -> Result<Option<Command>, AllocError>
    ensures { IfOk result (λ command. command ≡ spec.files_meant name.now (rows_in found.now)) }
{
    let writes_setting = is_set(found, "write");
    let force = is_set(found, "force");
    match values_of(alloc, found, "paths") {
        Ok(Some(paths)) => {
            if name == "load" {
                Ok(Some(Command::Load {
                    writes_setting,
                    force,
                    paths,
                }))
            } else {
                Ok(Some(Command::Unload {
                    writes_setting,
                    paths,
                }))
            }
        }
        Ok(None) => Ok(None),
        Err(e) => Err(e),
    }
}

/// The label under an argument; none if it is not a label.
fn label_in(alloc: Global, found: &ArgMatches<'_>) -> Result<Option<Text>, AllocError>
    ensures { IfOk result (λ label. label ≡ spec.label_in (rows_in found.now)) }
{
    match value_of(alloc, found, "label") {
        Ok(Some(label)) => {
            if is_label(label.as_str()) {
                Ok(Some(label))
            } else {
                Ok(None)
            }
        }
        Ok(None) => Ok(None),
        Err(e) => Err(e),
    }
}

/// The label that the target under an argument names; none if it names none.
fn target_in(alloc: Global, found: &ArgMatches<'_>) -> Result<Option<Text>, AllocError>
    ensures { IfOk result (λ label. label ≡ spec.target_in (rows_in found.now)) }
{
    match value_of(alloc, found, "target") {
        Ok(Some(target)) => match read_target(alloc, target.as_str()) {
            Ok(label) => Ok(Some(label)),
            Err(ReadFault::BadRequest) => Ok(None),
            Err(ReadFault::NoMemory) => Err(AllocError),
        },
        Ok(None) => Ok(None),
        Err(e) => Err(e),
    }
}

/// The label of the job that a subcommand is for: start and stop take a label, the others a target.
fn job_in(alloc: Global, name: &str, found: &ArgMatches<'_>) -> Result<Option<Text>, AllocError>
    ensures { IfOk result (λ label. label ≡ spec.job_in name.now (rows_in found.now)) }
{
    if name == "start" || name == "stop" {
        label_in(alloc, found)
    } else {
        target_in(alloc, found)
    }
}

/// What a subcommand means for the job with this label; none if there is no such subcommand.
fn job_command(name: &str, kills_first: bool, label: Text) -> Option<Command>
    ensures { result ≡ spec.job_meant name.now kills_first label }
{
    if name == "start" {
        Some(Command::Start { label })
    } else if name == "stop" {
        Some(Command::Stop { label })
    } else if name == "enable" {
        Some(Command::Enable { label })
    } else if name == "disable" {
        Some(Command::Disable { label })
    } else if name == "kickstart" {
        Some(Command::Kickstart { kills_first, label })
    } else if name == "print" {
        Some(Command::Print { label })
    } else {
        None
    }
}

/// What a subcommand and its values mean; none if they do not form a command.
fn read_command(
    alloc: Global,
    name: &str,
    found: &ArgMatches<'_>,
) -> Result<Option<Command>, AllocError>
    ensures { IfOk result (λ command. command ≡ spec.command_meant name.now (rows_in found.now)) }
{
    if name == "load" || name == "unload" {
        return read_files(alloc, name, found);
    }
    if name == "list" {
        return Ok(Some(Command::List));
    }
    if name == "shutdown" {
        return Ok(Some(Command::Shutdown));
    }
    let kills_first = is_set(found, "kill");
    match job_in(alloc, name, found) {
        Ok(Some(label)) => Ok(job_command(name, kills_first, label)),
        Ok(None) => Ok(None),
        Err(e) => Err(e),
    }
}

/// The socket that was named, or the default one.
fn socket_in(alloc: Global, matches: &ArgMatches<'_>, default: &str) -> Result<Text, AllocError>
    ensures { IfOk result (λ socket. socket ≡ spec.socket_in default.now (rows_in matches.now)) }
{
    match value_of(alloc, matches, "socket") {
        Ok(Some(socket)) => Ok(socket),
        Ok(None) => Text::copy_of(alloc, default),
        Err(e) => Err(e),
    }
}

fn read_matches(
    alloc: Global,
    matches: &ArgMatches<'_>,
    default: &str,
) -> Result<Option<Words>, AllocError>
    ensures { IfOk result (λ words. words
        ≡ spec.found_meant default.now (rows_in matches.now) (subcommand_rows_of matches.now)) }
{
    let Some((name, found)) = matches.subcommand() else {
        return Ok(None);
    };
    match socket_in(alloc, matches, default) {
        Ok(socket) => match read_command(alloc, name, found) {
            Ok(Some(command)) => Ok(Some(Words { socket, command })),
            Ok(None) => Ok(None),
            Err(e) => Err(e),
        },
        Err(e) => Err(e),
    }
}

/// What the arguments mean, the first being the program's own name, as launchctl(1) says; the socket is `default` if they name
/// none. None: they do not form a command of jobctl, a LABEL is not a label, or a TARGET names none; `explain` gives the text to
/// print then.
pub fn control_command(
    alloc: Global,
    words: &[String],
    default: &str,
) -> Result<Option<Words>, AllocError>
    ensures { IfOk result (λ meant. meant
        ≡ spec.meant_beside default.now (map string_bytes words.now)) }
{
    let Ok(command) = jobctl_words(alloc) else {
        return Err(AllocError);
    };
    match parse(command, words) {
        Ok(matches) => {
            let meant = read_matches(alloc, &matches, default);
            drop(matches);
            meant
        }
        Err(WordFault::Usage) => Ok(None),
        Err(WordFault::NoMemory) => Err(AllocError),
    }
}

/// The text to print if the arguments do not form a command of jobctl, or ask for help. If clap does not take them, it is one
/// line. If clap takes them, it says which LABEL is not a label, or which TARGET names none.
pub fn explain(alloc: Global, words: &[String]) -> Result<Explanation, AllocError> {
    explain_by(alloc, "jobctl", jobctl_words(alloc), words)
}
