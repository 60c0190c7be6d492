//! The daemon's arguments: how clap takes them, and what they mean.
ghost use Rattle.std.specs.Prelude.{◌≡◌, IfOk, map, string_bytes};
ghost use Rattle.clap.specs.Words.{subcommand_rows_of};
ghost use Rattle.command_words.specs.Rules.{Makes};
ghost use Rattle.command_words.specs.Meaning.{rows_in};
ghost use Rattle.command_words.specs.Jobd as spec;
ghost use Rattle.command_words.specs.Jobd.{jobd_app};

use crate::arguments::value_of;
use crate::command::{DaemonCommand, WordFault, ZoneWords};
use crate::forms::{Argument, Form, Subcommand, with_subcommands};
use crate::parse::{Explanation, explain_by, parse};
use clap::ArgMatches;
use history_model::Text;
use std::alloc::{AllocError, Global};

const REPLAY_EXIT: &str = "Exit status:
   0 each line has its outcome
   1 no memory
   2 no header
   3 input or output failed
   4 a line too long
  64 invalid arguments";

const SERVE_EXIT: &str = "Exit status:
   0 it was shut down, and every job was removed
   1 no memory
   5 the store can't be used
   6 the control socket can't be used
   7 the zone can't be used
   8 the journal can't be used
   9 the clock or waiting failed, SIGCHLD is ignored, or descriptors are too few
  10 the spool can't be used
  64 invalid arguments";

const OVERRIDES_EXIT: &str = "Exit status:
   0 printed
   1 no memory
   3 output failed
   5 the store failed
  64 invalid arguments";

const SUBCOMMANDS: &[Subcommand] = &[
    Subcommand {
        name: "replay",
        about: "Replay a journal from standard input, and write its outcomes",
        after: REPLAY_EXIT,
        arguments: &[],
    },
    Subcommand {
        name: "serve",
        about: "Run the launcher",
        after: SERVE_EXIT,
        arguments: &[
            Argument {
                id: "socket",
                form: Form::Value { required: true },
                value: "PATH",
                help: "The control socket to make",
            },
            Argument {
                id: "store",
                form: Form::Value { required: true },
                value: "PATH",
                help: "The store of settings; made if it does not exist",
            },
            Argument {
                id: "spool",
                form: Form::Value { required: true },
                value: "DIR",
                help: "The folder for requests and replies of job sockets",
            },
            Argument {
                id: "journal",
                form: Form::Value { required: false },
                value: "PATH",
                help: "Write each event there: jobd replay and jobscope read it",
            },
            Argument {
                id: "zone",
                form: Form::Value { required: false },
                value: "TEXT",
                help: "The time zone of calendar entries, a POSIX TZ string (default: UTC0)",
            },
            Argument {
                id: "zone-file",
                form: Form::Value { required: false },
                value: "PATH",
                help: "The time zone as a zone file, in place of --zone",
            },
        ],
    },
    Subcommand {
        name: "overrides",
        about: "Print each label's setting and the second of its last change",
        after: OVERRIDES_EXIT,
        arguments: &[Argument {
            id: "store",
            form: Form::Value { required: true },
            value: "PATH",
            help: "The store of settings",
        }],
    },
];

/// The whole command, with a help text for every argument.
fn jobd_words<'a>(alloc: Global) -> Result<clap::Command<'a>, AllocError>
    ensures { Makes result jobd_app }
{
    let command = clap::Command::new(alloc, "jobd")
        .about("The job launcher")
        .subcommand_required(true);
    with_subcommands(alloc, Ok(command), SUBCOMMANDS)
}

/// The zone that these name; none if both do.
fn zone_meant(rule: Option<Text>, file: Option<Text>) -> Option<ZoneWords>
    ensures { result ≡ spec.zone_meant rule file }
{
    match (rule, file) {
        (None, None) => Some(ZoneWords::Default),
        (Some(rule), None) => Some(ZoneWords::Rule(rule)),
        (None, Some(file)) => Some(ZoneWords::File(file)),
        (Some(_), Some(_)) => None,
    }
}

/// The zone that was named; none if both forms were.
pub(crate) fn zone_in(
    alloc: Global,
    found: &ArgMatches<'_>,
) -> Result<Option<ZoneWords>, AllocError>
    ensures { IfOk result (λ zone. zone ≡ spec.zone_in (rows_in found.now)) }
{
    let (rule, file) = pair_of(alloc, found, "zone", "zone-file")?;
    Ok(zone_meant(rule, file))
}

/// The launcher with these places, if each that it needs is there.
fn served(
    socket: Option<Text>,
    store: Option<Text>,
    spool: Option<Text>,
    journal: Option<Text>,
    zone: Option<ZoneWords>,
) -> Option<DaemonCommand>
    ensures { result ≡ spec.served socket store spool journal zone }
{
    match (socket, store, spool, zone) {
        (Some(socket), Some(store), Some(spool), Some(zone)) => Some(DaemonCommand::Serve {
            socket,
            store,
            spool,
            journal,
            zone,
        }),
        _ => None,
    }
}

/// Copies of the values of two options.
fn pair_of(
    alloc: Global,
    found: &ArgMatches<'_>,
    first: &str,
    second: &str,
) -> Result<(Option<Text>, Option<Text>), AllocError>
    ensures { IfOk result (λ pair. pair ≡ spec.pair_in first.now second.now (rows_in found.now)) }
{
    let first = value_of(alloc, found, first)?;
    let second = value_of(alloc, found, second)?;
    Ok((first, second))
}

/// What serve means.
fn read_serve(alloc: Global, found: &ArgMatches<'_>) -> Result<Option<DaemonCommand>, AllocError>
    ensures { IfOk result (λ command. command ≡ spec.serve_meant (rows_in found.now)) }
{
    let (socket, store) = pair_of(alloc, found, "socket", "store")?;
    let (spool, journal) = pair_of(alloc, found, "spool", "journal")?;
    let zone = zone_in(alloc, found)?;
    Ok(served(socket, store, spool, journal, zone))
}

/// What a subcommand and its values mean; none if they do not form a command.
fn read_command(
    alloc: Global,
    name: &str,
    found: &ArgMatches<'_>,
) -> Result<Option<DaemonCommand>, AllocError>
    ensures { IfOk result (λ command. command
        ≡ spec.daemon_command_meant name.now (rows_in found.now)) }
{
    if name == "replay" {
        Ok(Some(DaemonCommand::Replay))
    } else if name == "serve" {
        read_serve(alloc, found)
    } else if name == "overrides" {
        match value_of(alloc, found, "store") {
            Ok(Some(store)) => Ok(Some(DaemonCommand::Overrides { store })),
            Ok(None) => Ok(None),
            Err(e) => Err(e),
        }
    } else {
        Ok(None)
    }
}

fn read_matches(
    alloc: Global,
    matches: &ArgMatches<'_>,
) -> Result<Option<DaemonCommand>, AllocError>
    ensures { IfOk result (λ command. command
        ≡ spec.daemon_found_meant (subcommand_rows_of matches.now)) }
{
    match matches.subcommand() {
        Some((name, found)) => read_command(alloc, name, found),
        None => Ok(None),
    }
}

/// What the arguments mean, the first being the program's own name. None: they do not form a command of jobd, or both zone
/// options are given; `explain_daemon` gives the text to print then.
pub fn daemon_command(alloc: Global, words: &[String]) -> Result<Option<DaemonCommand>, AllocError>
    ensures { IfOk result (λ meant. meant ≡ spec.daemon_meant (map string_bytes words.now)) }
{
    let Ok(command) = jobd_words(alloc) else {
        return Err(AllocError);
    };
    match parse(command, words) {
        Ok(matches) => {
            let meant = read_matches(alloc, &matches);
            drop(matches);
            meant
        }
        Err(WordFault::Usage) => Ok(None),
        Err(WordFault::NoMemory) => Err(AllocError),
    }
}

/// The text to print if the arguments do not form a command of jobd, or ask for help. If clap takes them, it is one line that
/// says that both zone options are given.
pub fn explain_daemon(alloc: Global, words: &[String]) -> Result<Explanation, AllocError> {
    explain_by(alloc, "jobd", jobd_words(alloc), words)
}
