//! The control program's command, as clap declares it, with a help text for each argument.
ghost use Rattle.command_words.specs.Rules.{Makes};
ghost use Rattle.command_words.specs.Jobctl.{jobctl_app};

use crate::arguments::{add_arg, bare, option};
use crate::forms::{Argument, Form, Subcommand, with_subcommands};
use std::alloc::{AllocError, Global};

const EXIT_HELP: &str =
    "jobctl apply PATH.. brings files and folders into effect: jobctl apply --help.

Exit status:
    0 done
    1 no memory
    2 bad request or too many clients
    3 no such job
    4 already loaded
    5 disabled
    6 being removed
    7 not running
    8 bad definition
    9 store refused
   10 too many jobs
   11 socket refused
   15 shutting down
   64 invalid arguments
   65 a file can't be read or used
   69 no answer from the launcher
   74 the reply can't be printed
  141 the reader of the output closed it
With several files, the status is the first that is not 0.

Why a job does not run: jobscope why LABEL. Manual pages: jobctl(1), jobscope(1), jobd.json(5), jobd(8).";

const SEE_EXIT: &str = "jobctl --help lists the exit statuses.";

const LABEL: Argument = Argument {
    id: "label",
    form: Form::Word,
    value: "LABEL",
    help: "The job's label",
};

const TARGET: Argument = Argument {
    id: "target",
    form: Form::Word,
    value: "TARGET",
    help: "LABEL, system/LABEL, user/UID/LABEL or gui/UID/LABEL",
};

const PATHS: Argument = Argument {
    id: "paths",
    form: Form::Words,
    value: "PATH",
    help: "A job definition, or a folder of them (*.plist, *.json)",
};

const SUBCOMMANDS: &[Subcommand] = &[
    Subcommand {
        name: "load",
        about: "Load job definitions",
        after: SEE_EXIT,
        arguments: &[
            Argument {
                id: "write",
                form: Form::Letter('w'),
                value: "",
                help: "Also enable the label",
            },
            Argument {
                id: "force",
                form: Form::Letter('F'),
                value: "",
                help: "Load a disabled job too",
            },
            PATHS,
        ],
    },
    Subcommand {
        name: "unload",
        about: "Stop and remove the jobs of these files",
        after: SEE_EXIT,
        arguments: &[
            Argument {
                id: "write",
                form: Form::Letter('w'),
                value: "",
                help: "Also disable the label",
            },
            PATHS,
        ],
    },
    Subcommand {
        name: "start",
        about: "Start a job",
        after: SEE_EXIT,
        arguments: &[LABEL],
    },
    Subcommand {
        name: "stop",
        about: "Stop a job's running child",
        after: SEE_EXIT,
        arguments: &[LABEL],
    },
    Subcommand {
        name: "enable",
        about: "Allow a label to be loaded, from now on",
        after: SEE_EXIT,
        arguments: &[TARGET],
    },
    Subcommand {
        name: "disable",
        about: "Keep a label from being loaded, from now on",
        after: SEE_EXIT,
        arguments: &[TARGET],
    },
    Subcommand {
        name: "kickstart",
        about: "Start a job now, within its throttle",
        after: SEE_EXIT,
        arguments: &[
            Argument {
                id: "kill",
                form: Form::Letter('k'),
                value: "",
                help: "Kill a running child first (SIGKILL)",
            },
            TARGET,
        ],
    },
    Subcommand {
        name: "print",
        about: "Show the status of a job",
        after: SEE_EXIT,
        arguments: &[TARGET],
    },
    Subcommand {
        name: "list",
        about: "List the loaded jobs",
        after: SEE_EXIT,
        arguments: &[],
    },
    Subcommand {
        name: "shutdown",
        about: "Stop every job, then the launcher",
        after: SEE_EXIT,
        arguments: &[],
    },
];

/// The whole command, with a help text for every argument.
pub fn jobctl_words<'a>(alloc: Global) -> Result<clap::Command<'a>, AllocError>
    ensures { Makes result jobctl_app }
{
    let socket = option(
        alloc,
        "socket",
        false,
        "PATH",
        "The launcher's control socket (default: JOBD_SOCKET, else jobd.sock)",
    );
    let about = "Control the job launcher jobd";
    let command = bare(alloc, "jobctl", about, EXIT_HELP).subcommand_required(true);
    let command = add_arg(Ok(command), socket);
    with_subcommands(alloc, command, SUBCOMMANDS)
}
