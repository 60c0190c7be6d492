//! The command of `jobscope`, as clap declares it, with a help text for each argument.

use crate::forms::{Argument, Form, Subcommand, with_subcommands};
use std::alloc::{AllocError, Global};

const EXIT_HELP: &str = "Exit status:
    0 done
    1 no memory; or a job definition, line or list is refused; or check --strict has a warning
    2 drift found a difference, or why --failing a job
   64 invalid arguments
   65 a file can't be read, used or written, or a label is unknown
   71 the clock can't be read
   74 standard output can't be written
  141 the reader of the output closed it";

const SEE_EXIT: &str = "jobscope --help lists the exit statuses.";

const ZONE: Argument = Argument {
    id: "zone",
    form: Form::Value { required: false },
    value: "TEXT",
    help: "The time zone of calendar entries, a POSIX TZ string (default: that of /etc/localtime)",
};

const ZONE_FILE: Argument = Argument {
    id: "zone-file",
    form: Form::Value { required: false },
    value: "PATH",
    help: "The time zone as a zone file, in place of --zone",
};

const PATHS: Argument = Argument {
    id: "paths",
    form: Form::Words,
    value: "PATH",
    help: "A job definition, or a folder of them (*.plist, *.json); - for one on standard input",
};

const JOURNAL: Argument = Argument {
    id: "journal",
    form: Form::Values,
    value: "PATH",
    help: "The journal; - is standard input (default: JOBD_JOURNAL, else the launcher's). Several are read as one: the oldest first",
};

const LABELS: Argument = Argument {
    id: "labels",
    form: Form::AnyWords,
    value: "LABEL",
    help: "Only these jobs (default: all)",
};

const UTC: Argument = Argument {
    id: "utc",
    form: Form::Switch,
    value: "",
    help: "Show times in UTC, not in the zone of the journal",
};

const ZONE_UTC: Argument = Argument {
    id: "utc",
    form: Form::Switch,
    value: "",
    help: "Use UTC, not the zone of /etc/localtime",
};

// moment_words reads its value.
const SINCE: Argument = Argument {
    id: "since",
    form: Form::AnyValue,
    value: "TIME",
    help: "Ignore events before this time: 14:00, yesterday, 2026-11-25, -2h, or a second of Unix time",
};

const UNTIL: Argument = Argument {
    id: "until",
    form: Form::AnyValue,
    value: "TIME",
    help: "Ignore events after this time, written as for --since",
};

const NOW: Argument = Argument {
    id: "now",
    form: Form::Value { required: false },
    value: "SECOND",
    help: "Take this second of Unix time for now, not that of the clock",
};

const JSON: Argument = Argument {
    id: "json",
    form: Form::Switch,
    value: "",
    help: "Write JSON objects",
};

const CHECK: &[Argument] = &[
    Argument {
        id: "strict",
        form: Form::Switch,
        value: "",
        help: "Fail at a warning too",
    },
    JSON,
    Argument {
        id: "now",
        form: Form::Value { required: false },
        value: "SECOND",
        help: "Look at the twelve months from this second of Unix time on (default: now)",
    },
    ZONE,
    ZONE_FILE,
    ZONE_UTC,
    PATHS,
];

const STATUS_FILE: Argument = Argument {
    id: "status-file",
    form: Form::Value { required: false },
    value: "PATH",
    help: "The launcher's status file (default: JOBD_STATUS_FILE, else the launcher's)",
};

const NEXT: &[Argument] = &[
    Argument {
        id: "count",
        form: Form::ShortValue('n'),
        value: "COUNT",
        help: "How many starts (default: 10, at most 10000)",
    },
    Argument {
        id: "from",
        form: Form::Value { required: false },
        value: "SECOND",
        help: "Show starts after this second of Unix time (default: now)",
    },
    ZONE,
    ZONE_FILE,
    ZONE_UTC,
    STATUS_FILE,
    JOURNAL,
    JSON,
    Argument {
        id: "all",
        form: Form::Switch,
        value: "",
        help: "Show all coming starts of a journal's jobs in order of time, not only the next of each",
    },
    Argument {
        id: "paths",
        form: Form::AnyWords,
        value: "PATH",
        help: "A job definition, or a folder of them (*.plist, *.json); - for one on standard input (default: the loaded jobs)",
    },
];

const STATUS: &[Argument] = &[STATUS_FILE, LABELS, UTC, JSON, NOW];

const METRICS: &[Argument] = &[STATUS_FILE, LABELS, NOW];

const WHY: &[Argument] = &[
    STATUS_FILE,
    JOURNAL,
    LABELS,
    UTC,
    JSON,
    Argument {
        id: "failing",
        form: Form::Switch,
        value: "",
        help: "Show only failing jobs, a line each; the exit status is 2 if there is one",
    },
    Argument {
        id: "at",
        form: Form::AnyValue,
        value: "TIME",
        help: "Explain the state at this time (default: the end of the journal). Written as for log --since; today is the journal's last day",
    },
    NOW,
];

const RUNS: &[Argument] = &[JOURNAL, LABELS, UTC, JSON, SINCE, UNTIL, NOW];

const LOG: &[Argument] = &[
    JOURNAL,
    LABELS,
    UTC,
    Argument {
        id: "follow",
        form: Form::Letter('f'),
        value: "",
        help: "Follow the journal as it grows",
    },
    SINCE,
    UNTIL,
    NOW,
];

const PICTURE: &[Argument] = &[
    JOURNAL,
    LABELS,
    UTC,
    Argument {
        id: "html",
        form: Form::Switch,
        value: "",
        help: "Write a self-contained HTML page: the chart, the counts, the reasons and the coming starts",
    },
    SINCE,
    UNTIL,
    NOW,
];

const SHOW: &[Argument] = &[JOURNAL, LABELS, UTC, JSON];

const DRIFT: &[Argument] = &[JOURNAL, JSON, PATHS];

const INTO: Argument = Argument {
    id: "into",
    form: Form::Value { required: false },
    value: "FOLDER",
    help: "Write a file for each definition into this folder, never over an existing one (default: standard output)",
};

const CRON: &[Argument] = &[
    Argument {
        id: "system",
        form: Form::Switch,
        value: "",
        help: "The lines have a user field before the command, as in /etc/crontab and /etc/cron.d",
    },
    INTO,
    Argument {
        id: "logs",
        form: Form::Value { required: false },
        value: "FOLDER",
        help: "Write the output of each job to LABEL.log there (default: discard it)",
    },
    Argument {
        id: "lines",
        form: Form::Words,
        value: "LINE",
        help: "A line as in crontab(5), as one argument; - for the lines of standard input",
    },
];

const PLIST: &[Argument] = &[
    INTO,
    Argument {
        id: "paths",
        form: Form::Words,
        value: "FILE",
        help: "A property list in XML",
    },
];

// In the order of the help.
const SUBCOMMANDS: &[Subcommand] = &[
    Subcommand {
        name: "check",
        about: "Check whether job definitions load, and what may be wrong with them",
        after: SEE_EXIT,
        arguments: CHECK,
    },
    Subcommand {
        name: "next",
        about: "Show the coming starts of calendars and intervals, in order of time",
        after: SEE_EXIT,
        arguments: NEXT,
    },
    Subcommand {
        name: "status",
        about: "Show the status of each job of a launcher, a line each",
        after: SEE_EXIT,
        arguments: STATUS,
    },
    Subcommand {
        name: "metrics",
        about: "Print the status of each job of a launcher as metrics for Prometheus",
        after: SEE_EXIT,
        arguments: METRICS,
    },
    Subcommand {
        name: "why",
        about: "Explain why each job runs or not, and what will make it run",
        after: SEE_EXIT,
        arguments: WHY,
    },
    Subcommand {
        name: "log",
        about: "Print the events of a journal in plain English",
        after: SEE_EXIT,
        arguments: LOG,
    },
    Subcommand {
        name: "runs",
        about: "Count each job's runs",
        after: SEE_EXIT,
        arguments: RUNS,
    },
    Subcommand {
        name: "picture",
        about: "Draw each job's runs over time",
        after: SEE_EXIT,
        arguments: PICTURE,
    },
    Subcommand {
        name: "show",
        about: "Show job definitions as they are loaded, and when they were",
        after: SEE_EXIT,
        arguments: SHOW,
    },
    Subcommand {
        name: "drift",
        about: "Compare files of job definitions with what is loaded",
        after: SEE_EXIT,
        arguments: DRIFT,
    },
    Subcommand {
        name: "cron",
        about: "Write a job definition for each line of a crontab",
        after: SEE_EXIT,
        arguments: CRON,
    },
    Subcommand {
        name: "plist",
        about: "Convert property lists in XML to job definitions in JSON",
        after: SEE_EXIT,
        arguments: PLIST,
    },
];

/// The whole command, with a help text for every argument.
pub(crate) fn jobscope_words<'a>(alloc: Global) -> Result<clap::Command<'a>, AllocError> {
    let command = clap::Command::new(alloc, "jobscope")
        .about("Checks job definitions before a load, and reads journals and status files after")
        .after_help(EXIT_HELP)
        .subcommand_required(true);
    with_subcommands(alloc, Ok(command), SUBCOMMANDS)
}
