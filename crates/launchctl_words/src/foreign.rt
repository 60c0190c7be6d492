//! Commands of other tools, and what to type here in their place.

use command_words::{Explanation, explain as explain_jobctl, explain_scope as explain_jobscope};
use std::alloc::{AllocError, Global};

/// What is not a subcommand here, and what to type.
type Foreign = (&'static str, &'static str);

// Commands of systemctl(1), launchctl(1), supervisorctl, sv(8) and service(8), and of jobscope.
static OF_JOBCTL: &[Foreign] = &[
    (
        "status",
        "type jobscope status, or for one job jobctl print LABEL",
    ),
    (
        "show",
        "type jobctl print LABEL, or for its definition jobscope show LABEL",
    ),
    ("cat", "type jobscope show LABEL"),
    (
        "logs",
        "type jobscope log; what a job writes is in the file of its StandardOutPath",
    ),
    (
        "log",
        "type jobscope log; what a job writes is in the file of its StandardOutPath",
    ),
    (
        "tail",
        "type jobscope log -f; what a job writes is in the file of its StandardOutPath",
    ),
    ("reload", "type jobctl apply FILE"),
    ("update", "type jobctl apply FILE"),
    ("reread", "type jobctl apply FOLDER"),
    ("daemon-reload", "type jobctl apply FOLDER"),
    ("restart", "type jobctl kickstart -k LABEL"),
    ("try-restart", "type jobctl kickstart -k LABEL"),
    ("bootstrap", "type jobctl load FILE"),
    ("add", "type jobctl load FILE"),
    ("submit", "type jobctl load FILE"),
    ("bootout", "type jobctl unload FILE"),
    ("remove", "type jobctl unload FILE"),
    ("kill", "type jobctl stop LABEL"),
    ("mask", "type jobctl disable LABEL"),
    ("unmask", "type jobctl enable LABEL"),
    ("up", "type jobctl start LABEL"),
    ("down", "type jobctl stop LABEL"),
    ("run", "type jobctl start LABEL"),
    ("is-active", "type jobctl print LABEL"),
    ("is-enabled", "type jobctl print LABEL"),
    ("list-units", "type jobctl list"),
    ("list-timers", "type jobscope next"),
    ("ls", "type jobctl list"),
    ("ps", "type jobctl list"),
    ("why", "type jobscope why LABEL"),
    ("check", "type jobscope check FILE"),
    ("next", "type jobscope next"),
    ("runs", "type jobscope runs"),
    ("drift", "type jobscope drift FOLDER"),
    ("--failed", "type jobscope why --failing"),
];

// Commands of jobctl, and of others that read definitions or journals.
static OF_JOBSCOPE: &[Foreign] = &[
    ("list", "type jobscope status, or jobctl list"),
    ("ls", "type jobscope status, or jobctl list"),
    ("ps", "type jobscope status, or jobctl list"),
    ("print", "type jobscope show LABEL, or jobctl print LABEL"),
    ("cat", "type jobscope show LABEL"),
    ("start", "type jobctl start LABEL"),
    ("stop", "type jobctl stop LABEL"),
    ("kill", "type jobctl stop LABEL"),
    ("restart", "type jobctl kickstart -k LABEL"),
    ("kickstart", "type jobctl kickstart LABEL"),
    ("load", "type jobctl load FILE"),
    ("bootstrap", "type jobctl load FILE"),
    ("unload", "type jobctl unload FILE"),
    ("remove", "type jobctl unload FILE"),
    ("reload", "type jobctl apply FILE"),
    ("daemon-reload", "type jobctl apply FOLDER"),
    ("enable", "type jobctl enable LABEL"),
    ("disable", "type jobctl disable LABEL"),
    ("shutdown", "type jobctl shutdown"),
    ("logs", "type jobscope log"),
    ("journal", "type jobscope log"),
    ("tail", "type jobscope log -f"),
    ("lint", "type jobscope check FILE"),
    ("validate", "type jobscope check FILE"),
    ("verify", "type jobscope check FILE"),
    ("list-timers", "type jobscope next"),
    ("timers", "type jobscope next"),
    ("diff", "type jobscope drift FOLDER"),
    ("graph", "type jobscope picture"),
    ("crontab", "type jobscope cron LINE"),
    ("convert", "type jobscope plist FILE, or jobscope cron LINE"),
    ("failed", "type jobscope why --failing"),
    ("--failed", "type jobscope why --failing"),
];

/// The text for arguments that do not form a command of jobctl: what to type here, if an argument is another tool's. Else it is
/// what `clap` says of them, without its tip if that is `shutdown`, which ends all jobs.
pub fn explain(alloc: Global, words: &[String]) -> Result<Explanation, AllocError> {
    match typed_for(OF_JOBCTL, words) {
        Some((word, typed)) => told(alloc, "jobctl", word, typed),
        None => {
            let said = explain_jobctl(alloc, words)?;
            let word = subcommand_in(words);
            let is_tip = !said.is_help && said.text.contains("shutdown");
            if is_tip && word != "shutdown" && word != "" {
                drop(said);
                return told(alloc, "jobctl", word, "jobctl --help lists the subcommands");
            }
            Ok(said)
        }
    }
}

/// The same for arguments that do not form a command of jobscope.
pub fn explain_scope(alloc: Global, words: &[String]) -> Result<Explanation, AllocError> {
    match typed_for(OF_JOBSCOPE, words) {
        Some((word, typed)) => told(alloc, "jobscope", word, typed),
        None => explain_jobscope(alloc, words),
    }
}

fn told(alloc: Global, program: &str, word: &str, typed: &str) -> Result<Explanation, AllocError> {
    let text = format!(in alloc; "{program}: unknown argument {word:?}; {typed}\n")?;
    Ok(Explanation {
        text,
        is_help: false,
    })
}

// The subcommand among the arguments, the first of which is the program's own name; empty, if there is none.
fn subcommand_in(words: &[String]) -> &str {
    let mut is_value = false;
    for word in words.get(1..).unwrap_or(&[]) {
        let word = word.as_str();
        if is_value {
            is_value = false;
        } else if word.starts_with('-') {
            is_value = word == "--socket";
        } else {
            return word;
        }
    }
    ""
}

// The argument that the table names, and what to type: an option at any place, and else the subcommand.
fn typed_for(table: &'static [Foreign], words: &[String]) -> Option<(&'static str, &'static str)> {
    let subcommand = subcommand_in(words);
    for (name, typed) in table {
        if *name == subcommand {
            return Some((*name, *typed));
        }
        if name.starts_with('-') {
            for word in words {
                if word.as_str() == *name {
                    return Some((*name, *typed));
                }
            }
        }
    }
    None
}
