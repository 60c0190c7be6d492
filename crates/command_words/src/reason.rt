//! Why arguments that clap takes do not form a command all the same.

use crate::parse::Explanation;
use clap::ArgMatches;
use ctl_protocol::{ReadFault, read_target};
use job_defs::is_label;
use std::alloc::{AllocError, Global};

const A_LABEL: &str = "a label has 1 to 255 bytes, no / and no control character";

const A_TARGET: &str = "a target is LABEL, system/LABEL, user/UID/LABEL or gui/UID/LABEL";

const NO_TARGET_HERE: &str = " takes a label; kickstart and print take a target";

const BOTH_ZONES: &str = "jobd: --zone and --zone-file can't be given together\n";

/// One line, with its newline, that names the argument and says what is wrong with it. A LABEL is not a label, a TARGET names
/// none, or both zone options are given. None if there is no such argument.
pub fn reason_in(
    alloc: Global,
    matches: &ArgMatches<'_>,
) -> Result<Option<Explanation>, AllocError> {
    let Some((name, found)) = matches.subcommand() else {
        return Ok(None);
    };
    match reason_of(alloc, name, found) {
        Ok(Some(text)) => Ok(Some(Explanation {
            text,
            is_help: false,
        })),
        Ok(None) => Ok(None),
        Err(e) => Err(e),
    }
}

// The same of a subcommand's own arguments.
fn reason_of(
    alloc: Global,
    name: &str,
    found: &ArgMatches<'_>,
) -> Result<Option<String>, AllocError> {
    if let Some(word) = found.get_str("label") {
        return label_reason(alloc, name, word);
    }
    if let Some(word) = found.get_str("target") {
        return target_reason(alloc, word);
    }
    let has_both_zones = name == "serve"
        && found.get_str("zone").is_some()
        && found.get_str("zone-file").is_some();
    if !has_both_zones {
        return Ok(None);
    }
    match String::from_str(alloc, BOTH_ZONES) {
        Ok(text) => Ok(Some(text)),
        Err(e) => Err(e),
    }
}

fn label_reason(alloc: Global, name: &str, word: &str) -> Result<Option<String>, AllocError> {
    if is_label(word) {
        return Ok(None);
    }
    match is_target(alloc, word) {
        Ok(true) => reason(alloc, word, "label", name, NO_TARGET_HERE),
        Ok(false) => reason(alloc, word, "label", "", A_LABEL),
        Err(e) => Err(e),
    }
}

fn target_reason(alloc: Global, word: &str) -> Result<Option<String>, AllocError> {
    match is_target(alloc, word) {
        Ok(true) => Ok(None),
        Ok(false) => reason(alloc, word, "target", "", A_TARGET),
        Err(e) => Err(e),
    }
}

// The line that says what is wrong with an argument. `subcommand` comes before `why`; it is empty, if the reason does not name
// it.
fn reason(
    alloc: Global,
    word: &str,
    kind: &str,
    subcommand: &str,
    why: &str,
) -> Result<Option<String>, AllocError> {
    let Ok(shown) = shown(alloc, word) else {
        return Err(AllocError);
    };
    match format!(in alloc; "jobctl: {shown} is not a {kind} ({subcommand}{why})\n") {
        Ok(text) => Ok(Some(text)),
        Err(e) => Err(e),
    }
}

fn is_target(alloc: Global, word: &str) -> Result<bool, AllocError> {
    match read_target(alloc, word) {
        Ok(_) => Ok(true),
        Err(ReadFault::BadRequest) => Ok(false),
        Err(ReadFault::NoMemory) => Err(AllocError),
    }
}

// The argument as one line: quoted if it is empty or has a control character.
fn shown(alloc: Global, word: &str) -> Result<String, AllocError> {
    let mut is_plain = !word.is_empty();
    for c in word.chars() {
        if c.is_control() {
            is_plain = false;
        }
    }
    if is_plain {
        String::from_str(alloc, word)
    } else {
        format!(in alloc; "{word:?}")
    }
}
