//! Who may read the file of a definition, and who may write to it.

use crate::check::finding_list::FindingList;
use crate::check::place::WayStep;
use history_model::KeyName;
use job_defs::Def;
use json_kinds::key_name;
use run_times::Piece::{Number, Text};
use std::fs::{Metadata, metadata};
use std::os::unix::fs::{MetadataExt, PermissionsExt};

/// Adds a warning for each variable and argument that looks like a secret, if others may read the file. It adds one if a boot leaves the file out:
/// the file is in a folder that jobd-run loads, and others may write to it or it is not root's.
pub(crate) fn add_private(
    host: &HostRuntime,
    path: &str,
    def: &Def,
    finding_list: &mut FindingList<'_>,
) {
    if let Ok(data) = metadata(host, path) {
        if data.is_file() {
            add_modes(&data, path, def, finding_list);
        }
    }
}

fn add_modes(data: &Metadata, path: &str, def: &Def, finding_list: &mut FindingList<'_>) {
    let mode = data.permissions().mode();
    if mode & 0o004 != 0 {
        for variable in def.environment() {
            if is_secret(variable.name.as_str(), variable.value.as_str()) {
                let key = key_name(KeyName::EnvironmentVariables);
                let name = variable.name.as_str();
                finding_list.add_at(
                    &[WayStep::Key(key), WayStep::Key(name)],
                    "$: $ looks like a secret, and every user may read this file; chmod 600 it",
                    &[Text(key), Text(name)],
                );
            }
        }
        add_arguments(def, finding_list);
    }
    // A folder that jobd-run loads.
    if path.contains("/etc/jobd/") || path.contains("/.config/jobd/") {
        finding_list.add_if(
            mode & 0o022 != 0,
            KeyName::Label,
            "others may write to this file, so jobd-run leaves it out; chmod go-w it",
        );
        finding_list.add_if(
            data.uid() != 0 && path.starts_with("/etc/jobd/"),
            KeyName::Label,
            "this file is not root's: root's jobd-run leaves it out; chown root it",
        );
    }
}

fn add_arguments(def: &Def, finding_list: &mut FindingList<'_>) {
    let key = key_name(KeyName::ProgramArguments);
    for (index, argument) in def.arguments().iter().enumerate() {
        if tells_password(argument.as_str()) {
            let member = index.saturating_add(1);
            finding_list.add_at(
                &[WayStep::Key(key), WayStep::Member(member)],
                "$: member $ looks like a secret, and every user may read this file; have the program read it from a file of its own",
                &[Text(key), Number(member.saturating_add(1) as u64)],
            );
        }
    }
}

// As --password=WORD, or a URL with a password.
fn tells_password(argument: &str) -> bool {
    let is_named = match argument.split_once('=') {
        Some((name, value)) => {
            name.starts_with("--") && name.ends_with("password") && is_secret(name, value)
        }
        None => false,
    };
    is_named || has_password(argument)
}

// Ends of names that secrets have.
static SECRETS: &[&str] = &[
    "PASSWORD",
    "PASSWD",
    "PASSPHRASE",
    "SECRET",
    "TOKEN",
    "SECRET_KEY",
    "API_KEY",
    "APIKEY",
    "ACCESS_KEY",
    "PRIVATE_KEY",
    "password",
    "secret",
    "token",
];

// By its name, unless the value is a path, a flag or empty; or a URL with a password.
fn is_secret(name: &str, value: &str) -> bool {
    if value.starts_with('/') || matches!(value, "" | "0" | "1" | "true" | "false" | "yes" | "no") {
        return false;
    }
    let mut is_named = false;
    for end in SECRETS {
        is_named = is_named || name.ends_with(*end);
    }
    is_named || has_password(value)
}

fn has_password(value: &str) -> bool {
    match value.split_once("://") {
        Some((_, rest)) => {
            let front = rest.split('/').next().unwrap_or("");
            match front.rsplit_once('@') {
                Some((user, _)) => match user.split_once(':') {
                    Some((_, password)) => !password.is_empty(),
                    None => false,
                },
                None => false,
            }
        }
        None => false,
    }
}
