//! What the text of a definition shows and its parsed form does not: variables that are not set or not expanded, and keys that are absent.

use crate::check::finding::Severity;
use crate::check::finding_list::FindingList;
use crate::check::place::{WayStep, place_by};
use history_model::KeyName;
use json_kinds::key_name;
use json_kinds::names::{NODE_NAME, SERVICE_NAME};
use run_times::Piece::Text;
use run_times::TextWriter;
use serde_json::Value;

/// Adds the findings on variables of the environment whose values are not strings: they are left out.
pub(crate) fn add_variables(value: &Value, finding_list: &mut FindingList<'_>) {
    if let Some(found) = value.get(key_name(KeyName::EnvironmentVariables)) {
        add_from(found, finding_list);
    }
    if let Some(found) = value.get(key_name(KeyName::ProgramArguments)) {
        add_nameless(found, finding_list);
    }
    if let Some(found) = value.get(key_name(KeyName::Sockets)) {
        add_open(found, finding_list);
    }
}

fn add_from(found: &Value, finding_list: &mut FindingList<'_>) {
    if let Value::Object(members) = found {
        for (name, found) in members.iter() {
            let form = match found.as_str() {
                Some(text) if !is_unexpanded(name.as_str(), text) => continue,
                Some(_) => "$: nothing expands variables or ~ in the value of $; write it out",
                None => "$: the value of $ is not a string, so it is not set",
            };
            let key = key_name(KeyName::EnvironmentVariables);
            let way = [WayStep::Key(key), WayStep::Key(name.as_str())];
            finding_list.add_at(&way, form, &[Text(key), Text(name.as_str())]);
        }
    }
}

// Variables that are expanded in the files of shells.
static EXPANDED: &[&str] = &["PATH", "HOME", "USER", "LOGNAME", "PWD", "SHELL", "TMPDIR"];

// The value has one of these, or the variable itself, after a dollar sign, or begins with ~/.
fn is_unexpanded(name: &str, text: &str) -> bool {
    let mut is_found = text.starts_with("~/");
    let mut parts = text.split('$');
    let _front = parts.next();
    for part in parts {
        let part = part.strip_prefix('{').unwrap_or(part);
        let mut end: usize = 0;
        for byte in part.as_bytes() {
            if !byte.is_ascii_alphanumeric() && *byte != b'_' {
                break;
            }
            end = end.saturating_add(1);
        }
        let word = part.get(..end).unwrap_or("");
        is_found = is_found || (!word.is_empty() && (word == name || EXPANDED.contains(&word)));
    }
    is_found
}

// Adds a warning if the first of the arguments is an option: it takes the place of the program's name.
fn add_nameless(found: &Value, finding_list: &mut FindingList<'_>) {
    if let Some(Value::String(first)) = found.get(0) {
        let text = first.as_str();
        // The name of a shell that is to be one of a login begins so.
        let is_login = matches!(text, "-sh" | "-bash" | "-dash" | "-zsh" | "-ksh");
        if text.starts_with('-') && !is_login {
            let key = key_name(KeyName::ProgramArguments);
            finding_list.add_at(
                &[WayStep::Key(key), WayStep::Member(0)],
                "$: the first member is the program's name, and $ takes its place; put the name before it",
                &[Text(key), Text(text)],
            );
        }
    }
}

// Adds a note for each socket with a port and without a host.
fn add_open(found: &Value, finding_list: &mut FindingList<'_>) {
    if let Value::Object(members) = found {
        for (name, socket) in members.iter() {
            match socket.as_array() {
                Some(list) => {
                    for (index, one) in list.iter().enumerate() {
                        add_if_open(name.as_str(), index, one, finding_list);
                    }
                }
                None => add_if_open(name.as_str(), 0, socket, finding_list),
            }
        }
    }
}

fn add_if_open(name: &str, index: usize, socket: &Value, finding_list: &mut FindingList<'_>) {
    if socket.get(SERVICE_NAME).is_some() && socket.get(NODE_NAME).is_none() {
        let way = [
            WayStep::Key(key_name(KeyName::Sockets)),
            WayStep::Key(name),
            WayStep::Member(index),
        ];
        let place = place_by(finding_list.text, finding_list.marks, &way, false);
        let mut writer = TextWriter::new(finding_list.alloc);
        writer.fill(
            "Sockets: $ has no SockNodeName, so each address of the machine is open to the network; 127.0.0.1 is this machine alone",
            &[Text(name)],
        );
        finding_list.push(place, Severity::Note, writer.into_text());
    }
}
