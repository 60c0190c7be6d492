//! Ignored keys, and the key that is meant.

use crate::check::finding::{Position, Severity};
use crate::check::finding_list::FindingList;
use crate::check::foreign::{IDLE, KEYS};
use crate::check::place::{WayStep, place_at, place_by, reached_by};
use job_defs::limits::LIST_LIMIT;
use json_kinds::key_name;
use json_kinds::names::{
    ALL, CRASHED, DAY, FAMILY, HOUR, MINUTE, MONTH, NODE_NAME, PASSIVE, PATH_NAME, PATH_STATE,
    PROTOCOL, SERVICE_NAME, SOCKET_TYPE, SUCCESSFUL_EXIT, WAIT, WEEKDAY,
};
use run_times::Piece::Text;
use run_times::TextWriter;
use std::alloc::Global;
use strsim::levenshtein;

const INNER: &[&str] = &[
    CRASHED,
    PATH_STATE,
    SUCCESSFUL_EXIT,
    DAY,
    HOUR,
    MINUTE,
    MONTH,
    WEEKDAY,
    SOCKET_TYPE,
    PASSIVE,
    FAMILY,
    PROTOCOL,
    PATH_NAME,
    NODE_NAME,
    SERVICE_NAME,
    WAIT,
];

/// Adds the remark on an ignored key. The name of an inner key follows those of the objects around it. The table has what to write in place
/// of a key of another launcher; for any other key the remark names the nearest one.
pub(crate) fn add_ignored(finding_list: &mut FindingList<'_>, name: &str) {
    let mut writer = TextWriter::new(finding_list.alloc);
    writer.fill("$: key not supported, ignored", &[Text(name)]);
    let hint = hint_for(name);
    if hint.is_empty() {
        let nearest = nearest_to(finding_list.alloc, name);
        if !name.as_bytes().ends_with(nearest.key.as_bytes()) {
            writer.fill("; is $ meant?", &[Text(nearest.key)]);
        }
        writer.is_refused = writer.is_refused || nearest.is_refused;
    } else {
        writer.fill("; here: $", &[Text(hint)]);
    }
    let place = key_place(finding_list, name);
    let severity = if IDLE.contains(&name) {
        Severity::Note
    } else {
        Severity::Warning
    };
    finding_list.push(place, severity, writer.into_text());
}

// What to write in place of a key of another launcher; empty, if none is known. Within KeepAlive the name follows a dot.
fn hint_for(name: &str) -> &'static str {
    let name = name.strip_prefix("KeepAlive.").unwrap_or(name);
    for key in KEYS {
        if key.name == name {
            return key.hint;
        }
    }
    ""
}

// Where the key of this name is: one of the definition itself, or an inner one, in the first member that has it.
fn key_place(finding_list: &FindingList<'_>, name: &str) -> Option<Position> {
    let own = place_by(
        finding_list.text,
        finding_list.marks,
        &[WayStep::Key(name)],
        true,
    );
    if own.is_some() {
        return own;
    }
    let (key, rest) = name.split_once('.').unwrap_or((name, ""));
    // Of sockets there are fewer than of entries.
    for index in 0..LIST_LIMIT {
        let place = inner_place(finding_list, key, rest, index);
        if place.is_some() {
            return place;
        }
    }
    None
}

// Where the inner key is in the member of this index. For a socket's key the socket's name comes between.
fn inner_place<'a>(
    finding_list: &FindingList<'_>,
    key: &'a str,
    rest: &'a str,
    index: usize,
) -> Option<Position> {
    let (inner, last, count) = match rest.rsplit_once('.') {
        Some((socket, last)) => (socket, last, 5),
        None => (rest, "", 3),
    };
    let way = [
        WayStep::Key(key),
        WayStep::Member(if count == 3 { index } else { 0 }),
        WayStep::Key(inner),
        WayStep::Member(index),
        WayStep::Key(last),
    ];
    let reached = reached_by(
        finding_list.text,
        finding_list.marks,
        way.get(..count).unwrap_or(&way),
    );
    match finding_list.marks.get(reached.key) {
        Some(mark) if reached.gone == count => Some(place_at(finding_list.text, mark.at)),
        _ => None,
    }
}

/// The nearest key so far, how many characters it is apart, and whether memory was refused to see it.
#[derive(Clone, Copy)]
struct Nearest {
    key: &'static str,
    distance: usize,
    is_refused: bool,
}

// The key that is nearest to the last part of the name: at most two characters apart, or the same in another case. Empty, if none is.
fn nearest_to(alloc: Global, name: &str) -> Nearest {
    let last = match name.rsplit_once('.') {
        Some((_, last)) => last,
        None => name,
    };
    let mut nearest = Nearest {
        key: "",
        distance: 3,
        is_refused: false,
    };
    if last.len() > 64 {
        return nearest;
    }
    if last.len() < name.len() {
        for key in INNER {
            compare(alloc, last, *key, &mut nearest);
        }
    } else {
        for key in ALL.iter() {
            compare(alloc, last, key_name(*key), &mut nearest);
        }
    }
    nearest
}

fn compare(alloc: Global, last: &str, key: &'static str, nearest: &mut Nearest) {
    let distance = if last.eq_ignore_ascii_case(key) {
        Ok(0)
    } else {
        levenshtein(alloc, last, key)
    };
    match distance {
        Ok(distance) if distance < nearest.distance => {
            nearest.key = key;
            nearest.distance = distance;
        }
        Ok(_) => {}
        Err(_) => nearest.is_refused = true,
    }
}
