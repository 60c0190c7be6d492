//! What is wrong with a definition that is refused: each fault, and what else there is to say of it.

use crate::check::faults::FaultAt;
use crate::check::finding::{Position, Severity};
use crate::check::finding_list::FindingList;
use crate::check::names::add_ignored;
use crate::check::outline::begin_at;
use crate::check::place::place_at;
use crate::check::refusal::{place_of_fault, put_fault};
use crate::check::twice::add_twice;
use history_model::{KeyName, Reason};
use json_kinds::key_name;
use json_kinds::names::ALL;
use run_times::Piece::Number;
use run_times::TextWriter;
use serde_json::Value;

/// Adds the text of the first fault of the value to the writer, and returns its place. It adds a finding for each further one, and for each
/// ignored key.
pub(crate) fn put_faults(
    writer: &mut TextWriter,
    value: &Value,
    faults: &[FaultAt],
    finding_list: &mut FindingList<'_>,
) -> Option<Position> {
    let (first, others) = faults.split_first()?;
    put_fault(finding_list.alloc, writer, value, first);
    let place = place_of_fault(finding_list, first);
    if first.reason == Reason::NotObject {
        add_several(value, finding_list);
        return place;
    }
    add_if_without_inetd(first, finding_list);
    for fault in others {
        let mut writer = TextWriter::new(finding_list.alloc);
        put_fault(finding_list.alloc, &mut writer, value, fault);
        let place = place_of_fault(finding_list, fault);
        finding_list.push(place, Severity::Also, writer.into_text());
        add_if_without_inetd(fault, finding_list);
    }
    if let Value::Object(members) = value {
        for (name, _) in members.iter() {
            if !is_read(name.as_str()) {
                add_ignored(finding_list, name.as_str());
            }
        }
    }
    add_twice(finding_list);
    place
}

// Adds a note if the fault is that a definition with sockets lacks inetdCompatibility.
fn add_if_without_inetd(fault: &FaultAt, finding_list: &mut FindingList<'_>) {
    if fault.key == KeyName::InetdCompatibility && fault.way.is_empty() {
        finding_list.add(
            Severity::Note,
            KeyName::Sockets,
            "Sockets: the launcher passes no listening socket to a job; if the program listens by itself, leave Sockets out",
            &[],
        );
    }
}

fn is_read(name: &str) -> bool {
    for key in ALL.iter() {
        if key_name(*key) == name {
            return true;
        }
    }
    false
}

fn begin_of(finding_list: &FindingList<'_>) -> Position {
    place_at(finding_list.text, begin_at(finding_list.text, 0))
}

// Adds a note if the value is an array of objects: a file has one definition.
fn add_several(value: &Value, finding_list: &mut FindingList<'_>) {
    let Some(items) = value.as_array() else {
        return;
    };
    let mut count: u64 = 0;
    for item in items.iter() {
        if item.is_object() {
            count = count.saturating_add(1);
        }
    }
    if count > 0 {
        let place = Some(begin_of(finding_list));
        let mut writer = TextWriter::new(finding_list.alloc);
        writer.fill(
            "the array has $ definitions; a file has one, so write each to a file of its own",
            &[Number(count)],
        );
        finding_list.push(place, Severity::Note, writer.into_text());
    }
}
