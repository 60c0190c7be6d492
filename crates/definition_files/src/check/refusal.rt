//! Why a definition is refused, as text for people.

use crate::check::faults::FaultAt;
use crate::check::finding::Position;
use crate::check::finding_list::FindingList;
use crate::check::outline::begin_at;
use crate::check::place::{WayStep, place_at, place_by};
use crate::check::wanted::{put_wanted, sockets_in};
use crate::check::way::{Step, value_at};
use history_model::{KeyName, Reason};
use json_kinds::key_name;
use run_times::Piece::{Number, Text};
use run_times::TextWriter;
use serde_json::Value;
use std::alloc::Global;

/// Adds what is wrong with the definition at the fault.
pub(crate) fn put_fault(alloc: Global, writer: &mut TextWriter, def: &Value, fault: &FaultAt) {
    if fault.way.is_empty() {
        return put_missing(writer, fault.reason, fault.key);
    }
    let words = words_of(fault.key, fault.reason == Reason::Missing);
    writer.put_all(&[Text(key_name(fault.key)), Text(words)]);
    match value_at(def, fault.way.as_slice()) {
        Some(value) if words.is_empty() => put_value(alloc, writer, def, fault, value),
        _ => {}
    }
}

// Adds what is said of a key that is missing.
fn put_missing(writer: &mut TextWriter, reason: Reason, key: KeyName) {
    let name = key_name(key);
    let form = match (reason, key) {
        (Reason::NotObject, _) => "not an object: a job definition is between { and }",
        (_, KeyName::ProgramArguments) =>
            "$ is missing: a definition has Program or ProgramArguments",
        (_, KeyName::InetdCompatibility) =>
            "$ is missing: with Sockets it must be {\"Wait\": false}",
        _ => "$ is missing: each definition has one",
    };
    writer.fill(form, &[Text(name)]);
}

/// The place of the value with the fault; the beginning of the definition, if a key is absent.
pub(crate) fn place_of_fault(finding_list: &FindingList<'_>, fault: &FaultAt) -> Option<Position> {
    if fault.way.is_empty() {
        return Some(place_at(finding_list.text, begin_at(finding_list.text, 0)));
    }
    let steps = fault.way.as_slice();
    let way = [
        way_step(steps, 0),
        way_step(steps, 1),
        way_step(steps, 2),
        way_step(steps, 3),
        way_step(steps, 4),
    ];
    let way = way.get(..steps.len()).unwrap_or(&way);
    place_by(finding_list.text, finding_list.marks, way, false)
}

fn way_step(steps: &[Step], index: usize) -> WayStep<'_> {
    match steps.get(index) {
        Some(Step::Key(name)) => WayStep::Key(name.as_str()),
        Some(Step::Member(index)) => WayStep::Member(*index),
        None => WayStep::Member(0),
    }
}

// What is said of the key whatever its value is; nothing, if the value decides.
fn words_of(key: KeyName, is_missing: bool) -> &'static str {
    match key {
        KeyName::UserName =>
            ": each job runs as the launcher's user; leave the key out. Put setpriv before the program under root's launcher, or load the job into a jobd of that user (jobd-split-users does either)",
        KeyName::GroupName =>
            ": each job runs in the launcher's own group; leave the key out, and load the job into a jobd that runs in this group",
        KeyName::RootDirectory =>
            ": no job is put into another root; leave the key out, and run chroot as the program",
        KeyName::ProgramArguments if is_missing => " is empty: its first member is the program",
        _ => "",
    }
}

// Adds where the value is below its key, what it is, and what is expected.
fn put_value(alloc: Global, writer: &mut TextWriter, def: &Value, fault: &FaultAt, value: &Value) {
    let below = fault.way.get(1..).unwrap_or(&[]);
    for step in below {
        match step {
            Step::Key(name) => writer.fill(": $", &[Text(name.as_str())]),
            Step::Member(index) if below.len() == 1 => {
                let member = index.saturating_add(1);
                writer.fill(": member $", &[Number(member as u64)]);
            }
            Step::Member(_) => {}
        }
    }
    writer.put(" is ");
    if fault.key == KeyName::Sockets && below.is_empty() && value.is_object() {
        let count = sockets_in(value);
        writer.fill("an object of $ sockets", &[Number(count as u64)]);
    } else {
        put_shown(alloc, writer, value);
    }
    writer.put(", expected ");
    put_wanted(writer, def, fault);
}

// The longest text that is shown itself, in bytes.
const SHOWN: usize = 40;

// Adds what a value is: a number, a literal or a short string itself, of others the kind and the size.
fn put_shown(alloc: Global, writer: &mut TextWriter, value: &Value) {
    let (form, count) = match value {
        Value::String(text) if text.is_empty() => return writer.put("an empty string"),
        Value::String(text) if text.len() <= SHOWN => return writer.put_quoted(text.as_str()),
        Value::String(text) => ("a string of $ bytes", text.len()),
        Value::Array(items) => ("an array of $", items.len()),
        Value::Object(members) => ("an object of $", members.len()),
        _ => return writer.put_made(value.to_string(alloc)),
    };
    writer.fill(form, &[Number(count as u64)]);
}
