//! The lines of steps.

use crate::stop::Stop;
use control_client::Fault;
use history_model::Reading;
use json_lines::Value::{Absent, Flag, Json, Text as TextValue};
use json_lines::{Field, put_line};
use run_times::{Page, TextWriter, utc};
use std::alloc::{AllocError, Global};

/// How wide the name and the label of a line are at least.
const WORD_WIDTH: usize = 10;

const LABEL_WIDTH: usize = 11;

/// What the line of a step says.
#[derive(Clone, Copy)]
pub(crate) struct StepLine<'a> {
    pub(crate) word: &'a str,
    pub(crate) label: &'a str,
    /// Empty, if no file is meant.
    pub(crate) file: &'a str,
    /// The keys that differ, as a list of JSON.
    pub(crate) keys: &'a str,
    pub(crate) reason: &'a str,
    pub(crate) done: bool,
}

/// Writes the line to the standard output, as an object if JSON is wanted.
pub(crate) fn show(
    host: &HostRuntime,
    alloc: Global,
    is_json: bool,
    line: &StepLine<'_>,
) -> Result<(), Stop> {
    let text = if is_json {
        object_of(alloc, line)?
    } else {
        text_of(alloc, line)?
    };
    put(host, text)
}

fn put(host: &HostRuntime, text: String) -> Result<(), Stop> {
    let written = print!(host; "{text}");
    drop(text);
    match written {
        Ok(()) => Ok(()),
        Err(error) => Err(Stop::Ask(Fault::Output(error))),
    }
}

fn text_of(alloc: Global, line: &StepLine<'_>) -> Result<String, AllocError> {
    let mut writer = TextWriter::new(alloc);
    put_padded(&mut writer, line.word, WORD_WIDTH);
    put_padded(&mut writer, line.label, LABEL_WIDTH);
    writer.put_plain(line.reason);
    writer.put("\n");
    writer.into_text()
}

// Adds the text, and the blanks that it lacks of the width; one at least.
fn put_padded(writer: &mut TextWriter, text: &str, width: usize) {
    writer.put_plain(text);
    let count = text.chars().count();
    for _ in count..width.max(count.saturating_add(1)) {
        writer.put(" ");
    }
}

fn object_of(alloc: Global, line: &StepLine<'_>) -> Result<String, AllocError> {
    let zone = utc();
    let mut page = Page::new(alloc, &zone, Reading { up: 0, wall: 0 });
    let file = if line.file.is_empty() {
        Absent
    } else {
        TextValue(line.file)
    };
    let fields = [
        Field("label", TextValue(line.label)),
        Field("file", file),
        Field("keys", Json(line.keys)),
        Field("reason", TextValue(line.reason)),
        Field("done", Flag(line.done)),
    ];
    put_line(&mut page, "step", line.word, &fields);
    let made = page.into_text();
    drop(zone);
    made
}

/// Writes the last line: how many jobs are the same, and whether something changed.
pub(crate) fn show_same(
    host: &HostRuntime,
    alloc: Global,
    is_json: bool,
    count: u64,
    has_changed: bool,
) -> Result<(), Stop> {
    let mut writer = TextWriter::new(alloc);
    if is_json {
        writer.put("{\"same\":");
        writer.put_number(count);
        writer.put(if has_changed {
            ",\"changed\":true}\n"
        } else {
            ",\"changed\":false}\n"
        });
    } else {
        put_padded(&mut writer, "same", WORD_WIDTH);
        writer.put_number(count);
        writer.put(if count == 1 { " job\n" } else { " jobs\n" });
    }
    put(host, writer.into_text()?)
}
