//! What is reported of a definition.

use history_model::Reading;
use json_lines::{Field, Value, put_line};
use run_times::Piece::{Number, Text};
use run_times::{Page, TextWriter, utc};
use std::alloc::{AllocError, Global};

/// A place in a text: its line, and its character in the line, both from 1.
#[derive(Clone, Copy, Drop)]
pub struct Position {
    pub line: usize,
    pub column: usize,
}

/// How grave a finding is.
#[derive(Clone, Copy, Drop)]
pub enum Severity {
    /// The definition is refused.
    Error,
    /// It would be refused for this too, if the first fault were mended.
    Also,
    /// It loads, and may do what is not meant.
    Warning,
    /// Nothing needs to be done.
    Note,
}

/// A finding on a definition, besides why a load refuses it.
#[derive(Drop)]
pub struct Finding {
    pub place: Option<Position>,
    pub severity: Severity,
    pub text: String,
}

/// The name of a grade.
pub(crate) fn severity_name(severity: Severity) -> &'static str {
    match severity {
        Severity::Error => "error",
        Severity::Also => "also",
        Severity::Warning => "warning",
        Severity::Note => "note",
    }
}

/// The line of a finding: `FILE:LINE:COLUMN: error: TEXT`, or without the place if there is none. The way to the place, by its keys, follows
/// it in brackets, if there is one.
pub fn finding_line(
    alloc: Global,
    file: &str,
    place: Option<Position>,
    way: &str,
    severity: Severity,
    text: &str,
) -> Result<String, AllocError> {
    let word = severity_name(severity);
    let mut writer = TextWriter::new(alloc);
    writer.put_plain(file);
    if let Some(Position { line, column }) = place {
        writer.fill(":$:$", &[Number(line as u64), Number(column as u64)]);
    }
    if !way.is_empty() {
        writer.fill(" ($)", &[Text(way)]);
    }
    writer.fill(": $: $\n", &[Text(word), Text(text)]);
    writer.into_text()
}

/// The object of a finding, or with the severity `ok`, that all is well. The code of an error is that of a load. Empty members are left out.
pub(crate) fn finding_object<'x>(
    alloc: Global,
    file: &str,
    place: Option<Position>,
    way: &'x str,
    severity: &'static str,
    code: &'static str,
    text: &'x str,
) -> Result<String, AllocError> {
    let zone = utc();
    let mut page = Page::new(alloc, &zone, Reading { up: 0, wall: 0 });
    let (line, column) = match place {
        Some(Position { line, column }) => (
            Value::Number(line as u64),
            Value::Number(column as u64),
        ),
        None => (Value::Absent, Value::Absent),
    };
    let fields = [
        Field("line", line),
        Field("column", column),
        Field("key", said(way)),
        Field("severity", Value::Text(severity)),
        Field("code", said(code)),
        Field("text", Value::Text(text)),
    ];
    put_line(&mut page, "file", file, &fields);
    let made = page.into_text();
    drop(zone);
    made
}

fn said(text: &str) -> Value<'_> {
    if text.is_empty() {
        Value::Absent
    } else {
        Value::Text(text)
    }
}
