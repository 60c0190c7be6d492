//! What is wrong where a text is not JSON.

use crate::check::finding::Position;
use crate::check::outline::{DEEPEST, MarkKind, Outline, OutlineMark, begin_at};
use crate::check::place::place_at;
use json_kinds::json_value;
use run_times::TextWriter;
use std::alloc::Global;

const XML: &str = "a property list in XML; write it as JSON with: jobscope plist FILE > FILE.json";

const BINARY: &str =
    "a binary property list; convert it with: python3 -c 'import plistlib,json,sys; json.dump(plistlib.load(sys.stdin.buffer),sys.stdout)' < FILE > FILE.json";

/// Adds what is wrong at the first byte that is not JSON, and returns its place.
pub(crate) fn put_broken(
    alloc: Global,
    writer: &mut TextWriter,
    bytes: &[u8],
    outline: &Outline,
) -> Option<Position> {
    if bytes.starts_with(b"bplist") {
        writer.put(BINARY);
        return None;
    }
    let Ok(text) = std::str::from_utf8(bytes) else {
        writer.put("the file is not UTF-8");
        return None;
    };
    if outline.depth > DEEPEST {
        writer.put("the values are nested more than 127 levels deep");
        return None;
    }
    let (at, told) = match outline.bad {
        Some(offset) => told_at(bytes, offset, begin_at(text, 0), outline.is_whole),
        None if outline.is_whole => (
            number_in(alloc, writer, text, outline.marks.as_slice()),
            "a number that is too large",
        ),
        None => told_at(bytes, text.len(), begin_at(text, 0), false),
    };
    writer.put(told);
    Some(place_at(text, at))
}

// Where the first number begins that by itself is not JSON: one past each bound.
fn number_in(alloc: Global, writer: &mut TextWriter, text: &str, marks: &[OutlineMark]) -> usize {
    for mark in marks {
        if let MarkKind::Plain = mark.kind {
            match json_value(alloc, number_at(text, mark.at).as_bytes()) {
                Ok(Some(read)) => drop(read),
                Ok(None) => return mark.at,
                Err(_) => writer.refuse(),
            }
        }
    }
    0
}

// The number that begins there; 0, if none does.
fn number_at(text: &str, at: usize) -> &str {
    let mut end = at;
    for byte in text.as_bytes().get(at..).unwrap_or(&[]) {
        match *byte {
            b'0'..=b'9' | b'+' | b'-' | b'.' | b'e' | b'E' => end = end.saturating_add(1),
            _ => break,
        }
    }
    match text.get(at..end) {
        Some(number) if !number.is_empty() => number,
        _ => "0",
    }
}

// The place to report, and what is wrong there. The text is bad at `offset`, and its first byte that is not a blank is at `first`. The
// caller says whether a whole value comes before `offset`.
fn told_at(bytes: &[u8], offset: usize, first: usize, is_whole: bool) -> (usize, &'static str) {
    let Some(byte) = bytes.get(first) else {
        return (0, "the file is empty");
    };
    if *byte == b'<' {
        return (first, XML);
    }
    if bytes.starts_with(b"\xEF\xBB\xBF") {
        return (0, "a byte order mark; write the file without one");
    }
    let Some(found) = bytes.get(offset) else {
        return told_at_end(bytes, offset, is_whole);
    };
    match *found {
        b'{' if is_whole => (
            offset,
            "a second definition begins here; a file has one, so write each to a file of its own",
        ),
        b'}' | b']' => match comma_before(bytes, offset) {
            Some(comma) => (
                comma,
                "a comma before a closing bracket; JSON has none there",
            ),
            None => (
                offset,
                "this bracket closes nothing, or a value is missing before it",
            ),
        },
        b',' => (offset, "this comma follows no value"),
        other => (offset, told_of(other)),
    }
}

// The same where the text ends: a comma after a whole value is wrong.
fn told_at_end(bytes: &[u8], end: usize, is_whole: bool) -> (usize, &'static str) {
    match comma_before(bytes, end) {
        Some(comma) if is_whole => (
            comma,
            "a comma after the last bracket; JSON allows nothing after it",
        ),
        _ => (end, "the text ends before its last bracket is closed"),
    }
}

fn told_of(found: u8) -> &'static str {
    match found {
        b'/' | b'#' => "a comment; JSON has none",
        b'\'' => "a single quote; JSON strings have double quotes",
        b'"' =>
            "a comma or a colon is missing before this string, or the string is not closed or has a bad character",
        b'=' | b';' => "an old-style property list has this sign; JSON has : and ,",
        b'{' | b'[' => "a comma or a colon is missing before this bracket",
        b'0'..=b'9' | b'+' | b'-' | b'.' =>
            "not a JSON number (no sign +, no 0 before other digits), or a comma is missing before it",
        b'A'..=b'Z' | b'a'..=b'z' =>
            "not a JSON value: expected true, false, null, a number or a string in double quotes",
        _ => "not JSON from here on",
    }
}

// The comma that is the last byte before the offset but for blanks.
fn comma_before(bytes: &[u8], offset: usize) -> Option<usize> {
    let mut comma = None;
    let mut at: usize = 0;
    for byte in bytes.get(..offset)? {
        match *byte {
            b' ' | b'\t' | b'\n' | b'\r' => {}
            b',' => comma = Some(at),
            _ => comma = None,
        }
        at = at.saturating_add(1);
    }
    comma
}
