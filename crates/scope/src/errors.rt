//! Where the errors of a job went whose last run failed, and the last line that is there.

use crate::as_root::{ReadFor, open_for};
use run_times::Piece::Text;
use run_times::TextWriter;
use run_times::picture::{columns_of, columns_of_char};
use run_times::telling::put_made;
use std::alloc::Global;
use std::io::{Read, Seek, SeekFrom};
use std::{io, str};

/// How many bytes at the end of a file are read.
const END: u64 = 4_096;

/// How many columns of its last line are shown.
const LONGEST: usize = 160;

/// A job whose last run failed, and where its errors go.
#[derive(Clone, Copy)]
pub(crate) struct FailedRun<'a> {
    pub(crate) label: &'a str,
    /// The file, if they go to one.
    pub(crate) errors: Option<&'a str>,
    /// Whether its runs serve connections: then its output goes to the client.
    pub(crate) is_served: bool,
}

/// Writes a line for each of these jobs, with the last line of its file if that is to be looked at, for whom it is. This comes after all else that is
/// printed: a path on a file system that hangs silences nothing.
pub(crate) fn put_errors(
    host: &HostRuntime,
    alloc: Global,
    failed: &[FailedRun<'_>],
    is_seen: bool,
    whom: ReadFor,
) -> io::Result<()> {
    for run in failed {
        let mut writer = TextWriter::new(alloc);
        add_errors(&mut writer, run);
        if let (Some(path), true) = (run.errors, is_seen) {
            add_last(host, alloc, &mut writer, path, whom);
        }
        writer.put("\n");
        put_made(host, writer.into_text())?;
    }
    Ok(())
}

/// Adds where the errors of the job went, without a newline.
pub(crate) fn add_errors(writer: &mut TextWriter, run: &FailedRun<'_>) {
    match run.errors {
        Some(path) => writer.fill("$: its errors went to $", &[Text(run.label), Text(path)]),
        None => writer.fill(
            "$: its errors are lost: no StandardErrorPath",
            &[Text(run.label)],
        ),
    }
    if run.is_served {
        writer.put("; its output went to the client");
    }
}

// The last line of the file, if it is a plain one.
fn add_last(host: &HostRuntime, alloc: Global, writer: &mut TextWriter, path: &str, whom: ReadFor) {
    if !path.starts_with('/') {
        return;
    }
    let mut bytes = Vec::new(alloc);
    match end_of(host, alloc, path, whom, &mut bytes) {
        Ok(()) => match last_line(bytes.as_slice()) {
            Some(line) => {
                writer.put("; the last line is: ");
                put_shown(writer, line);
            }
            None => writer.put("; there is no line in it"),
        },
        Err(error) => match format!(in alloc; "; it can't be read: {error}") {
            Ok(text) => {
                writer.put(text.as_str());
                drop(text);
            }
            Err(_) => writer.refuse(),
        },
    }
    drop(bytes);
}

// Adds the last bytes of the file. InvalidInput for what is not a plain file: it is not opened. A file of the kernel that says it
// is empty is empty.
fn end_of(
    host: &HostRuntime,
    alloc: Global,
    path: &str,
    whom: ReadFor,
    bytes: &mut Vec<u8>,
) -> io::Result<()> {
    let mut file = open_for(host, alloc, path, whom)?;
    let length = file.metadata()?.len();
    let from = length.saturating_sub(END);
    file.seek(SeekFrom::Start(from))?;
    let _count = file.take(length - from).read_to_end(bytes)?;
    Ok(())
}

// The last line with something in it.
fn last_line(bytes: &[u8]) -> Option<&[u8]> {
    let mut last = None;
    for line in bytes.split(|byte| *byte == b'\n') {
        if line.iter().any(|byte| *byte > b' ') {
            last = Some(line);
        }
    }
    last
}

// The line with hidden characters and what is not UTF-8 as U+FFFD, cut if it is too long.
fn put_shown(writer: &mut TextWriter, line: &[u8]) {
    let mut rest = line.trim_ascii();
    let mut used: usize = 0;
    for _ in 0..END {
        if used >= LONGEST && !rest.is_empty() {
            writer.put("…");
            return;
        }
        let (text, behind) = text_in(rest);
        let room = LONGEST.saturating_sub(used);
        let front = front_of(text, room);
        writer.put_plain(front);
        if front.len() < text.len() {
            writer.put("…");
            return;
        }
        let Some((_, after)) = behind.split_first() else {
            return;
        };
        used = used.saturating_add(columns_of(front)).saturating_add(1);
        writer.put("\u{FFFD}");
        rest = after;
    }
}

// As much of the beginning of the text as has room in this number of columns.
fn front_of(text: &str, room: usize) -> &str {
    let mut used: usize = 0;
    let mut end: usize = 0;
    for c in text.chars() {
        used = used.saturating_add(columns_of_char(c));
        if used <= room {
            end = end.saturating_add(c.len_utf8());
        }
    }
    text.get(..end).unwrap_or("")
}

// The text at the front, and what comes after it.
fn text_in(bytes: &[u8]) -> (&str, &[u8]) {
    match str::from_utf8(bytes) {
        Ok(text) => (text, &[]),
        Err(error) => {
            let end = error.valid_up_to();
            let front = bytes.get(..end).unwrap_or(&[]);
            (
                str::from_utf8(front).unwrap_or(""),
                bytes.get(end..).unwrap_or(&[]),
            )
        }
    }
}
