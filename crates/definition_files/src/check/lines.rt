//! The lines of a file's findings.

use crate::check::finding::{
    Finding, Position, Severity, finding_line, finding_object, severity_name,
};
use crate::check::outline::{MarkKind, Outline, OutlineMark, outline_of};
use crate::check::place::{key_at, offset_at};
use crate::check::spelled::put_name;
use run_times::TextWriter;
use std::alloc::{AllocError, Global};

/// Writes the findings of one file.
#[derive(Drop)]
pub(crate) struct Lines<'a> {
    alloc: Global,
    pub(crate) path: &'a str,
    pub(crate) text: &'a str,
    outline: Result<Outline, AllocError>,
    is_one_line: bool,
    /// A finding is an object.
    is_json: bool,
}

/// The lines for the file at the path, with these bytes.
pub(crate) fn lines_of<'a>(
    alloc: Global,
    path: &'a str,
    bytes: &'a [u8],
    is_json: bool,
) -> Lines<'a> {
    let text = std::str::from_utf8(bytes).unwrap_or("");
    Lines {
        alloc,
        path,
        text,
        outline: outline_of(alloc, text),
        is_one_line: !text.trim_end().contains('\n'),
        is_json,
    }
}

impl Lines<'_> {
    /// The marks of the text; none, if there was no memory for them.
    pub(crate) fn marks(&self) -> &[OutlineMark] {
        match &self.outline {
            Ok(outline) => outline.marks.as_slice(),
            Err(_) => &[],
        }
    }

    /// Adds the line of a finding, with the code of a load, if it has one. In a file of one line the keys that lead to the place follow it; an
    /// object always has them.
    pub(crate) fn put(
        &self,
        place: Option<Position>,
        severity: Severity,
        code: &'static str,
        told: &str,
        writer: &mut TextWriter,
    ) {
        if self.outline.is_err() {
            writer.refuse();
        }
        let mut way = TextWriter::new(self.alloc);
        match place {
            Some(place) if self.is_one_line || self.is_json => self.put_way(&place, &mut way),
            _ => {}
        }
        match way.into_text() {
            Ok(way) => {
                let line = if self.is_json {
                    let severity = severity_name(severity);
                    finding_object(
                        self.alloc,
                        self.path,
                        place,
                        way.as_str(),
                        severity,
                        code,
                        told,
                    )
                } else {
                    finding_line(self.alloc, self.path, place, way.as_str(), severity, told)
                };
                drop(way);
                writer.put_made(line);
            }
            Err(_) => writer.refuse(),
        }
    }

    /// Adds that all is well, and what the definition does.
    pub(crate) fn put_well(&self, summary: Result<String, AllocError>, writer: &mut TextWriter) {
        let Ok(summary) = summary else {
            return writer.refuse();
        };
        if self.is_json {
            let text = summary.as_str();
            writer.put_made(finding_object(self.alloc, self.path, None, "", "ok", "", text));
        } else {
            writer.put_plain(self.path);
            writer.put(": ");
            writer.put(summary.as_str());
            writer.put("\n");
        }
        drop(summary);
    }

    /// Adds the lines of findings.
    pub(crate) fn put_all(&self, finding_list: &[Finding], writer: &mut TextWriter) {
        for finding in finding_list {
            self.put(
                finding.place,
                finding.severity,
                "",
                finding.text.as_str(),
                writer,
            );
        }
    }

    // Adds the keys that lead to the place, joined by dots.
    fn put_way(&self, place: &Position, writer: &mut TextWriter) {
        let offset = offset_at(self.text, place);
        for level in 1..MOST_LEVELS {
            let key = self.key_above(offset, level);
            if !key.is_empty() && level > 1 {
                writer.put(".");
            }
            put_name(writer, key);
        }
    }

    // The key at this level on the way to the byte; the empty text, if there is none.
    fn key_above(&self, offset: usize, level: usize) -> &str {
        let mut found = "";
        for mark in self.marks() {
            if mark.at > offset {
                break;
            }
            if mark.depth < level {
                found = "";
            }
            match mark.kind {
                MarkKind::Key if mark.depth == level => found = key_at(self.text, mark),
                _ => {}
            }
        }
        found
    }
}

/// How many levels keys of a definition have at most, plus one: `Sockets`, a socket's name, an array, and its keys.
const MOST_LEVELS: usize = 6;
