//! How a file of a definition compares to what is loaded, as an object.

use crate::objects::lines::text_of;
use json_lines::Value::{Absent, Json, Text};
use json_lines::{Field, put_line, put_texts};
use run_times::{Page, TextWriter};

/// Adds the line of a file, or of a loaded job that no file has: how it compares, its label, the keys that differ, and the former label.
pub(crate) fn put_drift(
    page: &mut Page<'_>,
    word: &'static str,
    label: &str,
    path: &str,
    keys: &[&str],
    was: &str,
) {
    let mut writer = TextWriter::new(page.alloc);
    put_texts(&mut writer, keys);
    match writer.into_text() {
        Ok(list) => {
            let has_keys = !keys.is_empty();
            put_listed(page, word, label, path, list.as_str(), has_keys, was);
            drop(list);
        }
        Err(_) => page.writer.refuse(),
    }
}

// Adds the line with the keys as a text of JSON, if there are any.
fn put_listed<'x>(
    page: &mut Page<'_>,
    word: &'static str,
    label: &str,
    path: &'x str,
    list: &'x str,
    has_keys: bool,
    was: &'x str,
) {
    let keys = if has_keys { Json(list) } else { Absent };
    let fields = [
        Field("standing", Text(word)),
        Field("file", text_of(said(path))),
        Field("keys", keys),
        Field("was", text_of(said(was))),
    ];
    put_line(page, "label", label, &fields);
}

fn said(text: &str) -> Option<&str> {
    if text.is_empty() { None } else { Some(text) }
}
