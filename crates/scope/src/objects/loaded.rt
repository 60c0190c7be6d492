//! A definition that is loaded, as an object.

use crate::journal::labels::KnownLabel;
use crate::objects::job::disabled_since;
use crate::objects::lines::text_of;
use definition_files::laid_out;
use history_model::Reading;
use job_defs::Def;
use json_lines::Value::{Flag, Json, Moment};
use json_lines::{Field, put_json, put_line, put_texts};
use run_times::{Page, TextWriter};
use std::alloc::{AllocError, Global};
use std::str::from_utf8;

/// Adds the line of a job: when it was loaded, where its output goes, which keys of its definition are ignored, and the definition.
pub(crate) fn put_loaded(
    page: &mut Page<'_>,
    label: &str,
    def: &Def,
    text: &str,
    at: Reading,
    known: KnownLabel,
) {
    match (unheeded(page.alloc, def), on_one_line(page.alloc, text)) {
        (Ok(unheeded), Ok(definition)) => {
            let lists = (unheeded.as_str(), definition.as_str());
            put_lists(page, label, def, lists, at, known);
            drop(unheeded);
            drop(definition);
        }
        (unheeded, definition) => {
            drop(unheeded);
            drop(definition);
            page.writer.refuse();
        }
    }
}

// Adds the line with these two texts of JSON.
fn put_lists<'x>(
    page: &mut Page<'_>,
    label: &str,
    def: &'x Def,
    (unheeded, definition): (&'x str, &'x str),
    at: Reading,
    known: KnownLabel,
) {
    let fields = [
        Field("loaded", Moment(at.wall)),
        Field("is_disabled", Flag(known.disabled.is_some())),
        Field("disabled_since", disabled_since(known)),
        Field("output", text_of(def.standard_out_path())),
        Field("errors", text_of(def.standard_error_path())),
        Field("not_acted_on", Json(unheeded)),
        Field("definition", Json(definition)),
    ];
    put_line(page, "label", label, &fields);
}

fn unheeded(alloc: Global, def: &Def) -> Result<String, AllocError> {
    let mut names = Vec::new(alloc);
    for name in def.not_acted_on() {
        names.push(name.as_str())?;
    }
    let mut writer = TextWriter::new(alloc);
    put_texts(&mut writer, names.as_slice());
    drop(names);
    writer.into_text()
}

// The JSON without the white space between its parts. A string of JSON never goes over a line.
fn on_one_line(alloc: Global, text: &str) -> Result<String, AllocError> {
    let bytes = laid_out(alloc, text)?;
    let mut writer = TextWriter::new(alloc);
    for line in from_utf8(bytes.as_slice()).unwrap_or("").lines() {
        put_json(&mut writer, line.trim_start());
    }
    drop(bytes);
    writer.into_text()
}
