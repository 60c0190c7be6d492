//! The definitions that are loaded, as they were read.

use crate::joined::setting_told;
use crate::journal::job::KeptJob;
use crate::journal::labels::KnownLabel;
use crate::journal::reader::OpenJournal;
use crate::objects::loaded::put_loaded;
use crate::texts::labels::add_disabled;
use calendar_due::Zone;
use definition_files::laid_out;
use job_defs::Def;
use run_times::Filling::{Moment, Text};
use run_times::Page;
use std::alloc::{AllocError, Global};
use std::str::from_utf8;

/// For each loaded job, or for those of the named ones that are loaded: when it was loaded, where its output goes, and which keys of its
/// definition are ignored. The definition follows, a line for each member and item. With JSON it is all one object. Times are shown in the
/// zone.
pub(crate) fn show_text(
    alloc: Global,
    journal: &OpenJournal,
    zone: &Zone,
    labels: &[history_model::Text],
    is_json: bool,
) -> Result<String, AllocError> {
    let mut page = Page::new(alloc, zone, journal.table.reading());
    if labels.is_empty() {
        for (label, job) in &journal.past.jobs {
            let known = journal.past.labels.of(label.as_str());
            add_job(&mut page, label.as_str(), job, known, is_json);
        }
    }
    for label in labels {
        let label = label.as_str();
        if let Some(job) = journal.past.jobs.get(label) {
            let known = journal.past.labels.of(label);
            add_job(&mut page, label, job, known, is_json);
        }
    }
    page.into_text()
}

fn add_job(page: &mut Page<'_>, label: &str, job: &KeptJob, known: KnownLabel, is_json: bool) {
    let (Some(def), Some(text)) = (&job.def, &job.text) else {
        return;
    };
    if is_json {
        return put_loaded(page, label, def, text.as_str(), job.record.loaded(), known);
    }
    page.add(
        "$ was loaded at $.\n",
        &[Text(label), Moment(job.record.loaded().wall)],
    );
    add_disabled(page, label, setting_told(known.disabled));
    add_output(page, def);
    add_stream(page, "Its errors go", def.standard_error_path());
    add_unheeded(page, def);
    match laid_out(page.alloc, text.as_str()) {
        Ok(bytes) => {
            for line in from_utf8(bytes.as_slice()).unwrap_or("").lines() {
                page.add("$\n", &[Text(line)]);
            }
            drop(bytes);
        }
        Err(_) => page.writer.refuse(),
    }
}

// The output of a run that serves a connection goes to its client (launchd.plist(5), inetdCompatibility).
fn add_output(page: &mut Page<'_>, def: &Def) {
    if def.has_sockets() {
        page.writer
            .put("  Its output goes to the client of the connection.\n");
    } else {
        add_stream(page, "Its output goes", def.standard_out_path());
    }
}

fn add_stream(page: &mut Page<'_>, front: &str, path: Option<&str>) {
    match path {
        Some(path) => page.add("  $ to $.\n", &[Text(front), Text(path)]),
        None => page.add("  $ nowhere.\n", &[Text(front)]),
    }
}

// Which keys of its definition are ignored.
fn add_unheeded(page: &mut Page<'_>, def: &Def) {
    for name in def.not_acted_on() {
        page.add(
            "  $ is not supported, so it is ignored.\n",
            &[Text(name.as_str())],
        );
    }
}
