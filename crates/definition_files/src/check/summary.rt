//! What a definition that loads does, in one line.

use job_defs::Def;
use run_times::Piece::{Number, Text};
use run_times::TextWriter;
use std::alloc::{AllocError, Global};

/// The label, that it is well, and what starts the job: `org.example.web: ok, starts at load, kept alive`.
pub fn summary_of(alloc: Global, def: &Def) -> Result<String, AllocError> {
    let at_load = if def.run_at_load() || def.keep_alive() || def.successful_exit().is_some() {
        ", starts at load"
    } else {
        ""
    };
    let mut writer = TextWriter::new(alloc);
    let pieces = [Text(def.label()), Text(at_load), Text(keep_text(def))];
    writer.fill("$: ok$$", &pieces);
    if let Some(seconds) = def.start_interval() {
        writer.fill(", starts each $ s", &[Number(u64::from(seconds))]);
    }
    if !def.calendar().is_empty() {
        writer.put(", starts by the calendar");
    }
    add_count(&mut writer, ", watches $ path$", def.watch_paths().len());
    add_count(
        &mut writer,
        ", serves $ queue folder$",
        def.queue_directories().len(),
    );
    add_count(&mut writer, ", listens at $ socket$", def.sockets().len());
    if def.launch_only_once() {
        writer.put(", once in each load");
    }
    writer.into_text()
}

// How many conditions of `KeepAlive` the definition has.
fn conditions(def: &Def) -> usize {
    let mut count = def.path_state().len();
    if def.successful_exit().is_some() {
        count = count.saturating_add(1);
    }
    if def.crashed().is_some() {
        count = count.saturating_add(1);
    }
    count
}

fn keep_text(def: &Def) -> &'static str {
    if def.keep_alive() {
        return ", kept alive";
    }
    match conditions(def) {
        0 => "",
        1 => ", kept alive on a condition",
        _ => ", kept alive on any of its conditions",
    }
}

// Adds how many there are of what the form names, if there is one.
fn add_count(writer: &mut TextWriter, form: &str, count: usize) {
    if count > 0 {
        let plural = if count == 1 { "" } else { "s" };
        writer.fill(form, &[Number(count as u64), Text(plural)]);
    }
}
