//! Why each job is in its state: the one text of `why`, whichever sources were read.

use crate::errors::FailedRun;
use crate::joined::{setting_told, sources_said};
use crate::texts::after_exit::add_after_exit;
use crate::texts::cause_lines::add_causes;
use crate::texts::failing::note_failed;
use crate::texts::heads::add_launcher;
use crate::texts::labels::add_label;
use crate::texts::left::{add_left, add_left_of_others};
use crate::texts::since::add_coming;
use crate::texts::words::how_words;
use crate::view::rows::{Row, rows_of, view_of};
use crate::view::{JobView, LabelView, LauncherView, Present, UnloadedView};
use history_model::Reasons;
use run_log::RefusedStart;
use run_times::Filling::{Number, Span, Text, Time};
use run_times::Page;
use status_page::add_left_out;
use std::alloc::{AllocError, Global};

/// For each known label, or for those named: its state, what keeps it from a start or wants it (a line each), its last exit, and its next start. What
/// earlier runs left running follows, and what the boot left out. It adds the jobs whose last run failed to `failed`.
pub(crate) fn why_text<'a>(
    alloc: Global,
    of: &LauncherView<'a>,
    labels: &'a [history_model::Text],
    failed: &mut Vec<FailedRun<'a>>,
) -> Result<String, AllocError> {
    let rows = rows_of(alloc, of, labels)?;
    let mut page = Page::new(alloc, of.shown, of.now);
    add_launcher(&mut page, of, sources_said(of.sources));
    if has_no_job(of, labels, rows.as_slice()) {
        page.writer.put("\nNo job is loaded.\n");
    }
    for row in &rows {
        add_row(&mut page, of, *row, failed);
    }
    drop(rows);
    if let Some(standing) = of.standing() {
        add_left_of_others(&mut page, standing, of.processes);
        let _count = add_left_out(&mut page, standing, labels);
    }
    page.into_text()
}

// Whether no job is loaded. Of a journal that is said only if no label is named.
fn has_no_job(of: &LauncherView<'_>, labels: &[history_model::Text], rows: &[Row<'_>]) -> bool {
    match (of.present, rows.first()) {
        (Present::File(standing, _, _), _) => standing.is_empty(),
        (Present::Journal(journal, _, _), Some(Row::Label(first, _))) => {
            labels.is_empty() && journal.facts(*first).is_none()
        }
        (Present::Journal(_, _, _), _) => labels.is_empty(),
    }
}

fn add_row<'a>(
    page: &mut Page<'_>,
    of: &LauncherView<'a>,
    row: Row<'a>,
    failed: &mut Vec<FailedRun<'a>>,
) {
    match view_of(page.alloc, of, row) {
        Ok(Some(LabelView::Loaded(job))) => {
            add_job(page, of, &job);
            note_failed(page, &job, failed);
        }
        Ok(Some(LabelView::Unloaded(label))) => add_unloaded(page, of, &label),
        Ok(None) => {}
        Err(_) => page.writer.refuse(),
    }
}

// The report on a job. If its launcher is not known to run, it is what was known last: it does not say what kept the job from a start then, and when it
// would have started.
fn add_job(page: &mut Page<'_>, of: &LauncherView<'_>, job: &JobView<'_>) {
    let foretells = of.around.foretells;
    let is_idle = if foretells {
        add_stand(page, job)
    } else {
        add_then(page, of, job);
        false
    };
    add_past(page, job);
    add_missed(page, job.missed);
    add_background(page, job);
    add_inert(page, job);
    add_label(page, job.label, job.past.known, None, job.disabled);
    if foretells {
        add_coming(page, job, of.clock, is_idle);
    }
    if job.is_in_file {
        add_left(page, job.label, of.processes);
    }
}

// What is known of a label without a job.
fn add_unloaded(page: &mut Page<'_>, of: &LauncherView<'_>, label: &UnloadedView<'_>) {
    let name = Text(label.label);
    match label.gone {
        Some(gone) => page.add(
            "\n$ is not loaded: it was removed at $.\n",
            &[name, Time(gone.wall)],
        ),
        None => page.add("\n$ is not loaded.\n", &[name]),
    }
    let known = label.known;
    add_label(
        page,
        label.label,
        known,
        label.unbound,
        setting_told(known.disabled),
    );
    if label.is_in_file {
        add_left(page, label.label, of.processes);
    }
}

// The state of the job, a line for each thing that keeps it from a start or wants it, and what happens once its run exits. It returns whether the only one
// is that nothing wants the job: then it has added the ways by which the job comes to start.
fn add_stand(page: &mut Page<'_>, job: &JobView<'_>) -> bool {
    let state = state_words(&job.told.facts.reasons);
    page.add("\n$ $.\n", &[Text(job.label), Text(state)]);
    let is_idle = add_causes(page, &job.told);
    add_after_exit(page, &job.told);
    is_idle
}

// The state that the job had when it was known last, and its process, of which it is not known whether it still runs.
fn add_then(page: &mut Page<'_>, of: &LauncherView<'_>, job: &JobView<'_>) {
    let reasons = &job.told.facts.reasons;
    let when = if job.is_by_file() {
        "when the file was written"
    } else {
        "at the journal's end"
    };
    let holes = [Text(job.label), Text(words_then(reasons)), Text(when)];
    page.add("\n$ $ $.\n", &holes);
    if let Some(child) = reasons.child {
        let form =
            "  Run $ was running (PID $). Whether that process still does is not known here.\n";
        page.add(form, &[Number(child.run), Number(u64::from(child.pid))]);
    }
}

fn state_words(reasons: &Reasons) -> &'static str {
    match (reasons.is_removing, reasons.child, reasons.awaited) {
        (true, _, _) => "is being removed",
        (_, Some(child), _) if child.is_stopped || child.is_struck => "is being stopped",
        (_, Some(_), _) => "is running",
        (_, None, Some(_)) => "is being started",
        (_, None, None) => "is not running",
    }
}

fn words_then(reasons: &Reasons) -> &'static str {
    match (reasons.is_removing, reasons.child, reasons.awaited) {
        (true, _, _) => "was being removed",
        (_, Some(child), _) if child.is_stopped || child.is_struck => "was being stopped",
        (_, Some(_), _) => "was running",
        (_, None, Some(_)) => "was being started",
        (_, None, None) => "was not running",
    }
}

// How the last run ended, if one did, how many starts there were and how many of them failed, and that the last start was refused.
fn add_past(page: &mut Page<'_>, job: &JobView<'_>) {
    let runs = &job.told.runs;
    if let Some(last) = &runs.last {
        let (words, number) = how_words(last.how);
        let crash = if last.is_crash() { " (a crash)" } else { "" };
        let starts = if runs.starts == 1 { "start" } else { "starts" };
        let holes = [
            Text(words),
            Number(u64::from(number)),
            Text(crash),
            Time(last.ended.wall),
            Span(last.lived()),
            Number(runs.starts),
            Text(starts),
            Number(job.failures),
        ];
        let form = "  Its last run $$$, at $, after $; $ $ since its load, $ failed.\n";
        page.add(form, &holes);
    }
    if let Some(start) = &runs.refused {
        add_refused(page, start);
    }
}

// That the last start was refused, with the system's reason, if that is known.
fn add_refused(page: &mut Page<'_>, start: &RefusedStart<'_>) {
    let form = match start.reason {
        Some(_) => "  Its last start (run $) was refused, at $: $.\n",
        None => {
            "  Its last start (run $) was refused, at $. The launcher logged the system's reason to its standard error (journalctl -u jobd).\n"
        }
    };
    let reason = Text(start.reason.unwrap_or(""));
    page.add(form, &[Number(start.run), Time(start.at.wall), reason]);
}

// That a minute of its calendar passed while no launcher ran, if one did.
fn add_missed(page: &mut Page<'_>, missed: Option<u64>) {
    if let Some(minute) = missed {
        page.add(
            "  $ passed while no launcher ran, and it was not started since.\n",
            &[Time(minute)],
        );
    }
}

// The conditions of `KeepAlive` among the ignored keys.
fn add_inert(page: &mut Page<'_>, job: &JobView<'_>) {
    for key in job.past.ignored {
        if let Some(condition) = key.as_str().strip_prefix("KeepAlive.") {
            let form = "  Its KeepAlive $ is not supported: it never starts the job.\n";
            page.add(form, &[Text(condition)]);
        }
    }
}

// What is asked of a job whose program seems to put itself in the background.
fn add_background(page: &mut Page<'_>, job: &JobView<'_>) {
    if job.past.is_in_background {
        page.writer.put(
            "  Does its program put itself in the background? It has to stay in the foreground.\n",
        );
    }
}
