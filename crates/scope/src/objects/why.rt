//! Why each job is in its state, an object a label: the one list of `why --json`, whichever sources were read.

use crate::asked::WhyAsked;
use crate::objects::causes::causes_list;
use crate::objects::job::{Beside, ReportContext, put_job, put_unloaded, since_value};
use crate::objects::left::put_left;
use crate::objects::left_out::put_left_out;
use crate::objects::lines::text_of;
use crate::texts::failing::is_failed_run;
use crate::texts::told::ToldJob;
use crate::view::rows::{Row, rows_of, view_of};
use crate::view::{JobView, LabelView, LauncherView};
use json_lines::Value;
use json_lines::Value::{Absent, Json, Moment};
use run_times::Page;
use status_file::{state_name, state_of};
use std::alloc::{AllocError, Global};

/// An object for each label that the text of `why` shows, in order, or only for jobs that fail; and how many fail.
pub(crate) fn why_objects<'a>(
    alloc: Global,
    of: &LauncherView<'a>,
    asked: WhyAsked<'a>,
) -> Result<(String, u64), AllocError> {
    let rows = rows_of(alloc, of, asked.labels)?;
    let mut page = Page::new(alloc, of.shown, of.now);
    let mut count: u64 = 0;
    for row in &rows {
        let fails = put_row(&mut page, of, *row, asked.is_failing);
        count = count.saturating_add(u64::from(fails));
    }
    drop(rows);
    if !asked.is_failing {
        put_left(&mut page, of.processes, of.around);
    }
    if let Some(standing) = of.standing() {
        let left_out = put_left_out(&mut page, standing, asked.labels, of.around);
        count = count.saturating_add(left_out);
    }
    match page.into_text() {
        Ok(text) => Ok((text, count)),
        Err(error) => Err(error),
    }
}

// Adds the line of a label, if it is asked for. Whether its job fails.
fn put_row<'a>(page: &mut Page<'_>, of: &LauncherView<'a>, row: Row<'a>, is_failing: bool) -> bool {
    match view_of(page.alloc, of, row) {
        Ok(Some(LabelView::Loaded(job))) => {
            if job.fault.is_some() || !is_failing {
                put_loaded(page, of, &job);
            }
            job.fault.is_some()
        }
        Ok(Some(LabelView::Unloaded(label))) => {
            if !is_failing {
                put_unloaded(page, label, of.around);
            }
            false
        }
        Ok(None) => false,
        Err(_) => {
            page.writer.refuse();
            false
        }
    }
}

// Adds the line of a job. If its launcher is not known to run, its state, its causes and its next start are left out.
fn put_loaded(page: &mut Page<'_>, of: &LauncherView<'_>, job: &JobView<'_>) {
    let mut beside = beside_of(job);
    if !of.around.foretells {
        return put_job(page, job.label, &job.told.runs, &beside, of.around);
    }
    beside.state = state_name(state_of(&job.told.facts.reasons));
    if let Some(second) = job.start_second() {
        beside.next = Moment(second);
    }
    match causes_list(page, &job.told) {
        Ok(list) => {
            put_whole(page, job.label, &job.told, beside, list.as_str(), of.around);
            drop(list);
        }
        Err(_) => page.writer.refuse(),
    }
}

// Adds the line of a job with this list of its causes.
fn put_whole<'x>(
    page: &mut Page<'_>,
    label: &str,
    told: &ToldJob<'_>,
    beside: Beside<'x>,
    list: &'x str,
    around: ReportContext,
) {
    let whole = Beside {
        state: beside.state,
        causes: Json(list),
        fault: beside.fault,
        reason: beside.reason,
        errors: beside.errors,
        next: beside.next,
        is_disabled: beside.is_disabled,
        disabled_since: beside.disabled_since,
        known: beside.known,
    };
    put_job(page, label, &told.runs, &whole, around);
}

// What is said of a job besides its runs, whether its launcher runs or not.
fn beside_of<'a>(job: &JobView<'a>) -> Beside<'a> {
    Beside {
        state: "unknown",
        causes: Absent,
        fault: job.fault,
        reason: text_of(job.told.runs.reason()),
        errors: errors_of(job),
        next: Absent,
        is_disabled: job.disabled.is_some(),
        disabled_since: since_value(job.disabled),
        known: job.past.known,
    }
}

// The file of its errors, if its last run failed.
fn errors_of<'a>(job: &JobView<'a>) -> Value<'a> {
    if is_failed_run(job.fault) {
        text_of(job.told.keys.errors)
    } else {
        Absent
    }
}
