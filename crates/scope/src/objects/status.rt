//! The rows of `status` as objects.

ghost use Rattle.std.specs.Prelude.{◌≡◌};
ghost use Rattle.status_page.specs.Rows.{state_word};

use crate::journal::labels::KnownLabels;
use crate::objects::job::{ReportContext, around_file};
use crate::objects::left_out::put_left_out;
use crate::objects::lines::{end_of, moment_of, number_of};
use crate::view::by_file::disabled_at;
use calendar_due::Zone;
use history_model::Reading;
use json_lines::Value::{Absent, Flag, Moment, Number, Text};
use json_lines::{Field, Value, put_line};
use launchctl_words::ScopeCommand;
use run_times::Page;
use status_file::{JobStatus, state_name};
use status_page::{
    Next, ShownState, StartWhen, StatusRead, StatusRow, Usage, is_asked, reading_of, row_of,
    second_told, told_as_of, told_row, usage_of,
};
use std::alloc::{AllocError, Global};

/// An object for each of the named jobs that the file has, or for each of its jobs, in the file's order, as of a second.
pub(crate) fn status_objects(
    host: &HostRuntime,
    alloc: Global,
    standing: &StatusRead,
    of: &ScopeCommand,
    second: u64,
    settings: &KnownLabels,
) -> Result<String, AllocError> {
    let zone = standing.zone(alloc, false)?;
    let text = objects_in(host, alloc, standing, of, second, &zone, settings);
    drop(zone);
    text
}

// The objects, by the launcher's zone, in which its jobs' calendars are.
fn objects_in(
    host: &HostRuntime,
    alloc: Global,
    standing: &StatusRead,
    of: &ScopeCommand,
    second: u64,
    zone: &Zone,
    settings: &KnownLabels,
) -> Result<String, AllocError> {
    let shown = standing.zone(alloc, of.is_utc)?;
    let at = reading_of(standing);
    let mut page = Page::new(alloc, &shown, told_as_of(standing, at, second));
    let around = around_file(standing.seen, at);
    for line in standing.jobs() {
        if let Ok(job) = line.job() {
            if is_asked(of.words.as_slice(), job.label) {
                match line.calendar(alloc) {
                    Ok(entries) => {
                        let may_live = around.may_live;
                        let row = row_of(&job, entries.as_slice(), zone, may_live, at, second);
                        let mut row = told_row(row, around.foretells);
                        row.usage = usage_in(host, alloc, standing, &job, row.process);
                        let since = disabled_at(&job, settings);
                        put_row(&mut page, &row, job.disabled.is_some(), since, around);
                        drop(entries);
                    }
                    Err(_) => page.writer.refuse(),
                }
            }
        }
    }
    let _count = put_left_out(&mut page, standing, of.words.as_slice(), around);
    let text = page.into_text();
    drop(shown);
    text
}

// What the process of a row takes.
fn usage_in(
    host: &HostRuntime,
    alloc: Global,
    standing: &StatusRead,
    job: &JobStatus<'_>,
    process: Option<u32>,
) -> Option<Usage> {
    let launcher = standing.launcher()?;
    let _process = process?;
    usage_of(host, alloc, &launcher, job)
}

// Adds the line of a row.
fn put_row(
    page: &mut Page<'_>,
    row: &StatusRow<'_>,
    is_disabled: bool,
    disabled_at: Option<Reading>,
    around: ReportContext,
) {
    let process = match row.process {
        Some(process) => Some(u64::from(process)),
        None => None,
    };
    let [code, signal] = end_of(row.last);
    let (next, waits) = next_of(row);
    let (resident, processor) = match row.usage {
        Some(usage) => (Number(usage.resident), Number(usage.processor)),
        None => (Absent, Absent),
    };
    let fields = [
        Field("state", Text(word_of(row.state))),
        Field("pid", number_of(process)),
        Field("since", Moment(row.since)),
        code,
        signal,
        Field("starts", Number(row.starts)),
        Field("failures", Number(row.failures)),
        Field("refused", Number(row.refusals)),
        Field(
            "is_refused",
            if row.is_refused { Flag(true) } else { Absent },
        ),
        Field("resident_bytes", resident),
        Field("cpu_ms", processor),
        Field("next_start", next),
        Field("waits_for", waits),
        Field("is_disabled", Flag(is_disabled)),
        Field("disabled_since", moment_of(disabled_at)),
        Field("as_of", Moment(around.as_of)),
        Field("launcher", around.launcher),
    ];
    put_line(page, "label", row.label, &fields);
}

fn word_of(state: ShownState) -> &'static str
    ensures { result.now ≡ state_word state }
{
    match state {
        ShownState::Is(state) => state_name(state),
        ShownState::Unknown => "unknown",
    }
}

// When time alone starts it, also a start that is overdue, or what it waits for.
fn next_of(row: &StatusRow<'_>) -> (Value<'static>, Value<'static>) {
    match row.next {
        Next::Clock(StartWhen::At(second) | StartWhen::Since(second)) => {
            (Moment(second_told(row.throttle, second)), Absent)
        }
        Next::Event(what) => (Absent, Text(what)),
        Next::Nothing | Next::Clock(StartWhen::Never) => (Absent, Absent),
    }
}
