//! The table of `status`: a head, and a line for each job.

ghost use Rattle.std.specs.Prelude.{◌≡◌, ◌≤◌, ◌++◌, ◌∷◌, ℕ, List, []};
ghost use Rattle.std.specs.List.{list_any};
ghost use Rattle.history_model.specs.Search.{is_same_text};
ghost use Rattle.history_model.specs.declared.TheConstants.{MAX_UP, MAX_WALL};
ghost use Rattle.run_times.specs.Written.{Adds};
ghost use Rattle.status_page.specs.Rows.{is_asked, state_word, TellsRows};

use crate::cells::cut_in_the_middle;
use crate::clocks::{StartWhen, gone_on, within_limits};
use crate::head::add_head;
use crate::left_out::add_left_out;
use crate::refused::add_refused_starts;
use crate::rows::{Next, ShownState, StatusRow, row_of, word_of};
use crate::standing::StatusRead;
use crate::throttles::second_told;
use crate::usage::usage_of;
use calendar_due::Zone;
use history_model::{Ended, JobState, MAX_WALL, Reading, Text};
use run_times::picture::columns_of;
use run_times::{Page, TextWriter, time_text};
use status_file::StatusLine;
use std::alloc::{AllocError, Global};

/// The columns after the label, which have this width each: state, process, since when, last exit, starts, failures, and what comes next.
const WIDTHS: [usize; 7] = [8, 7, 11, 9, 6, 6, 11];

const HEAD: &str = " STATE    PID     SINCE       LAST EXIT STARTS FAILED ";

/// Where the table has room for them: the memory that a process takes, and its processor time.
const TAKEN: [usize; 2] = [5, 6];

const HEAD_TAKEN: &str = "MEM   CPU    ";

/// What ends a colour.
const PLAIN: &str = "\x1b[0m";

/// How many columns a label has at least.
const NARROWEST: usize = 12;

/// How a table is shown: as of which second, in how many columns, whether in colour, and whether its times are those of UTC.
#[derive(Clone, Copy)]
pub struct Look {
    pub second: u64,
    pub columns: u16,
    pub has_colour: bool,
    pub is_utc: bool,
}

/// The table as of a second: the report on the launcher, a head, and a line for each job, or for each named job that the file has. They are in the
/// file's order. Then comes a line for each of these jobs whose last start was refused, and for each definition that the boot left out.
pub fn table_text(
    host: &HostRuntime,
    alloc: Global,
    standing: &StatusRead,
    labels: &[Text],
    look: Look,
) -> Result<String, AllocError> {
    let zone = standing.zone(alloc, false)?;
    let at = reading_of(standing);
    let rows = rows_of(alloc, standing, labels, &zone, at, look.second);
    drop(zone);
    match rows {
        Ok(mut rows) => {
            if has_room(look.columns) {
                look_at_processes(host, alloc, standing, rows.as_mut_slice());
            }
            let text = shown_text(alloc, standing, labels, rows.as_slice(), at, look);
            drop(rows);
            text
        }
        Err(error) => Err(error),
    }
}

// Whether the table has room for what processes take.
fn has_room(columns: u16) -> bool {
    usize::from(columns) >= others_of(true).saturating_add(NARROWEST)
}

// How many columns there are after the labels, with a space before each.
fn others_of(has_taken: bool) -> usize {
    let mut others: usize = 0;
    for width in WIDTHS {
        others = others.saturating_add(width).saturating_add(1);
    }
    for width in TAKEN {
        others = others.saturating_add(if has_taken {
            width.saturating_add(1)
        } else {
            0
        });
    }
    others
}

// Each row has what the process of its run takes.
fn look_at_processes(
    host: &HostRuntime,
    alloc: Global,
    standing: &StatusRead,
    rows: &mut [StatusRow<'_>],
) {
    let Some(launcher) = standing.launcher() else {
        return;
    };
    let mut at: usize = 0;
    for line in standing.jobs() {
        if let (Ok(job), Some(row)) = (line.job(), rows.get_mut(at)) {
            if row.label == job.label {
                at = at.saturating_add(1);
                if row.process.is_some() {
                    row.usage = usage_of(host, alloc, &launcher, &job);
                }
            }
        }
    }
}

// The text of the rows, by the zone in which times are shown.
fn shown_text(
    alloc: Global,
    standing: &StatusRead,
    labels: &[Text],
    rows: &[StatusRow<'_>],
    at: Reading,
    look: Look,
) -> Result<String, AllocError>
    requires up { at.up ≤ MAX_UP }
    requires wall { at.wall ≤ MAX_WALL }
{
    let zone = standing.zone(alloc, look.is_utc)?;
    let mut page = Page::new(alloc, &zone, told_as_of(standing, at, look.second));
    add_head(&mut page, standing, look.second);
    add_rows(&mut page, rows, look);
    add_refused_starts(&mut page, standing, labels);
    let _count = add_left_out(&mut page, standing, labels);
    let text = page.into_text();
    drop(zone);
    text
}

/// The launcher's clock reading, no later than one may be.
pub fn reading_of(standing: &StatusRead) -> Reading
    ensures up { result.up ≤ MAX_UP }
    ensures wall { result.wall ≤ MAX_WALL }
{
    match standing.launcher() {
        Some(launcher) => within_limits(launcher.at),
        None => Reading { up: 0, wall: 0 },
    }
}

/// The clock reading as of which the file is reported at a second. Its clocks went on while its launcher wrote nothing. If the launcher does not run, or
/// if that is not known, they stay where they were.
pub fn told_as_of(standing: &StatusRead, at: Reading, second: u64) -> Reading
    requires up { at.up ≤ MAX_UP }
    requires wall { at.wall ≤ MAX_WALL }
{
    if standing.foretells() {
        gone_on(at, second)
    } else {
        at
    }
}

// The rows of the jobs that are asked for, in the order of the file.
fn rows_of<'a>(
    alloc: Global,
    standing: &'a StatusRead,
    labels: &[Text],
    zone: &Zone,
    at: Reading,
    second: u64,
) -> Result<Vec<StatusRow<'a>>, AllocError>
    requires up { at.up ≤ MAX_UP }
    requires wall { at.wall ≤ MAX_WALL }
{
    let may_live = standing.may_live();
    let foretells = standing.foretells();
    let mut rows = Vec::new(alloc);
    for line in standing.jobs() {
        if let Some(row) = row_in(alloc, line, labels, zone, may_live, at, second)? {
            rows.push(told_row(row, foretells))?;
        }
    }
    Ok(rows)
}

/// The row, without what comes next if nothing may be foretold.
pub fn told_row(mut row: StatusRow<'_>, foretells: bool) -> StatusRow<'_> {
    if !foretells {
        row.next = Next::Nothing;
    }
    row
}

/// The row of a line, if its job is asked for.
pub(crate) fn row_in<'a>(
    alloc: Global,
    line: &'a StatusLine,
    labels: &[Text],
    zone: &Zone,
    may_live: bool,
    at: Reading,
    second: u64,
) -> Result<Option<StatusRow<'a>>, AllocError>
    requires up { at.up ≤ MAX_UP }
    requires wall { at.wall ≤ MAX_WALL }
{
    let Ok(job) = line.job() else {
        return Ok(None);
    };
    if !is_asked(labels, job.label) {
        return Ok(None);
    }
    let Ok(entries) = line.calendar(alloc) else {
        return Err(AllocError);
    };
    let row = row_of(&job, entries.as_slice(), zone, may_live, at, second);
    drop(entries);
    Ok(Some(row))
}

/// Whether the label is one of those that are named, or none is.
pub fn is_asked(labels: &[Text], label: &str) -> bool
    ensures { result ≡ is_asked labels.now label.now }
{
    labels.is_empty() || is_named(labels, label)
}

fn is_named(labels: &[Text], label: &str) -> bool
    ensures { result ≡ list_any (is_same_text label.now) labels.now }
{
    labels.iter().any(|named| label == named.as_str())
}

// How many columns the labels have: what is left of the width, and no more than the longest has.
fn label_columns(rows: &[StatusRow<'_>], columns: u16) -> usize {
    let mut wide: usize = "LABEL".len();
    for row in rows {
        wide = columns_of(row.label).max(wide);
    }
    let others = others_of(has_room(columns));
    wide.min(usize::from(columns).saturating_sub(others).max(NARROWEST))
}

/// What shows the times of a table: the zone, and the present time.
#[derive(Clone, Copy)]
struct TimeContext<'a> {
    alloc: Global,
    zone: &'a Zone,
    now: &'a str,
    has_colour: bool,
    /// Whether what processes take has columns.
    has_taken: bool,
}

fn add_rows(page: &mut Page<'_>, rows: &[StatusRow<'_>], look: Look) {
    let columns = label_columns(rows, look.columns);
    put_cell(&mut page.writer, "LABEL", columns);
    page.writer.put(HEAD);
    let has_taken = has_room(look.columns);
    page.writer.put(if has_taken { HEAD_TAKEN } else { "" });
    page.writer.put("NEXT\n");
    match time_text(page.alloc, page.zone, page.now.wall.min(MAX_WALL)) {
        Ok(now) => {
            let around = TimeContext {
                alloc: page.alloc,
                zone: page.zone,
                now: now.as_str(),
                has_colour: look.has_colour,
                has_taken,
            };
            add_lines(&mut page.writer, rows, columns, around);
            drop(now);
        }
        Err(_) => page.writer.refuse(),
    }
}

// A line for each of the rows, in order.
fn add_lines(
    writer: &mut TextWriter,
    rows: &[StatusRow<'_>],
    columns: usize,
    around: TimeContext<'_>,
)
    ensures { TellsRows rows.now writer.old writer.new }
{
    for row in rows {
        add_line(writer, row, columns, around);
    }
}

fn add_line(writer: &mut TextWriter, row: &StatusRow<'_>, columns: usize, around: TimeContext<'_>)
    ensures { (front : List ℕ) × (more : List ℕ) × Adds (front ++ (state_word row.now.state ++ (more ++ 10 ∷ []))) writer.old writer.new }
{
    writer.put_made(front_text(row, columns, around));
    writer.put(word_of(row.state));
    writer.put_made(end_text(row, around));
    writer.put("\n");
}

// The label, and the colour of the state.
fn front_text(
    row: &StatusRow<'_>,
    columns: usize,
    around: TimeContext<'_>,
) -> Result<String, AllocError> {
    let mut writer = TextWriter::new(around.alloc);
    let (front, between, end) = cut_in_the_middle(row.label, columns);
    writer.put_plain(front);
    writer.put(between);
    writer.put_plain(end);
    let used = columns_of(front)
        .saturating_add(columns_of(between))
        .saturating_add(columns_of(end));
    put_spaces(&mut writer, columns.saturating_sub(used).saturating_add(1));
    writer.put(if around.has_colour {
        colour_of(row)
    } else {
        ""
    });
    writer.into_text()
}

// What comes after the state: the process, since when the job is in its state, and the last end. Then come the starts, how many of them were refused
// or failed, and what comes next.
fn end_text(row: &StatusRow<'_>, around: TimeContext<'_>) -> Result<String, AllocError> {
    let mut writer = TextWriter::new(around.alloc);
    writer.put(if around.has_colour { PLAIN } else { "" });
    let used = word_of(row.state).len();
    put_spaces(&mut writer, WIDTHS[0].saturating_sub(used));
    let process = match row.process {
        Some(process) => Some(u64::from(process)),
        None => None,
    };
    put_count(&mut writer, process, WIDTHS[1]);
    put_moment(&mut writer, around, row.since, WIDTHS[2]);
    put_last(&mut writer, row, WIDTHS[3]);
    put_count(&mut writer, Some(row.starts), WIDTHS[4]);
    let failed = row.failures.saturating_add(row.refusals);
    put_count(&mut writer, Some(failed), WIDTHS[5]);
    if around.has_taken {
        put_made_cell(&mut writer, memory_text(around.alloc, row), TAKEN[0]);
        put_made_cell(&mut writer, processor_text(around.alloc, row), TAKEN[1]);
    }
    put_next(&mut writer, around, row);
    writer.into_text()
}

fn put_next(writer: &mut TextWriter, around: TimeContext<'_>, row: &StatusRow<'_>) {
    let what = match row.next {
        Next::Clock(StartWhen::At(second)) => {
            put_moment(writer, around, second_told(row.throttle, second), 0);
            return;
        }
        Next::Clock(StartWhen::Since(_)) => "due",
        Next::Event(what) => what,
        Next::Nothing | Next::Clock(StartWhen::Never) => "-",
    };
    writer.put(" ");
    writer.put(what);
}

fn put_count(writer: &mut TextWriter, count: Option<u64>, width: usize) {
    writer.put(" ");
    match count {
        Some(count) => {
            writer.put_number(count);
            put_spaces(writer, width.saturating_sub(digits_of(count)));
        }
        None => put_cell(writer, "-", width),
    }
}

// A space and the text, and spaces up to the width.
fn put_made_cell(writer: &mut TextWriter, text: Result<String, AllocError>, width: usize) {
    match text {
        Ok(text) => {
            writer.put(" ");
            put_cell(writer, text.as_str(), width);
            drop(text);
        }
        Err(_) => writer.refuse(),
    }
}

// How much memory its process has, in at most five columns.
fn memory_text(alloc: Global, row: &StatusRow<'_>) -> Result<String, AllocError> {
    let Some(usage) = row.usage else {
        return String::from_str(alloc, "-");
    };
    let kilobytes = usage.resident / 1_024;
    let (amount, unit) = if kilobytes < 1_024 {
        return format!(in alloc; "{kilobytes}K");
    } else if kilobytes < 1_048_576 {
        (kilobytes, 'M')
    } else {
        (kilobytes / 1_024, 'G')
    };
    let whole = amount / 1_024;
    let tenth = amount % 1_024 * 10 / 1_024;
    if whole < 100 {
        format!(in alloc; "{whole}.{tenth}{unit}")
    } else {
        format!(in alloc; "{whole}{unit}")
    }
}

// How much processor time it took: in tenths of a second, then in minutes and seconds, hours and minutes, days and hours.
fn processor_text(alloc: Global, row: &StatusRow<'_>) -> Result<String, AllocError> {
    let Some(usage) = row.usage else {
        return String::from_str(alloc, "-");
    };
    let seconds = usage.processor / 1_000;
    if seconds < 60 {
        let tenth = usage.processor % 1_000 / 100;
        return format!(in alloc; "{seconds}.{tenth}s");
    }
    let (whole, large, rest, small) = if seconds < 3_600 {
        (seconds / 60, 'm', seconds % 60, 's')
    } else if seconds < 360_000 {
        (seconds / 3_600, 'h', seconds % 3_600 / 60, 'm')
    } else {
        (seconds / 86_400, 'd', seconds % 86_400 / 3_600, 'h')
    };
    let zero = if rest < 10 { "0" } else { "" };
    format!(in alloc; "{whole}{large}{zero}{rest}{small}")
}

// How its last run exited, or that its last start was refused.
fn put_last(writer: &mut TextWriter, row: &StatusRow<'_>, width: usize) {
    if row.is_refused {
        writer.put(" ");
        put_cell(writer, "refused", width);
        return;
    }
    let (word, number) = match row.last {
        Some(Ended::Code(code)) => (" code ", u64::from(code)),
        Some(Ended::Signal(signal)) => (" signal ", u64::from(signal)),
        None => {
            put_count(writer, None, width);
            return;
        }
    };
    writer.put(word);
    writer.put_number(number);
    let used = word
        .len()
        .saturating_sub(1)
        .saturating_add(digits_of(number));
    put_spaces(writer, width.saturating_sub(used));
}

// The time of the day; of another day the month, the day, the hour and the minute. Both times are as `time_text` has them.
fn put_moment(writer: &mut TextWriter, around: TimeContext<'_>, second: u64, width: usize) {
    match time_text(around.alloc, around.zone, second.min(MAX_WALL)) {
        Ok(text) => {
            let moment = text.as_str();
            let is_today = around.now.get(..10) == moment.get(..10);
            let (day, until) = if is_today {
                ("", 23)
            } else {
                (moment.get(5..10).unwrap_or(""), 20)
            };
            writer.put(" ");
            writer.put(day);
            writer.put(if is_today { "" } else { " " });
            let used = if is_today { 0 } else { 6 };
            put_cell(
                writer,
                moment.get(15..until).unwrap_or(""),
                width.saturating_sub(used),
            );
            drop(text);
        }
        Err(_) => writer.refuse(),
    }
}

// The text, and spaces up to the width.
fn put_cell(writer: &mut TextWriter, text: &str, width: usize) {
    writer.put(text);
    put_spaces(writer, width.saturating_sub(columns_of(text)));
}

fn put_spaces(writer: &mut TextWriter, count: usize) {
    for _ in 0..count {
        writer.put(" ");
    }
}

fn digits_of(number: u64) -> usize {
    let mut digits: usize = 1;
    let mut left = number / 10;
    for _ in 0..20 {
        if left > 0 {
            digits = digits.saturating_add(1);
            left = left / 10;
        }
    }
    digits
}

// Green of what runs, yellow of what is on its way, red of what failed last or was refused; nothing of the others.
fn colour_of(row: &StatusRow<'_>) -> &'static str {
    match (row.state, row.is_refused || row.has_failed) {
        (ShownState::Is(JobState::Running), _) => "\x1b[32m",
        (ShownState::Is(JobState::Idle), false) => "",
        (ShownState::Is(JobState::Idle), true) => "\x1b[31m",
        (ShownState::Is(_), _) => "\x1b[33m",
        (ShownState::Unknown, _) => "\x1b[31m",
    }
}
