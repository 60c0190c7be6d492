//! What the table says of each job, as plain data.

ghost use Rattle.std.specs.Prelude.{◌-◌, ◌≡◌, ◌≤◌, is_some};
ghost use Rattle.history_model.specs.declared.TheConstants.{MAX_UP, MAX_WALL};
ghost use Rattle.calendar_due.specs.ZoneRules.{minute_at};
ghost use Rattle.status_page.specs.Failing.{has_failed, is_start_refused, last_end_in};
ghost use Rattle.status_page.specs.Rows.{event_text, last_refused, last_shown, process_shown, state_shown, state_word, EndsThrottle, NamesEvent, TellsNext};

use crate::clocks::{StartWhen, can_start_again, start_when};
use crate::failing::{has_failed, is_start_refused, last_end_of};
use crate::throttles::{ThrottleEnd, throttle_by, throttle_end};
use crate::usage::Usage;
use calendar_due::Zone;
use history_model::{Ended, Entry, JobState, Reading, Reasons};
use status_file::{JobKeys, JobNote, JobStatus, RunEnd, state_name, state_of};

/// The state of a job.
#[derive(Clone, Copy)]
pub enum ShownState {
    Is(JobState),
    /// Its launcher has exited.
    Unknown,
}

/// What comes next of a job.
#[derive(Clone, Copy)]
pub enum Next {
    /// It has a run, or its launcher has exited.
    Nothing,
    /// Time alone starts it.
    Clock(StartWhen),
    /// The clocks never start it: it waits for this.
    Event(&'static str),
}

/// What a line says of a job.
#[derive(Clone, Copy)]
pub struct StatusRow<'a> {
    pub label: &'a str,
    pub state: ShownState,
    pub process: Option<u32>,
    /// Since which second it is in this state.
    pub since: u64,
    pub last: Option<Ended>,
    pub starts: u64,
    /// How many of its runs failed.
    pub failures: u64,
    /// How many of its starts were refused.
    pub refusals: u64,
    /// By the clocks as they count it: `second_told` gives the second to show.
    pub next: Next,
    /// When it is throttled no longer, if it is.
    pub throttle: Option<ThrottleEnd>,
    /// Whether its last start was refused.
    pub is_refused: bool,
    /// Whether its last run failed.
    pub has_failed: bool,
    /// What its process takes, where that was looked at.
    pub usage: Option<Usage>,
}

/// The row of a job at a second, whether its launcher may be running or has exited. `at` is the launcher's clock reading.
pub fn row_of<'a>(
    job: &JobStatus<'a>,
    entries: &[Entry],
    zone: &Zone,
    may_live: bool,
    at: Reading,
    second: u64,
) -> StatusRow<'a>
    requires up { at.up ≤ MAX_UP }
    requires wall { at.wall ≤ MAX_WALL }
    ensures label { result.label ≡ job.now.label }
    ensures state { result.state ≡ state_shown may_live job.now.facts.reasons }
    ensures process { result.process ≡ process_shown may_live job.now.facts.reasons }
    ensures since { result.since ≡ job.now.note.since.wall }
    ensures last { result.last ≡ last_shown job.now.note.last_end }
    ensures starts { result.starts ≡ job.now.note.starts }
    ensures failures { result.failures ≡ job.now.note.unsuccessful - job.now.note.refusals }
    ensures refusals { result.refusals ≡ job.now.note.refusals }
    ensures next { TellsNext may_live (minute_at zone.now) job.now.facts entries.now at second result.next }
    ensures event { NamesEvent job.now.facts.reasons job.now.keys entries.now result.next }
    ensures throttle { EndsThrottle job.now at result.throttle }
    ensures refused { result.is_refused ≡ is_start_refused job.now.note (is_some job.now.facts.reasons.child) }
    ensures failed { result.has_failed ≡ has_failed (last_end_in job.now.note) }
{
    let reasons = &job.facts.reasons;
    StatusRow {
        label: job.label,
        state: state_of_row(may_live, reasons),
        process: process_of(may_live, reasons),
        since: job.note.since.wall,
        last: last_of(job.note.last_end),
        starts: job.note.starts,
        failures: job.note.unsuccessful.saturating_sub(job.note.refusals),
        refusals: job.note.refusals,
        next: next_of(job, entries, zone, may_live, at, second),
        throttle: throttle_of(job, at),
        is_refused: is_start_refused(&job.note, reasons.child.is_some()),
        has_failed: has_failed(last_end_of(&job.note)),
        usage: None,
    }
}

fn throttle_of(job: &JobStatus<'_>, at: Reading) -> Option<ThrottleEnd>
    ensures { EndsThrottle job.now at result }
{
    let Some(until) = job.facts.reasons.throttled_until else {
        return None;
    };
    let refused = last_refused(&job.note);
    let by = throttle_by(job.note.started, refused, job.keys.throttle_interval, until);
    Some(throttle_end(by, until, at))
}

/// When its last start was refused, if that was.
pub fn last_refused(note: &JobNote<'_>) -> Option<Reading>
    ensures { result ≡ last_refused note.now }
{
    match &note.refused {
        Some(start) if start.run == note.run => Some(start.at),
        _ => None,
    }
}

fn state_of_row(may_live: bool, reasons: &Reasons) -> ShownState
    ensures { result ≡ state_shown may_live reasons.now }
{
    if may_live {
        ShownState::Is(state_of(reasons))
    } else {
        ShownState::Unknown
    }
}

fn process_of(may_live: bool, reasons: &Reasons) -> Option<u32>
    ensures { result ≡ process_shown may_live reasons.now }
{
    match (may_live, reasons.child) {
        (true, Some(child)) => Some(child.pid),
        _ => None,
    }
}

fn last_of(end: Option<RunEnd>) -> Option<Ended>
    ensures { result ≡ last_shown end }
{
    match end {
        Some(end) => Some(end.how),
        None => None,
    }
}

/// The name of a state.
pub(crate) fn word_of(state: ShownState) -> &'static str
    ensures { result.now ≡ state_word state }
{
    match state {
        ShownState::Is(state) => state_name(state),
        ShownState::Unknown => "unknown",
    }
}

fn next_of(
    job: &JobStatus<'_>,
    entries: &[Entry],
    zone: &Zone,
    may_live: bool,
    at: Reading,
    second: u64,
) -> Next
    requires up { at.up ≤ MAX_UP }
    requires wall { at.wall ≤ MAX_WALL }
    ensures next { TellsNext may_live (minute_at zone.now) job.now.facts entries.now at second result }
    ensures event { NamesEvent job.now.facts.reasons job.now.keys entries.now result }
{
    let reasons = &job.facts.reasons;
    if !may_live || reasons.child.is_some() {
        return Next::Nothing;
    }
    match start_when(reasons, job.facts.spawns_from, entries, zone, at, second) {
        StartWhen::Never => Next::Event(event_for(reasons, &job.keys, !entries.is_empty())),
        when => Next::Clock(when),
    }
}

// What it waits for, in few letters: an event that ends what keeps it from a start, or one that makes it wanted. Its calendar, if it has one, starts it
// in no minute that is looked at.
fn event_for(reasons: &Reasons, keys: &JobKeys<'_>, has_calendar: bool) -> &'static str
    ensures { result.now ≡ event_text reasons.now keys.now has_calendar }
{
    if !can_start_again(reasons) {
        "a load"
    } else if reasons.awaited.is_some() {
        "an answer"
    } else if keys.path_state.count > 0 || keys.watch_paths.count > 0 {
        "a path"
    } else if keys.queue_directories.count > 0 {
        "a file"
    } else if keys.has_sockets {
        "a client"
    } else if has_calendar {
        "its calendar"
    } else {
        "a request"
    }
}
