//! Which runs failed, and which jobs are reported as failing: those whose last start was refused or whose last run failed, until they ran for long
//! enough since. Also those that should run and do not, since their launcher does not run them.

ghost use Rattle.std.specs.Prelude.{◌≡◌, ◌-◌, is_some, nat_le, IfSome};
ghost use Rattle.history_model.specs.Levels.{is_crash_end};
ghost use Rattle.status_page.specs.Failing.{does_not_run, has_failed, has_recovered, is_failing, is_late, is_refused_last, is_start_refused, last_end_in, recovery_time, should_run, was_ordered, FaultHolds};

use crate::clocks::is_wanted;
use history_model::{Ended, Reading, Reasons, SECOND};
use run_log::{RunEnd, is_failure};
use run_times::Filling::{Number, Text, Time};
use run_times::Page;
use status_file::JobNote;

/// How many milliseconds a job has to run at least until a failure is over, and how long a start is overdue until its launcher counts as not running it.
pub const MINUTE: u64 = 60_000;

/// How many throttles a job has to run at least until a failure is over.
pub const THROTTLES: u64 = 10;

/// How the last run of a job ended, and whether its end had been ordered.
#[derive(Clone, Copy)]
pub struct LastEnd {
    pub how: Ended,
    pub is_ordered: bool,
}

/// What is known of the runs of a job's load, as far as it says whether the job is failing.
#[derive(Clone, Copy)]
pub struct PastRuns {
    /// Whether its last start was refused: no run began after it.
    pub is_refused: bool,
    /// How its last run ended.
    pub last: Option<LastEnd>,
    /// At which `up` its present run began, if one is running.
    pub began: Option<u64>,
    /// Its `ThrottleInterval`, in seconds.
    pub throttle: u32,
}

/// Why a job is reported as failing.
#[derive(Clone, Copy)]
pub enum Fault {
    /// Its last start was refused.
    Refused,
    /// Its last run ended so.
    Ended(Ended),
    /// It should run, and its launcher has exited or does not start it.
    NotRunning,
    /// It ran under a launcher that has exited.
    LauncherGone,
    /// A minute of its calendar passed while no launcher ran, at this second, and it was not started since.
    Missed(u64),
}

/// Whether an end is a crash: by one of the signals 3 to 8, 11 and 31, or by an unknown one if neither TERM nor KILL was ordered.
pub fn is_crash(how: Ended, is_ordered_to_end: bool) -> bool
    ensures { result ≡ is_crash_end is_ordered_to_end how }
{
    match how {
        Ended::Code(_) => false,
        Ended::Signal(3..=8 | 11 | 31) => true,
        Ended::Signal(0) => !is_ordered_to_end,
        Ended::Signal(_) => false,
    }
}

/// Whether the last run failed.
pub fn has_failed(last: Option<LastEnd>) -> bool
    ensures { result ≡ has_failed last }
{
    match last {
        Some(last) => is_failure(last.how, last.is_ordered),
        None => false,
    }
}

/// Whether the last start was refused, by the run whose start was refused last, the run that ended last, and whether one is running: no run began after
/// it.
pub fn is_refused_last(refused: Option<u64>, ended: Option<u64>, is_running: bool) -> bool
    ensures { result ≡ is_refused_last refused ended is_running }
{
    match (refused, ended) {
        (Some(run), Some(ended)) => ended < run && !is_running,
        (Some(_), None) => !is_running,
        (None, _) => false,
    }
}

// How many milliseconds a job has to run until a failure is over.
fn recovery_time(throttle: u32) -> u64
    ensures { result ≡ recovery_time throttle }
{
    let throttles = THROTTLES * (SECOND * u64::from(throttle));
    MINUTE.max(throttles)
}

// Whether its present run has been running for so long.
fn has_recovered(began: Option<u64>, throttle: u32, now: u64) -> bool
    ensures { result ≡ has_recovered began throttle now }
{
    match began {
        Some(began) => is_past(began, recovery_time(throttle), now),
        None => false,
    }
}

// Whether this many milliseconds or more passed since then.
fn is_past(then: u64, length: u64, now: u64) -> bool
    ensures { result ≡ nat_le length (now - then) }
{
    now.saturating_sub(then) >= length
}

// Whether it should run: something wants it, and a start can come of its load.
fn should_run(reasons: &Reasons) -> bool
    ensures { result ≡ should_run reasons.now }
{
    is_wanted(&reasons.wants)
        && !(reasons.is_removing || reasons.is_launch_spent || reasons.are_runs_spent)
}

fn is_late(throttled_until: Option<u64>, now: u64) -> bool
    ensures { result ≡ is_late throttled_until now }
{
    match throttled_until {
        Some(until) => is_past(until, MINUTE, now),
        None => false,
    }
}

// Whether it should run and does not, since its launcher does not run it.
fn does_not_run(may_live: bool, reasons: &Reasons, now: u64) -> bool
    ensures { result ≡ does_not_run may_live reasons.now now }
{
    let is_left = !may_live || is_late(reasons.throttled_until, now);
    should_run(reasons) && reasons.child.is_none() && is_left
}

/// Why a job is reported as failing at this `up`, if it is: by its reasons, and by what is known of its runs.
pub fn fault_of(may_live: bool, reasons: &Reasons, runs: PastRuns, now: u64) -> Option<Fault>
    ensures exactly { is_some result ≡ is_failing may_live reasons.now runs now }
    ensures so { IfSome result (λ fault. FaultHolds may_live reasons.now runs now fault) }
{
    let is_over = has_recovered(runs.began, runs.throttle, now);
    if runs.is_refused && !is_over {
        return Some(Fault::Refused);
    }
    match runs.last {
        Some(last) if is_failure(last.how, last.is_ordered) && !is_over => {
            Some(Fault::Ended(last.how))
        }
        _ if !may_live && reasons.child.is_some() => Some(Fault::LauncherGone),
        _ if does_not_run(may_live, reasons, now) => Some(Fault::NotRunning),
        _ => None,
    }
}

/// Whether the last start of a job was refused, by what its launcher knows of it and whether a run of it is running.
pub fn is_start_refused(note: &JobNote<'_>, is_running: bool) -> bool
    ensures { result ≡ is_start_refused note.now is_running }
{
    let refused = match &note.refused {
        Some(start) => Some(start.run),
        None => None,
    };
    let ended = match &note.last_end {
        Some(end) => Some(end.run),
        None => None,
    };
    is_refused_last(refused, ended, is_running)
}

/// How the last run of a job ended, by what its launcher knows of it. None if no run of it ended.
pub fn last_end_of(note: &JobNote<'_>) -> Option<LastEnd>
    ensures { result ≡ last_end_in note.now }
{
    let end = note.last_end?;
    Some(LastEnd {
        how: end.how,
        is_ordered: was_ordered(note, end),
    })
}

// Whether its end was ordered. If the file does not say it, it counts as ordered if a later start followed it, or if TERM or KILL was ordered.
fn was_ordered(note: &JobNote<'_>, end: RunEnd) -> bool
    ensures { result ≡ was_ordered note.now end }
{
    match end.ordered {
        Some(is_ordered) => is_ordered,
        None => end.run != note.run || note.term.is_some() || note.kill.is_some(),
    }
}

/// A job that is reported as failing.
#[derive(Clone, Copy)]
pub struct Failing<'a> {
    pub label: &'a str,
    pub fault: Fault,
    /// When its last start was refused.
    pub refused: Option<Reading>,
    /// What the system said to it.
    pub reason: Option<&'a str>,
    /// When its last run ended.
    pub ended: Option<Reading>,
}

/// Adds a line for the job.
pub fn add_failing(page: &mut Page<'_>, of: &Failing<'_>) {
    let label = Text(of.label);
    let refused = Time(wall_of(of.refused));
    let ended = Time(wall_of(of.ended));
    match (of.fault, of.reason) {
        (Fault::Refused, Some(reason)) => page.add(
            "$: its last start was refused, at $: $\n",
            &[label, refused, Text(reason)],
        ),
        (Fault::Refused, None) => {
            page.add("$: its last start was refused, at $\n", &[label, refused])
        }
        (Fault::Ended(Ended::Code(code)), _) => page.add(
            "$: its last run exited with code $, at $\n",
            &[label, Number(u64::from(code)), ended],
        ),
        (Fault::Ended(Ended::Signal(signal)), _) => page.add(
            "$: its last run was killed by signal $, at $\n",
            &[label, Number(u64::from(signal)), ended],
        ),
        (Fault::NotRunning, _) => page.add("$: it is wanted, and does not run\n", &[label]),
        (Fault::LauncherGone, _) => page.add(
            "$: it ran by a launcher that exited, or writes nothing more\n",
            &[label],
        ),
        (Fault::Missed(minute), _) => page.add(
            "$: $ passed while no launcher ran\n",
            &[label, Time(minute)],
        ),
    }
}

fn wall_of(at: Option<Reading>) -> u64 {
    match at {
        Some(at) => at.wall,
        None => 0,
    }
}
