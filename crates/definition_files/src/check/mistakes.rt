//! What a definition may say and seldom means, as far as its keys show.

ghost use Rattle.std.specs.Prelude.{◌≡◌, IfOk};
ghost use Rattle.std.specs.List.{list_any};
ghost use Rattle.definition_files.specs.Mistakes as spec;
ghost use Rattle.definition_files.specs.Mistakes.{is_made, made_among, mistakes_of};

use history_model::Entry;
use job_defs::Def;
use std::alloc::{AllocError, Global};

/// What a definition says and seldom means.
#[derive(Clone, Copy)]
pub enum Mistake {
    /// Nothing starts the job but a client.
    NothingStarts,
    /// `KeepAlive` has several conditions, of which one suffices.
    SeveralConditions,
    /// `KeepAlive` is after any failure, by two conditions of which one adds nothing.
    AnyFailure,
    /// `StartInterval` is below `ThrottleInterval`.
    ShortInterval,
    /// A load leaves the job out.
    LeftOut,
    /// An entry of the calendar never matches: its month lacks its day.
    NeverMatches,
    /// An entry of the calendar has no minute, so it matches each minute of its hours.
    EachMinute,
    /// An entry of the calendar names days and a minute and no hour, so it matches in each hour of its days.
    EachHour,
    /// An entry of the calendar has a day that some months lack.
    ShortMonth,
    /// An entry of the calendar has a day and a weekday, of which either suffices.
    EitherDay,
    /// `KeepAlive` is true, so the job waits neither for its calendar nor for its interval.
    NeverWaited,
    /// `KeepAlive` is true, so no queue starts the job.
    NeverQueued,
    /// `ThrottleInterval` is 0, together with a queue.
    HastyQueue,
    /// `ThrottleInterval` is 0, together with `KeepAlive`.
    HastyEnd,
    /// `StartInterval` is more than a day, whole thousands and no whole days: perhaps milliseconds.
    LongInterval,
    /// Only `Crashed` keeps the job: an exit with a failing code is not a crash.
    CrashAlone,
    /// `LaunchOnlyOnce` is set with `KeepAlive`, which then restarts nothing.
    OnceKept,
    /// `ExitTimeOut` is 0: a job that is being stopped is never killed.
    NeverKilled,
    /// `ExitTimeOut` is more than what most supervisors wait.
    LongEnding,
    /// The job is kept alive or started by the clock, and what it writes goes to the null device.
    LostOutput,
}

const MISTAKES: [Mistake; 20] = [
    Mistake::NothingStarts,
    Mistake::SeveralConditions,
    Mistake::AnyFailure,
    Mistake::ShortInterval,
    Mistake::LeftOut,
    Mistake::NeverMatches,
    Mistake::EachMinute,
    Mistake::EachHour,
    Mistake::ShortMonth,
    Mistake::EitherDay,
    Mistake::NeverWaited,
    Mistake::NeverQueued,
    Mistake::HastyQueue,
    Mistake::HastyEnd,
    Mistake::LongInterval,
    Mistake::CrashAlone,
    Mistake::OnceKept,
    Mistake::NeverKilled,
    Mistake::LongEnding,
    Mistake::LostOutput,
];

/// The most that jobd-run gives to what a killed launcher left, in seconds.
const LONGEST_ENDING: u32 = 120;

/// The mistakes of the definition: exactly those that it has, each once and in the order in which they are shown.
pub fn mistakes_in(alloc: Global, def: &Def) -> Result<Vec<Mistake>, AllocError>
    ensures { IfOk result (λ made. made.items ≡ mistakes_of def.now) }
{
    made_of(alloc, &MISTAKES, def)
}

// The mistakes of the list that the definition has.
#[tactic(auto, using(std::proofs::lemmas::List::Elements::filter_more))]
fn made_of(alloc: Global, all: &[Mistake], def: &Def) -> Result<Vec<Mistake>, AllocError>
    ensures { IfOk result (λ made. made.items ≡ made_among all.now def.now) }
{
    let mut made = Vec::new(alloc);
    for mistake in all {
        if is_made(*mistake, def) {
            made.push(*mistake)?;
        }
    }
    Ok(made)
}

/// Whether the definition has this mistake.
pub fn is_made(mistake: Mistake, def: &Def) -> bool
    ensures { result ≡ is_made mistake def.now }
{
    match mistake {
        Mistake::NothingStarts => !is_started(def),
        Mistake::SeveralConditions => has_several_conditions(def),
        Mistake::AnyFailure => is_any_failure(def.successful_exit(), def.crashed()),
        Mistake::ShortInterval => is_short(def.start_interval(), def.throttle_interval()),
        Mistake::LeftOut => def.disabled(),
        Mistake::NeverMatches
        | Mistake::EachMinute
        | Mistake::EachHour
        | Mistake::ShortMonth
        | Mistake::EitherDay => some_make(mistake, def.calendar()),
        Mistake::NeverWaited => def.keep_alive() && is_timed(def),
        Mistake::NeverQueued => def.keep_alive() && !def.queue_directories().is_empty(),
        Mistake::HastyQueue => {
            def.throttle_interval() == 0 && !def.queue_directories().is_empty()
        }
        Mistake::HastyEnd => {
            def.throttle_interval() == 0 && (is_kept(def) || def.crashed().is_some())
        }
        Mistake::LongInterval => is_long(def.start_interval()),
        Mistake::CrashAlone => {
            is_true(def.crashed()) && def.successful_exit().is_none() && !def.keep_alive()
        }
        Mistake::OnceKept => def.launch_only_once() && (is_kept(def) || def.crashed().is_some()),
        Mistake::NeverKilled => def.exit_time_out() == 0,
        Mistake::LongEnding => def.exit_time_out() > LONGEST_ENDING,
        Mistake::LostOutput => loses_output(def),
    }
}

fn is_kept(def: &Def) -> bool
    ensures { result ≡ spec.is_kept def.now }
{
    def.keep_alive() || def.successful_exit().is_some() || !def.path_state().is_empty()
}

fn is_timed(def: &Def) -> bool
    ensures { result ≡ spec.is_timed def.now }
{
    def.start_interval().is_some() || !def.calendar().is_empty()
}

fn is_started(def: &Def) -> bool
    ensures { result ≡ spec.is_started def.now }
{
    let is_watching = !def.watch_paths().is_empty() || !def.queue_directories().is_empty();
    def.run_at_load() || is_kept(def) || is_watching || is_timed(def) || def.has_sockets()
}

fn has_several_conditions(def: &Def) -> bool
    ensures { result ≡ spec.has_several_conditions def.now }
{
    let paths = def.path_state().len();
    let has_exit = def.successful_exit().is_some();
    let has_crash = def.crashed().is_some();
    let is_failure = is_any_failure(def.successful_exit(), def.crashed());
    paths > 1 || (has_exit && has_crash && !is_failure) || (paths > 0 && (has_exit || has_crash))
}

fn is_true(value: Option<bool>) -> bool
    ensures { result ≡ spec.is_true value }
{
    match value {
        Some(value) => value,
        None => false,
    }
}

fn is_any_failure(successful: Option<bool>, crashed: Option<bool>) -> bool
    ensures { result ≡ spec.is_any_failure successful crashed }
{
    match (successful, crashed) {
        (Some(successful), Some(crashed)) => !successful && crashed,
        _ => false,
    }
}

fn is_short(interval: Option<u32>, throttle: u32) -> bool
    ensures { result ≡ spec.is_short interval throttle }
{
    match interval {
        Some(seconds) => seconds < throttle,
        None => false,
    }
}

fn is_long(interval: Option<u32>) -> bool
    ensures { result ≡ spec.is_long interval }
{
    match interval {
        Some(seconds) => seconds > 86_400 && seconds % 1_000 == 0 && seconds % 86_400 != 0,
        None => false,
    }
}

/// The days of a month, 29 for February.
pub(crate) fn days_of_month(month: u8) -> u8
    ensures { result ≡ spec.days_of_month month }
{
    if month == 2 {
        29
    } else if month == 4 || month == 6 || month == 9 || month == 11 {
        30
    } else {
        31
    }
}

// Whether the entry never matches: its month lacks its day, and no weekday suffices instead.
fn never_matches(entry: &Entry) -> bool
    ensures { result ≡ spec.never_matches entry.now }
{
    match (entry.month, entry.day) {
        (Some(month), Some(day)) => entry.weekday.is_none() && day > days_of_month(month),
        _ => false,
    }
}

/// Whether the entry makes this mistake.
pub(crate) fn made_by(mistake: Mistake, entry: &Entry) -> bool
    ensures { result ≡ spec.made_by mistake entry.now }
{
    let has_days = entry.day.is_some() || entry.weekday.is_some() || entry.month.is_some();
    match mistake {
        Mistake::NeverMatches => never_matches(entry),
        Mistake::EachMinute => entry.minute.is_none() && !never_matches(entry),
        Mistake::EachHour => {
            (entry.minute.is_some() && entry.hour.is_none()) && has_days && !never_matches(entry)
        }
        Mistake::ShortMonth => {
            is_late(entry.day) && entry.month.is_none() && entry.weekday.is_none()
        }
        Mistake::EitherDay => entry.day.is_some() && entry.weekday.is_some(),
        _ => false,
    }
}

fn is_late(day: Option<u8>) -> bool
    ensures { result ≡ spec.is_late_day day }
{
    match day {
        Some(day) => day > 28,
        None => false,
    }
}

fn some_make(mistake: Mistake, entries: &[Entry]) -> bool
    ensures { result ≡ list_any (spec.made_by mistake) entries.now }
{
    entries.iter().any(|entry| made_by(mistake, entry))
}

fn loses_output(def: &Def) -> bool
    ensures { result ≡ spec.loses_output def.now }
{
    let is_silent = def.standard_out_path().is_none() && def.standard_error_path().is_none();
    (def.keep_alive() || is_timed(def)) && !def.has_sockets() && is_silent
}
