//! When time alone starts a job next, if both clocks run alike: one number of seconds, of throttle, interval and calendar together.

ghost use Rattle.std.specs.Prelude.{◌≡◌, ◌≤◌, ◌+◌, ◌*◌, ℕ, nat_le, not, ◌&&◌, ◌||◌, Option, None, unwrap_or, IfSome};
ghost use Rattle.history_model.specs.declared.TheConstants.{CALENDAR_REACH, MAX_UP, MAX_WALL, SECOND};
ghost use Rattle.history_model.specs.Items.{History};
ghost use Rattle.history_model.specs.Calendar.{calendar_fires};
ghost use Rattle.history_model.specs.NextMomentByFacts.{has_come, sooner};
ghost use Rattle.history_model.specs.Reasons.{needs_event};
ghost use Rattle.history_model.specs.NextRun.{spawns_after, looked_ahead, IsNextRun};
ghost use Rattle.calendar_due.specs.ZoneRules.{minute_at};
ghost use Rattle.run_times.specs.Told.{IsTold, ComesAt};

use calendar_due::{Calendar, Zone};
use history_model::{CALENDAR_REACH, Entry, MAX_UP, MAX_WALL, Reading, Reasons, SECOND};

/// The least number of whole seconds after which a clock reading makes the job's spawn due, if nothing else happens and both clocks run alike.
/// Then `wall` goes on by a second with every 1,000 milliseconds of `up`. It looks ahead `within` seconds at most, 400 days at most, and no
/// further than a clock reading may go. None if there is no such number.
///
/// `reasons` and `spawns_from` are what a job answers at the clock reading `now`, and `entries` those of its definition. It takes no memory.
/// It looks through the calendar by days, and by minutes about those that an entry is on: `within` bounds the time.
pub fn next_run(
    reasons: &Reasons,
    spawns_from: Option<u64>,
    entries: &[Entry],
    zone: &Zone,
    now: Reading,
    within: u64,
) -> Option<u64>
    requires up { now.up ≤ MAX_UP }
    requires wall { now.wall ≤ MAX_WALL }
    ensures least { (past : History) → IsTold reasons.now spawns_from entries.now now past →
        IsNextRun (minute_at zone.now) past (looked_ahead now within) result }
    // A later clock reading, of those that are looked ahead to, makes it due too.
    ensures from { (past : History) → IsTold reasons.now spawns_from entries.now now past →
        (d : ℕ) → d ≤ looked_ahead now within →
        spawns_after (minute_at zone.now) past d ≡ has_come result d }
{
    let ahead = looked_ahead(now, within);
    let found = first_second(reasons, spawns_from, entries, zone, now, ahead);
    at_most(found, ahead)
}

/// The number, if it is not greater than the bound.
fn at_most(found: Option<u64>, bound: u64) -> Option<u64>
    ensures from { (d : ℕ) → d ≤ bound → has_come result d ≡ has_come found d }
    ensures bound { IfSome result (λ d. d ≤ bound) }
{
    match found {
        Some(seconds) if seconds <= bound => Some(seconds),
        _ => None,
    }
}

/// The least number of seconds after which time alone starts the job (`spawns_from`), or a calendar entry has fired and nothing else keeps it.
fn first_second(
    reasons: &Reasons,
    spawns_from: Option<u64>,
    entries: &[Entry],
    zone: &Zone,
    now: Reading,
    ahead: u64,
) -> Option<u64>
    requires days { ahead ≤ CALENDAR_REACH }
    requires in_range { now.wall + ahead ≤ MAX_WALL }
    ensures { (d : ℕ) → d ≤ ahead →
        has_come result d
        ≡ (has_come spawns_from (now.up + SECOND * d)
        || (not (needs_event reasons.now)
        && calendar_fires (minute_at zone.now) entries.now now.wall (now.wall + d)
        && nat_le (unwrap_or reasons.now.throttled_until 0) (now.up + SECOND * d))) }
{
    let of_clock = by_clock(spawns_from, now.up);
    let of_calendar = by_calendar(reasons, entries, zone, now, ahead);
    sooner(of_clock, of_calendar)
}

/// The least number of seconds after which this `up` is reached, if there is one.
fn by_clock(moment: Option<u64>, up: u64) -> Option<u64>
    ensures { (d : ℕ) → has_come result d ≡ has_come moment (up + SECOND * d) }
{
    match moment {
        None => None,
        Some(moment) => Some(seconds_until(moment, up)),
    }
}

/// How many seconds are looked ahead.
fn looked_ahead(now: Reading, within: u64) -> u64
    requires up { now.up ≤ MAX_UP }
    requires wall { now.wall ≤ MAX_WALL }
    ensures value { result ≡ looked_ahead now within }
    ensures days { result ≤ CALENDAR_REACH }
    ensures in_range { now.wall + result ≤ MAX_WALL }
{
    let of_up = (MAX_UP - now.up) / SECOND;
    let of_wall = MAX_WALL - now.wall;
    within.min(CALENDAR_REACH).min(of_up.min(of_wall))
}

/// The least number of seconds after which this `up` is reached.
fn seconds_until(moment: u64, up: u64) -> u64
    ensures { (d : ℕ) → nat_le moment (up + SECOND * d) ≡ nat_le result d }
{
    let left = moment.saturating_sub(up);
    if left % SECOND == 0 {
        left / SECOND
    } else {
        left / SECOND + 1
    }
}

/// The second of `wall` at which this `up` is reached, if both clocks go on alike from the clock reading on. It goes by whole seconds, and no
/// later than a clock reading may be. It is the clock reading's own second if this `up` is past.
pub fn coming_second(now: Reading, up: u64) -> u64
    ensures { ComesAt now up result }
{
    let seconds = seconds_until(up, now.up);
    now.wall.saturating_add(seconds).min(MAX_WALL)
}

/// The least number of seconds after which a calendar entry has fired, the throttle is over, and no event is needed. Without entries no
/// minute is looked at.
fn by_calendar(
    reasons: &Reasons,
    entries: &[Entry],
    zone: &Zone,
    now: Reading,
    ahead: u64,
) -> Option<u64>
    requires days { ahead ≤ CALENDAR_REACH }
    requires in_range { now.wall + ahead ≤ MAX_WALL }
    ensures { (d : ℕ) → d ≤ ahead →
        has_come result d
        ≡ (not (needs_event reasons.now)
        && calendar_fires (minute_at zone.now) entries.now now.wall (now.wall + d)
        && nat_le (unwrap_or reasons.now.throttled_until 0) (now.up + SECOND * d)) }
{
    if entries.is_empty() {
        return None;
    }
    if needs_event(reasons) {
        return None;
    }
    let free = reasons.throttled_until.unwrap_or(0);
    match Calendar::next(entries, zone, now.wall, now.wall + ahead) {
        Some(minute) => {
            let fires = minute.saturating_sub(now.wall);
            Some(fires.max(seconds_until(free, now.up)))
        }
        None => None,
    }
}

/// Whether a reason holds that clock readings don't end.
pub fn needs_event(reasons: &Reasons) -> bool
    ensures { result ≡ needs_event reasons.now }
{
    reasons.is_removing
        || reasons.child.is_some()
        || reasons.awaited.is_some()
        || reasons.is_launch_spent
        || reasons.are_runs_spent
}

/// The lesser of the two, if there are two.
fn sooner(one: Option<u64>, other: Option<u64>) -> Option<u64>
    ensures { result ≡ sooner one other }
{
    match (one, other) {
        (Some(one), Some(other)) => Some(one.min(other)),
        (None, other) => other,
        (one, None) => one,
    }
}
