//! Which entries of a calendar match a civil minute.
ghost use Rattle.std.specs.Prelude.{◌≡◌, ◌≤◌, ◌+◌, ◌/◌, ℕ, map};
ghost use Rattle.std.specs.List.{list_any};
ghost use Rattle.history_model.specs.Calendar.{Zone as Minutes, matches as entry_matches, allows, is_weekday, allows_day, crossed, calendar_fires};
ghost use Rattle.history_model.specs.NextMomentByFacts.{has_come};
ghost use Rattle.history_model.specs.declared.TheConstants.{CALENDAR_REACH};
ghost use Rattle.calendar_due.specs.ZoneRules.{minute_at};
ghost use Rattle.calendar_due.specs.Next.{is_matched, IsFirstDue, IsFirstDueOn};
ghost use Rattle.calendar_due.specs.Days.{is_on_day, is_same_day, is_of_day, AreIdle};
ghost use Rattle.calendar_due.specs.declared.calendar.TheConstants.{DAY};

use crate::Zone;
use history_model::{CALENDAR_REACH, CivilMinute, Entry, MAX_WALL};

// A day, in seconds.
const DAY: u64 = 86_400;

/// The calendar of a job: its entries, of which one suffices (launchd.plist(5), StartCalendarInterval).
pub struct Calendar;

impl Calendar {
    /// Some entry matches the minute. An entry matches if each key that it has matches; if it has both a day and a
    /// weekday, one of the two suffices, as in crontab(5). Weekdays 0 and 7 are Sunday. Takes no memory.
    pub fn matches(entries: &[Entry], minute: &CivilMinute) -> bool
        ensures { result ≡ list_any (λ entry. entry_matches entry minute.now) entries.now }
    {
        entries.iter().any(|entry| is_match(entry, minute))
    }

    /// Some entry matches some of the minutes. The search ends at the first minute that is matched. Takes no memory.
    pub fn fires(entries: &[Entry], minutes: &[CivilMinute]) -> bool
        ensures any { result ≡ list_any
            (λ minute. list_any (λ entry. entry_matches entry minute) entries.now) minutes.now }
        ensures fires { (zone : Minutes) (previous now : ℕ) →
            minutes.now ≡ map zone (crossed previous now) →
            result ≡ calendar_fires zone entries.now previous now }
    {
        !entries.is_empty() && is_any_matched(entries, minutes)
    }

    /// The least whole minute of Unix time after `after` and not after `until`, both in seconds, whose civil minute some entry
    /// matches; none if no such minute is matched. It is the minute from which on a clock reading fires the calendar, if the
    /// clock goes on from `after` by at most 400 days. The caller's condition: `until` is at most 250,000,000,000. Takes no
    /// memory. It looks at each day in turn, and at the minutes of the days about which an entry is: `until` bounds the time.
    pub fn next(entries: &[Entry], zone: &Zone, after: u64, until: u64) -> Option<u64>
        requires { until ≤ MAX_WALL }
        ensures least { IsFirstDue (minute_at zone.now) entries.now after until result }
        ensures fires { (wall : ℕ) → wall ≤ until → wall ≤ after + CALENDAR_REACH →
            calendar_fires (minute_at zone.now) entries.now after wall ≡ has_come result wall }
    {
        first_due(entries, zone, after, until)
    }
}

// That minute. Days are those of UTC, counted from 1970. Every clock is less than 26 hours from UTC. So on a day of UTC it shows
// no other days than that one, the two before it and the two after it. If no entry is on any of these five, the minutes of the
// day are passed over. This asks nothing of the zone: it may change its clock whenever it likes.
fn first_due(entries: &[Entry], zone: &Zone, after: u64, until: u64) -> Option<u64>
    requires { until ≤ MAX_WALL }
    ensures { IsFirstDue (minute_at zone.now) entries.now after until result }
{
    let last = until / DAY;
    let mut next = 0;
    for day in after / DAY..last + 1 {
        if next <= day + 2 {
            next = next_day_on(entries, day.saturating_sub(2), last + 3);
        }
        if 2 <= day && day + 2 < next {
            continue;
        }
        let found = first_due_on(entries, zone, day, after, until);
        if found.is_some() {
            return found;
        }
    }
    None
}

// The first day, from the one on, that some entry is on. If there is none before the end, and before the last day that a clock
// reading may come to, then the day up to which no entry is on any.
fn next_day_on(entries: &[Entry], from: u64, end: u64) -> u64
    ensures { AreIdle entries.now from result }
{
    let Ok(utc) = Zone::fixed(0) else {
        unreachable!()
    };
    let end = end.min(MAX_WALL / DAY);
    for day in from..end {
        if is_any_on_day(entries, &utc.civil_minute(day * DAY)) {
            return day;
        }
    }
    end
}

// The least such minute of the day.
fn first_due_on(entries: &[Entry], zone: &Zone, day: u64, after: u64, until: u64) -> Option<u64>
    requires until { until ≤ MAX_WALL }
    requires day { day ≤ until / DAY }
    ensures { IsFirstDueOn (minute_at zone.now) entries.now day after until result }
{
    let before = (day * DAY).saturating_sub(1);
    first_minute(
        entries,
        zone,
        after.max(before),
        until.min(day * DAY + (DAY - 1)),
    )
}

// The least such minute of all. The minutes are counted from 1970, and each is looked at in turn.
fn first_minute(entries: &[Entry], zone: &Zone, after: u64, until: u64) -> Option<u64>
    requires { until ≤ MAX_WALL }
    ensures { IsFirstDue (minute_at zone.now) entries.now after until result }
{
    for k in after / 60..until / 60 {
        if is_matched(entries, zone, 60 * (k + 1)) {
            return Some(60 * (k + 1));
        }
    }
    None
}

// Some entry matches what the clock shows at the second.
fn is_matched(entries: &[Entry], zone: &Zone, second: u64) -> bool
    requires { second ≤ MAX_WALL }
    ensures { result ≡ is_matched (minute_at zone.now) entries.now second }
{
    Calendar::matches(entries, &zone.civil_minute(second))
}

// Some entry matches some of the minutes. Of a day that no entry is on only the day is looked at, once for its minutes that follow
// one another.
fn is_any_matched(entries: &[Entry], minutes: &[CivilMinute]) -> bool
    ensures { result ≡ list_any
        (λ minute. list_any (λ entry. entry_matches entry minute) entries.now) minutes.now }
{
    let mut idle: Option<CivilMinute> = None;
    for minute in minutes {
        if is_of_day(&idle, minute) {
            continue;
        }
        if Calendar::matches(entries, minute) {
            return true;
        }
        if !is_any_on_day(entries, minute) {
            idle = Some(*minute);
        }
    }
    false
}

// The minute is of the day of that one, if there is one.
fn is_of_day(day: &Option<CivilMinute>, minute: &CivilMinute) -> bool
    ensures { result ≡ is_of_day day.now minute.now }
{
    match day {
        Some(other) => is_same_day(other, minute),
        None => false,
    }
}

// The minutes have one month, one day and one weekday.
fn is_same_day(one: &CivilMinute, other: &CivilMinute) -> bool
    ensures { result ≡ is_same_day one.now other.now }
{
    one.month == other.month && one.day == other.day && one.weekday == other.weekday
}

// Some entry's month, day and weekday suit the minute.
fn is_any_on_day(entries: &[Entry], minute: &CivilMinute) -> bool
    ensures { result ≡ list_any (λ entry. is_on_day entry minute.now) entries.now }
{
    entries.iter().any(|entry| is_on_day(entry, minute))
}

// The entry's month, day and weekday suit the minute.
fn is_on_day(entry: &Entry, minute: &CivilMinute) -> bool
    ensures { result ≡ is_on_day entry.now minute.now }
{
    is_allowed(entry.month, minute.month) && is_day_allowed(entry.day, entry.weekday, minute)
}

// The entry matches the minute.
fn is_match(entry: &Entry, minute: &CivilMinute) -> bool
    ensures { result ≡ entry_matches entry.now minute.now }
{
    is_allowed(entry.minute, minute.minute)
        && is_allowed(entry.hour, minute.hour)
        && is_on_day(entry, minute)
}

// The key is absent, or has this value.
fn is_allowed(wanted: Option<u8>, found: u8) -> bool
    ensures { result ≡ allows wanted found }
{
    match wanted {
        Some(value) => value == found,
        None => true,
    }
}

// The weekday is absent, or is this one, where 7 is Sunday too.
fn is_weekday_allowed(wanted: Option<u8>, found: u8) -> bool
    ensures { result ≡ is_weekday wanted found }
{
    match wanted {
        Some(value) => value % 7 == found,
        None => true,
    }
}

// The day and the weekday suit the minute; if both are set, one of the two suffices.
fn is_day_allowed(day: Option<u8>, weekday: Option<u8>, minute: &CivilMinute) -> bool
    ensures { result ≡ allows_day day weekday minute.now }
{
    let is_day = is_allowed(day, minute.day);
    let is_weekday = is_weekday_allowed(weekday, minute.weekday);
    if day.is_some() && weekday.is_some() {
        is_day || is_weekday
    } else {
        is_day && is_weekday
    }
}
