//! What a written time means by the clock of a zone. The clock is asked what it shows, minute by minute; no offset is reckoned
//! with.

ghost use Rattle.std.specs.Prelude.{◌≡◌, ◌↔◌, ◌≤◌, ◌+◌, ◌*◌, IsTrue, IfSome};
ghost use Rattle.history_model.specs.declared.TheConstants.{MAX_WALL};
ghost use Rattle.calendar_due.specs.ZoneRules.{minute_at};
ghost use Rattle.moment_words.specs.Shown.{IsOn, IsFirstShown};
ghost use Rattle.moment_words.specs.Dates.{leap_years_to, last_leap, days_before, midnight_by_utc};
ghost use Rattle.moment_words.specs.Meant.{IsFirstOf, IsOfDayBefore, Means, with_time};

use calendar_due::Zone;
use history_model::{CivilMinute, MAX_WALL};

/// How many seconds before and after a second of Unix time its day is looked for: three days. A zone is at most a day from UTC.
pub const REACH: u64 = 259_200;

/// A time of a day.
#[derive(Clone, Copy)]
pub struct Time {
    pub hour: u8,
    pub minute: u8,
    pub second: u8,
}

/// A time as it is written.
#[derive(Clone, Copy)]
pub enum Moment {
    /// This second of Unix time.
    Second(u64),
    /// How many seconds before now.
    Ago(u64),
    /// This time of the present day, or of the day before.
    OfToday(Time),
    OfYesterday(Time),
    /// This time of a date; of the date the year, the month and the day count.
    OfDate(CivilMinute, Time),
}

/// The second of Unix time that a written time means at the second `now`, by a clock in the zone. For a time of a day it is the
/// first minute of that day at which the clock shows it, plus the seconds. If the clock skips it, it is the first that follows.
/// None if the clock shows no such minute: the date does not exist. Takes no memory.
pub fn second_of(moment: Moment, zone: &Zone, now: u64) -> Option<u64>
    requires { now ≤ MAX_WALL }
    ensures { Means (minute_at zone.now) now moment result }
{
    match moment {
        Moment::Second(second) => Some(second),
        Moment::Ago(seconds) => Some(now.saturating_sub(seconds)),
        Moment::OfToday(time) => first_of(zone, zone.civil_minute(now), time, now),
        Moment::OfYesterday(time) => {
            let midnight = first_of(zone, zone.civil_minute(now), MIDNIGHT, now);
            of_day_before(zone, time, midnight)
        }
        Moment::OfDate(date, time) => first_of(zone, date, time, utc_midnight(&date)),
    }
}

/// The first of a day's minutes.
pub(crate) const MIDNIGHT: Time = Time {
    hour: 0,
    minute: 0,
    second: 0,
};

// The time of the day that ends with this midnight.
fn of_day_before(zone: &Zone, time: Time, midnight: Option<u64>) -> Option<u64>
    requires { IfSome midnight (λ m. m ≤ MAX_WALL) }
    ensures { IsOfDayBefore (minute_at zone.now) time midnight result }
{
    let before = midnight?.saturating_sub(1);
    first_of(zone, zone.civil_minute(before), time, before)
}

// The first second of the date's day, about that second, at which the clock shows the time or a later one.
fn first_of(zone: &Zone, date: CivilMinute, time: Time, about: u64) -> Option<u64>
    requires { about ≤ MAX_WALL }
    ensures first { IsFirstOf (minute_at zone.now) (with_time date time) time.second about result }
    ensures range { IfSome result (λ second. second ≤ MAX_WALL + time.second) }
{
    let wanted = CivilMinute {
        hour: time.hour,
        minute: time.minute,
        ..date
    };
    let until = (about + REACH).min(MAX_WALL);
    match first_shown(zone, &wanted, about.saturating_sub(REACH), until) {
        Some(minute) => Some(minute + u64::from(time.second)),
        None => None,
    }
}

// The least such minute. The minutes are counted from 1970, and each is looked at in turn.
fn first_shown(zone: &Zone, wanted: &CivilMinute, after: u64, until: u64) -> Option<u64>
    requires { until ≤ MAX_WALL }
    ensures { IsFirstShown (minute_at zone.now) wanted.now after until result }
{
    for k in after / 60..until / 60 {
        if is_on(wanted, &zone.civil_minute(60 * (k + 1))) {
            return Some(60 * (k + 1));
        }
    }
    None
}

// The clock shows that date, and that minute of the day or a later one.
fn is_on(wanted: &CivilMinute, shown: &CivilMinute) -> bool
    ensures { IsTrue result ↔ IsOn wanted.now shown.now }
{
    let is_date = shown.year == wanted.year
        && shown.month == wanted.month
        && shown.day == wanted.day;
    is_date && minutes(wanted) <= minutes(shown)
}

fn minutes(at: &CivilMinute) -> u64
    ensures { result ≡ 60 * at.now.hour + at.now.minute }
{
    60 * u64::from(at.hour) + u64::from(at.minute)
}

// The first second of the date by UTC, if it is not before 1970; at the latest that which a clock may show last. Every clock is
// less than three days from it.
fn utc_midnight(date: &CivilMinute) -> u64
    ensures value { result ≡ midnight_by_utc date.now }
    ensures most { result ≤ MAX_WALL }
{
    let year = u64::from(date.year.unsigned_abs());
    let years = year.saturating_sub(1970);
    let leap = leap_years(last_leap(year, date.month)).saturating_sub(477);
    let days = years * 365 + leap + days_before(date.month) + u64::from(date.day);
    (days.saturating_sub(1) * 86_400).min(MAX_WALL)
}

// How many of the years up to this one are leap years.
fn leap_years(year: u64) -> u64
    ensures value { result ≡ leap_years_to year }
    ensures most { result ≤ year }
{
    year / 4 - year / 100 + year / 400
}

// The last year whose leap day may be before the month.
fn last_leap(year: u64, month: u8) -> u64
    ensures value { result ≡ last_leap year month }
    ensures most { result ≤ year }
{
    if month <= 2 {
        year.saturating_sub(1)
    } else {
        year
    }
}

// How many days of a common year are before the month.
fn days_before(month: u8) -> u64
    ensures value { result ≡ days_before month }
    ensures most { result ≤ 334 }
{
    match month {
        2 => 31,
        3 => 59,
        4 => 90,
        5 => 120,
        6 => 151,
        7 => 181,
        8 => 212,
        9 => 243,
        10 => 273,
        11 => 304,
        12 => 334,
        _ => 0,
    }
}
