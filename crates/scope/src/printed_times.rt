//! Times as the program prints them: those of `log`, as `2026-11-25 Wed 14:02:57 +0100`, and those of JSON, as `2026-11-25T14:02:57+01:00`.

ghost use Rattle.std.specs.Prelude.{◌≡◌, ◌≤◌, IfSome};
ghost use Rattle.scope.specs.PrintedTimes.{second_by_utc};

use history_model::{CivilMinute, MAX_WALL};
use moment_words::{Moment, Time, read_moment, second_of};
use run_times::utc;

/// The days of a week, as they are printed.
const WEEKDAYS: [&str; 7] = ["Sun", "Mon", "Tue", "Wed", "Thu", "Fri", "Sat"];

/// By how many seconds a clock is ahead of UTC, or after it.
#[derive(Clone, Copy)]
enum ClockOffset {
    Ahead(u64),
    After(u64),
}

/// The time that the text says, if the program prints it so. With an offset from UTC it is a second; without one, a time of the journal's clock.
pub(crate) fn read_printed(text: &str) -> Option<Moment> {
    let date = date_in(text.get(..10)?)?;
    let rest = text.get(10..)?;
    let rest = match rest.strip_prefix("T") {
        Some(rest) => rest,
        None => without_weekday(rest)?,
    };
    let (time, rest) = timed(rest)?;
    let offset = rest.strip_prefix(" ").unwrap_or(rest);
    if offset.is_empty() {
        return Some(Moment::OfDate(date, time));
    }
    let offset = offset_in(offset)?;
    let zone = utc();
    let second = second_of(Moment::OfDate(date, time), &zone, 0);
    drop(zone);
    Some(Moment::Second(second_by_utc(second?, offset)?))
}

fn date_in(text: &str) -> Option<CivilMinute> {
    match read_moment(text)? {
        Moment::OfDate(date, _) => Some(date),
        _ => None,
    }
}

// What follows a space, the name of a weekday and a space.
fn without_weekday(text: &str) -> Option<&str> {
    let name = text.strip_prefix(" ")?.get(..3)?;
    if WEEKDAYS.iter().any(|day| *day == name) {
        text.get(4..)?.strip_prefix(" ")
    } else {
        None
    }
}

// The time with or without seconds at the front, and what follows it.
fn timed(text: &str) -> Option<(Time, &str)> {
    let time = match text.get(..8) {
        Some(front) => time_in(front),
        None => None,
    };
    match time {
        Some(time) => Some((time, text.get(8..)?)),
        None => Some((time_in(text.get(..5)?)?, text.get(5..)?)),
    }
}

fn time_in(text: &str) -> Option<Time> {
    if !text.as_bytes().first()?.is_ascii_digit() {
        return None;
    }
    match read_moment(text)? {
        Moment::OfToday(time) => Some(time),
        _ => None,
    }
}

// A sign, two digits of hours and two of minutes, with or without a colon between them.
fn offset_in(text: &str) -> Option<ClockOffset> {
    let (sign, rest) = (text.get(..1)?, text.get(1..)?);
    let (hours, rest) = (two_digits(rest.get(..2)?)?, rest.get(2..)?);
    let minutes = two_digits(rest.strip_prefix(":").unwrap_or(rest))?;
    if minutes >= 60 {
        return None;
    }
    let seconds = hours * 3_600 + minutes * 60;
    match sign {
        "+" => Some(ClockOffset::Ahead(seconds)),
        "-" => Some(ClockOffset::After(seconds)),
        _ => None,
    }
}

fn two_digits(text: &str) -> Option<u64>
    ensures { IfSome result (λ number. number ≤ 99) }
{
    match text.as_bytes() {
        [tens, ones] if tens.is_ascii_digit() && ones.is_ascii_digit() => {
            Some(u64::from(*tens - b'0') * 10 + u64::from(*ones - b'0'))
        }
        _ => None,
    }
}

// The second of Unix time, if a clock with this offset shows what a clock of UTC shows at `second`. None: it is before 1970, or too late.
fn second_by_utc(second: u64, offset: ClockOffset) -> Option<u64>
    ensures { result ≡ second_by_utc second offset }
{
    let second = match offset {
        ClockOffset::Ahead(seconds) => second.checked_sub(seconds)?,
        ClockOffset::After(seconds) => second.checked_add(seconds)?,
    };
    if second <= MAX_WALL {
        Some(second)
    } else {
        None
    }
}
