//! Calendars after a clock that did not move for 400 days: the crossed minutes in a zone with daylight time, and 1,024 calendars over them.
//! And the next minutes of calendars that are far, or never come. Writes counts, and if that is asked for the times too, to standard error.

use calendar_due::{Calendar, Zone};
use history_model::{CALENDAR_REACH, CivilMinute, Entry, MAX_WALL};
use std::alloc::Global;
use std::io::{self, Eprint, Print};
use std::time::{Clock, Instant};

const RULE: &str = "EST5EDT,M3.2.0,M11.1.0";

const NOW: u64 = 1_700_000_000;

// The calendar that never fires.
const NEVER: Entry = Entry {
    minute: None,
    hour: None,
    day: Some(30),
    weekday: None,
    month: Some(2),
};

// The calendar of a leap day, at 03:00.
const LEAP_DAY: Entry = Entry {
    minute: Some(0),
    hour: Some(3),
    day: Some(29),
    weekday: None,
    month: Some(2),
};

// The longest time from one leap day to the next, and some days more, in seconds.
const EIGHT_YEARS: u64 = 253_152_000;

// How many of 1,000 jobs, whose calendars never match, have a next minute within 400 days.
fn count_coming(zone: &Zone) -> usize {
    let mut count = 0usize;
    for _ in 0..1000 {
        if Calendar::next(&[NEVER], zone, NOW, NOW + CALENDAR_REACH).is_some() {
            count = count.saturating_add(1);
        }
    }
    count
}

// The second of the twentieth leap day to come; 0 if there are fewer.
fn twentieth_leap_day(zone: &Zone) -> u64 {
    let mut at = NOW;
    for _ in 0..20 {
        let until = at.saturating_add(EIGHT_YEARS).min(MAX_WALL);
        let Some(next) = Calendar::next(&[LEAP_DAY], zone, at, until) else {
            return 0;
        };
        at = next;
    }
    at
}

// How many of the jobs fire, whose calendars match one minute of each hour, or no minute at all.
fn count(minutes: &[CivilMinute], jobs: u32, are_hourly: bool) -> usize {
    let mut count = 0usize;
    for job in 0..jobs {
        let mut entry = NEVER;
        if are_hourly {
            entry = Entry {
                minute: Some((job % 60) as u8),
                day: None,
                month: None,
                ..NEVER
            };
        }
        if Calendar::fires(&[entry], minutes) {
            count = count.saturating_add(1);
        }
    }
    count
}

fn show(rt: &impl Eprint, is_timed: bool, name: &str, micros: u128) -> io::Result<()> {
    if is_timed {
        eprintln!(rt; "{name}: {micros} microseconds")?;
    }
    Ok(())
}

/// The crossed minutes of the 400 days, and how many microseconds it took to find them.
fn crossed(rt: &impl Clock, alloc: Global, zone: &Zone) -> io::Result<(Vec<CivilMinute>, u128)> {
    let start = Instant::now(rt)?;
    let minutes = zone.crossed(alloc, NOW - CALENDAR_REACH, NOW)?;
    Ok((minutes, start.elapsed(rt)?.as_micros()))
}

/// Looks for minutes that are far, or never come.
fn look_ahead<R: Print + Eprint + Clock>(rt: &R, is_timed: bool, zone: &Zone) -> io::Result<()> {
    let start = Instant::now(rt)?;
    let coming = count_coming(zone);
    let micros = start.elapsed(rt)?.as_micros();
    let start = Instant::now(rt)?;
    let leap_day = twentieth_leap_day(zone);
    let days_micros = start.elapsed(rt)?.as_micros();
    println!(rt;
        "jobs that never come, and come all the same {coming}; the twentieth leap day is at {leap_day}"
    )?;
    show(rt, is_timed, "1000 jobs that never come", micros)?;
    show(rt, is_timed, "twenty leap days", days_micros)
}

/// Counts, and says how long each count took if that is asked for.
pub fn count_all<R: Print + Eprint + Clock>(
    rt: &R,
    alloc: Global,
    is_timed: bool,
) -> io::Result<()> {
    let Ok(zone) = Zone::posix(RULE) else {
        return println!(rt; "the rule was refused");
    };
    let crossed = crossed(rt, alloc, &zone);
    let looked = look_ahead(rt, is_timed, &zone);
    drop(zone);
    looked?;
    let (minutes, micros) = crossed?;
    show(rt, is_timed, "minutes", micros)?;
    println!(rt; "minutes {}", minutes.len())?;
    count_jobs(rt, is_timed, minutes.as_slice())
}

/// Counts the jobs that fire: first of those of each hour, and then of idle ones.
fn count_jobs<R: Print + Eprint + Clock>(
    rt: &R,
    is_timed: bool,
    minutes: &[CivilMinute],
) -> io::Result<()> {
    for (jobs, name) in [(1024, "hourly jobs"), (8, "eight idle jobs")] {
        let start = Instant::now(rt)?;
        let fire = count(minutes, jobs, jobs == 1024);
        println!(rt; "{name} that fire {fire}")?;
        show(rt, is_timed, name, start.elapsed(rt)?.as_micros())?;
    }
    Ok(())
}
