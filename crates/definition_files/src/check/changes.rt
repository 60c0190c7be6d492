//! The minutes that a clock skips in the coming year, or shows twice.

use calendar_due::Zone;
use history_model::{CivilMinute, MAX_WALL};
use std::alloc::{AllocError, Global};

/// Civil minutes that a clock skips at one change, or shows twice.
#[derive(Drop)]
pub struct Change {
    pub is_skipped: bool,
    pub minutes: Vec<CivilMinute>,
}

const HOUR: u64 = 3_600;

/// How many hours are looked at: those of a leap year, so of twelve months.
const HOURS: u64 = 8_784;

const DAY: u32 = 1_440;

/// The changes of the zone's clock in the twelve months from the second `now` of Unix time on, in the order of time. A change
/// by a whole day is not seen, nor are two in one hour that make up for one another.
pub fn changes_ahead(alloc: Global, zone: &Zone, now: u64) -> Result<Vec<Change>, AllocError> {
    let first = now / HOUR;
    let mut changes = Vec::new(alloc);
    let mut before = shown_at(zone, first.saturating_mul(HOUR));
    for k in 0..HOURS {
        let from = first.saturating_add(k).saturating_mul(HOUR);
        let after = shown_at(zone, from.saturating_add(HOUR));
        if jump(&before, &after, 60) != 0 {
            add_changes(alloc, zone, from, &mut changes)?;
        }
        before = after;
    }
    Ok(changes)
}

fn shown_at(zone: &Zone, second: u64) -> CivilMinute {
    zone.civil_minute(second.min(MAX_WALL))
}

fn minute_of_day(at: &CivilMinute) -> u32 {
    u32::from(at.hour)
        .saturating_mul(60)
        .saturating_add(u32::from(at.minute))
}

// By how many minutes the clock was put on, within a day, while this many minutes went by.
fn jump(before: &CivilMinute, after: &CivilMinute, minutes: u32) -> u32 {
    let gone = minute_of_day(after).saturating_add(DAY.saturating_mul(2));
    gone.saturating_sub(minute_of_day(before))
        .saturating_sub(minutes)
        % DAY
}

// Adds the changes within the hour from there on.
fn add_changes(
    alloc: Global,
    zone: &Zone,
    from: u64,
    changes: &mut Vec<Change>,
) -> Result<(), AllocError> {
    let mut before = shown_at(zone, from);
    for k in 1..61 {
        let after = shown_at(zone, from.saturating_add(60_u64.saturating_mul(k)));
        let ahead = jump(&before, &after, 1);
        if ahead != 0 {
            add_change(alloc, changes, &before, &after, ahead)?;
        }
        before = after;
    }
    Ok(())
}

// Adds the change of a clock that showed `before`, and a minute later `after`. It was put on by `ahead` minutes. If they are more than half
// a day, it was put back by what they lack of a day.
fn add_change(
    alloc: Global,
    changes: &mut Vec<Change>,
    before: &CivilMinute,
    after: &CivilMinute,
    ahead: u32,
) -> Result<(), AllocError> {
    let is_skipped = ahead <= DAY / 2;
    let shown = minute_of_day(after).saturating_add(DAY);
    let (first, count) = if is_skipped {
        (shown.saturating_sub(ahead), ahead)
    } else {
        (shown, DAY.saturating_sub(ahead))
    };
    let mut minutes = Vec::new(alloc);
    for k in 0..count {
        minutes.push(minute_at(before, after, first.saturating_add(k)))?;
    }
    Ok(changes.push(Change {
        is_skipped,
        minutes,
    })?)
}

// The civil minute that is `count` minutes after the midnight one day before that of `after`. If that is on another day than `after`, it
// has the day of `before`.
fn minute_at(before: &CivilMinute, after: &CivilMinute, count: u32) -> CivilMinute {
    let mut at = if count / DAY == 1 { *after } else { *before };
    at.hour = (count / 60 % 24) as u8;
    at.minute = (count % 60) as u8;
    at
}
