//! Zones of a fixed offset, by their own calls.

use calendar_due::{Zone, ZoneFault};
use history_model::{CivilMinute, MAX_WALL};
use std::alloc::Global;

/// How far a clock is ahead of UTC, in seconds; two seconds of Unix time, and the minutes that a step from the one to the other crosses. The clock
/// shows the last of them at the second one.
pub struct Offset {
    pub ahead: i32,
    pub previous: u64,
    pub now: u64,
    pub minutes: &'static [CivilMinute],
}

/// Tuesday 14 November 2023, 23:14, an hour ahead of UTC.
pub const HOUR: &Offset = &Offset {
    ahead: 3600,
    previous: 1_700_000_000,
    now: 1_700_000_040,
    minutes: &[CivilMinute {
        year: 2023,
        month: 11,
        day: 14,
        hour: 23,
        minute: 14,
        weekday: 2,
    }],
};

/// Offsets that no zone has: a day and more.
pub const NONE: &[i32] = &[86_400, -86_400, i32::MAX, i32::MIN];

fn is_last(minutes: &[CivilMinute], shown: CivilMinute) -> bool {
    match minutes.last() {
        Some(last) => *last == shown,
        None => false,
    }
}

/// Whether the zone's clock shows these minutes.
fn shows(alloc: Global, zone: &Zone, offset: &Offset) -> bool {
    let now = offset.now.min(MAX_WALL);
    let shown = zone.civil_minute(now);
    match zone.crossed(alloc, offset.previous, now) {
        Ok(minutes) => {
            let is_crossed = minutes.as_slice() == offset.minutes;
            drop(minutes);
            is_crossed && is_last(offset.minutes, shown)
        }
        Err(_) => false,
    }
}

/// Whether a clock of this offset shows and crosses as it says.
pub fn is_so(alloc: Global, offset: &Offset) -> bool {
    match Zone::fixed(offset.ahead) {
        Ok(zone) => {
            let is_so = shows(alloc, &zone, offset);
            drop(zone);
            is_so
        }
        Err(_) => false,
    }
}

/// Whether no zone has any of these offsets.
pub fn are_none(offsets: &[i32]) -> bool {
    let mut are_none = true;
    for ahead in offsets {
        are_none &= matches!(Zone::fixed(*ahead), Err(ZoneFault::BadZone));
    }
    are_none
}
