//! How long the machine slept, as its clocks say.

use libc::types::timespec;
use std::time::Duration;

/// Linux's clock that goes on while the machine is suspended. CLOCK_MONOTONIC, by which an edge reads, stops then
/// (clock_gettime(2)).
const CLOCK_BOOTTIME: i32 = 7;

/// Seconds by which CLOCK_BOOTTIME may be less than CLOCK_MONOTONIC, as in a time namespace: years.
const AHEAD: u64 = 1 << 32;

/// Microseconds that may pass from one clock's reading to the other's, and don't count as sleep.
const BETWEEN: u64 = 500;

/// Milliseconds that the machine slept since a time that stays the same while it runs. If a clock can't be read, it
/// gives no sleep. It takes no memory.
pub(crate) fn slept() -> u64 {
    let whole = shown_by(CLOCK_BOOTTIME);
    let awake = shown_by(libc::CLOCK_MONOTONIC);
    let more = match (whole, awake) {
        (Some(whole), Some(awake)) => whole
            .saturating_add(Duration::from_secs(AHEAD))
            .saturating_add(Duration::from_micros(BETWEEN))
            .saturating_sub(awake),
        _ => Duration::from_secs(AHEAD),
    };
    u64::try_from(more.as_millis()).unwrap_or(0)
}

fn shown_by(clock: i32) -> Option<Duration> {
    let mut time = timespec {
        tv_sec: 0,
        tv_nsec: 0,
    };
    if libc::clock_gettime(clock, &mut time) != 0 {
        return None;
    }
    let nanos = Duration::from_nanos(time.tv_nsec.unsigned_abs());
    Some(Duration::from_secs(time.tv_sec.unsigned_abs()).saturating_add(nanos))
}
