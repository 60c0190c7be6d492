//! The two clocks of a clock reading.

use history_model::Reading;
use std::io;
use std::rt::Clock;
use std::time::{Instant, SystemTime};

/// Milliseconds since `start`; 0 if the clock can't be read.
pub(crate) fn up(rt: &impl Clock, start: Instant) -> u64 {
    match start.elapsed(rt) {
        Ok(passed) => u64::try_from(passed.as_millis()).unwrap_or(u64::MAX),
        Err(_) => 0,
    }
}

/// Milliseconds since `start`, and seconds of Unix time.
pub(crate) fn read(rt: &impl Clock, start: Instant) -> io::Result<Reading> {
    let up = start.elapsed(rt)?.as_millis();
    let wall = SystemTime::now(rt)?.duration_since(SystemTime::UNIX_EPOCH);
    Ok(Reading {
        up: u64::try_from(up).unwrap_or(u64::MAX),
        wall: match wall {
            Ok(since) => since.as_secs(),
            Err(_) => 0,
        },
    })
}
