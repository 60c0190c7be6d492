//! How long children are polled and clients are served in a pass of the loop.

ghost use Rattle.std.specs.Prelude.{◌≡◌, None, false};

use control_socket::Limit;
use std::rt::Clock;
use std::time::{Duration, Instant};

/// For how many milliseconds a pass polls children, or serves clients of one kind. Then the clock is read, and what it
/// orders is done.
const LONGEST: u64 = 5;

/// The time since children are polled, or clients are served.
#[derive(Drop)]
pub(crate) struct RoundTime<'a, R> {
    rt: &'a R,
    // Absent if the clock can't be read.
    start: Option<Instant>,
    up: u64,
}

impl<'a, R: Clock> RoundTime<'a, R> {
    /// From now on, in the pass of this `up`.
    pub(crate) fn begin(rt: &'a R, up: u64) -> RoundTime<'a, R> {
        RoundTime {
            rt,
            start: Instant::now(rt).ok(),
            up,
        }
    }
}

impl<R: Clock> Limit for RoundTime<'_, R> {
    // If the clock can't be read there is no time.
    ghost Timed = { λ has old new. (new ≡ old) × (old.start ≡ None → has ≡ false) };

    fn has_time(&mut self) -> bool {
        let Some(start) = self.start else {
            return false;
        };
        match start.elapsed(self.rt) {
            Ok(time) => time < Duration::from_millis(LONGEST),
            Err(_) => false,
        }
    }

    fn up(&mut self) -> u64 {
        self.up
    }
}
