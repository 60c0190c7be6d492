//! By what a job is throttled, and which second is shown for the end of that: one rule for all that report a start.

ghost use Rattle.std.specs.Prelude.{◌≡◌, ◌+◌, ◌==◌, cond};
ghost use Rattle.status_page.specs.Throttles.{EndsSo, by_refusal, is_near, second_told, throttled_by};

use history_model::{Reading, SECOND};
use run_times::coming_second;

/// By what a job is throttled.
#[derive(Clone, Copy)]
pub enum ThrottleBy {
    /// By the start that was ordered at this clock reading.
    Order(Reading),
    /// By the one that was refused at this clock reading.
    Refusal(Reading),
    /// By an earlier one, which is not kept.
    Unknown,
}

/// The second of `wall` at which a throttle ends: as the clock counts it from the last clock reading, and as it is shown.
#[derive(Clone, Copy)]
pub struct ThrottleEnd {
    pub counted: u64,
    pub told: u64,
}

/// By what the job is throttled until this `up`. Its last start was ordered, and its last refused one was refused, at these clock readings.
/// `ThrottleInterval` has this many seconds.
pub fn throttle_by(
    ordered: Option<Reading>,
    refused: Option<Reading>,
    throttle: u32,
    until: u64,
) -> ThrottleBy
    ensures { result ≡ throttled_by ordered refused throttle until }
{
    match ordered {
        Some(at) if ends_at(at, SECOND * u64::from(throttle), until) => ThrottleBy::Order(at),
        _ => by_refusal(refused, until),
    }
}

fn by_refusal(refused: Option<Reading>, until: u64) -> ThrottleBy
    ensures { result ≡ by_refusal refused until }
{
    match refused {
        Some(at) if ends_at(at, SECOND, until) => ThrottleBy::Refusal(at),
        _ => ThrottleBy::Unknown,
    }
}

fn ends_at(at: Reading, length: u64, until: u64) -> bool
    ensures { result ≡ (until == at.up + length) }
{
    at.up.checked_add(length) == Some(until)
}

/// The end of the throttle at this `up`. It is shown as it comes from the start that the job is throttled by, so that it is the same at each time. If
/// that start is not kept, or if a clock was set since, it is shown as it comes from the last clock reading.
pub fn throttle_end(by: ThrottleBy, until: u64, last: Reading) -> ThrottleEnd
    ensures { EndsSo by until last result }
{
    let counted = coming_second(last, until);
    let told = match by {
        ThrottleBy::Order(at) | ThrottleBy::Refusal(at) => nearest(
            coming_second(at, until),
            counted,
        ),
        ThrottleBy::Unknown => counted,
    };
    ThrottleEnd { counted, told }
}

// The one second, if it is near the other.
fn nearest(from: u64, counted: u64) -> u64
    ensures { result ≡ cond (is_near from counted) from counted }
{
    if from.abs_diff(counted) <= 1 {
        from
    } else {
        counted
    }
}

/// The second to show for one at which a start comes: that of its throttle's end, if it comes just then.
pub fn second_told(end: Option<ThrottleEnd>, at: u64) -> u64
    ensures { result ≡ second_told end at }
{
    match end {
        Some(end) if end.counted == at => end.told,
        _ => at,
    }
}
