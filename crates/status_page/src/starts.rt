//! Which start of a job `next` shows.

ghost use Rattle.std.specs.Prelude.{◌≡◌, ◌==◌};
ghost use Rattle.status_page.specs.Starts.{by_calendar, is_over_then, sooner, start_at, start_told};

use crate::clocks::StartWhen;
use crate::rows::Next;
use crate::throttles::{ThrottleEnd, second_told};

/// A start by time alone.
#[derive(Clone, Copy)]
pub struct ToldStart {
    /// When it comes, or since when it is due, in seconds of Unix time.
    pub at: u64,
    /// Its interval is over then; where false, an entry of its calendar matches, or both clocks together start it.
    pub is_interval: bool,
}

/// The start that is shown next of a job, if a start can come of it. It is the one by time alone, at the second that `status` and `why` show. If there
/// is none, it is the sooner one of the next minute of its calendar and of the end of its interval.
pub fn start_told(
    can_start: bool,
    next: Next,
    throttle: Option<ThrottleEnd>,
    calendar: Option<u64>,
    interval: Option<u64>,
) -> Option<ToldStart>
    ensures { result ≡ start_told can_start next throttle calendar interval }
{
    if !can_start {
        return None;
    }
    match next {
        Next::Clock(StartWhen::At(at) | StartWhen::Since(at)) => {
            Some(start_at(throttle, interval, at))
        }
        _ => sooner(calendar, interval),
    }
}

// The start at this second, as it is shown.
fn start_at(throttle: Option<ThrottleEnd>, interval: Option<u64>, at: u64) -> ToldStart
    ensures { result ≡ start_at throttle interval at }
{
    ToldStart {
        at: second_told(throttle, at),
        is_interval: is_over_then(interval, at),
    }
}

fn is_over_then(interval: Option<u64>, at: u64) -> bool
    ensures { result ≡ is_over_then interval at }
{
    match interval {
        Some(end) => end == at,
        None => false,
    }
}

fn sooner(calendar: Option<u64>, interval: Option<u64>) -> Option<ToldStart>
    ensures { result ≡ sooner calendar interval }
{
    let Some(end) = interval else {
        return match calendar {
            Some(minute) => Some(by_calendar(minute)),
            None => None,
        };
    };
    match calendar {
        Some(minute) if minute <= end => Some(by_calendar(minute)),
        _ => Some(ToldStart {
            at: end,
            is_interval: true,
        }),
    }
}

fn by_calendar(minute: u64) -> ToldStart
    ensures { result ≡ by_calendar minute }
{
    ToldStart {
        at: minute,
        is_interval: false,
    }
}
