//! When a job's orders may come: the interval between its start requests, the wait between its spawns, and the end of a run.
//! Times are milliseconds of `up`; periods, throttles and timeouts are seconds, as launchd.plist(5) gives them. No call takes
//! memory, and none is refused.
#![tactic(auto)]

ghost use Rattle.std.specs.Prelude.{◌≡◌, ◌≤◌, ◌+◌, ◌^◌, ◌<◌};
ghost use Rattle.std.specs.Option.{ForSome};
ghost use Rattle.history_model.specs.NextMomentByFacts.{sooner, coming_after};

mod ending;
mod interval;
mod throttle;

pub use ending::{Ending, Signal};
use history_model::MAX_UP;
pub use interval::Interval;
pub use throttle::Throttle;

/// The lesser of two times. If there is only one, it is that one.
pub fn sooner(a: Option<u64>, b: Option<u64>) -> Option<u64>
    ensures { result ≡ sooner a b }
{
    match (a, b) {
        (None, b) => b,
        (a, None) => a,
        (Some(a), Some(b)) => Some(a.min(b)),
    }
}

/// The time `wait` milliseconds after this one, if it is still to come.
fn coming_after(up: u64, wait: u64, moment: Option<u64>) -> Option<u64>
    requires wait { wait < 2 ^ 43 }
    requires moment { ForSome moment (λ u. u ≤ MAX_UP) }
    ensures { result ≡ coming_after up wait moment }
{
    match moment {
        Some(moment) if up < moment + wait => Some(moment + wait),
        _ => None,
    }
}
