//! The start requests of a job that come again and again: `StartInterval` of launchd.plist(5).

ghost use Rattle.std.specs.Prelude.{◌≡◌, ◌<◌, ◌≤◌, ◌↔◌, ℕ, ◌+◌, ◌*◌, ◌/◌, ◌^◌, IsTrue};
ghost use Rattle.std.specs.Option.{ForSome};
ghost use Rattle.history_model.specs.declared.Reading.{Reading};
ghost use Rattle.history_model.specs.Items.{History};
ghost use Rattle.history_model.specs.Clock as clock;
ghost use Rattle.history_model.specs.Clock.{crosses_interval};
ghost use Rattle.history_model.specs.Demands.{interval_fires};
ghost use Rattle.history_model.specs.NextMomentByFacts.{coming_period};
ghost use Rattle.pace.specs.PaceMoments.{IsNext};

use history_model::{MAX_UP, SECOND};
use std::marker::Model;

/// A start request at each end of a period, counted from the load, if the definition has an interval.
#[derive(Drop)]
pub struct Interval {
    seconds: Option<u32>,
    load_up: u64,
}

impl Model for Interval {
    ghost use Rattle.std.specs.Option.{ForSome};
    ghost use Rattle.std.specs.Prelude.{◌<◌, ◌≤◌};
    ghost use Rattle.history_model.specs.declared.TheConstants.{MAX_UP};
    ghost use Rattle.pace.specs.Paces.{Every};

    ghost Value = { Every };

    ghost view = { λ i. record { seconds = i.seconds; load_up = i.load_up } };

    ghost invariant = { λ i. ForSome i.seconds (λ n. 0 < n) × (i.load_up ≤ MAX_UP) };
}

impl Interval {
    ghost use Rattle.pace.specs.PaceMoments.{IsPeriodEnd};
    ghost use Rattle.pace.specs.OfPast.{every_of};

    /// The interval of a job that was loaded at this time. None: it never makes a start request.
    pub fn new(seconds: Option<u32>, load_up: u64) -> Interval
        requires positive { ForSome seconds (λ n. 0 < n) }
        requires in_range { load_up ≤ MAX_UP }
        ensures { result ≡ record { seconds = seconds; load_up = load_up } }
    {
        Interval { seconds, load_up }
    }

    /// Whether a clock reading makes a start request: an end of a period lies after the previous clock reading, and not after
    /// this one. Several ends, as after a sleep, are one start request.
    pub fn crossed(&self, previous: u64, up: u64) -> bool
        ensures value { result ≡ crosses_interval self.now.seconds self.now.load_up previous up }
        ensures past { (past : History) (at : Reading) → self.now ≡ every_of past →
            previous ≡ (clock.now past).up → up ≡ at.up →
            result ≡ interval_fires past at }
        ensures period { IsTrue result
            ↔ ((m : ℕ) × IsPeriodEnd self.now m × (previous < m) × (m ≤ up)) }
    {
        match self.seconds {
            None => false,
            Some(seconds) => {
                let period = SECOND * u64::from(seconds);
                previous.saturating_sub(self.load_up) / period
                    < up.saturating_sub(self.load_up) / period
            }
        }
    }

    /// The next end of a period, if there is an interval.
    pub fn next_moment(&self, up: u64) -> Option<u64>
        requires { up ≤ MAX_UP }
        ensures value { result ≡ coming_period self.now.seconds self.now.load_up up }
        ensures next { IsNext (IsPeriodEnd self.now) up result }
    {
        let seconds = self.seconds?;
        Some(
            self.load_up + period_end(SECOND * u64::from(seconds), up.saturating_sub(self.load_up)),
        )
    }
}

/// How long after the load the period ends that runs.
fn period_end(period: u64, elapsed: u64) -> u64
    requires positive { 0 < period }
    requires small { period < 2 ^ 43 }
    requires in_range { elapsed ≤ MAX_UP }
    ensures value { result ≡ period * (elapsed / period + 1) }
    ensures later { elapsed < result }
    ensures least { (k : ℕ) → elapsed < period * k → result ≤ period * k }
    ensures bound { result ≤ elapsed + period }
{
    let whole = elapsed / period;
    period * whole + period
}
