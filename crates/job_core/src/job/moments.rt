//! From when on the end of a run is due, and when its interval is over.

ghost use Rattle.std.specs.Prelude.{◌≡◌, ◌≤◌, ℕ};
ghost use Rattle.history_model.specs.DueByFacts.{may_kill_by, may_term_by};
ghost use Rattle.history_model.specs.NextMomentByFacts.{has_come, coming_period};

use super::Job;
use history_model::MAX_UP;

/// The times at which the clock alone makes an order of a job due, in milliseconds of `up`. While the answer to an order is
/// awaited none is given.
#[derive(Clone, Copy)]
pub struct Moments {
    /// From when on TERM is due for the child's run: if its end was asked for, and not by a `kickstart -k`. It may be a time that
    /// is over; none if TERM or KILL was sent.
    pub term: Option<u64>,
    /// From when on KILL is due for the child's run: at once if a `kickstart -k` asked for its end, else `ExitTimeOut` after the
    /// first TERM. None if KILL was sent, or if none follows.
    pub kill: Option<u64>,
    /// The next end of its interval.
    pub interval: Option<u64>,
}

impl Job {
    ghost use Rattle.job_core.specs.JobFields.{facts};

    /// These times, at this one of `up`.
    pub fn moments(&self, up: u64) -> Moments
        requires { up ≤ MAX_UP }
        ensures term { (at : ℕ) → has_come result.term at ≡ may_term_by (facts self.now) at }
        ensures kill { (at : ℕ) → has_come result.kill at ≡ may_kill_by (facts self.now) at }
        ensures interval { result.interval
            ≡ coming_period (facts self.now).definition.start_interval (facts self.now).load_up up }
    {
        Moments {
            term: self.term_from(),
            kill: self.kill_from(),
            interval: self.interval.next_moment(up),
        }
    }

    fn term_from(&self) -> Option<u64>
        ensures { (at : ℕ) → has_come result at ≡ may_term_by (facts self.now) at }
    {
        if self.is_stopping {
            self.ending.term_at()
        } else {
            None
        }
    }

    fn kill_from(&self) -> Option<u64>
        ensures { (at : ℕ) → has_come result at ≡ may_kill_by (facts self.now) at }
    {
        if self.ending.is_struck() || self.is_stopping {
            self.ending.kill_at()
        } else {
            None
        }
    }
}
