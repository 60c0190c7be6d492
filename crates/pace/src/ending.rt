//! How a run is ended: TERM first, and KILL once `ExitTimeOut` of launchd.plist(5) is over; or KILL at once, if
//! `kickstart -k` of launchctl(1) asked for it.

ghost use Rattle.std.specs.Prelude.{◌≡◌, ◌≤◌, ℕ, ◌*◌, ◌||◌, ◌&&◌, not, true, false, Some, None, if◌then◌else◌};
ghost use Rattle.history_model.specs.Items.{History};
ghost use Rattle.history_model.specs.Clock as clock;
ghost use Rattle.history_model.specs.Search.{or_else};
ghost use Rattle.history_model.specs.Refusals.{IsLawful};
ghost use Rattle.history_model.specs.NextMomentByFacts.{sooner, coming_after, has_come};
ghost use Rattle.pace.specs.PaceMoments.{IsNext};

use crate::{coming_after, sooner};
use history_model::{MAX_UP, SECOND};
use std::marker::Model;

/// The signal that ends a run.
#[derive(Clone, Copy)]
pub enum Signal {
    Term,
    Kill,
}

/// What was ordered to end the present run, and how that was answered.
#[derive(Drop)]
pub struct Ending {
    timeout: u32,
    first_term: Option<u64>,
    term_refusal: Option<u64>,
    kill_refusal: Option<u64>,
    is_term_done: bool,
    is_kill_done: bool,
    is_struck: bool,
}

impl Model for Ending {
    ghost use Rattle.std.specs.Option.{ForSome};
    ghost use Rattle.std.specs.Prelude.{◌≤◌};
    ghost use Rattle.history_model.specs.declared.TheConstants.{MAX_UP};
    ghost use Rattle.pace.specs.Paces.{Ends};

    ghost Value = { Ends };

    ghost view = { λ e. record {
      timeout = e.timeout;
      term_ordered = e.first_term;
      term_refused = e.term_refusal;
      kill_refused = e.kill_refusal;
      is_term_done = e.is_term_done;
      is_kill_done = e.is_kill_done;
      is_struck = e.is_struck;
    } };

    ghost invariant = { λ e. ForSome e.first_term (λ u. u ≤ MAX_UP)
        × ForSome e.term_refusal (λ u. u ≤ MAX_UP) × ForSome e.kill_refusal (λ u. u ≤ MAX_UP) };
}

impl Ending {
    ghost use Rattle.pace.specs.Paces.{Ends, no_ends};
    ghost use Rattle.pace.specs.AnsweredEnds.{done_after};
    ghost use Rattle.pace.specs.PaceMoments.{IsEndMoment};
    ghost use Rattle.pace.specs.PaceByFacts.{may_term_of, may_kill_of, next_end_of};
    ghost use Rattle.pace.specs.OfPast.{ends_of, may_term_at, may_kill_at, end_moments, least_after};

    /// The end of a run for which nothing was ordered. The timeout is in seconds from TERM to KILL; 0 means no KILL.
    pub fn new(timeout: u32) -> Ending
        ensures { result ≡ no_ends timeout }
    {
        Ending {
            timeout,
            first_term: None,
            term_refusal: None,
            kill_refusal: None,
            is_term_done: false,
            is_kill_done: false,
            is_struck: false,
        }
    }

    /// The next run begins: nothing was ordered to end it.
    pub fn next_run(&mut self)
        ensures { self.new ≡ no_ends self.old.timeout }
    {
        *self = Ending::new(self.timeout);
    }

    /// A TERM was ordered. The timeout counts from the first one.
    pub fn termed_at(&mut self, up: u64)
        requires { up ≤ MAX_UP }
        ensures { self.new ≡ record self.old
            { term_ordered = or_else self.old.term_ordered (Some up) } }
    {
        self.first_term = self.first_term.or(Some(up));
    }

    /// A TERM was answered with a refusal.
    pub fn term_refused(&mut self, up: u64)
        requires { up ≤ MAX_UP }
        ensures { self.new ≡ record self.old { term_refused = Some up } }
    {
        self.term_refusal = Some(up);
    }

    /// A KILL was answered with a refusal.
    pub fn kill_refused(&mut self, up: u64)
        requires { up ≤ MAX_UP }
        ensures { self.new ≡ record self.old { kill_refused = Some up } }
    {
        self.kill_refusal = Some(up);
    }

    /// A TERM or a KILL was answered ok: it is not given again.
    pub fn answered(&mut self, signal: Signal)
        ensures { self.new ≡ done_after signal self.old }
    {
        match signal {
            Signal::Term => self.is_term_done = true,
            Signal::Kill => self.is_kill_done = true,
        }
    }

    /// A kickstart asks for KILL at once.
    pub fn struck(&mut self)
        ensures { self.new ≡ record self.old { is_struck = true } }
    {
        self.is_struck = true;
    }

    /// No kickstart asks for it any more, since the run is over or was not spawned.
    pub fn spared(&mut self)
        ensures { self.new ≡ record self.old { is_struck = false } }
    {
        self.is_struck = false;
    }

    /// Whether a kickstart asks for KILL.
    pub fn is_struck(&self) -> bool
        ensures { result ≡ self.now.is_struck }
    {
        self.is_struck
    }

    /// The least time from which TERM may be ordered for a run that is being stopped. None if TERM or KILL was answered ok, or a
    /// kickstart asks for KILL. It does not consider that KILL may be due too.
    pub fn term_at(&self) -> Option<u64>
        ensures step { (up : ℕ) → has_come result up ≡ may_term_of self.now up }
        ensures past { (past : History) → IsLawful past → self.now ≡ ends_of past → (up : ℕ) →
            has_come result up ≡ may_term_at up past }
    {
        self.term_from() // for the proof
    }

    /// That time, by what is kept.
    fn term_from(&self) -> Option<u64>
        ensures { (up : ℕ) → has_come result up ≡ may_term_of self.now up }
    {
        if self.is_struck || self.is_term_done || self.is_kill_done {
            return None;
        }
        Some(self.term_refusal.map_or(0, |up| up + SECOND))
    }

    /// The least time from which KILL may be ordered for a run that is being stopped, or that a `kickstart -k` asked to end. None
    /// if KILL was answered ok, or if no time to end runs.
    pub fn kill_at(&self) -> Option<u64>
        ensures step { (up : ℕ) → has_come result up ≡ may_kill_of self.now up }
        ensures past { (past : History) → IsLawful past → self.now ≡ ends_of past → (up : ℕ) →
            has_come result up ≡ may_kill_at up past }
    {
        self.kill_from() // for the proof
    }

    /// That time, by what is kept.
    fn kill_from(&self) -> Option<u64>
        ensures { (up : ℕ) → has_come result up ≡ may_kill_of self.now up }
    {
        if self.is_kill_done {
            return None;
        }
        let over = if self.is_struck {
            0
        } else if self.timeout > 0 {
            self.first_term? + SECOND * u64::from(self.timeout)
        } else {
            return None;
        };
        match self.kill_refusal {
            None => Some(over),
            Some(up) => Some(over.max(up + SECOND)),
        }
    }

    /// The next time at which the time to end is over, or a refused TERM or KILL stops being too near. After the present clock
    /// reading no other refusal has such a time.
    pub fn next_moment(&self, up: u64) -> Option<u64>
        ensures value { result ≡ next_end_of self.now up }
        ensures next { IsNext (IsEndMoment self.now) up result }
        ensures past { (past : History) → IsLawful past → self.now ≡ ends_of past →
            (clock.now past).up ≤ up → result ≡ least_after up (end_moments past) }
    {
        self.next_from(up) // for the proof
    }

    /// That time, by what is kept.
    fn next_from(&self, up: u64) -> Option<u64>
        ensures value { result ≡ next_end_of self.now up }
        ensures next { IsNext (IsEndMoment self.now) up result }
    {
        let over = if self.timeout > 0 {
            coming_after(up, SECOND * u64::from(self.timeout), self.first_term)
        } else {
            None
        };
        let of_refusals = sooner(
            coming_after(up, SECOND, self.term_refusal),
            coming_after(up, SECOND, self.kill_refusal),
        );
        sooner(over, of_refusals)
    }
}
