//! The orders of one job: which one is due, what it changes, and when time may make one due.

ghost use Rattle.std.specs.Prelude.{◌≡◌, ◌≤◌};
ghost use Rattle.history_model.specs.Items.{Ordered};
ghost use Rattle.history_model.specs.ByFacts.{facts_after, facts_after_order};
ghost use Rattle.history_model.specs.DueByFacts.{is_throttled_by, level_by, is_wanted_by, may_spawn_by, may_kill_by, may_term_by, due_by};
ghost use Rattle.history_model.specs.NextMomentByFacts.{has_come, next_by};

use super::Job;
use history_model::{Act, MAX_UP};
use pace::sooner;

/// How many runs a load has at most.
pub const MAX_RUNS: u64 = 1 << 63;

impl Job {
    ghost use Rattle.job_core.specs.JobFields.{facts};

    /// Whether a level holds.
    fn level_holds(&self) -> bool
        ensures { result ≡ level_by (facts self.now) }
    {
        self.conditions.holds() || self.queues.holds()
    }

    /// Whether a spawn was ordered, or refused, too short a time ago.
    fn is_throttled(&self, up: u64) -> bool
        ensures { result ≡ is_throttled_by (facts self.now) up }
    {
        up < self.throttle.free_at()
    }

    /// Whether a start request is pending, a connection waits, or a level holds.
    pub fn is_wanted(&self) -> bool
        ensures { result ≡ is_wanted_by (facts self.now) }
    {
        self.demand.is_some() || self.waiting.first().is_some() || self.level_holds()
    }

    fn may_spawn(&self, up: u64) -> bool
        ensures { result ≡ may_spawn_by (facts self.now) up }
    {
        !self.is_removing
            && self.is_wanted()
            && !self.is_throttled(up)
            && !(self.launch_only_once && self.spawned_before)
            && self.runs < MAX_RUNS
    }

    fn may_kill(&self, up: u64) -> bool
        ensures { result ≡ may_kill_by (facts self.now) up }
    {
        (self.ending.is_struck() || self.is_stopping) && has_come(self.ending.kill_at(), up)
    }

    fn may_term(&self, up: u64) -> bool
        ensures { result ≡ may_term_by (facts self.now) up }
    {
        self.is_stopping && has_come(self.ending.term_at(), up)
    }

    fn due(&self, up: u64) -> Option<Act>
        ensures { result ≡ due_by (facts self.now) up }
    {
        if self.awaited.is_some() {
            return None;
        }
        match self.child {
            None if self.may_spawn(up) => Some(Act::Spawn {
                run: self.runs + 1,
                conn: self.waiting.first(),
            }),
            None => None,
            Some(child) if self.may_kill(up) => Some(Act::Kill { run: child.run }),
            Some(child) if self.may_term(up) => Some(Act::Term { run: child.run }),
            Some(_) => None,
        }
    }

    fn order(&mut self, act: Act, up: u64)
        requires { up ≤ MAX_UP }
        ensures { facts self.new ≡ facts_after (Ordered act) up (facts self.old) }
    {
        match act {
            Act::Spawn { run, .. } => {
                self.runs = run;
                self.new_demand = None;
                self.throttle.ordered(up);
                self.ending.next_run();
                self.is_ordered_to_end = false;
                self.is_stopping = false;
            }
            Act::Term { .. } => {
                self.ending.termed_at(up);
                self.is_ordered_to_end = true;
            }
            Act::Kill { .. } => self.is_ordered_to_end = true,
            Act::Close { .. } | Act::Gone => return,
        }
        self.awaited = Some(act);
    }

    /// Gives the order that is due, if there is one.
    pub fn next_order(&mut self, up: u64) -> Option<Act>
        requires { up ≤ MAX_UP }
        ensures due { result ≡ due_by (facts self.old) up }
        ensures facts { facts self.new ≡ facts_after_order result up (facts self.old) }
    {
        let act = self.due(up)?;
        self.order(act, up);
        Some(act)
    }

    /// The next time at which the clock alone may make an order due.
    pub fn next_moment(&self, up: u64) -> Option<u64>
        requires { up ≤ MAX_UP }
        ensures { result ≡ next_by (facts self.now) up }
    {
        let of_run = match self.child {
            None => None,
            Some(_) => self.ending.next_moment(up),
        };
        sooner(
            self.interval.next_moment(up),
            sooner(self.throttle.next_moment(up), of_run),
        )
    }
}

/// Whether there is a time, and it is over.
fn has_come(moment: Option<u64>, up: u64) -> bool
    ensures { result ≡ has_come moment up }
{
    match moment {
        None => false,
        Some(moment) => moment <= up,
    }
}
