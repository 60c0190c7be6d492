//! Why one job has no spawn due.

ghost use Rattle.std.specs.Prelude.{◌≡◌, ◌≤◌};
ghost use Rattle.std.specs.Option.{option_map};
ghost use Rattle.history_model.specs.Reasons.{standing_child};
ghost use Rattle.history_model.specs.ReasonsByFacts.{path_by, wants_by, throttled_until_by, reasons_by, needs_by, spawns_from_by};

use super::Job;
use super::orders::MAX_RUNS;
use history_model::{DemandKind, MAX_UP, Reasons, StandingChild, Wants};

impl Job {
    ghost use Rattle.job_core.specs.JobFields.{facts};

    /// What wants the job.
    fn wants(&self) -> Wants
        ensures { result ≡ wants_by (facts self.now) }
    {
        Wants {
            demand: self.demand.is_some(),
            connections: self.waiting.len(),
            keep_alive: self.conditions.is_kept_alive(),
            successful_exit: self.conditions.exit_wants(),
            crashed: self.conditions.crash_wants(),
            path_state: self.conditions.path_holds(),
            queue_directories: self.queues.holds(),
        }
    }

    /// What made the pending start request.
    pub fn latest_demand(&self) -> Option<DemandKind>
        ensures { result ≡ (facts self.now).demand }
    {
        self.demand
    }

    /// The path that holds the job wanted: of `PathState`, or else a queue directory.
    pub fn path_that_holds(&self) -> Option<&str>
        ensures { option_map (λ path. path.now) result ≡ path_by (facts self.now) }
    {
        match self.conditions.path_that_holds() {
            Some(path) => Some(path),
            None => self.queues.path_that_holds(),
        }
    }

    /// The end of the throttle, if it is not over.
    fn throttled_until(&self, up: u64) -> Option<u64>
        ensures { result ≡ throttled_until_by (facts self.now) up }
    {
        let free = self.throttle.free_at();
        if up < free { Some(free) } else { None }
    }

    /// The child, and whether its end was asked for.
    fn standing_child(&self) -> Option<StandingChild>
        ensures { result ≡ option_map
            (standing_child (facts self.now).is_stopping (facts self.now).is_struck)
            (facts self.now).living_child }
    {
        match self.child {
            None => None,
            Some(child) => Some(StandingChild {
                run: child.run,
                pid: child.pid,
                is_stopped: self.is_stopping,
                is_struck: self.ending.is_struck(),
            }),
        }
    }

    /// All that keeps the next spawn from being due.
    pub fn reasons(&self, up: u64) -> Reasons
        ensures { result ≡ reasons_by (facts self.now) up }
    {
        Reasons {
            is_removing: self.is_removing,
            child: self.standing_child(),
            awaited: self.awaited,
            wants: self.wants(),
            throttled_until: self.throttled_until(up),
            is_launch_spent: self.launch_only_once && self.spawned_before,
            are_runs_spent: self.runs >= MAX_RUNS,
        }
    }

    /// Whether only an event of the job, and no reading, can bring a spawn.
    fn needs_event(&self) -> bool
        ensures { result ≡ needs_by (facts self.now) }
    {
        self.is_removing
            || self.child.is_some()
            || self.awaited.is_some()
            || (self.launch_only_once && self.spawned_before)
            || self.runs >= MAX_RUNS
    }

    /// The time from which a clock reading makes the spawn due, if nothing else happens and no calendar entry fires.
    pub fn spawns_from(&self, up: u64) -> Option<u64>
        requires { up ≤ MAX_UP }
        ensures { result ≡ spawns_from_by (facts self.now) up }
    {
        if self.needs_event() {
            return None;
        }
        let free = self.throttle.free_at();
        if self.is_wanted() {
            return Some(free);
        }
        match self.interval.next_moment(up) {
            None => None,
            Some(moment) => Some(free.max(moment)),
        }
    }
}
