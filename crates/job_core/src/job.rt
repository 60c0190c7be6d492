//! The facts that one job keeps of its past, and what they decide.

ghost use Rattle.std.specs.Prelude.{Some, None, cond, is_some, slice_get, ◌&&◌, ◌||◌, not, ◌*◌, ◌≡◌, false, ◌+◌, ◌%◌, ◌^◌, ◌≤◌, [], ◌∷◌, IfOk, OnErr, ◌<◌};
ghost use Rattle.history_model.specs.declared.TheConstants.{MAX_CONNECTIONS};
ghost use Rattle.history_model.specs.Items.{Loaded, Read, Saw, Asked, Came, Left, Answered, WaitRefused};
ghost use Rattle.history_model.specs.declared.reasons.DemandKind.TheVariants as kinds;
ghost use Rattle.history_model.specs.ByFacts.{Follows};
ghost use Rattle.history_model.specs.DueByFacts.{is_busy_by};

mod events;
mod moments;
mod orders;
mod reasons;

use crate::JobEvent;
use crate::calendar::Calendar;
use crate::paths::{Queues, Watches};
use conditions::Conditions;
use history_model::definition::Def;
use history_model::{
    Act, Answer, Child, DemandKind, JobItem, JobState, MAX_UP, MAX_WALL, Obs, Reading, Refusal,
    ShownJob,
};
pub use moments::Moments;
use pace::{Ending, Interval, Signal, Throttle};
use socket_demand::Waiting;
use std::alloc::{AllocError, Global};

/// The facts that one loaded job keeps of its past.
#[derive(Drop)]
pub struct Job {
    run_at_load: bool,
    launch_only_once: bool,
    has_sockets: bool,
    disabled: bool,
    calendar: Calendar,
    conditions: Conditions,
    watches: Watches,
    queues: Queues,
    waiting: Waiting,
    last_number: Option<u64>,
    interval: Interval,
    throttle: Throttle,
    ending: Ending,
    is_ordered_to_end: bool,
    runs: u64,
    child: Option<Child>,
    awaited: Option<Act>,
    demand: Option<DemandKind>,
    new_demand: Option<DemandKind>,
    spawned_before: bool,
    is_stopping: bool,
    is_removing: bool,
}

impl Job {
    ghost use Rattle.history_model.specs.JobItems.{item_of};
    ghost use Rattle.job_core.specs.JobEvents.{item_of_event};
    ghost use Rattle.history_model.specs.Definitions.{definition};
    ghost use Rattle.history_model.specs.Shown.{shown_by, state_by};
    ghost use Rattle.job_core.specs.JobFields.{facts};
    ghost use Rattle.history_model.specs.Facts.{facts_of};

    /// A job that was loaded at this clock reading.
    pub fn new(alloc: Global, def: &Def, at: Reading) -> Result<Job, AllocError>
        requires { at.up ≤ MAX_UP }
        ensures { IfOk result (λ job. facts job ≡ facts_of (Loaded (definition def.now) at ∷ [])) }
    {
        let demand = demand_at_load(def);
        let calendar = Calendar::new(alloc, def.calendar())?;
        let conditions = Conditions::new(alloc, def)?;
        let watches = Watches::new(alloc, def.watch_paths())?;
        let queues = Queues::new(alloc, def.queue_directories())?;
        let waiting = Waiting::new(alloc)?;
        let interval = Interval::new(def.start_interval(), at.up);
        let throttle = Throttle::new(def.throttle_interval());
        let ending = Ending::new(def.exit_time_out());
        Ok(Job {
            run_at_load: def.run_at_load(),
            launch_only_once: def.launch_only_once(),
            has_sockets: def.has_sockets(),
            disabled: def.disabled(),
            calendar,
            conditions,
            watches,
            queues,
            waiting,
            last_number: None,
            interval,
            throttle,
            ending,
            is_ordered_to_end: false,
            runs: 0,
            child: None,
            awaited: None,
            demand,
            new_demand: demand,
            spawned_before: false,
            is_stopping: false,
            is_removing: false,
        })
    }

    /// Takes in what happened. `now` is the clock reading before it.
    pub fn apply(&mut self, event: JobEvent<'_>, now: Reading) -> Result<(), Refusal>
        requires { now.up ≤ MAX_UP }
        ensures follows { Follows (facts self.old) (item_of_event event.entry) now result
            (facts self.new) }
        ensures unchanged { OnErr result (self.new ≡ self.old) }
    {
        match event {
            JobEvent::Read(at, calendar) => self.read(at, calendar, now),
            JobEvent::Saw(path, obs) => self.saw(path, obs, now),
            JobEvent::Item(item) => self.apply_item(item, now),
        }
    }

    /// Takes in an item of the job.
    fn apply_item(&mut self, item: JobItem, now: Reading) -> Result<(), Refusal>
        requires { now.up ≤ MAX_UP }
        ensures follows { Follows (facts self.old) (item_of item) now result (facts self.new) }
        ensures unchanged { OnErr result (self.new ≡ self.old) }
    {
        match item {
            JobItem::Asked(ask) => self.asked(ask, now),
            JobItem::Came(conn) => self.came(conn, now),
            JobItem::Left(conn) => self.left(conn, now),
            JobItem::Answered(answer) => self.answered(answer, now),
            JobItem::Ended { run, how } => self.ended(run, how, now),
            JobItem::WaitRefused { run } => self.wait_refused(run, now),
        }
    }

    /// Takes in the answer to an order.
    fn answered(&mut self, answer: Answer, now: Reading) -> Result<(), Refusal>
        requires { now.up ≤ MAX_UP }
        ensures follows { Follows (facts self.old) (Answered answer) now result (facts self.new) }
        ensures unchanged { OnErr result (self.new ≡ self.old) }
    {
        match answer {
            Answer::Spawned { run, pid } => self.spawned(run, pid, now),
            Answer::SpawnRefused { run } => self.spawn_refused(run, now),
            Answer::Termed { run, ok } => self.termed(run, ok, now),
            Answer::Killed { run, ok } => self.killed(run, ok, now),
        }
    }

    /// Whether there is a child or an awaited spawn.
    fn is_busy(&self) -> bool
        ensures { result ≡ is_busy_by (facts self.now) }
    {
        self.child.is_some() || matches!(self.awaited, Some(Act::Spawn { .. }))
    }

    /// What is shown of the job.
    pub fn shown(&self) -> ShownJob
        ensures { result ≡ shown_by (facts self.now) }
    {
        ShownJob {
            state: self.state(),
            pid: self.child.map(|c| c.pid),
            runs: self.runs,
            last_end: self.conditions.last_end().map(|e| e.how),
            demand: self.demand.is_some(),
            connections: self.waiting.len(),
        }
    }

    /// What the job is doing.
    fn state(&self) -> JobState
        ensures { result ≡ state_by (facts self.now) }
    {
        if self.is_removing {
            JobState::Removing
        } else if matches!(self.awaited, Some(Act::Spawn { .. })) {
            JobState::Spawning
        } else if self.child.is_none() {
            JobState::Idle
        } else if self.is_stopping || self.ending.is_struck() {
            JobState::Stopping
        } else {
            JobState::Running
        }
    }

    /// Whether an unload or a shutdown was asked.
    pub fn is_removing(&self) -> bool
        ensures { result ≡ (facts self.now).is_removing }
    {
        self.is_removing
    }

    /// Whether the job is being removed, and nothing of it runs.
    pub fn is_gone(&self) -> bool
        ensures { result ≡ ((facts self.now).is_removing && not (is_busy_by (facts self.now))) }
    {
        self.is_removing && !self.is_busy()
    }

    /// The waiting connection at a position, counted from 0.
    pub fn connection(&self, position: usize) -> Option<u64>
        ensures value { result ≡ slice_get (facts self.now).queue position }
        ensures few { MAX_CONNECTIONS ≤ position → result ≡ None }
    {
        self.waiting.get(position)
    }
}

/// The start request that the load makes: it makes one by `RunAtLoad`, or by the condition `SuccessfulExit`, which implies it.
fn demand_at_load(def: &Def) -> Option<DemandKind>
    ensures { result
        ≡ cond (def.now.run_at_load || is_some def.now.successful_exit) (Some kinds.Load) None }
{
    if def.run_at_load() || def.successful_exit().is_some() {
        Some(DemandKind::Load)
    } else {
        None
    }
}
