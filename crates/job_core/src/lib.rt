//! One job's decisions: which events it refuses, and what it orders next. It keeps no past, but the facts that decide:
//! for every past whose facts it keeps, its answers are those of the definitions, which search the past.
#![tactic(auto)]

ghost use Rattle.std.specs.Prelude.{◌≡◌, ◌+◌, ◌%◌, ◌^◌, ◌≤◌, [], ◌∷◌, IfOk, OnOk, OnErr, None, slice_get};
ghost use Rattle.std.specs.Option.{option_map};
ghost use Rattle.history_model.specs.declared.TheConstants.{MAX_CONNECTIONS};
ghost use Rattle.history_model.specs.Items.{History, Loaded};
ghost use Rattle.history_model.specs.Clock as clock;
ghost use Rattle.history_model.specs.Runs as runs;
ghost use Rattle.history_model.specs.Demands.{waiting, latest_demand};
ghost use Rattle.history_model.specs.Refusals.{refusal_of};
ghost use Rattle.history_model.specs.FactsOfPast.{Keeps, reply, ordered};
ghost use Rattle.history_model.specs.Due.{due};
ghost use Rattle.history_model.specs.Moments as moments;
ghost use Rattle.history_model.specs.NextMomentByFacts.{next_by};
ghost use Rattle.history_model.specs.Reasons.{reasons_of, spawns_from, path_that_holds};

mod calendar;
mod job;
mod paths;

use history_model::definition::Def;
use history_model::{Act, DemandKind, JobItem, MAX_UP, Obs, Reading, Reasons, Refusal, ShownJob};
use job::Job;
pub use job::Moments;
use std::alloc::{AllocError, Global};
use std::marker::Model;

/// What happens to a job: a clock reading, an observation of a path, or an item of its own.
#[derive(Clone, Copy)]
pub enum JobEvent<'a> {
    /// The clock, and whether a calendar entry matches a minute that it crossed.
    Read(Reading, bool),
    /// What was seen at a path.
    Saw(&'a str, Obs),
    Item(JobItem),
}

/// What a core keeps.
#[derive(Drop)]
struct Held {
    job: Job,
    decided: u64,
}

/// One loaded job: to a contract, the facts of its past, and how often it was asked for its order. It holds a pointer to what it
/// keeps, so a core is small, and quick to move.
#[derive(Drop)]
pub struct JobCore {
    held: Box<Held>,
}

impl Model for JobCore {
    ghost use Rattle.job_core.specs.State.{CoreState};

    ghost Value = { CoreState };

    ghost use Rattle.job_core.specs.JobFields.{facts};

    ghost view = { λ c. record {
      facts = facts c.held.value.job;
      decided = c.held.value.decided;
    } };
}

impl JobCore {
    ghost use Rattle.job_core.specs.JobEvents.{item_of_event};
    ghost use Rattle.job_core.specs.JobMoments.{AreMoments};
    ghost use Rattle.history_model.specs.Shown.{shown_of};
    ghost use Rattle.job_core.specs.Memory.{NeedsNoMemory};
    ghost use Rattle.history_model.specs.Definitions.{definition};

    /// A job that was loaded at this clock reading. It takes all memory that the job ever needs, and its one refusal is of
    /// memory.
    pub fn new(alloc: Global, def: &Def, at: Reading) -> Result<JobCore, AllocError>
        requires { at.up ≤ MAX_UP }
        ensures kept { IfOk result
            (λ core. Keeps core.facts (Loaded (definition def.now) at ∷ [])) }
        ensures decided { IfOk result (λ core. core.decided ≡ 0) }
    {
        let held = Held {
            job: Job::new(alloc, def, at)?,
            decided: 0,
        };
        match Box::new(alloc, held) {
            Ok(held) => Ok(JobCore { held }),
            Err(_) => Err(AllocError),
        }
    }

    /// Takes in what happened. `now` is the clock reading before it. A refused event leaves the job as it was. The refusals, in
    /// the order in which it looks for them:
    ///
    /// - `ClockRefused`: a clock reading before `now`, or past the greatest one;
    ///
    /// - `Removing`: a start, a stop, a kickstart, an unload or a connection after an unload or a shutdown;
    ///
    /// - `NotRunning`: a stop if there is neither a child nor an awaited spawn;
    ///
    /// - `Stale`: an answer that is not awaited for that run; an exit, or a refused wait, of a run that is not the child. Also a
    ///   connection that leaves and does not wait, or one that comes to a job without sockets or with a number not above every
    ///   earlier one;
    ///
    /// - `TooManyConnections`: a connection if 64 wait.
    ///
    /// It takes no memory, and never answers `NoMemory`.
    pub fn event(&mut self, event: JobEvent<'_>, now: Reading) -> Result<(), Refusal>
        requires { now.up ≤ MAX_UP }
        ensures refused { (past : History) → Keeps self.old.facts past → now ≡ clock.now past →
            result ≡ reply (refusal_of (item_of_event event.entry) past) }
        ensures kept { (past : History) → Keeps self.old.facts past → now ≡ clock.now past →
            OnOk result (Keeps self.new.facts (item_of_event event.entry ∷ past)) }
        ensures unchanged { OnErr result (self.new ≡ self.old) }
        ensures decided { self.new.decided ≡ self.old.decided }
        ensures memory { NeedsNoMemory result }
        ensures in_range { OnOk result
            ((clock.present_after (item_of_event event.entry) now).up ≤ MAX_UP) }
    {
        self.held.job.apply(event, now)
    }

    /// What the job orders now, if anything; the order then counts as given, and none comes before it is answered.
    ///
    /// - A spawn, which carries the first waiting connection. The job is wanted by a pending start request, a connection or a level.
    ///   It is not being removed, has no child, is not throttled, and did not spend its only launch.
    ///
    /// - KILL: the child is being stopped and its time to end is over, or a `kickstart -k` asked for its end.
    ///
    /// - TERM: the child is being stopped.
    ///
    /// KILL and TERM are not given again after an ok, and after a refusal not within a second.
    pub fn decide(&mut self, now: Reading) -> Option<Act>
        requires { now.up ≤ MAX_UP }
        ensures due { (past : History) → Keeps self.old.facts past → now ≡ clock.now past →
            result ≡ due past }
        ensures kept { (past : History) → Keeps self.old.facts past → now ≡ clock.now past →
            Keeps self.new.facts (ordered result past) }
        ensures decided { self.new.decided ≡ (self.old.decided + 1) % 2 ^ 64 }
    {
        let held = &mut *self.held;
        held.decided = held.decided.wrapping_add(1);
        held.job.next_order(now.up)
    }

    /// How often `decide` was called; after the greatest number comes 0.
    pub fn decided(&self) -> u64
        ensures { result ≡ self.now.decided }
    {
        self.held.decided
    }

    /// The next time at which the clock alone may make an order due, by the interval, the throttle, the time to end, or a refused
    /// order. It does not consider the calendar.
    pub fn next_moment(&self, now: Reading) -> Option<u64>
        requires { now.up ≤ MAX_UP }
        ensures next { (past : History) → Keeps self.now.facts past → now ≡ clock.now past →
            result ≡ moments.next_moment past }
        // By what is kept of the job, so that an index of wake-up times need name no past.
        ensures known { result ≡ next_by self.now.facts now.up }
    {
        self.held.job.next_moment(now.up)
    }

    /// What keeps the next spawn from being due, and what wants the job: all that holds. It takes no memory, and changes nothing.
    pub fn reasons(&self, now: Reading) -> Reasons
        ensures { (past : History) → Keeps self.now.facts past → now ≡ clock.now past →
            result ≡ reasons_of past }
    {
        self.held.job.reasons(now.up)
    }

    /// The time, in milliseconds of `up`, from which a clock reading makes the spawn due if only the clock goes on and no
    /// calendar entry fires. It is the throttle's end, or the next end of the interval if nothing wants the job before. None if
    /// the clock alone never makes it due. It takes no memory, and changes nothing.
    pub fn spawns_from(&self, now: Reading) -> Option<u64>
        requires { now.up ≤ MAX_UP }
        ensures { (past : History) → Keeps self.now.facts past → now ≡ clock.now past →
            result ≡ spawns_from past }
    {
        self.held.job.spawns_from(now.up)
    }

    /// From when on TERM and KILL are due for the child's run, and when the interval is over, if only the clock goes on. It takes
    /// no memory, and changes nothing.
    pub fn moments(&self, now: Reading) -> Moments
        requires { now.up ≤ MAX_UP }
        ensures { (past : History) → Keeps self.now.facts past → now ≡ clock.now past →
            AreMoments past result }
    {
        self.held.job.moments(now.up)
    }

    /// What made the pending start request: the newest event that makes one and that no successful spawn followed. None if none
    /// is pending. It takes no memory, and changes nothing.
    pub fn latest_demand(&self) -> Option<DemandKind>
        ensures { (past : History) → Keeps self.now.facts past → result ≡ latest_demand past }
    {
        self.held.job.latest_demand()
    }

    /// The path that holds the job wanted. It is the first of `PathState`, in the order of the definition, that was last seen as
    /// its condition wants it. Else it is the first of `QueueDirectories` that was last seen with something in it. None if none
    /// of them holds. It takes no memory, and changes nothing.
    pub fn path_that_holds(&self) -> Option<&str>
        ensures { (past : History) → Keeps self.now.facts past →
            option_map (λ path. path.now) result ≡ path_that_holds past }
    {
        self.held.job.path_that_holds()
    }

    /// What is shown of the job.
    pub fn shown(&self) -> ShownJob
        ensures { (past : History) → Keeps self.now.facts past → result ≡ shown_of past }
    {
        self.held.job.shown()
    }

    /// Whether an unload or a shutdown was asked.
    pub fn is_removing(&self) -> bool
        ensures { (past : History) → Keeps self.now.facts past → result ≡ runs.is_removed past }
    {
        self.held.job.is_removing()
    }

    /// Whether the job is being removed, and nothing of it runs.
    pub fn is_gone(&self) -> bool
        ensures { (past : History) → Keeps self.now.facts past → result ≡ runs.is_gone past }
    {
        self.held.job.is_gone()
    }

    /// The waiting connection at a position, counted from 0. There are at most 64.
    pub fn connection(&self, position: usize) -> Option<u64>
        ensures value { (past : History) → Keeps self.now.facts past →
            result ≡ slice_get (waiting past) position }
        ensures few { MAX_CONNECTIONS ≤ position → result ≡ None }
    {
        self.held.job.connection(position)
    }
}
