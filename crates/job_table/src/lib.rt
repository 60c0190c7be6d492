//! Many jobs: the table of the loaded ones, which keeps a machine that holds, for each job, only the list of its past.
#![tactic(auto)]

ghost use Rattle.std.specs.Prelude.{◌≡◌, ◌≤◌, Bool, true, false, Some, None, Err, IsOk, IfOk, IfErr, MatchResult, length};
ghost use Rattle.std.specs.Borrow.{sem};
ghost use Rattle.std.specs.String.{string_bytes};
ghost use Rattle.std.specs.Option.{option_map};
ghost use Rattle.history_model.specs.Reasons.{reasons_of};
ghost use Rattle.history_model.specs.Clock.{definition_of};
ghost use Rattle.history_model.specs.declared.TheConstants.{MAX_UP, MAX_WALL};
ghost use Rattle.calendar_due.specs.ZoneRules.{minute_at};
ghost use Rattle.history_model.specs.Acceptance.{refusal_in};
ghost use Rattle.history_model.specs.declared.Refusal.TheVariants.{NoMemory};
ghost use Rattle.history_model.specs.Machine.{State, opened, past_of, is_disabled, ListJobs, PrintJob, OfJob, UnloadJob, ShutDown, Tick, Observation};

mod calls;
mod moments;
mod next_in_order;
mod prepared;
mod take;

use calendar_due::Zone;
use history_model::{DemandKind, JobItem, JobNo, Obs, Order, Reading, Reasons, Refusal, Setting};
pub use job_core::Moments;
use job_defs::{Def, JsonRoom};
use loaded_jobs::Jobs;
pub use loaded_jobs::{NewSetting, Ready};
use std::alloc::Global;
use std::marker::Model;
pub use take::{Taken, refused_outside};

/// The loaded jobs. To a contract, the values of a machine that it keeps.
#[derive(Drop)]
pub struct JobTable {
    jobs: Jobs,
    /// What reading a definition takes, kept from load to load.
    room: JsonRoom,
}

impl Model for JobTable {
    ghost use Rattle.loaded_jobs.specs.Tables.{Table};

    ghost Value = { Table };

    ghost use Rattle.loaded_jobs.specs.Sound.{seen_table, IsWhole};

    ghost view = { λ t. seen_table t.jobs };

    ghost invariant = { λ t. IsWhole t.jobs };
}

/// What an event gave, lent out of the table.
#[derive(Drop)]
pub struct Step<'a> {
    /// In byte order of labels.
    pub orders: &'a [Order],
    /// How many jobs were visited.
    pub visited: u32,
    table: &'a JobTable,
}

impl<'a> Step<'a> {
    ghost use Rattle.std.specs.Prelude.{is_some};
    ghost use Rattle.loaded_jobs.specs.Tables.{label_of, definition_of_number};
    ghost use Rattle.job_table.specs.Ends.{names_in};

    /// The label of the job with this number, also of one that is just gone; the empty text for a number that no job has.
    pub fn label(&self, job: JobNo) -> &'a str
        ensures { result.now ≡ label_of (names_in self.now) job }
    {
        let table = self.table;
        table.jobs.label(job)
    }

    /// The definition of the job with this number, also of one that is just gone. The caller's condition: the number is that of
    /// a job that is loaded or just gone, as in each order of the step.
    pub fn def(&self, job: JobNo) -> &'a Def
        requires { is_some (definition_of_number (names_in self.now) job) ≡ true }
        ensures { definition_of_number (names_in self.now) job ≡ Some result.now }
    {
        let table = self.table;
        table.jobs.def(job)
    }
}

impl JobTable {
    ghost use Rattle.job_table.specs.Ends.{IsAnswer, TableGoesOn, TableGoesOnUnless, AreKnown, lent_acts, names_in};
    ghost use Rattle.loaded_jobs.specs.TableOutcomes.{UnlessMemory, IsReplyText, Means};
    ghost use Rattle.job_core.specs.Memory.{NeedsNoMemory};
    ghost use Rattle.loaded_jobs.specs.StandsFor.{acts_in, is_none, KeepsState};
    ghost use Rattle.loaded_jobs.specs.Opening.{opening_refusal};
    ghost use Rattle.loaded_jobs.specs.Minutes.{has_calendars};
    ghost use Rattle.loaded_jobs.specs.Numbers.{IsNumbered};
    ghost use Rattle.loaded_jobs.specs.Waking.{spawning, demanding, holding, HasMoments};
    ghost use Rattle.loaded_jobs.specs.Triggers.{listed_in};
    ghost use Rattle.history_model.specs.JobItems.{item_of};

    /// A table with no job, opened at a clock reading in a zone, with the settings that `enable` and `disable` left. The settings
    /// are oldest first: of a label given twice the last counts. Refusals: BadRequest, if a setting's name is not a label; then
    /// ClockRefused, if the clock reading is past a limit. NoMemory is not answered.
    pub fn new(
        alloc: Global,
        reading: Reading,
        zone: Zone,
        overrides: Vec<Setting>,
    ) -> Result<JobTable, Refusal>
        ensures opened { IfOk result (λ table.
            KeepsState table
            (opened
            (record { reading = reading; zone = minute_at zone; overrides = overrides.items }))) }
        ensures refused { MatchResult result (λ _. opening_refusal reading overrides.items
            ≡ None) (λ refusal. opening_refusal reading overrides.items ≡ Some refusal) }
    {
        let jobs = Jobs::new(alloc, reading, zone, overrides)?;
        Ok(JobTable {
            jobs,
            room: JsonRoom::new(),
        })
    }

    /// The last clock reading. It is within the limits of clock readings.
    pub fn reading(&self) -> Reading
        ensures last { result ≡ self.now.reading }
        ensures up { result.up ≤ MAX_UP }
        ensures wall { result.wall ≤ MAX_WALL }
    {
        self.jobs.reading()
    }

    /// Lends what the last event gave.
    #[tactic(auto, using(loaded_jobs::proofs::NumbersLemmas::numbered, loaded_jobs::proofs::TriggerCountLemmas::triggers_held))]
    pub fn last_step(&self) -> Step<'_>
        ensures orders { lent_acts result ≡ acts_in self.now }
        ensures visited { result.visited ≡ self.now.visited }
        ensures known { AreKnown result }
        ensures names { names_in result ≡ self.now.names }
        ensures numbered { IsNumbered self.now }
        ensures triggers { self.now.reserved.held_triggers ≡ length (listed_in self.now.names) }
    {
        Step {
            orders: self.jobs.orders(),
            visited: self.jobs.visited(),
            table: self,
        }
    }

    /// Delivers to the job with this label what happened to it. The calls of `calls.rt` are this one, each for its event.
    /// Refusals: BadRequest (no label, a PID of 0, or an unload or a shutdown, which are the calls `unload` and `shutdown`),
    /// NoSuchJob, and those of the event.
    pub fn receive(&mut self, label: &str, item: JobItem) -> Result<Step<'_>, Refusal>
        ensures answer { IsAnswer (OfJob label.now (item_of item)) self.old result }
        ensures memory { NeedsNoMemory result }
        ensures known { IfOk result AreKnown }
        ensures* kept { sem 𝓛 (TableGoesOn self.entry result (OfJob label.now (item_of item))) }
    {
        self.jobs.receive(label, item)?;
        Ok(self.last_step())
    }

    /// Removes every job, each once its child has ended; after it no load is accepted. Refusal: ShuttingDown, if a shutdown
    /// was accepted before.
    pub fn shutdown(&mut self) -> Result<Step<'_>, Refusal>
        ensures answer { IsAnswer ShutDown self.old result }
        ensures memory { NeedsNoMemory result }
        ensures known { IfOk result AreKnown }
        ensures* kept { sem 𝓛 (TableGoesOn self.entry result ShutDown) }
    {
        self.jobs.shut_down()?;
        Ok(self.last_step())
    }

    /// Removes the job once its child has ended, as `unload` of launchctl(1) without `-w`: no setting is written. Refusals:
    /// BadRequest (no label), NoSuchJob, Removing.
    pub fn unload(&mut self, label: &str) -> Result<Step<'_>, Refusal>
        ensures answer { (store : Bool) →
            IsAnswer (UnloadJob label.now false store) self.old result }
        ensures memory { NeedsNoMemory result }
        ensures known { IfOk result AreKnown }
        ensures* kept { sem 𝓛 (TableGoesOn self.entry result (UnloadJob label.now false true)) }
    {
        self.jobs.unload(label)?;
        Ok(self.last_step())
    }

    /// A look at a path, which counts for the jobs that list it. It is never refused.
    pub fn saw(&mut self, path: &str, obs: Obs) -> Result<Step<'_>, Refusal>
        ensures answer { IsAnswer (Observation path.now obs) self.old result }
        ensures ok { IsOk result }
        ensures known { IfOk result AreKnown }
        ensures* kept { sem 𝓛 (TableGoesOn self.entry result (Observation path.now obs)) }
    {
        self.jobs.saw(path, obs);
        Ok(self.last_step())
    }

    /// A clock reading: milliseconds of `up`, which never fall, and seconds of `wall`. The civil minutes that it crosses are
    /// computed once, and only if a job with calendar entries is loaded. Refusals: ClockRefused, if `up` falls or one of the two
    /// is past its limit; NoMemory, only if a job with calendar entries is loaded. The table does not take in a refused clock
    /// reading.
    pub fn clock(&mut self, alloc: Global, at: Reading) -> Result<Step<'_>, Refusal>
        ensures answer { UnlessMemory result (IsAnswer (Tick at) self.old result) }
        ensures memory { result ≡ Err NoMemory → has_calendars self.old.rows ≡ true }
        ensures known { IfOk result AreKnown }
        ensures* kept { sem 𝓛 (TableGoesOnUnless self.entry result (Tick at)) }
    {
        self.jobs.clock(alloc, at)?;
        Ok(self.last_step())
    }

    /// The text of `list` of launchctl(1): for each loaded job the PID of its child, its last exit and its label. Refusal:
    /// NoMemory.
    pub fn list(&self, alloc: Global) -> Result<String, Refusal>
        ensures text { IfOk result (λ text. IsReplyText ListJobs self.now (string_bytes text)) }
        ensures memory { IfErr result (λ refusal. refusal ≡ NoMemory) }
    {
        self.jobs.list(alloc)
    }

    /// The text of `print` of launchctl(1): what one job is doing, its runs and its last end, and whether it is disabled.
    /// Refusals: BadRequest (no label), NoSuchJob; NoMemory.
    pub fn print(&self, alloc: Global, label: &str) -> Result<String, Refusal>
        ensures text { IfOk result (λ text.
            IsReplyText (PrintJob label.now) self.now (string_bytes text)) }
        ensures refused { IfErr result (λ refusal. Means refusal ((s : State) →
            KeepsState self.now s → refusal_in s (PrintJob label.now) ≡ Some refusal)) }
    {
        self.jobs.print(alloc, label)
    }

    /// What keeps the next spawn of the job with this label from being due at the last clock reading, and what wants the job: all
    /// that holds. None if no such job is loaded. It takes no memory, and changes nothing.
    pub fn reasons(&self, label: &str) -> Option<Reasons>
        ensures { (s : State) → KeepsState self.now s →
            result ≡ option_map reasons_of (past_of s label.now) }
    {
        self.jobs.reasons(label)
    }

    /// From when on TERM and KILL are due for the run of the job with this label, and when its interval is over, if only the
    /// clock goes on. The times are milliseconds of `up`. None if no such job is loaded. It takes no memory, and changes nothing.
    pub fn moments(&self, label: &str) -> Option<Moments>
        ensures { (s : State) → KeepsState self.now s → HasMoments (past_of s label.now) result }
    {
        self.jobs.moments(label)
    }

    /// The time from which a clock reading makes the spawn of the job with this label due, in milliseconds of `up`. Only the
    /// clock goes on until then, and no calendar entry fires. None if the clock alone never makes it due, and if no such job is
    /// loaded. It takes no memory, and changes nothing.
    pub fn spawns_from(&self, label: &str) -> Option<u64>
        ensures { (s : State) → KeepsState self.now s → result ≡ spawning (past_of s label.now) }
    {
        self.jobs.spawns_from(label)
    }

    /// What made the pending start request of the job with this label: the newest event that makes one and that no successful
    /// spawn followed. None if none is pending, and if no such job is loaded. It takes no memory, and changes nothing.
    pub fn latest_demand(&self, label: &str) -> Option<DemandKind>
        ensures { (s : State) → KeepsState self.now s → result ≡ demanding (past_of s label.now) }
    {
        self.jobs.latest_demand(label)
    }

    /// The path that holds the job with this label wanted. It is the first of `PathState`, in the order of the definition, that
    /// was last seen as its condition wants it. Else it is the first of `QueueDirectories` that was last seen with something in
    /// it. None if none of them holds, and if no such job is loaded. It takes no memory, and changes nothing.
    pub fn path_that_holds(&self, label: &str) -> Option<&str>
        ensures { (s : State) → KeepsState self.now s →
            option_map (λ path. path.now) result ≡ holding (past_of s label.now) }
    {
        self.jobs.path_that_holds(label)
    }

    /// Whether the label of a loaded job is disabled: its setting decides, or else its definition. None if no job with this label is loaded.
    /// It takes no memory, and changes nothing.
    pub fn is_disabled(&self, label: &str) -> Option<bool>
        ensures { (s : State) → KeepsState self.now s →
            result ≡ option_map (λ past. is_disabled s label.now (definition_of past).disabled) (past_of s label.now) }
    {
        self.jobs.is_disabled(label)
    }

    /// Whether a shutdown was accepted, after which no load is accepted. It takes no memory, and changes nothing.
    pub fn is_shutting_down(&self) -> bool
        ensures { (s : State) → KeepsState self.now s → result ≡ s.is_shutting_down }
    {
        self.jobs.is_shutting_down()
    }

    /// Whether no job is loaded.
    pub fn is_empty(&self) -> bool
        ensures { (s : State) → KeepsState self.now s → result ≡ is_none s.jobs }
    {
        self.jobs.is_empty()
    }
}
