//! The step of the machine: an event of a journal goes to the table, with the outside's answers that the line has.

ghost use Rattle.std.specs.Prelude.{◌≡◌, true, false, [], OnErr};
ghost use Rattle.history_model.specs.Machine.{State, UnloadJob};
ghost use Rattle.history_model.specs.Step.{step};
ghost use Rattle.loaded_jobs.specs.StandsFor.{KeepsState};
ghost use Rattle.loaded_jobs.specs.Loads.{refusal_outside};
ghost use Rattle.loaded_jobs.specs.SettingChanges.{set_of};
ghost use Rattle.job_table.specs.LoadOfBytes.{load_of_bytes};
ghost use Rattle.loaded_jobs.specs.Counts.{Counts};
ghost use Rattle.loaded_jobs.specs.Numbers.{KeepsNames};
ghost use Rattle.loaded_jobs.specs.Room.{HasSameRoom};
ghost use Rattle.loaded_jobs.specs.Touching.{SparesOthers};
ghost use Rattle.job_core.specs.Memory.{NeedsNoMemory};
ghost use Rattle.job_table.specs.Taking.{machine_event, Takes, NamesGoOn, KeepsNumbers, WantsMemory, Spares};
ghost use Rattle.job_table.specs.declared.take.Taken.TheVariants.{Made};

use crate::JobTable;
use history_model::{Event, Refusal, Text};
use job_defs::{Def, loaded};
use std::alloc::Global;

/// What an event gave that was accepted.
#[derive(Drop)]
pub enum Taken {
    /// A step was made: `last_step` lends its orders. The text is a load's, else empty.
    Made(Text),
    /// A question was answered by this text, and nothing was done: what `last_step` lends is not of this event.
    Told(Text),
}

/// A step that has no text.
fn made(alloc: Global) -> Taken
    ensures { result ≡ Made [] }
{
    Taken::Made(Text::new(String::new(alloc)))
}

/// What the outside refuses of the load of a definition, if it answers so: the sockets of a job that has any, then the store, if a
/// setting is written.
pub fn refused_outside(def: &Def, writes_setting: bool, bind: bool, store: bool) -> Option<Refusal>
    ensures { result ≡ refusal_outside def.now writes_setting bind store }
{
    if def.has_sockets() && !bind {
        return Some(Refusal::SocketRefused);
    }
    if writes_setting && !store {
        return Some(Refusal::StoreRefused);
    }
    None
}

impl JobTable {
    /// The machine's step on an event of a journal. Refusals: those of the machine, and NoMemory, after which the table
    /// represents what it represented. NoMemory comes only to a load, to a setting that is written, to a question, and to a clock
    /// reading if a loaded job has calendar entries. A refused event leaves each row. After one that was accepted each loaded job
    /// has the number that it had, and `last_step` lends the names.
    pub fn take(&mut self, alloc: Global, event: &Event<'_>) -> Result<Taken, Refusal>
        ensures takes { Takes (machine_event event.now) self.old result self.new }
        ensures names { NamesGoOn event.now result self.old self.new }
        ensures rows { OnErr result (self.new.rows ≡ self.old.rows) }
        ensures memory { WantsMemory event.now self.old result }
        ensures spares { Spares event.now result self.old self.new }
    {
        match event {
            Event::Load {
                def,
                writes_setting,
                force,
                bind,
                store,
            } => self.take_load(alloc, def.as_str(), *writes_setting, *force, *bind, *store),
            Event::Unload {
                job,
                writes_setting,
                store,
            } => self.take_unload(alloc, job.as_str(), *writes_setting, *store),
            Event::Set {
                job,
                disabled,
                store,
            } => self.take_set(alloc, job.as_str(), *disabled, false, *store),
            Event::List => Ok(Taken::Told(Text::new(self.list(alloc)?))),
            Event::Print { job } => Ok(Taken::Told(Text::new(self.print(alloc, job.as_str())?))),
            Event::Shutdown => {
                self.jobs.shut_down()?;
                Ok(made(alloc))
            }
            Event::Clock(at) => {
                self.jobs.clock(alloc, *at)?;
                Ok(made(alloc))
            }
            Event::Saw { path, obs } => {
                self.jobs.saw(path.as_str(), *obs);
                Ok(made(alloc))
            }
            Event::OfJob { job, item } => {
                self.jobs.receive(job.as_str(), *item)?;
                Ok(made(alloc))
            }
        }
    }

    /// Whether the event is a question, of which the machine's step is the state itself: who wants no text need not take it.
    #[tactic(auto, using(crate::proofs::TakingLemmas::asked_rests))]
    pub fn is_question(&self, event: &Event<'_>) -> bool
        ensures { result ≡ true → (s : State) → KeepsState self.now s →
            step s (machine_event event.now) ≡ s }
    {
        let _ = &self.jobs; // for the proof
        match event {
            Event::List | Event::Print { .. } => true,
            _ => false,
        }
    }

    /// A client loads a definition; `bind` and `store` are what the outside answers, if it is asked.
    fn take_load(
        &mut self,
        alloc: Global,
        def: &str,
        writes_setting: bool,
        force: bool,
        bind: bool,
        store: bool,
    ) -> Result<Taken, Refusal>
        ensures takes { Takes (load_of_bytes def.now writes_setting force bind store)
            self.old result self.new }
        ensures names { KeepsNumbers result self.old self.new }
        ensures rows { OnErr result (self.new.rows ≡ self.old.rows) }
        ensures counts { Counts result self.old self.new }
        ensures spared { SparesOthers (load_of_bytes def.now writes_setting force bind store)
            self.old self.new }
    {
        let ready = self.prepare_load(alloc, def.as_bytes(), writes_setting, force)?;
        if let Some(refusal) = refused_outside(ready.def(), writes_setting, bind, store) {
            return Err(refusal);
        }
        match loaded(alloc, ready.def().not_acted_on()) {
            Ok(text) => {
                self.commit_load(ready);
                Ok(Taken::Made(Text::new(text)))
            }
            Err(_) => Err(Refusal::NoMemory),
        }
    }

    /// A label's setting is to be written, and with `unload` its job removed; `store` is what the store answers.
    fn take_set(
        &mut self,
        alloc: Global,
        job: &str,
        disabled: bool,
        unload: bool,
        store: bool,
    ) -> Result<Taken, Refusal>
        ensures takes { Takes (set_of job.now disabled unload store) self.old result self.new }
        ensures names { KeepsNames result self.old self.new }
        ensures rows { OnErr result (self.new.rows ≡ self.old.rows) }
        ensures counts { Counts result self.old self.new }
        ensures spared { SparesOthers (set_of job.now disabled unload store) self.old self.new }
    {
        let ready = self.prepare_set(alloc, job, disabled, unload)?;
        if !store {
            return Err(Refusal::StoreRefused);
        }
        self.commit_set(ready);
        Ok(made(alloc))
    }

    /// The job is to be removed, with `writes_setting` its label disabled too.
    fn take_unload(
        &mut self,
        alloc: Global,
        job: &str,
        writes_setting: bool,
        store: bool,
    ) -> Result<Taken, Refusal>
        ensures takes { Takes (UnloadJob job.now writes_setting store) self.old result self.new }
        ensures names { KeepsNames result self.old self.new }
        ensures rows { OnErr result (self.new.rows ≡ self.old.rows) }
        ensures memory { writes_setting ≡ false → NeedsNoMemory result }
        ensures counts { Counts result self.old self.new }
        ensures spared { SparesOthers (UnloadJob job.now writes_setting store) self.old self.new }
        ensures room { writes_setting ≡ false → HasSameRoom self.old self.new }
    {
        if writes_setting {
            return self.take_set(alloc, job, true, true, store);
        }
        self.jobs.unload(job)?;
        Ok(made(alloc))
    }
}
