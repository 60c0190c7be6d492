//! What happens to the loaded jobs.

ghost use Rattle.std.specs.Prelude.{◌≡◌, ◌≤◌, Ok, Err, IfOk, IfErr, true};
ghost use Rattle.history_model.specs.declared.TheConstants.{MAX_WALL};
ghost use Rattle.history_model.specs.Acceptance.{is_received};
ghost use Rattle.history_model.specs.Refusals.{is_clock_refused};
ghost use Rattle.history_model.specs.Items.{Answered};
ghost use Rattle.history_model.specs.Machine.{OfJob, ShutDown, Observation};
ghost use Rattle.history_model.specs.JobItems.{item_of};
ghost use Rattle.history_model.specs.declared.Refusal.TheVariants.{NoMemory};
ghost use Rattle.loaded_jobs.specs.Goes.{Goes, GoesUnstored, GoesByReading};
ghost use Rattle.loaded_jobs.specs.Minutes.{AreMinutes, has_calendars};
ghost use Rattle.loaded_jobs.specs.Tables.{label_of};
ghost use Rattle.loaded_jobs.specs.Begun.{IsBegun};
ghost use Rattle.job_core.specs.Memory.{NeedsNoMemory};

use crate::job_slot::AffectedJobs;
use crate::jobs::Jobs;
use crate::places::{place_of, place_of_number};
use history_model::{
    Answer, Ask, CivilMinute, JobItem, JobNo, MAX_UP, MAX_WALL, Obs, Reading, Refusal, is_label,
};
use std::alloc::Global;

impl Jobs {
    ghost use Rattle.loaded_jobs.specs.Sound.{seen_table, IsWhole};
    ghost use Rattle.loaded_jobs.specs.Alike.{IsAlike};

    /// Delivers to the job with this label what happened to it, then asks it.
    pub fn receive(&mut self, label: &str, item: JobItem) -> Result<(), Refusal>
        requires { IsWhole self.old }
        ensures goes { Goes (OfJob label.now (item_of item)) (seen_table self.old) result (seen_table self.new) }
        ensures memory { NeedsNoMemory result }
        ensures whole { IsWhole self.new }
    {
        if !is_label(label) || !is_received(item) {
            return Err(Refusal::BadRequest);
        }
        self.begin();
        let found = place_of(&self.job_slots, label);
        self.tell(found, item)
    }

    /// Delivers to the job with this number the outside's answer to an order, then asks it. Its place is known: no label is
    /// looked for.
    pub fn receive_answer(&mut self, number: JobNo, answer: Answer) -> Result<(), Refusal>
        requires { IsWhole self.old }
        ensures goes { Goes (OfJob (label_of (seen_table self.old).names number) (Answered answer)) (seen_table self.old) result (seen_table self.new) }
        ensures memory { NeedsNoMemory result }
        ensures whole { IsWhole self.new }
    {
        let item = JobItem::Answered(answer);
        if !is_label(self.label(number)) || !is_received(item) {
            return Err(Refusal::BadRequest);
        }
        self.begin();
        let found = place_of_number(&self.job_slots, &self.index.places, number);
        self.tell(found, item)
    }

    /// Removes the job with this label. No setting is written, so the store is not asked.
    pub fn unload(&mut self, label: &str) -> Result<(), Refusal>
        requires { IsWhole self.old }
        ensures goes { GoesUnstored label.now (seen_table self.old) result (seen_table self.new) }
        ensures memory { NeedsNoMemory result }
        ensures whole { IsWhole self.new }
        ensures alike { IsAlike self.old self.new }
    {
        if !is_label(label) {
            return Err(Refusal::BadRequest);
        }
        self.begin();
        let found = place_of(&self.job_slots, label);
        self.tell(found, JobItem::Asked(Ask::Unload))
    }

    /// Takes in an observation of a path.
    pub fn saw(&mut self, path: &str, obs: Obs)
        requires { IsWhole self.old }
        ensures goes { Goes (Observation path.now obs) (seen_table self.old) (Ok tt) (seen_table self.new) }
        ensures whole { IsWhole self.new }
    {
        self.begin();
        self.ask_touched(AffectedJobs::Observation(path, obs));
    }

    /// Removes every job.
    pub fn shut_down(&mut self) -> Result<(), Refusal>
        requires { IsWhole self.old }
        ensures goes { Goes ShutDown (seen_table self.old) result (seen_table self.new) }
        ensures memory { NeedsNoMemory result }
        ensures whole { IsWhole self.new }
    {
        if self.is_shutting_down {
            return Err(Refusal::ShuttingDown);
        }
        self.begin();
        self.ask_touched(AffectedJobs::Shutdown);
        self.is_shutting_down = true;
        Ok(())
    }

    /// Takes in a clock reading.
    pub fn clock(&mut self, alloc: Global, at: Reading) -> Result<(), Refusal>
        requires { IsWhole self.old }
        ensures goes { GoesByReading at (seen_table self.old) result (seen_table self.new) }
        ensures memory { result ≡ Err NoMemory → has_calendars (seen_table self.old).rows ≡ true }
        ensures whole { IsWhole self.new }
    {
        if is_clock_refused(self.reading, at) {
            return Err(Refusal::ClockRefused);
        }
        self.begin();
        let minutes = self.crossed(alloc, at)?;
        self.gone = self.advance(at, &minutes);
        Ok(())
    }

    /// The civil minutes that a clock reading crosses, or none if no loaded job has calendar entries.
    fn crossed(&self, alloc: Global, at: Reading) -> Result<Vec<CivilMinute>, Refusal>
        requires begun { IsBegun self.now }
        requires in_range { at.wall ≤ MAX_WALL }
        ensures minutes { IfOk result (λ minutes. AreMinutes (seen_table self.now) at minutes.items) }
        ensures memory { IfErr result (λ refusal. (refusal ≡ NoMemory)
            × (has_calendars (seen_table self.now).rows ≡ true)) }
    {
        if !self.has_calendars {
            return Ok(Vec::new(alloc));
        }
        match self.zone.crossed(alloc, self.reading.wall, at.wall) { // for the proof
            Ok(minutes) => Ok(minutes),
            Err(_) => Err(Refusal::NoMemory),
        }
    }
}

/// Whether a clock reading falls, or is past a limit.
pub fn is_clock_refused(before: Reading, at: Reading) -> bool
    ensures { result ≡ is_clock_refused before at }
{
    at.up < before.up || at.up > MAX_UP || at.wall > MAX_WALL
}

/// Whether a call on one job brings the item. A PID is not 0.
fn is_received(item: JobItem) -> bool
    ensures { result ≡ is_received (item_of item) }
{
    match item {
        JobItem::Asked(Ask::Unload | Ask::Shutdown) => false,
        JobItem::Answered(Answer::Spawned { run: _run, pid }) => pid > 0,
        _ => true,
    }
}
