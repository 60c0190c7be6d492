//! What is asked of the table, which changes nothing.

ghost use Rattle.std.specs.Prelude.{◌≡◌, true, false, ◌++◌, List, Some, None, IfOk, IfErr, OnOk, codes};
ghost use Rattle.std.specs.List.{flat_map};
ghost use Rattle.std.specs.String.{string_bytes};
ghost use Rattle.history_model.specs.declared.Reading.{Reading};
ghost use Rattle.history_model.specs.declared.Refusal.TheVariants.{NoMemory};
ghost use Rattle.history_model.specs.Machine.{Job, State, ListJobs, PrintJob, past_of};
ghost use Rattle.history_model.specs.Acceptance.{refusal_in};
ghost use Rattle.loaded_jobs.specs.TableOutcomes.{IsReplyText, Means};
ghost use Rattle.history_model.specs.Texts.{line_text, shown_text, printed};
ghost use Rattle.history_model.specs.Items.{History};
ghost use Rattle.history_model.specs.FactsOfPast.{Keeps};
ghost use Rattle.history_model.specs.Shown.{shown_of};
ghost use Rattle.history_model.specs.News.{have_calendars};
ghost use Rattle.loaded_jobs.specs.StandsFor.{KeepsJobs, KeepsState, is_none};
ghost use Rattle.loaded_jobs.specs.Minutes.{has_calendars};
ghost use Rattle.loaded_jobs.specs.NextMoments.{IsNextUp};
ghost use Rattle.loaded_jobs.specs.JobSlots.{rows};

use crate::all_job_slots::{all_gone, is_some_with_calendar};
use crate::gone_jobs::Gone;
use crate::held_slot::HeldSlot;
use crate::jobs::Jobs;
use crate::settings::is_disabled;
use crate::texts::{job, line};
use history_model::{Order, Reading, Refusal, is_label};
use std::alloc::{AllocError, Global};

impl Jobs {
    ghost use Rattle.loaded_jobs.specs.Sound.{seen_table, IsSound, IsWhole};

    /// The last clock reading.
    pub fn reading(&self) -> Reading
        ensures { result ≡ (seen_table self.now).reading }
    {
        self.reading
    }

    /// The orders that the last event gave, in byte order of labels.
    pub fn orders(&self) -> &[Order]
        ensures { result.now ≡ (seen_table self.now).orders }
    {
        &self.orders
    }

    /// How many jobs the last event visited.
    pub fn visited(&self) -> u32
        ensures { result ≡ (seen_table self.now).visited }
    {
        self.visited
    }

    /// Whether a shutdown was accepted.
    pub fn is_shutting_down(&self) -> bool
        ensures { result ≡ (seen_table self.now).is_shutting_down }
    {
        self.is_shutting_down
    }

    /// Whether no job is loaded.
    pub fn is_empty(&self) -> bool
        ensures { (s : State) → KeepsState (seen_table self.now) s → result ≡ is_none s.jobs }
    {
        all_gone(&self.job_slots)
    }

    /// Whether a loaded job has calendar entries. Unless a job went at the last event, no job is looked at.
    pub fn has_calendars(&self) -> bool
        requires { IsWhole self.now }
        ensures jobs { (s : State) → KeepsState (seen_table self.now) s → result ≡ have_calendars s.jobs }
        ensures rows { result ≡ has_calendars (seen_table self.now).rows }
    {
        match self.gone {
            Gone::Nobody => self.has_calendars,
            _ => is_some_with_calendar(&self.job_slots),
        }
    }

    /// The least of the loaded jobs' next wake-up times; none, if no job has one.
    pub fn next_up(&self) -> Option<u64>
        requires { IsWhole self.now }
        ensures { (s : State) → KeepsState (seen_table self.now) s → IsNextUp s.jobs result }
    {
        let (_job, moment) = self.index.timers.least()?;
        Some(moment)
    }

    /// The text of `list`: a line of heads, then a line for each loaded job.
    pub fn list(&self, alloc: Global) -> Result<String, Refusal>
        requires { IsSound self.now }
        ensures text { IfOk result (λ text. IsReplyText ListJobs (seen_table self.now) (string_bytes text)) }
        ensures memory { IfErr result (λ refusal. refusal ≡ NoMemory) }
    {
        match list(alloc, &self.job_slots) { // for the proof
            Ok(text) => Ok(text),
            Err(_) => Err(Refusal::NoMemory),
        }
    }

    /// The text of `print`: what is shown of the one job with this label.
    pub fn print(&self, alloc: Global, label: &str) -> Result<String, Refusal>
        requires { IsSound self.now }
        ensures text { IfOk result (λ text. (s : State) → KeepsState (seen_table self.now) s →
            (refusal_in s (PrintJob label.now) ≡ None)
            × (string_bytes text ≡ printed s label.now (past_of s label.now))) }
        ensures refused { IfErr result (λ refusal. Means refusal ((s : State) →
            KeepsState (seen_table self.now) s → refusal_in s (PrintJob label.now) ≡ Some refusal)) }
    {
        if !is_label(label) {
            return Err(Refusal::BadRequest);
        }
        let Some(job_slot) = self.here(label) else {
            return Err(Refusal::NoSuchJob);
        };
        let disabled = is_disabled(&self.settings, label, job_slot.def.disabled());
        match job(alloc, job_slot.core.shown(), label, disabled) { // for the proof
            Ok(text) => Ok(text),
            Err(_) => Err(Refusal::NoMemory),
        }
    }
}

/// A line of heads, then a line for each job that is not gone.
fn list(alloc: Global, job_slots: &[HeldSlot]) -> Result<String, AllocError>
    ensures { IfOk result (λ text. (at : Reading) (jobs : List Job) →
        KeepsJobs at (rows job_slots.now) jobs →
        string_bytes text ≡ codes "PID\tStatus\tLabel\n" ++ flat_map shown_text jobs) }
{
    let mut text = String::new(alloc);
    text.push_str("PID\tStatus\tLabel\n")?;
    for job_slot in job_slots {
        add_line(alloc, &mut text, job_slot)?;
    }
    Ok(text)
}

/// Adds the line of a job, unless it was removed.
fn add_line(alloc: Global, text: &mut String, job_slot: &HeldSlot) -> Result<(), AllocError>
    ensures going { job_slot.now.has_gone ≡ true →
        OnOk result (string_bytes text.new ≡ string_bytes text.old) }
    ensures shown { (past : History) → job_slot.now.has_gone ≡ false →
        Keeps job_slot.now.core.facts past →
        OnOk result (string_bytes text.new
        ≡ string_bytes text.old ++ line_text (shown_of past) job_slot.now.def.label) }
{
    if job_slot.has_gone() {
        return Ok(());
    }
    let job_slot = job_slot.lent();
    let shown = line(alloc, job_slot.core.shown(), job_slot.def.label())?;
    text.push_str(shown.as_str())
}
