//! What comes next in byte order: a job with a child, a listed path.

ghost use Rattle.std.specs.Prelude.{◌≡◌, true, false, List, is_some, map};
ghost use Rattle.std.specs.Option.{option_map};
ghost use Rattle.history_model.specs.declared.Reading.{Reading};
ghost use Rattle.history_model.specs.Items.{History};
ghost use Rattle.history_model.specs.Runs.{child};
ghost use Rattle.history_model.specs.FactsOfPast.{Keeps};
ghost use Rattle.history_model.specs.Machine.{Job, State};
ghost use Rattle.history_model.specs.MachineLaws.{AreInOrder};
ghost use Rattle.loaded_jobs.specs.StandsFor.{KeepsJobs, KeepsState};
ghost use Rattle.loaded_jobs.specs.JobSlots.{name, rows};
ghost use Rattle.loaded_jobs.specs.Nearest.{IsNearestOf, IsNextChild, listed_paths, with_child};
ghost use Rattle.loaded_jobs.specs.Tables.{labels_in};

use crate::held_slot::HeldSlot;
use crate::jobs::Jobs;
use crate::places::{place_before, place_here};
use crate::triggers::path_after;
use history_model::JobNo;

impl Jobs {
    ghost use Rattle.loaded_jobs.specs.Sound.{seen_table, IsSound, IsWhole};

    /// The next job with a child.
    pub fn child_after(&self, text: &str) -> Option<(&str, JobNo, u64)>
        requires { IsSound self.now }
        ensures { (s : State) → KeepsState (seen_table self.now) s →
            IsNextChild (seen_table self.now) text.now s result }
    {
        let label = label_after(&self.job_slots, text)?;
        let place = place_here(&self.job_slots, label)?;
        let job_slot = self.job_slots[place].lent();
        Some((label, job_slot.number, job_slot.core.shown().runs))
    }

    /// The next path of all that the loaded definitions list.
    pub fn path_after(&self, text: &str) -> Option<&str>
        requires { IsWhole self.now }
        ensures { (s : State) → KeepsState (seen_table self.now) s →
            IsNearestOf text.now (listed_paths s.jobs) (option_map (λ path. path.now) result) }
    {
        path_after(&self.triggers, &self.index.places, &self.job_slots, text)
    }
}

/// The label of the next job with a child: the first label after the text whose job has one.
fn label_after<'x>(job_slots: &'x [HeldSlot], text: &str) -> Option<&'x str>
    requires { AreInOrder (labels_in (map name job_slots.now)) }
    ensures { (at : Reading) (jobs : List Job) → KeepsJobs at (rows job_slots.now) jobs →
        IsNearestOf text.now (with_child jobs) (option_map (λ label. label.now) result) }
{
    let mut place = place_before(job_slots, text);
    while place < job_slots.len() {
        let job_slot = &job_slots[place];
        if has_child(job_slot) {
            return Some(job_slot.lent().def.label());
        }
        place += 1;
    }
    None
}

/// Whether the job is not gone and has a child.
fn has_child(job_slot: &HeldSlot) -> bool
    ensures going { job_slot.now.has_gone ≡ true → result ≡ false }
    ensures child { (past : History) → job_slot.now.has_gone ≡ false →
        Keeps job_slot.now.core.facts past → result ≡ is_some (child past) }
{
    !job_slot.has_gone() && job_slot.lent().core.shown().pid.is_some()
}
