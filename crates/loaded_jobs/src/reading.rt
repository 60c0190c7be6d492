//! A clock reading, which touches few jobs.

ghost use Rattle.std.specs.Prelude.{◌≡◌, Ok, false};
ghost use Rattle.history_model.specs.Machine.{Tick};
ghost use Rattle.history_model.specs.Refusals.{is_clock_refused};
ghost use Rattle.loaded_jobs.specs.TableOutcomes.{IsOutcome, IsNextTable};
ghost use Rattle.loaded_jobs.specs.Touching.{SparesUntouched};
ghost use Rattle.loaded_jobs.specs.Minutes.{AreMinutes};
ghost use Rattle.loaded_jobs.specs.Begun.{IsBegun};
ghost use Rattle.loaded_jobs.specs.Counts.{counts, IsCounted};
ghost use Rattle.loaded_jobs.specs.Numbers.{row_names};
ghost use Rattle.loaded_jobs.specs.Room.{HasSameRoom};
ghost use Rattle.loaded_jobs.specs.Leaving.{StayBut};

use crate::gone_jobs::Gone;
use crate::job_slot::AffectedJobs;
use crate::jobs::Jobs;
use crate::marks::{mark_due, mark_minutes};
use crate::visits::visit_ready;
use history_model::{CivilMinute, Reading};

impl Jobs {
    ghost use Rattle.loaded_jobs.specs.Sound.{seen_table, IsSound};
    ghost use Rattle.loaded_jobs.specs.Index.{IsIndexed};

    /// Takes in a clock reading that is not refused, and the civil minutes that it crosses. The jobs that it touches receive it
    /// and give their orders, and nothing is done for any other. It returns which jobs it may have removed.
    pub fn advance(&mut self, at: Reading, minutes: &[CivilMinute]) -> Gone
        requires begun { IsBegun self.old }
        requires accepted { is_clock_refused self.old.reading at ≡ false }
        requires minutes { AreMinutes (seen_table self.old) at minutes.now }
        ensures answer { IsOutcome (Tick at) (seen_table self.old) (Ok tt) (seen_table self.new) }
        ensures kept { IsNextTable (Tick at) (seen_table self.old) (seen_table self.new) }
        ensures counted { IsCounted (counts (seen_table self.old).rows) (seen_table self.new).rows
            (seen_table self.new).gone (seen_table self.new).visited }
        ensures names { (seen_table self.new).names ≡ row_names (seen_table self.old).rows }
        ensures room { HasSameRoom (seen_table self.old) (seen_table self.new) }
        ensures spared { SparesUntouched at (seen_table self.old) (seen_table self.new) }
        ensures sound { IsSound self.new }
        ensures stay { StayBut result self.new.job_slots.items }
        ensures indexed { IsIndexed self.new }
    {
        mark_due(
            &mut self.index.timers,
            &self.index.places,
            &mut self.index.marked,
            at.up,
        );
        mark_minutes(
            &self.triggers,
            minutes,
            &self.index.places,
            &mut self.index.marked,
        );
        let (visited, gone) = visit_ready(
            &mut self.job_slots,
            &mut self.index.marked,
            &mut self.index.timers,
            AffectedJobs::Reading(at, minutes),
            self.reading,
            at,
            &mut self.orders,
        );
        self.visited = visited;
        self.reading = at;
        gone
    }
}
