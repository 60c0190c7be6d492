//! The jobs that went at the last event: which they are, and how the table drops them.

ghost use Rattle.std.specs.Prelude.{◌≡◌, [], true, cond};
ghost use Rattle.std.specs.List.{filter, list_any};
ghost use Rattle.std.specs.Vec.{vec_capacity};
ghost use Rattle.loaded_jobs.specs.JobSlots.{job_slot_stays};
ghost use Rattle.loaded_jobs.specs.Room.{HasSameRoom};
ghost use Rattle.loaded_jobs.specs.Triggers.{triggers_of};
ghost use Rattle.history_model.specs.News.{is_some_entry};
ghost use Rattle.loaded_jobs.specs.Leaving.{AllStayBut, StayBut, IsWithout, one_more_gone, is_of_other};

use crate::all_job_slots::{has_calendars, release, tidy};
use crate::held_slot::HeldSlot;
use crate::index::{close_up, place_all};
use crate::jobs::Jobs;
use crate::trigger::Listed;
use crate::triggers::forget;
use history_model::JobNo;
use history_model::definition::Def;

/// Which jobs the last event may have removed.
#[derive(Clone, Copy)]
pub enum Gone {
    Nobody,
    /// The job at this place, and no other.
    One(usize),
    Several,
}

impl Gone {
    /// The same, and the job at this place.
    pub fn and(self, place: usize) -> Gone
        ensures { result ≡ one_more_gone self place }
    {
        match self {
            Gone::Nobody => Gone::One(place),
            _ => Gone::Several,
        }
    }
}

impl Jobs {
    ghost use Rattle.loaded_jobs.specs.Sound.{seen_table, IsSound};
    ghost use Rattle.loaded_jobs.specs.Index.{IsIndexed};
    ghost use Rattle.loaded_jobs.specs.Alike.{IsAlike};

    /// Drops the jobs that went at the last event.
    pub fn drop_left(&mut self)
        requires sound { IsSound self.old }
        requires indexed { IsIndexed self.old }
        requires empty { self.old.orders.items ≡ [] }
        requires left { StayBut self.old.gone self.old.job_slots.items }
        ensures job_slots { self.new.job_slots.items ≡ filter job_slot_stays self.old.job_slots.items }
        ensures sound { IsSound self.new }
        ensures indexed { IsIndexed self.new }
        ensures orders { self.new.orders ≡ self.old.orders }
        ensures alike { IsAlike self.old self.new }
        ensures room { HasSameRoom (seen_table self.old) (seen_table self.new) }
    {
        match self.gone {
            Gone::Nobody => {}
            Gone::One(place) => self.drop_one(place),
            Gone::Several => self.drop_gone(),
        }
    }

    /// Drops the jobs that were removed, however many.
    fn drop_gone(&mut self)
        requires sound { IsSound self.old }
        requires indexed { IsIndexed self.old }
        requires empty { self.old.orders.items ≡ [] }
        ensures job_slots { self.new.job_slots.items ≡ filter job_slot_stays self.old.job_slots.items }
        ensures sound { IsSound self.new }
        ensures indexed { IsIndexed self.new }
        ensures orders { self.new.orders ≡ self.old.orders }
        ensures alike { IsAlike self.old self.new }
        ensures room { HasSameRoom (seen_table self.old) (seen_table self.new) }
    {
        release(&self.job_slots, &mut self.numbers);
        forget(&mut self.triggers, &self.index.places, &self.job_slots);
        tidy(&mut self.job_slots);
        place_all(&mut self.index.places, &self.job_slots);
        self.has_calendars = has_calendars(&self.job_slots);
    }

    /// Drops the job at this place, if it was removed: no other was. Only the places after it are changed.
    fn drop_one(&mut self, place: usize)
        requires sound { IsSound self.old }
        requires indexed { IsIndexed self.old }
        requires empty { self.old.orders.items ≡ [] }
        requires others { AllStayBut place self.old.job_slots.items }
        ensures job_slots { self.new.job_slots.items ≡ filter job_slot_stays self.old.job_slots.items }
        ensures sound { IsSound self.new }
        ensures indexed { IsIndexed self.new }
        ensures orders { self.new.orders ≡ self.old.orders }
        ensures alike { IsAlike self.old self.new }
        ensures room { HasSameRoom (seen_table self.old) (seen_table self.new) }
    {
        if place >= self.job_slots.len() {
            return;
        }
        if !self.job_slots[place].has_gone() {
            return;
        }
        let job_slot = self.job_slots.remove(place);
        let _held = self.numbers.try_remove(job_slot.number() as usize);
        close_up(&mut self.index.places, &self.job_slots, place);
        forget_one(&mut self.triggers, &job_slot);
        self.has_calendars = has_some_calendar(self.has_calendars, &job_slot, &self.job_slots);
    }
}

/// Whether nothing from outside touches a job with this definition.
fn is_untouched(def: &Def) -> bool
    ensures { result ≡ true → triggers_of def.now ≡ [] }
{
    if !def.calendar().is_empty() {
        return false;
    }
    if !def.path_state().is_empty() {
        return false;
    }
    def.watch_paths().is_empty() && def.queue_directories().is_empty()
}

/// Drops the triggers of the job that left. If it has none, it looks at no trigger.
fn forget_one(listed: &mut Vec<Listed>, left: &HeldSlot)
    ensures items { IsWithout left.now listed.old.items listed.new.items }
    ensures capacity { vec_capacity listed.new ≡ vec_capacity listed.old }
{
    if is_untouched(&left.lent().def) {
        return;
    }
    drop_number(listed, left.number());
}

/// Drops the triggers with this number.
fn drop_number(listed: &mut Vec<Listed>, number: JobNo)
    ensures items { listed.new.items ≡ filter (is_of_other number) listed.old.items }
    ensures capacity { vec_capacity listed.new ≡ vec_capacity listed.old }
{
    listed.retain(|one| one.number != number);
}

/// Whether some job has calendar entries without the one that left. If that had none, it looks at no other.
fn has_some_calendar(before: bool, left: &HeldSlot, job_slots: &[HeldSlot]) -> bool
    ensures { result ≡ cond (is_some_entry left.now.def.calendar)
        (list_any (λ e. is_some_entry e.def.calendar) job_slots.now) before }
{
    if left.lent().def.calendar().is_empty() {
        return before;
    }
    has_calendars(job_slots)
}
