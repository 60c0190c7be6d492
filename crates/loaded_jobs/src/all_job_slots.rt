//! What is done to all slots in turn.

ghost use Rattle.std.specs.Prelude.{◌≡◌, ◌≤◌, ℕ, false, None, not, ◌&&◌};
ghost use Rattle.std.specs.List.{filter, list_all, list_any};
ghost use Rattle.std.specs.Vec.{vec_capacity, vec_len};
ghost use Rattle.slab.specs.Slab.{get};
ghost use Rattle.history_model.specs.News.{is_some_entry};
ghost use Rattle.std.specs.Prelude.{true};
ghost use Rattle.loaded_jobs.specs.JobSlots.{job_slot_stays, has_gone_under};

use crate::held_slot::HeldSlot;
use slab::Slab;

/// Gives back the numbers of the jobs that were removed.
pub fn release(job_slots: &[HeldSlot], numbers: &mut Slab<()>)
    ensures freed { (number : ℕ) → list_any (has_gone_under number) job_slots.now ≡ true →
        get numbers.new number ≡ None }
    ensures others { (number : ℕ) → list_any (has_gone_under number) job_slots.now ≡ false →
        get numbers.new number ≡ get numbers.old number }
    ensures capacity { numbers.new.capacity ≡ numbers.old.capacity }
{
    for job_slot in job_slots {
        if job_slot.has_gone() {
            numbers.try_remove(job_slot.number() as usize);
        }
    }
}

/// Drops the jobs that were removed.
pub fn tidy(job_slots: &mut Vec<HeldSlot>)
    ensures items { job_slots.new.items ≡ filter job_slot_stays job_slots.old.items }
    ensures count { vec_len job_slots.new ≤ vec_len job_slots.old }
    ensures capacity { vec_capacity job_slots.new ≡ vec_capacity job_slots.old }
{
    job_slots.retain(|job_slot| !job_slot.has_gone());
}

/// Whether some job has calendar entries.
pub fn has_calendars(job_slots: &[HeldSlot]) -> bool
    ensures { result ≡ list_any (λ e. is_some_entry e.def.calendar) job_slots.now }
{
    job_slots
        .iter()
        .any(|job_slot| !job_slot.lent().def.calendar().is_empty())
}

/// Whether a job that is not gone has calendar entries.
pub fn is_some_with_calendar(job_slots: &[HeldSlot]) -> bool
    ensures { result ≡ list_any (λ e. not e.has_gone && is_some_entry e.def.calendar) job_slots.now }
{
    job_slots.iter().any(|held| !held.has_gone() && !held.lent().def.calendar().is_empty())
}

/// Whether every job was removed.
pub fn all_gone(job_slots: &[HeldSlot]) -> bool
    ensures { result ≡ list_all (λ e. e.has_gone) job_slots.now }
{
    job_slots.iter().all(|job_slot| job_slot.has_gone())
}
