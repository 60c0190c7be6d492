//! Which jobs an event touches.

ghost use Rattle.std.specs.Prelude.{◌≡◌, ◌≤◌, ◌<◌, ℕ, nat_lt, Some, List};
ghost use Rattle.history_model.specs.declared.TheConstants.{MAX_JOBS};
ghost use Rattle.place_set.specs.Places.{has_place, place_room};
ghost use Rattle.timer_heap.specs.Timers.{room};
ghost use Rattle.std.specs.Prelude.{◌⊎◌, [], ◌∷◌, length, map, true, false, not, slice_get, slice_index_or, slice_set};
ghost use Rattle.loaded_jobs.specs.Visiting.{is_spared};
ghost use Rattle.loaded_jobs.specs.Index.{is_minute_among, ArePlaced};
ghost use Rattle.loaded_jobs.specs.JobSlots.{name};
ghost use Rattle.loaded_jobs.specs.declared.job_slot.JobSlot.{JobSlot};
ghost use Rattle.loaded_jobs.specs.Triggers.{rank_of, AreOrdered, AreListed};
ghost use Rattle.loaded_jobs.specs.Marking.{HavePlaces, IsMarked, IsReachedAt, IsMinuteAt, HaveMarks, Marks, stands_at};
ghost use Rattle.loaded_jobs.specs.AffectedJobs.{is_touched};

use crate::held_slot::HeldSlot;
use crate::job_slot::AffectedJobs;
use crate::trigger::{Listed, Query};
use crate::triggers::run_of;
use history_model::CivilMinute;
use place_set::PlaceSet;
use timer_heap::TimerHeap;

/// Takes out the timers that are due at the clock reading, and marks the places of their jobs.
pub fn mark_due(timers: &mut TimerHeap, places: &[u16], ready: &mut PlaceSet, up: u64)
    requires places { HavePlaces timers.old places.now ready.old }
    requires empty { (place : ℕ) → has_place ready.old place ≡ false }
    ensures marked { (number : ℕ) → IsMarked up timers.old timers.new places.now ready.new number }
    ensures marks { (place : ℕ) → has_place ready.new place ≡ true →
        IsReachedAt up timers.old places.now place }
    ensures room { place_room ready.new ≡ place_room ready.old }
    ensures timers { room timers.new ≡ room timers.old }
{
    while let Some(number) = timers.pop_due(up) {
        ready.insert(places[number as usize] as u32);
    }
}

/// Marks the places of the jobs with an entry that has no minute, or one of these. It looks at no other job, and once at each minute
/// of the hour.
pub fn mark_minutes(
    listed: &[Listed],
    minutes: &[CivilMinute],
    places: &[u16],
    ready: &mut PlaceSet,
)
    requires order { AreOrdered listed.now }
    requires places { HaveMarks listed.now places.now ready.old }
    ensures spared { (es : List JobSlot) → AreListed listed.now (map name es) →
        ArePlaced places.now es →
        (place : ℕ) (job_slot : JobSlot) → slice_get es place ≡ Some job_slot →
        is_spared ready.new place ≡ true →
        (is_spared ready.old place ≡ true)
        × (is_minute_among job_slot.def.calendar minutes.now ≡ false) }
    ensures marks { (es : List JobSlot) → AreListed listed.now (map name es) →
        ArePlaced places.now es →
        (place : ℕ) → has_place ready.new place ≡ true →
        (has_place ready.old place ≡ true) ⊎ IsMinuteAt es minutes.now place }
    ensures room { place_room ready.new ≡ place_room ready.old }
{
    if minutes.is_empty() {
        return;
    }
    mark_of(listed, Query::Minute(None), places, ready);
    let mut seen = [false; 256];
    for minute in minutes {
        mark_once(listed, minute.minute, places, ready, &mut seen);
    }
}

/// Marks the places of the jobs that have this minute of the hour, and notes it; nothing, if it is noted already.
fn mark_once(
    listed: &[Listed],
    minute: u8,
    places: &[u16],
    ready: &mut PlaceSet,
    seen: &mut [bool; 256],
)
    requires order { AreOrdered listed.now }
    requires places { HaveMarks listed.now places.now ready.old }
    ensures noted { slice_index_or seen.old minute false ≡ true →
        (ready.new ≡ ready.old) × (seen.new ≡ seen.old) }
    ensures fresh { slice_index_or seen.old minute false ≡ false →
        Marks ready.old ready.new (stands_at listed.now places.now (0 ∷ minute ∷ []))
        × (seen.new ≡ slice_set seen.old minute true) }
    ensures room { place_room ready.new ≡ place_room ready.old }
{
    if seen[minute as usize] {
        return;
    }
    seen[minute as usize] = true;
    mark_of(listed, Query::Minute(Some(minute)), places, ready);
}

/// Marks the places of the jobs that have this trigger.
fn mark_of(listed: &[Listed], query: Query<'_>, places: &[u16], ready: &mut PlaceSet)
    requires order { AreOrdered listed.now }
    requires places { HaveMarks listed.now places.now ready.old }
    ensures { Marks ready.old ready.new (stands_at listed.now places.now (rank_of query.entry)) }
{
    let run = run_of(listed, query);
    for one in run {
        ready.insert(places[one.number as usize] as u32);
    }
}

/// Marks the places of the jobs that hear something of the touch.
pub fn mark_touched(
    job_slots: &[HeldSlot],
    affected: AffectedJobs<'_>,
    listed: &[Listed],
    places: &[u16],
    ready: &mut PlaceSet,
)
    requires room { length job_slots.now ≤ place_room ready.old }
    requires few { length job_slots.now ≤ MAX_JOBS }
    requires empty { (place : ℕ) → has_place ready.old place ≡ false }
    requires listed { AreListed listed.now (map name job_slots.now) }
    requires placed { ArePlaced places.now job_slots.now }
    ensures touched { (place : ℕ) (job_slot : JobSlot) → slice_get job_slots.now place ≡ Some job_slot →
        is_spared ready.new place ≡ not (is_touched affected.entry job_slot.def) }
    ensures marks { (place : ℕ) → has_place ready.new place ≡ true → place < length job_slots.now }
    ensures room { place_room ready.new ≡ place_room ready.old }
{
    match affected {
        AffectedJobs::Observation(path, _) => mark_of(listed, Query::Path(path), places, ready),
        AffectedJobs::Shutdown | AffectedJobs::Reading(_, _) => mark_each(
            job_slots.len() as u32,
            ready,
        ),
    }
}

/// Marks each place below this one.
fn mark_each(count: u32, ready: &mut PlaceSet)
    requires { count ≤ place_room ready.old }
    ensures { Marks ready.old ready.new (λ place. nat_lt place count) }
{
    let mut place = 0;
    while place < count {
        ready.insert(place);
        place += 1;
    }
}
