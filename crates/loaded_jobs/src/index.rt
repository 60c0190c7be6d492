//! The index of the slots: the place of each job, and room for one more.

ghost use Rattle.std.specs.Prelude.{◌≡◌, ◌≤◌, ◌<◌, ◌+◌, ℕ, OnOk, Some, is_some, length, map, slice_get, true};
ghost use Rattle.place_set.specs.Places.{place_room};
ghost use Rattle.timer_heap.specs.Timers.{room};
ghost use Rattle.history_model.specs.declared.TheConstants.{MAX_JOBS};
ghost use Rattle.loaded_jobs.specs.Tables.{IsOnce, definition_of_number};
ghost use Rattle.loaded_jobs.specs.JobSlots.{name};
ghost use Rattle.loaded_jobs.specs.Index.{ArePlaced, IsIndexOf, IsNamed, lowered, place_in, raised};
ghost use Rattle.loaded_jobs.specs.declared.job_slot.JobSlot.{JobSlot};

use crate::held_slot::HeldSlot;
use crate::jobs::Index;
use history_model::{JobNo, MAX_JOBS};
use std::alloc::{AllocError, Global};

/// Gives each slot's number its place. It takes no memory.
pub fn place_all(places: &mut [u16], job_slots: &[HeldSlot])
    requires once { IsOnce (map name job_slots.now) }
    requires few { length job_slots.now ≤ MAX_JOBS }
    requires fits { (number : ℕ) →
        is_some (definition_of_number (map name job_slots.now) number) ≡ true →
        number < length places.old }
    ensures placed { ArePlaced places.new job_slots.now }
    ensures length { length places.new ≡ length places.old }
{
    place_from(places, job_slots, 0);
}

/// Gives each slot's number its place, from a place on: those before it have theirs. It takes no memory.
pub fn place_from(places: &mut [u16], job_slots: &[HeldSlot], from: usize)
    requires once { IsOnce (map name job_slots.now) }
    requires few { length job_slots.now ≤ MAX_JOBS }
    requires fits { (number : ℕ) →
        is_some (definition_of_number (map name job_slots.now) number) ≡ true →
        number < length places.old }
    requires inside { from ≤ length job_slots.now }
    requires before { (k : ℕ) (e : JobSlot) → slice_get job_slots.now k ≡ Some e → k < from →
        place_in places.old e.number ≡ k }
    ensures placed { ArePlaced places.new job_slots.now }
    ensures length { length places.new ≡ length places.old }
{
    let mut place = from;
    while place < job_slots.len() {
        let job_slot = &job_slots[place];
        places[job_slot.number() as usize] = place as u16;
        place += 1;
    }
}

/// Moves the place of each slot after the one that left one to the front. It looks at no slot, and takes no memory.
pub fn close_up(places: &mut [u16], job_slots: &[HeldSlot], place: usize)
    requires few { length job_slots.now ≤ MAX_JOBS }
    requires inside { place ≤ length job_slots.now }
    requires fits { (k : ℕ) (e : JobSlot) → slice_get job_slots.now k ≡ Some e →
        e.number < length places.old }
    requires before { (k : ℕ) (e : JobSlot) → slice_get job_slots.now k ≡ Some e → k < place →
        place_in places.old e.number ≡ k }
    requires behind { (k : ℕ) (e : JobSlot) → slice_get job_slots.now k ≡ Some e → place ≤ k →
        place_in places.old e.number ≡ k + 1 }
    ensures placed { ArePlaced places.new job_slots.now }
    ensures length { length places.new ≡ length places.old }
{
    lower_above(places, place as u16);
}

/// Takes one from each place above this one.
fn lower_above(places: &mut [u16], place: u16)
    ensures lowered { (number : ℕ) →
        place_in places.new number ≡ lowered place (place_in places.old number) }
    ensures length { length places.new ≡ length places.old }
{
    let mut number = 0;
    while number < places.len() {
        let one = places[number];
        places[number] = if place < one { one - 1 } else { one };
        number += 1;
    }
}

/// Moves the place of each slot after this one, which is new, one to the back, and gives the new one its place. It looks at no
/// other slot, and takes no memory.
pub fn make_way(places: &mut [u16], job_slots: &[HeldSlot], place: usize)
    requires once { IsOnce (map name job_slots.now) }
    requires few { length job_slots.now ≤ MAX_JOBS }
    requires inside { place < length job_slots.now }
    requires fits { (number : ℕ) →
        is_some (definition_of_number (map name job_slots.now) number) ≡ true →
        number < length places.old }
    requires before { (k : ℕ) (e : JobSlot) → slice_get job_slots.now k ≡ Some e → k < place →
        place_in places.old e.number ≡ k }
    requires behind { (k : ℕ) (e : JobSlot) → slice_get job_slots.now k ≡ Some e → place < k →
        place_in places.old e.number + 1 ≡ k }
    ensures placed { ArePlaced places.new job_slots.now }
    ensures length { length places.new ≡ length places.old }
{
    raise_from(places, place as u16);
    let job_slot = &job_slots[place];
    places[job_slot.number() as usize] = place as u16;
}

/// Adds one to each place from this one on.
fn raise_from(places: &mut [u16], place: u16)
    ensures raised { (number : ℕ) → number < length places.old →
        place_in places.new number ≡ raised place (place_in places.old number) }
    ensures length { length places.new ≡ length places.old }
{
    let mut number = 0;
    while number < places.len() {
        let one = places[number];
        places[number] = if one < place {
            one
        } else {
            one.wrapping_add(1)
        };
        number += 1;
    }
}

/// Makes room in the index for a job with this number.
pub fn grow(
    index: &mut Index,
    alloc: Global,
    number: JobNo,
    job_slots: &[HeldSlot],
) -> Result<(), AllocError>
    requires once { IsOnce (map name job_slots.now) }
    requires few { length job_slots.now ≤ MAX_JOBS }
    requires named { IsNamed index.old (map name job_slots.now) }
    ensures indexed { (up : ℕ) →
        IsIndexOf index.old up job_slots.now → IsIndexOf index.new up job_slots.now }
    ensures moments { OnOk result (number < room index.new.timers) }
    ensures marks { OnOk result (length job_slots.now + 1 ≤ place_room index.new.marked) }
    ensures numbered { OnOk result (number < length index.new.places.items) }
{
    let Some(above) = number.checked_add(1) else {
        return Err(AllocError);
    };
    let Ok(()) = index.timers.reserve(alloc, above) else {
        return Err(AllocError);
    };
    let Ok(()) = index.marked.reserve(job_slots.len() as u32 + 1) else {
        return Err(AllocError);
    };
    if index.places.len() > number as usize {
        return Ok(());
    }
    index.places = vec![in alloc; 0; widened(above as usize)]?;
    place_all(&mut index.places, job_slots);
    Ok(())
}

/// How many places to make room for if `count` are needed: twice that number, but not more than the greatest number of jobs. If
/// `count` itself is more, then `count`.
fn widened(count: usize) -> usize
    ensures { count ≤ result }
{
    if count > MAX_JOBS {
        return count;
    }
    if count > MAX_JOBS / 2 {
        return MAX_JOBS;
    }
    count * 2
}
