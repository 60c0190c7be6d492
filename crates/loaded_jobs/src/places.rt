//! The place of a job among the others: by its number, and by its label.

ghost use Rattle.std.specs.Prelude.{◌≡◌, Some, true, map, is_some, not};
ghost use Rattle.std.specs.List.{position};
ghost use Rattle.history_model.specs.Labels.{is_before};
ghost use Rattle.history_model.specs.MachineLaws.{AreInOrder};
ghost use Rattle.loaded_jobs.specs.Tables.{label_of, definition_of_number, labels_in};
ghost use Rattle.loaded_jobs.specs.JobSlots.{name, has_number, has_label, is_loaded_under, is_above, place_for};
ghost use Rattle.loaded_jobs.specs.Index.{ArePlaced};
ghost use Rattle.history_model.specs.Machine.{State};
ghost use Rattle.loaded_jobs.specs.StandsFor.{KeepsState};
ghost use Rattle.loaded_jobs.specs.Here.{IsHere};

use crate::byte_order::is_before;
use crate::held_slot::HeldSlot;
use crate::job_slot::JobSlot;
use crate::jobs::Jobs;
use history_model::JobNo;
use history_model::definition::Def;

impl Jobs {
    ghost use Rattle.loaded_jobs.specs.Sound.{seen_table, IsSound};

    /// The job with this label that is not gone.
    pub fn here(&self, label: &str) -> Option<&JobSlot>
        requires { IsSound self.now }
        ensures { (s : State) → KeepsState (seen_table self.now) s → IsHere s label.now result }
    {
        match place_here(&self.job_slots, label) {
            None => None,
            Some(place) => Some(self.job_slots[place].lent()),
        }
    }

    /// The label of the job with this number, or the empty text.
    pub fn label(&self, job: JobNo) -> &str
        requires { ArePlaced self.now.index.places.items self.now.job_slots.items }
        ensures { result.now ≡ label_of (map name self.now.job_slots.items) job }
    {
        match place_of_number(&self.job_slots, &self.index.places, job) {
            Some(place) => self.job_slots[place].lent().def.label(),
            None => "",
        }
    }

    /// The definition of the job with this number, which is that of a job.
    pub fn def(&self, job: JobNo) -> &Def
        requires placed { ArePlaced self.now.index.places.items self.now.job_slots.items }
        requires known { is_some (definition_of_number (map name self.now.job_slots.items) job)
            ≡ true }
        ensures { definition_of_number (map name self.now.job_slots.items) job ≡ Some result.now }
    {
        match place_of_number(&self.job_slots, &self.index.places, job) {
            Some(place) => &self.job_slots[place].lent().def,
            None => unreachable!(),
        }
    }
}

/// The place of the job with this number: the one that the index has for it, if the job there has the number.
pub fn place_of_number(job_slots: &[HeldSlot], places: &[u16], number: JobNo) -> Option<usize>
    requires { ArePlaced places.now job_slots.now }
    ensures { result ≡ position (has_number number) job_slots.now }
{
    if number as usize >= places.len() {
        return None;
    }
    let place = places[number as usize] as usize;
    if place >= job_slots.len() {
        return None;
    }
    if job_slots[place].number() != number {
        return None;
    }
    Some(place)
}

/// The place of the job with this label.
pub fn place_of(job_slots: &[HeldSlot], label: &str) -> Option<usize>
    requires { AreInOrder (labels_in (map name job_slots.now)) }
    ensures { result ≡ position (has_label label.now) job_slots.now }
{
    let place = job_slots.partition_point(|job_slot| is_below(job_slot, label));
    if place >= job_slots.len() {
        return None;
    }
    if has_label(&job_slots[place], label) {
        return Some(place);
    }
    None
}

/// Whether the job's label is before this one.
fn is_below(job_slot: &HeldSlot, label: &str) -> bool
    ensures { result ≡ is_before job_slot.now.def.label label.now }
{
    is_before(job_slot.lent().def.label(), label)
}

/// Whether this is the job's label.
fn has_label(job_slot: &HeldSlot, label: &str) -> bool
    ensures { result ≡ has_label label.now job_slot.now }
{
    label == job_slot.lent().def.label()
}

/// The place of the job with this label that is not gone.
pub fn place_here(job_slots: &[HeldSlot], label: &str) -> Option<usize>
    requires { AreInOrder (labels_in (map name job_slots.now)) }
    ensures { result ≡ position (is_loaded_under label.now) job_slots.now }
{
    let place = place_of(job_slots, label)?;
    if job_slots[place].has_gone() {
        return None;
    }
    Some(place)
}

/// The place before the first job with a greater label, or the last.
pub fn place_before(job_slots: &[HeldSlot], label: &str) -> usize
    requires { AreInOrder (labels_in (map name job_slots.now)) }
    ensures { result ≡ place_for label.now job_slots.now }
{
    job_slots.partition_point(|job_slot| is_no_later(job_slot, label))
}

/// Whether the job's label is this one or before it.
fn is_no_later(job_slot: &HeldSlot, label: &str) -> bool
    ensures { result ≡ not (is_above label.now job_slot.now) }
{
    !is_before(label, job_slot.lent().def.label())
}
