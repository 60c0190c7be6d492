//! The list of triggers, in order.

ghost use Rattle.std.specs.Prelude.{◌≡◌, ◌≤◌, ◌<◌, ◌+◌, ℕ, Bool, Some, true, false, map, length, slice_get, count_by};
ghost use Rattle.std.specs.List.{filter};
ghost use Rattle.std.specs.Option.{option_map};
ghost use Rattle.std.specs.Vec.{vec_capacity, vec_len};
ghost use Rattle.loaded_jobs.specs.JobSlots.{name, rows};
ghost use Rattle.loaded_jobs.specs.Index.{ArePlaced};
ghost use Rattle.loaded_jobs.specs.Nearest.{IsNearestOf, paths_in};
ghost use Rattle.loaded_jobs.specs.Triggers.{rank_of, has_rank, is_below, is_behind, under, AreOrdered, AreListed, stays_under};

use crate::held_slot::HeldSlot;
use crate::trigger::{Listed, Query, Trigger, is_earlier};
use history_model::JobNo;

/// Those of this trigger, which are next to each other.
pub fn run_of<'x>(listed: &'x [Listed], query: Query<'_>) -> &'x [Listed]
    requires { AreOrdered listed.now }
    ensures { result.now ≡ filter (has_rank (rank_of query.entry)) listed.now }
{
    let from = listed.partition_point(|one| is_below(one, query));
    let to = end_of_run(listed, from, query);
    &listed[from..to]
}

/// The place after those of this trigger, which begin here, if there are any. If there are none, it looks no further.
fn end_of_run(listed: &[Listed], from: usize, query: Query<'_>) -> usize
    requires order { AreOrdered listed.now }
    requires inside { from ≤ length listed.now }
    requires low { (k : ℕ) (one : Listed) → slice_get listed.now k ≡ Some one → k < from →
        is_behind (rank_of query) one ≡ false }
    ensures bound { result ≤ length listed.now }
    ensures before { (k : ℕ) (one : Listed) → slice_get listed.now k ≡ Some one → k < result →
        is_behind (rank_of query.entry) one ≡ false }
    ensures behind { (k : ℕ) (one : Listed) → slice_get listed.now k ≡ Some one → result ≤ k →
        is_behind (rank_of query.entry) one ≡ true }
{
    if from >= listed.len() {
        return from;
    }
    if is_behind(&listed[from], query) {
        return from;
    }
    place_behind(listed, query)
}

/// The place of the first that comes after the trigger. If there is none, the end of the list.
fn place_behind(listed: &[Listed], query: Query<'_>) -> usize
    requires { AreOrdered listed.now }
    ensures bound { result ≤ length listed.now }
    ensures before { (k : ℕ) (one : Listed) → slice_get listed.now k ≡ Some one → k < result →
        is_behind (rank_of query.entry) one ≡ false }
    ensures behind { (k : ℕ) (one : Listed) → slice_get listed.now k ≡ Some one → result ≤ k →
        is_behind (rank_of query.entry) one ≡ true }
{
    listed.partition_point(|one| !is_behind(one, query))
}

fn is_below(one: &Listed, query: Query<'_>) -> bool
    ensures { result ≡ is_below (rank_of query.entry) one.now }
{
    is_earlier(one.trigger.lent(), query)
}

fn is_behind(one: &Listed, query: Query<'_>) -> bool
    ensures { result ≡ is_behind (rank_of query.entry) one.now }
{
    is_earlier(query, one.trigger.lent())
}

/// Puts each of a job's triggers at its place. There is room.
pub fn enlist(listed: &mut Vec<Listed>, triggers: Vec<Trigger>, number: JobNo)
    requires order { AreOrdered listed.old.items }
    requires room { vec_len listed.old + vec_len triggers ≤ vec_capacity listed.old }
    ensures exact { (test : Listed → Bool) →
        count_by test listed.new.items
        ≡ count_by test listed.old.items
        + count_by (λ trigger. test (under number trigger)) triggers.items }
    ensures count { vec_len listed.new ≡ vec_len listed.old + vec_len triggers }
    ensures order { AreOrdered listed.new.items }
    ensures capacity { vec_capacity listed.new ≡ vec_capacity listed.old }
{
    let mut unlisted = triggers;
    while let Some(trigger) = unlisted.pop() {
        let place = place_behind(listed, trigger.lent());
        match listed.insert(place, Listed { trigger, number }) {
            Ok(()) => {}
            Err(_) => unreachable!(),
        }
    }
}

/// Drops the triggers of the jobs that were removed.
pub fn forget(listed: &mut Vec<Listed>, places: &[u16], job_slots: &[HeldSlot])
    ensures items { listed.new.items
        ≡ filter (stays_under places.now job_slots.now) listed.old.items }
    ensures capacity { vec_capacity listed.new ≡ vec_capacity listed.old }
{
    listed.retain(|one| stays(one, places, job_slots));
}

/// Whether the job of this trigger is not gone.
fn stays(one: &Listed, places: &[u16], job_slots: &[HeldSlot]) -> bool
    ensures { result ≡ stays_under places.now job_slots.now one.now }
{
    let Some(place) = places.get(one.number as usize) else {
        return false;
    };
    match job_slots.get(*place as usize) {
        None => false,
        Some(job_slot) => !job_slot.has_gone(),
    }
}

/// The path that comes next after the text, of a job that is not gone.
pub fn path_after<'x>(
    listed: &'x [Listed],
    places: &[u16],
    job_slots: &[HeldSlot],
    text: &str,
) -> Option<&'x str>
    requires listed { AreListed listed.now (map name job_slots.now) }
    requires placed { ArePlaced places.now job_slots.now }
    ensures { IsNearestOf text.now (paths_in (rows job_slots.now))
        (option_map (λ path. path.now) result) }
{
    let mut place = place_behind(listed, Query::Path(text));
    while place < listed.len() {
        let one = &listed[place];
        if stays(one, places, job_slots) {
            return one.trigger.path();
        }
        place += 1;
    }
    None
}
