//! What an event does to the jobs that it touches, and to no other.

ghost use Rattle.std.specs.Prelude.{◌≡◌, ◌≤◌, ◌<◌, ◌*◌, ◌+◌, length};
ghost use Rattle.std.specs.Vec.{vec_capacity, vec_len};
ghost use Rattle.timer_heap.specs.Timers.{room, Updates};
ghost use Rattle.history_model.specs.declared.TheConstants.{MAX_UP};
ghost use Rattle.loaded_jobs.specs.declared.job_slot.TheConstants.{ORDERS};
ghost use Rattle.loaded_jobs.specs.Index.{moment_for};
ghost use Rattle.loaded_jobs.specs.Visiting.{is_spared, is_other};
ghost use Rattle.loaded_jobs.specs.Visits.{CanVisit, VisitsTouched, IsUnmarked};
ghost use Rattle.loaded_jobs.specs.AffectedJobs.{item_for, nothing_for};

use crate::gone_jobs::Gone;
use crate::held_slot::HeldSlot;
use crate::job_slot::AffectedJobs;
use history_model::{Order, Reading};
use place_set::PlaceSet;
use timer_heap::TimerHeap;

/// Delivers the touch to the jobs at the places with a mark and asks them, in rising order of places, and takes the marks away.
/// It counts the jobs that it visits, and says which it may have removed.
pub fn visit_ready(
    job_slots: &mut [HeldSlot],
    ready: &mut PlaceSet,
    timers: &mut TimerHeap,
    affected: AffectedJobs<'_>,
    before: Reading,
    now: Reading,
    orders: &mut Vec<Order>,
) -> (u32, Gone)
    requires can { CanVisit (item_for affected) before now (is_spared ready.old) job_slots.old timers.old }
    requires room { vec_len orders.old + ORDERS * length job_slots.old ≤ vec_capacity orders.old }
    ensures visits { VisitsTouched (item_for affected.entry) before now (is_spared ready.old)
        job_slots.old job_slots.new orders.old.items orders.new.items timers.new result.0 result.1 }
    ensures unmarked { IsUnmarked ready.old ready.new timers.old timers.new }
    ensures capacity { vec_capacity orders.new ≡ vec_capacity orders.old }
{
    let mut visited = 0;
    let mut gone = Gone::Nobody;
    let mut front = 0; // for the proof
    while let Some(number) = ready.pop_least() {
        let place = number as usize;
        let job_slot = &mut job_slots[place];
        job_slot.visit(affected, before, now, orders);
        retime(timers, job_slot, now);
        if !job_slot.has_gone() {
            visited += 1;
        } else {
            gone = gone.and(place);
        }
        front = place + 1; // for the proof
    }
    (visited, gone)
}

/// Asks the job at this place, which received already what happened to it, and no other. It counts it, unless it was removed.
pub fn visit_at(
    job_slots: &mut [HeldSlot],
    timers: &mut TimerHeap,
    place: usize,
    now: Reading,
    orders: &mut Vec<Order>,
) -> (u32, Gone)
    requires inside { place < length job_slots.old }
    requires can { CanVisit nothing_for now now (is_other place) job_slots.old timers.old }
    requires room { vec_len orders.old + ORDERS ≤ vec_capacity orders.old }
    ensures visits { VisitsTouched nothing_for now now (is_other place) job_slots.old job_slots.new
        orders.old.items orders.new.items timers.new result.0 result.1 }
    ensures space { room timers.new ≡ room timers.old }
    ensures capacity { vec_capacity orders.new ≡ vec_capacity orders.old }
{
    let job_slot = &mut job_slots[place];
    job_slot.ask(now, orders);
    retime(timers, job_slot, now);
    if !job_slot.has_gone() {
        return (1, Gone::Nobody);
    }
    (0, Gone::One(place))
}

/// Gives the job's number its next wake-up time; none, if the job was removed or has none. A time that stays costs nothing.
fn retime(timers: &mut TimerHeap, job_slot: &HeldSlot, now: Reading)
    requires in_range { now.up ≤ MAX_UP }
    requires room { job_slot.now.number < room timers.old }
    ensures { Updates timers.old timers.new job_slot.now.number (moment_for job_slot.now now.up) }
{
    if job_slot.has_gone() {
        timers.renew(job_slot.number(), None);
        return;
    }
    timers.renew(job_slot.number(), job_slot.lent().core.next_moment(now));
}
