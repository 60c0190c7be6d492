//! The next wake-up time of each job by its number, and the least of them all, so that a clock reading need not ask each job.
//! What it keeps is a tree of matches. Each job's timer is a leaf, each node above two others has the sooner of their timers, and
//! so the root has the soonest of all. A change of one job plays the matches between its leaf and the root again, at most one for
//! each doubling of the room. It ends at the first match that the same timer wins as before. Times are milliseconds of `up`. Only `new`
//! and `reserve` take memory.
#![tactic(auto)]

ghost use Rattle.std.specs.Prelude.{◌≡◌, ◌<◌, ◌≤◌, ◌+◌, ◌*◌, [], Some, None, IsOk, IfOk, OnOk, OnErr, OnSome};

mod tree;

use history_model::JobNo;
use std::alloc::{AllocError, Global};
use std::marker::Model;
use tree::Tree;

/// The wake-up times of jobs: to a contract, a finite map from job numbers to times, and the room, a number. There is room for
/// the job numbers below it.
#[derive(Drop)]
pub struct TimerHeap {
    tree: Tree,
}

impl Model for TimerHeap {
    ghost use Rattle.timer_heap.specs.Timers.{Timers};

    ghost Value = { Timers };

    ghost use Rattle.timer_heap.specs.Nodes.{timers_of, IsTree};

    ghost view = { λ heap. timers_of heap.tree };

    ghost invariant = { λ heap. IsTree heap.tree };
}

impl TimerHeap {
    ghost use Rattle.timer_heap.specs.Timers.{room, timer_count, Updates, KeepsMoments, IsLeast, IsPopped};

    /// No timer, and no room. It takes no memory yet, so it is not refused.
    pub fn new(alloc: Global) -> Result<TimerHeap, AllocError>
        ensures ok { IsOk result }
        ensures empty { IfOk result (λ heap. heap ≡ record { moments = [] }) }
    {
        Ok(TimerHeap {
            tree: Tree::new(alloc),
        })
    }

    /// Makes room for the job numbers below `numbers`. The timers stay, and the room is never less than before. The one refusal
    /// is of memory, and it leaves the heap as it was. A heap that has the room takes no memory.
    pub fn reserve(&mut self, alloc: Global, numbers: u32) -> Result<(), AllocError>
        ensures room { OnOk result (numbers ≤ room self.new) }
        ensures kept { KeepsMoments self.old self.new }
        ensures enough { numbers ≤ room self.old → (IsOk result) × (self.new ≡ self.old) }
        // What it makes beyond the room that was asked for is no more than as much again.
        ensures bounded { room self.new ≤ room self.old + 2 * numbers }
        ensures refused { OnErr result (self.new ≡ self.old) }
    {
        self.tree.reserve(alloc, numbers as usize)
    }

    /// Makes this the wake-up time of the job, in place of an earlier one. The caller's condition: there is room for its number.
    pub fn set(&mut self, job: JobNo, moment: u64)
        requires { job < room self.old }
        ensures { Updates self.old self.new job (Some moment) }
    {
        self.tree.set(job, moment);
    }

    /// Takes the job's wake-up time away, if it has one.
    pub fn clear(&mut self, job: JobNo)
        ensures { Updates self.old self.new job None }
    {
        self.tree.clear(job);
    }

    /// Makes this the wake-up time of the job, or leaves it without one. If it has that one already, no match is played. The
    /// caller's condition: there is room for its number.
    pub fn renew(&mut self, job: JobNo, moment: Option<u64>)
        requires { job < room self.old }
        ensures { Updates self.old self.new job moment }
    {
        self.tree.renew(job, moment);
    }

    /// The job with the least wake-up time, and that time. If several jobs have it, it is the job of the least number. None if no
    /// job has a timer.
    pub fn least(&self) -> Option<(JobNo, u64)>
        ensures { IsLeast self.now result }
    {
        self.tree.least()
    }

    /// Takes out the timer that `least` returns, if it is at most `now`, and gives its job. None if each timer is later.
    pub fn pop_due(&mut self, now: u64) -> Option<JobNo>
        ensures popped { IsPopped now self.old result self.new }
        // What a loop over all that are due counts down.
        ensures fewer { OnSome result (timer_count self.new + 1 ≡ timer_count self.old) }
    {
        let (job, moment) = self.least()?;
        if now < moment {
            return None;
        }
        self.clear(job);
        Some(job)
    }
}
