//! The tree of matches that finds the job with the soonest timer, as a list of nodes.

ghost use Rattle.std.specs.Prelude.{◌≡◌, ◌<◌, ◌≤◌, ◌+◌, ◌*◌, ◌^◌, true, Some, None, IsOk, IfOk, OnOk, OnErr};
ghost use Rattle.std.specs.Option.{ForSome};
ghost use Rattle.timer_heap.specs.Timers.{moment_in, room, Updates, KeepsMoments, IsLeast};
ghost use Rattle.timer_heap.specs.Nodes.{sooner_timer, is_timer_before, timers_of, IsTree, HasNoTimer, IsPut};

use history_model::JobNo;
use std::alloc::{AllocError, Global};

/// A job's wake-up time, in milliseconds of `up`.
#[derive(Clone, Copy)]
pub struct Timer {
    pub moment: u64,
    pub job: JobNo,
}

/// The root is the node at 1. Those below the node at `place` are at `2 * place` and `2 * place + 1`. A job's leaf is at
/// `leaves` plus its number. The node at 0 is not used.
#[derive(Drop)]
pub struct Tree {
    pub nodes: Vec<Option<Timer>>,
    pub leaves: usize,
}

impl Tree {
    /// A tree without leaves.
    pub fn new(alloc: Global) -> Tree
        ensures sound { IsTree result }
        ensures empty { HasNoTimer result }
        ensures leaves { result.leaves ≡ 0 }
    {
        Tree {
            nodes: Vec::new(alloc),
            leaves: 0,
        }
    }

    /// A tree with this number of leaves and no timer.
    fn with_leaves(alloc: Global, leaves: usize) -> Result<Tree, AllocError>
        requires { leaves < 2 ^ 34 }
        ensures sound { IfOk result IsTree }
        ensures empty { IfOk result HasNoTimer }
        ensures leaves { IfOk result (λ tree. tree.leaves ≡ leaves) }
    {
        let nodes = vec![in alloc; None; 2 * leaves]?;
        Ok(Tree { nodes, leaves })
    }

    /// Makes room for the job numbers below `numbers`. It makes twice that room if it grows, so that many small steps
    /// cost little.
    pub fn reserve(&mut self, alloc: Global, numbers: usize) -> Result<(), AllocError>
        requires sound { IsTree self.old }
        requires bound { numbers < 2 ^ 32 }
        ensures room { OnOk result (numbers ≤ room (timers_of self.new)) }
        ensures kept { KeepsMoments (timers_of self.old) (timers_of self.new) }
        ensures enough { numbers ≤ room (timers_of self.old) →
            (IsOk result) × (self.new ≡ self.old) }
        ensures bounded { room (timers_of self.new) ≤ room (timers_of self.old) + 2 * numbers }
        ensures refused { OnErr result (self.new ≡ self.old) }
        ensures sound { IsTree self.new }
    {
        if numbers <= self.leaves {
            return Ok(());
        }
        let mut grown = Tree::with_leaves(alloc, 2 * numbers)?;
        for job in 0..self.leaves {
            grown.put(job, self.nodes[self.leaves + job]);
        }
        *self = grown;
        Ok(())
    }

    /// Makes this the wake-up time of the job.
    pub fn set(&mut self, job: JobNo, moment: u64)
        requires sound { IsTree self.old }
        requires place { job < room (timers_of self.old) }
        ensures put { Updates (timers_of self.old) (timers_of self.new) job (Some moment) }
        ensures sound { IsTree self.new }
    {
        self.put(job as usize, Some(Timer { moment, job }));
    }

    /// Takes the job's wake-up time away, if it has one.
    pub fn clear(&mut self, job: JobNo)
        requires sound { IsTree self.old }
        ensures put { Updates (timers_of self.old) (timers_of self.new) job None }
        ensures sound { IsTree self.new }
    {
        let job = job as usize;
        if job < self.leaves {
            self.put(job, None);
        }
    }

    /// Makes this the wake-up time of the job, or leaves it without one. It plays no match if the time stays.
    pub fn renew(&mut self, job: JobNo, moment: Option<u64>)
        requires sound { IsTree self.old }
        requires place { job < room (timers_of self.old) }
        ensures put { Updates (timers_of self.old) (timers_of self.new) job moment }
        ensures sound { IsTree self.new }
    {
        if is_same(self.moment(job), moment) {
            return;
        }
        match moment {
            Some(moment) => self.set(job, moment),
            None => self.clear(job),
        }
    }

    /// The job's wake-up time, if it has one.
    fn moment(&self, job: JobNo) -> Option<u64>
        requires { IsTree self.now }
        ensures { result ≡ moment_in (timers_of self.now) job }
    {
        let job = job as usize;
        if job >= self.leaves {
            return None;
        }
        match self.nodes[self.leaves + job] {
            Some(timer) => Some(timer.moment),
            None => None,
        }
    }

    /// The timer of the root.
    pub fn least(&self) -> Option<(JobNo, u64)>
        requires { IsTree self.now }
        ensures { IsLeast (timers_of self.now) result }
    {
        if self.leaves == 0 {
            return None;
        }
        match self.nodes[1] {
            Some(timer) => Some((timer.job, timer.moment)),
            None => None,
        }
    }

    /// Puts a timer on the leaf of a job, and plays the matches above it. It ends at the first match that the same timer wins as
    /// before: what is above that one stays.
    fn put(&mut self, job: usize, timer: Option<Timer>)
        requires sound { IsTree self.old }
        requires place { job < self.old.leaves }
        requires own { ForSome timer (λ t. t.job ≡ job) }
        ensures put { IsPut self.old self.new job timer }
        ensures sound { IsTree self.new }
    {
        let mut place = self.leaves + job;
        self.nodes[place] = timer;
        while place > 1 {
            place /= 2;
            let winner = sooner(self.nodes[2 * place], self.nodes[2 * place + 1]);
            if is_same_timer(winner, self.nodes[place]) {
                return;
            }
            self.nodes[place] = winner;
        }
    }
}

/// The timer whose time comes first; of equal times that of the lesser job number.
fn sooner(left: Option<Timer>, right: Option<Timer>) -> Option<Timer>
    ensures { result ≡ sooner_timer left right }
{
    match (left, right) {
        (None, other) => other,
        (one, None) => one,
        (Some(one), Some(other)) => {
            if is_before(other, one) {
                Some(other)
            } else {
                Some(one)
            }
        }
    }
}

/// Whether the two are the same time, or both none.
fn is_same(one: Option<u64>, other: Option<u64>) -> bool
    ensures { result ≡ true → one ≡ other }
{
    match (one, other) {
        (None, None) => true,
        (Some(one), Some(other)) => one == other,
        _ => false,
    }
}

/// Whether the two are the same timer, or both none.
fn is_same_timer(one: Option<Timer>, other: Option<Timer>) -> bool
    ensures { result ≡ true → one ≡ other }
{
    match (one, other) {
        (None, None) => true,
        (Some(one), Some(other)) => one.moment == other.moment && one.job == other.job,
        _ => false,
    }
}

/// Whether the timer comes before the other.
fn is_before(timer: Timer, other: Timer) -> bool
    ensures { result ≡ is_timer_before timer other }
{
    timer.moment < other.moment || (timer.moment == other.moment && timer.job < other.job)
}
