//! The heap of deadlines as its caller uses it, step by step.

use crate::parts::heap::Step::*;
use std::alloc::Global;
use timer_heap::TimerHeap;

/// What is asked of a heap, and what is expected of it.
pub enum Step {
    /// Room for this number of entries is made.
    Reserve(u32),
    /// The job of this number has this deadline.
    Set(u32, u64),
    /// The least deadline is this, of the job of this number.
    Least(Option<(u32, u64)>),
    /// At this time this job's deadline comes out.
    Due(u64, Option<u32>),
}

/// A job's newer deadline takes the place of the older one; a deadline comes once it is reached, and not before.
pub const BY_MOMENTS: &[Step] = &[
    Reserve(2),
    Set(0, 500),
    Set(1, 300),
    Set(0, 100),
    Least(Some((0, 100))),
    Due(100, Some(0)),
    Due(299, None),
    Due(500, Some(1)),
    Due(500, None),
];

/// Whether the step goes as it says.
fn goes(alloc: Global, heap: &mut TimerHeap, step: &Step) -> bool {
    match *step {
        Reserve(count) => heap.reserve(alloc, count).is_ok(),
        // If room for the number was made before, no more is made.
        Set(number, moment) => match number.checked_add(1) {
            Some(numbers) => {
                let is_made = heap.reserve(alloc, numbers).is_ok();
                if is_made {
                    heap.set(number, moment);
                }
                is_made
            }
            None => false,
        },
        Least(wanted) => heap.least() == wanted,
        Due(now, wanted) => heap.pop_due(now) == wanted,
    }
}

/// Whether the heap goes as its steps say. None without memory.
pub fn all_go(alloc: Global, steps: &[Step]) -> Option<bool> {
    let mut heap = TimerHeap::new(alloc).ok()?;
    let mut all_go = true;
    for step in steps {
        all_go &= goes(alloc, &mut heap, step);
    }
    Some(all_go)
}
