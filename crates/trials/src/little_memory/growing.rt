//! The call of a heap of deadlines that takes memory.

use crate::little_memory::trial::Answer;
use std::alloc::Global;
use timer_heap::TimerHeap;

/// A heap with one deadline: 5, of job 1.
pub fn heap_of(alloc: Global) -> Option<TimerHeap> {
    let mut heap = TimerHeap::new(alloc).ok()?;
    let is_made = heap.reserve(alloc, 2).is_ok();
    if is_made {
        heap.set(1, 5);
        Some(heap)
    } else {
        drop(heap);
        None
    }
}

/// Makes room for a thousand jobs.
pub fn grown(alloc: Global, heap: &mut TimerHeap) -> Answer {
    match heap.reserve(alloc, 1_000) {
        Ok(()) => Answer::Made,
        Err(_) => Answer::NoMemory,
    }
}

/// Whether the deadline is still there, and a job of the greater room gets one.
pub fn is_kept(alloc: Global, heap: &mut TimerHeap) -> bool {
    let was = heap.least();
    let is_made = heap.reserve(alloc, 1_000).is_ok();
    if is_made {
        heap.set(999, 3);
    }
    let first = heap.pop_due(4);
    let second = heap.pop_due(5);
    let last = heap.least();
    is_made && was == Some((1, 5)) && first == Some(999) && second == Some(1) && last == None
}
