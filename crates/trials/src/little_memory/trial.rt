//! A call under trial: made again and again with too little memory, and each time with a little more, until it has
//! enough.

use crate::little_memory::memory_hog::MemoryHog;
use anyhow::{Result, bail};
use std::alloc::Global;

/// What a call answered.
#[derive(Clone, Copy, PartialEq, Eq)]
pub enum Answer {
    /// What it was asked for.
    Made,
    /// That memory was not available.
    NoMemory,
    /// Anything else.
    Other,
}

/// A call that takes memory.
pub trait Trial {
    /// What must be there before the call. It returns whether it is; there is ample memory.
    fn prepare(&mut self, alloc: Global) -> bool;

    /// The call.
    fn call(&mut self, alloc: Global) -> Answer;

    /// Whether what is there afterwards is what that answer leaves; there is ample memory.
    fn is_right(&mut self, alloc: Global, answer: Answer) -> bool;
}

/// What is taken of the block that is given back. An allocator may keep a small block for a growth of just its size; what is
/// left of a greater one serves any growth that fits.
const FILLER: usize = 4096;

/// How many times a call is made at most.
const ROUNDS: u32 = 4096;

/// How many times a call has a little more than before; then the steps are greater, for a call that needs megabytes.
const SMALL_STEPS: u32 = 128;

/// How a call passed its trial.
enum Verdict {
    /// It was refused memory this many times, each time answered so and left what it should, and then was made.
    Stood(u32),
    /// It answered or left something else, if this many bytes were left to it.
    Fell(usize),
    /// The memory was not limited, or what the call needs was not available.
    NotTried,
}

/// Makes the call with no memory left, and then with more and more.
fn stand<T: Trial>(alloc: Global, memory_hog: &mut MemoryHog, trial: &mut T) -> Verdict {
    let mut remaining = 0usize;
    for refused in 0..ROUNDS {
        if !trial.prepare(alloc) {
            return Verdict::NotTried;
        }
        let Some(answer) = answer_with(alloc, memory_hog, trial, remaining) else {
            return Verdict::NotTried;
        };
        if answer == Answer::Other || !trial.is_right(alloc, answer) {
            return Verdict::Fell(remaining);
        }
        if answer == Answer::Made {
            return Verdict::Stood(refused);
        }
        let more = if refused < SMALL_STEPS {
            remaining / 64
        } else {
            remaining / 16
        };
        remaining = remaining.saturating_add(16).saturating_add(more);
    }
    Verdict::NotTried
}

/// What the call answers if this many bytes are left. None if the memory is not limited.
fn answer_with<T: Trial>(
    alloc: Global,
    memory_hog: &mut MemoryHog,
    trial: &mut T,
    remaining: usize,
) -> Option<Answer> {
    let kept: Vec<u8> = Vec::with_capacity(alloc, FILLER.saturating_add(remaining)).ok()?;
    let is_all = memory_hog.take_all(alloc);
    drop(kept);
    let filler: Vec<u8> = Vec::with_capacity(alloc, FILLER).ok()?;
    let answer = if is_all {
        Some(trial.call(alloc))
    } else {
        None
    };
    drop(filler);
    memory_hog.give_back();
    answer
}

/// Tries a call, and reports how that went. An error if it answered or left something else than it should, or if the memory was not limited. The
/// trial is dropped here, since each place that drops it is proved for its whole type.
pub fn tried<T: Trial + Drop>(
    rt: &HostRuntime,
    memory_hog: &mut MemoryHog,
    name: &str,
    trial: T,
) -> Result<()> {
    let mut trial = trial;
    let verdict = stand(rt.alloc(), memory_hog, &mut trial);
    drop(trial);
    match verdict {
        Verdict::Stood(0) => bail!("{name}: was never refused memory"),
        Verdict::Stood(_) => println!(rt; "{name}: no memory, then made")?,
        Verdict::Fell(remaining) => bail!("{name}: wrong with {remaining} bytes left"),
        Verdict::NotTried => bail!("{name}: not tried"),
    }
    Ok(())
}
