//! Each call that takes memory, with none left, and then with more and more, until it is made. What is tried is made in functions that
//! are generic over the store and the launcher, so that neither is named here.

mod feeding;
mod growing;
mod looping;
mod memory_hog;
mod plain_calls;
mod replaying;
mod storing;
mod trial;
pub mod turning;

use crate::little_memory::memory_hog::MemoryHog;
use crate::little_memory::storing::{InMemory, OwnFile};
use crate::memory_stage::Stage;
use anyhow::Result;

/// Tries each call. Memory must be limited already.
pub fn try_all(rt: &HostRuntime) -> Result<()> {
    let mut memory_hog = MemoryHog::new(rt.alloc())?;
    let plain = plain_calls::try_all(rt, &mut memory_hog);
    let opening = storing::try_all(rt, &mut memory_hog, OwnFile { rt }, storing::OPENING);
    let storing = storing::try_all(rt, &mut memory_hog, InMemory {}, storing::CALLS);
    let turning = turning::try_all::<Stage>(rt, &mut memory_hog);
    let looping = looping::try_making(rt, &mut memory_hog);
    drop(memory_hog);
    plain?;
    opening?;
    storing?;
    turning?;
    looping
}
