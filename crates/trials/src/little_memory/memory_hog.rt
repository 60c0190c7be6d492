//! Takes all memory that is available, and gives it back.

use std::alloc::{AllocError, Global};

/// How many blocks are held at most. If that is not enough, the memory was not limited.
const BLOCKS: usize = 32_768;

/// The greatest block that is asked for.
const GREATEST: usize = 1 << 28;

/// Blocks of memory that nothing is written to.
#[derive(Drop)]
pub struct MemoryHog {
    blocks: Vec<Vec<u8>>,
}

impl MemoryHog {
    /// A hoard that holds nothing yet, with room for the list of its blocks.
    pub fn new(alloc: Global) -> Result<MemoryHog, AllocError> {
        let blocks = Vec::with_capacity(alloc, BLOCKS)?;
        Ok(MemoryHog { blocks })
    }

    /// Takes blocks of all sizes, the great ones first, until not even the least is available. It returns whether it came to that.
    pub fn take_all(&mut self, alloc: Global) -> bool {
        let mut size = GREATEST;
        let mut is_all = false;
        for _ in 0..512 {
            is_all = self.take(alloc, size);
            size = if size > 4096 {
                size / 2
            } else {
                size - size.min(16)
            };
            if size == 0 {
                break;
            }
        }
        is_all
    }

    /// Takes blocks of this size until one is refused, and returns whether one was.
    fn take(&mut self, alloc: Global, size: usize) -> bool {
        for _ in self.blocks.len()..BLOCKS {
            let is_taken = match Vec::with_capacity(alloc, size) {
                Ok(block) => self.blocks.push(block).is_ok(),
                Err(_) => false,
            };
            if !is_taken {
                return true;
            }
        }
        false
    }

    /// Gives all blocks back.
    pub fn give_back(&mut self) {
        self.blocks.clear();
    }
}
