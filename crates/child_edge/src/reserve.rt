//! Descriptors that no client takes: the null device, opened. What a start, a TERM or a path check has to open takes
//! their place.

use std::alloc::Global;
use std::fs::{File, Files};
use std::io;

/// How many are held back. A first start takes the most at a time. It needs the two ends of a helper's socket, what
/// reports that it was started, and three streams, one of which may be opened twice.
const MOST: usize = 8;

/// ENFILE and EMFILE: the system, or this process, has no descriptor left (open(2)).
const NONE_OF_SYSTEM: i32 = 23;

const NONE_OF_PROCESS: i32 = 24;

/// Whether the error says that a descriptor lacks.
pub(crate) fn lacks_descriptor(error: &io::Error) -> bool {
    matches!(error.raw_os_error(), Some(NONE_OF_SYSTEM | NONE_OF_PROCESS))
}

#[derive(Drop)]
pub(crate) struct Reserve {
    held: Vec<File>,
}

impl Reserve {
    /// None is held yet.
    pub(crate) fn new(alloc: Global) -> Reserve {
        Reserve {
            held: Vec::new(alloc),
        }
    }

    /// Releases all: the next calls of the system find them free.
    pub(crate) fn release(&mut self) {
        self.held.clear();
    }

    /// Takes all that are lacking, up to the first that the system or the memory refuses.
    pub(crate) fn take<R: Files<File = File>>(&mut self, rt: &R) {
        for _ in self.held.len()..MOST {
            let Ok(file) = File::open(rt, "/dev/null") else {
                return;
            };
            if self.held.push(file).is_err() {
                return;
            }
        }
    }
}
