//! A writer that takes few bytes at a time, and fails once it was written to so often.

use std::alloc::Global;
use std::io;
use std::io::{ErrorKind, Write};

#[derive(Drop)]
pub struct Sink {
    /// What was written.
    pub taken: Vec<u8>,
    /// The most bytes that one write takes.
    pub piece: usize,
    /// How many writes succeed.
    pub writes: usize,
    /// Whether the write after them takes no byte; if not, it is an error.
    pub is_full: bool,
    /// How often it was flushed.
    pub flushes: u64,
    /// Whether a flush is refused.
    pub refuses_flush: bool,
}

/// One that takes this many writes, each whole, and refuses no flush.
pub fn new_sink(alloc: Global, writes: usize) -> Sink {
    Sink {
        taken: Vec::new(alloc),
        piece: usize::MAX,
        writes,
        is_full: false,
        flushes: 0,
        refuses_flush: false,
    }
}

impl Write for Sink {
    fn write(&mut self, buf: &[u8]) -> io::Result<usize> {
        if self.writes == 0 {
            if self.is_full {
                return Ok(0);
            }
            return Err(io::Error::from(ErrorKind::Other));
        }
        self.writes -= 1;
        let n = self.piece.min(buf.len());
        self.taken.extend_from_slice(&buf[..n])?;
        Ok(n)
    }

    fn flush(&mut self) -> io::Result<()> {
        self.flushes = self.flushes.saturating_add(1);
        if self.refuses_flush {
            return Err(io::Error::from(ErrorKind::Other));
        }
        Ok(())
    }
}
