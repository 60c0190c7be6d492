//! A writer that takes few bytes at a time, and fails once it was written to so often.

use std::io;
use std::io::{ErrorKind, Write};

#[derive(Drop)]
pub struct Sink {
    /// What was written.
    pub taken: Vec<u8>,
    /// The most bytes that one write takes.
    pub piece: usize,
    /// How many writes succeed.
    pub writes: usize,
    /// How the write after them fails; with none it takes no byte.
    pub failure: Option<ErrorKind>,
}

impl Write for Sink {
    fn write(&mut self, buf: &[u8]) -> io::Result<usize> {
        if self.writes == 0 {
            return match self.failure {
                Some(kind) => Err(io::Error::from(kind)),
                None => Ok(0),
            };
        }
        self.writes -= 1;
        let n = self.piece.min(buf.len());
        self.taken.extend_from_slice(&buf[..n])?;
        Ok(n)
    }

    fn flush(&mut self) -> io::Result<()> {
        Ok(())
    }
}
