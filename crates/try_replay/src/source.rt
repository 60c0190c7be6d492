//! A reader that gives few bytes at a time, and fails once it was read so often.

use std::io;
use std::io::{ErrorKind, Read};

#[derive(Drop)]
pub struct Source<'a> {
    /// What was not read yet.
    pub rest: &'a [u8],
    /// The most bytes that one read gives.
    pub piece: usize,
    /// How many reads succeed.
    pub reads: usize,
    /// How the read after them fails.
    pub failure: ErrorKind,
}

impl Read for Source<'_> {
    fn read(&mut self, buf: &mut [u8]) -> io::Result<usize> {
        if self.reads == 0 {
            return Err(io::Error::from(self.failure));
        }
        self.reads -= 1;
        let n = self.piece.min(self.rest.len()).min(buf.len());
        for i in 0..n {
            buf[i] = self.rest[i];
        }
        self.rest = &self.rest[n..];
        Ok(n)
    }
}
