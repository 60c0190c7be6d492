//! What comes from a helper: answers of nine bytes each, and between them the steps by which it goes to a path.

use crate::answer::{Answer, LENGTH};
use crate::question::LONGEST;
use std::alloc::{AllocError, Global};
use std::io;
use std::io::{ErrorKind, Write};

/// The first byte of a step, whose text is after its nine bytes, as long as their number says.
const STEP: u8 = 255;

/// What came and was not taken yet, and where the question that waits for an answer has led, if not to its own path.
#[derive(Drop)]
pub(crate) struct Inbox {
    bytes: Vec<u8>,
    taken: usize,
    step: String,
}

impl Inbox {
    pub(crate) fn new(alloc: Global) -> Inbox {
        Inbox {
            bytes: Vec::new(alloc),
            taken: 0,
            step: String::new(alloc),
        }
    }

    /// Forgets all that came.
    pub(crate) fn clear(&mut self) {
        self.bytes.clear();
        self.taken = 0;
        self.step.clear();
    }

    /// This came too.
    pub(crate) fn put(&mut self, bytes: &[u8]) -> Result<(), AllocError> {
        if self.taken >= self.bytes.len() {
            self.bytes.clear();
            self.taken = 0;
        }
        self.bytes.extend_from_slice(bytes)
    }

    /// The next answer, if it came whole. `InvalidData`: what came is none.
    pub(crate) fn next(&mut self) -> io::Result<Option<Answer>> {
        for _ in 0..self.bytes.len() {
            let Some(rest) = self.bytes.as_slice().get(self.taken..) else {
                return Ok(None);
            };
            let Some((head, behind)) = rest.split_at_checked(LENGTH) else {
                return Ok(None);
            };
            let Ok(whole) = <[u8; LENGTH]>::try_from(head) else {
                return Ok(None);
            };
            let Some(length) = step_in(whole) else {
                self.taken = self.taken.saturating_add(LENGTH);
                self.step.clear();
                return match Answer::from_bytes(whole) {
                    Some(answer) => Ok(Some(answer)),
                    None => Err(io::Error::from(ErrorKind::InvalidData)),
                };
            };
            if length > LONGEST {
                return Err(io::Error::from(ErrorKind::InvalidData));
            }
            let Some(text) = behind.get(..length) else {
                return Ok(None);
            };
            let Ok(text) = std::str::from_utf8(text) else {
                return Err(io::Error::from(ErrorKind::InvalidData));
            };
            self.step.clear();
            self.step.push_str(text)?;
            self.taken = self.taken.saturating_add(LENGTH).saturating_add(length);
        }
        Ok(None)
    }

    /// Where the question that waits has led, or this path if it has led to no other.
    pub(crate) fn place_of<'a>(&'a self, path: &'a str) -> &'a str {
        if self.step.is_empty() {
            path
        } else {
            self.step.as_str()
        }
    }
}

// How long the text of the step is, if the bytes begin one.
fn step_in(bytes: [u8; LENGTH]) -> Option<usize> {
    let [tag, a, b, c, d, e, f, g, h] = bytes;
    if tag != STEP {
        return None;
    }
    match usize::try_from(u64::from_le_bytes([a, b, c, d, e, f, g, h])) {
        Ok(length) => Some(length),
        Err(_) => Some(usize::MAX),
    }
}

/// Names the step to who asked.
pub(crate) fn name<S: Write>(alloc: Global, socket: &mut S, text: &str) -> io::Result<()> {
    let Ok(length) = u64::try_from(text.len()) else {
        return Ok(());
    };
    let [a, b, c, d, e, f, g, h] = length.to_le_bytes();
    let mut step = Vec::new(alloc);
    step.extend_from_slice(&[STEP, a, b, c, d, e, f, g, h])?;
    step.extend_from_slice(text.as_bytes())?;
    let answer = socket.write_all(step.as_slice());
    drop(step);
    answer
}
