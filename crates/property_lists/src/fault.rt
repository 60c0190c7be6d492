//! Why bytes are not a property list that can be written as JSON.

use std::alloc::AllocError;

/// Why bytes were refused. It leaves nothing.
#[derive(Clone, Copy, Drop)]
pub enum ListFault<'a> {
    NoMemory,
    /// The first fault, and the number of its line, from 1. A `$` in the text on what is wrong is for what was found.
    Refused {
        line: usize,
        why: &'static str,
        found: &'a str,
    },
}

/// A fault whose line is not looked up yet.
#[derive(Clone, Copy, Drop)]
pub(crate) enum Wrong<'a> {
    NoMemory,
    Because(&'static str, &'a str),
}

impl From<AllocError> for Wrong<'_> {
    fn from(_error: AllocError) -> Self {
        Wrong::NoMemory
    }
}
