//! What is wrong with a line.

use run_times::{Piece, TextWriter};
use std::alloc::{AllocError, Global};

/// Why a line has no definition.
#[derive(Drop)]
pub enum LineFault {
    NoMemory,
    /// The text says what is wrong, and what would be right.
    Refused(String),
}

impl From<AllocError> for LineFault {
    fn from(_error: AllocError) -> LineFault {
        LineFault::NoMemory
    }
}

/// The fault with the text of the form, whose holes the pieces fill, if there is memory for it.
pub(crate) fn told(alloc: Global, form: &str, pieces: &[Piece<'_>]) -> LineFault {
    let mut writer = TextWriter::new(alloc);
    writer.fill(form, pieces);
    refused(writer)
}

/// The fault with the text that was written, if there was memory for it.
pub(crate) fn refused(writer: TextWriter) -> LineFault {
    match writer.into_text() {
        Ok(text) => LineFault::Refused(text),
        Err(_) => LineFault::NoMemory,
    }
}
