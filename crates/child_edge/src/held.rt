//! What a helper process holds open for a start: each part by the number that it has there.

use crate::failure::Part;
use std::alloc::{AllocError, Global};

/// The helper's PID, if what it holds can be opened, and the number of each part that it holds.
#[derive(Clone, Copy)]
pub(crate) struct Held {
    /// A helper checked the parts.
    pub(crate) is_asked: bool,
    id: Option<u32>,
    folder: Option<u64>,
    input: Option<u64>,
    output: Option<u64>,
    errors: Option<u64>,
}

impl Held {
    /// Nothing was asked: the start opens for itself.
    pub(crate) fn nothing() -> Held {
        Held {
            is_asked: false,
            id: None,
            folder: None,
            input: None,
            output: None,
            errors: None,
        }
    }

    /// Nothing is held yet.
    pub(crate) fn by(id: Option<u32>) -> Held {
        Held {
            is_asked: true,
            id,
            ..Held::nothing()
        }
    }

    /// The part is held under the number.
    pub(crate) fn keep(&mut self, part: Part, number: u64) {
        match part {
            Part::Folder => self.folder = Some(number),
            Part::Input => self.input = Some(number),
            Part::Output => self.output = Some(number),
            Part::Errors => self.errors = Some(number),
            _ => {}
        }
    }

    fn number_of(&self, part: Part) -> Option<u64> {
        match part {
            Part::Folder => self.folder,
            Part::Input => self.input,
            Part::Output => self.output,
            Part::Errors => self.errors,
            _ => None,
        }
    }

    /// Whether the helper opened the part.
    pub(crate) fn has(&self, part: Part) -> bool {
        self.number_of(part).is_some()
    }

    /// The path by which the part is opened, if it is held and can be reached.
    pub(crate) fn path_of(&self, alloc: Global, part: Part) -> Result<Option<String>, AllocError> {
        match (self.id, self.number_of(part)) {
            (Some(id), Some(number)) => {
                let path = format!(in alloc; "/proc/{id}/fd/{number}")?;
                Ok(Some(path))
            }
            _ => Ok(None),
        }
    }
}
