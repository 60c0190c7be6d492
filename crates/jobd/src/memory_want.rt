//! Whether memory was wanting for a clock reading, and whether the launcher still has to log that.

use child_edge::{Notice, NoticeKind};
use history_model::Text;
use std::alloc::Global;

/// What the launcher logs of a clock reading for which it had no memory.
const WANTING: &str = "a clock reading was refused: no memory";

/// What became of the last clock reading.
#[derive(Drop)]
pub(crate) struct MemoryWant {
    alloc: Global,
    is_wanting: bool,
    is_untold: bool,
}

impl MemoryWant {
    /// None was refused.
    pub(crate) fn new(alloc: Global) -> MemoryWant {
        MemoryWant {
            alloc,
            is_wanting: false,
            is_untold: false,
        }
    }

    /// The last clock reading was refused for want of memory, or it was not. Of refusals in a row the first is logged.
    pub(crate) fn note(&mut self, is_wanting: bool) {
        self.is_untold = self.is_untold || (is_wanting && !self.is_wanting);
        self.is_wanting = is_wanting;
    }

    /// That one was refused, if it is to be logged. Without memory for the line itself it is logged later.
    pub(crate) fn next_notice(&mut self) -> Option<Notice> {
        if !self.is_untold {
            return None;
        }
        let text = Text::copy_of(self.alloc, WANTING).ok()?;
        self.is_untold = false;
        Some(Notice {
            kind: NoticeKind::Refusal,
            text,
        })
    }
}
