//! What a helper has to learn of where nothing is asked now, each time that this has changed.

use crate::hung::Hung;
use std::alloc::{AllocError, Global};
use std::process::OpenProcess;

#[derive(Drop)]
pub(crate) struct Telling {
    told: Vec<u8>,
    news: Vec<u8>,
}

impl Telling {
    pub(crate) fn new(alloc: Global) -> Telling {
        Telling {
            told: Vec::new(alloc),
            news: Vec::new(alloc),
        }
    }

    /// Another helper was started, which has learned nothing yet.
    pub(crate) fn begin(&mut self) {
        self.told.clear();
        self.news.clear();
    }

    /// Makes the news of this `up`, if there are some, and says how many questions they are.
    pub(crate) fn make<P: OpenProcess + Drop>(
        &mut self,
        hung: &Hung<P>,
        up: u64,
        is_look: bool,
    ) -> Result<usize, AllocError> {
        self.news.clear();
        if hung.is_quiet() && self.told.is_empty() {
            return Ok(0);
        }
        let count = hung.put_told(&mut self.news, up, is_look)?;
        if self.news.as_slice() == self.told.as_slice() {
            self.news.clear();
            return Ok(0);
        }
        self.told.clear();
        self.told.extend_from_slice(self.news.as_slice())?;
        Ok(count)
    }

    /// Whether the helper has learned nothing.
    pub(crate) fn is_empty(&self) -> bool {
        self.told.is_empty()
    }

    /// The text of the news.
    pub(crate) fn news(&self) -> &[u8] {
        self.news.as_slice()
    }
}
