//! The questions of a series of checks that are on their way, in the order in which they were asked, each with what
//! became of it.

ghost use Rattle.std.specs.Prelude.{◌≡◌, true};
ghost use Rattle.look_out.specs.Batches.{IsDecidedAt};

use crate::answer::Answer;
use std::alloc::{AllocError, Global};
use std::io;

/// How many questions are on their way at most.
pub(crate) const MOST: usize = 1_024;

/// What became of a question.
#[derive(Clone, Copy)]
pub enum Seen {
    /// There is no answer yet.
    Waits,
    /// This is the answer.
    Answered(Answer),
    /// There was none for half a second; or it was not asked, since what hung there hangs there still.
    Silent,
    /// It could not be asked, the system starts no helper now, or one exited twice in a row before its answer.
    Failed(io::Error),
    /// This program's own file is not there to be started as a helper, or what is there is not one: none that was
    /// started has ever answered.
    Unstarted,
}

/// A question about the path.
#[derive(Drop)]
pub(crate) struct Entry {
    pub(crate) path: String,
    pub(crate) seen: Seen,
}

/// Questions in their order. The first of them may have been taken, and the first without an answer waits for the next one.
#[derive(Drop)]
pub(crate) struct Batch {
    alloc: Global,
    pub(crate) entries: Vec<Entry>,
    pub(crate) taken: usize,
    pub(crate) next: usize,
}

impl Batch {
    pub(crate) fn new(alloc: Global) -> Batch {
        Batch {
            alloc,
            entries: Vec::new(alloc),
            taken: 0,
            next: 0,
        }
    }

    /// Whether each question has its answer, or will have none.
    pub(crate) fn is_decided(&self) -> bool {
        self.next >= self.entries.len()
    }

    /// What was asked is no longer taken.
    pub(crate) fn leave(&mut self) {
        self.taken = self.entries.len();
    }

    /// Forgets all questions.
    pub(crate) fn clear(&mut self) {
        self.entries.clear();
        self.taken = 0;
        self.next = 0;
    }

    /// Adds a question that is asked, or one that is not.
    pub(crate) fn add(&mut self, path: &str, seen: Seen) -> Result<(), AllocError> {
        let path = String::from_str(self.alloc, path)?;
        let entry = Entry { path, seen };
        self.entries.push(entry)?;
        self.pass();
        Ok(())
    }

    /// The path that waits for the next answer.
    pub(crate) fn waiting(&self) -> Option<&str> {
        let entry = self.entries.get(self.next)?;
        Some(entry.path.as_str())
    }

    /// The next answer: it is that of the first question which waits. False: none waits.
    pub(crate) fn apply(&mut self, answer: Answer) -> bool
        ensures { result ≡ true → IsDecidedAt self.old.next (Seen.Answered answer) self.old.entries.items self.new.entries.items }
    {
        let is_asked = self.decide(Seen::Answered(answer));
        self.pass();
        is_asked
    }

    // Decides the first question that waits.
    pub(crate) fn decide(&mut self, seen: Seen) -> bool
        ensures decided { result ≡ true → IsDecidedAt self.old.next seen self.old.entries.items self.new.entries.items }
    {
        match self.entries.get_mut(self.next) {
            Some(entry) => {
                entry.seen = seen;
                true
            }
            None => false,
        }
    }

    // Goes past what is decided.
    pub(crate) fn pass(&mut self)
        ensures { self.new.entries ≡ self.old.entries }
    {
        for at in self.next..self.entries.len() {
            match self.entries.get(at) {
                Some(
                    Entry {
                        seen: Seen::Waits,
                        ..
                    },
                ) => return,
                _ => self.next = at.saturating_add(1),
            }
        }
    }

    /// What became of the question about the path, of those that were not taken yet; and its place. None: it was not asked.
    pub(crate) fn find(&self, path: &str) -> Option<(usize, Seen)> {
        for at in self.taken..self.entries.len() {
            if let Some(entry) = self.entries.get(at) {
                if entry.path.as_str() == path {
                    return Some((at, entry.seen));
                }
            }
        }
        None
    }
}
