//! What the table of a journal says of a job.

ghost use Rattle.std.specs.Prelude.{ℕ, List, Some};
ghost use Rattle.scope.specs.Facts.{HasFactsAfter};
ghost use Rattle.scope.specs.Journals.{KeepsLines};

use crate::journal::reader::OpenJournal;
use status_file::{JobFacts, facts_of};

impl OpenJournal {
    /// What is said of the job with this label; None if it is not loaded. After any lines these are the facts of the machine that a replay of the
    /// same lines runs.
    pub fn facts(&self, label: &str) -> Option<JobFacts<'_>>
        ensures { (lines : List (List ℕ)) → KeepsLines lines (Some self.now.table) →
            HasFactsAfter lines label.now result }
    {
        facts_of(&self.table, label)
    }
}
