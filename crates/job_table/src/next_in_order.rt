//! What comes next in byte order: a job with a child, a listed path.

ghost use Rattle.std.specs.Option.{option_map};
ghost use Rattle.history_model.specs.Machine.{State};
ghost use Rattle.loaded_jobs.specs.StandsFor.{KeepsState};
ghost use Rattle.loaded_jobs.specs.Nearest.{IsNearestOf, IsNextChild, listed_paths};

use crate::JobTable;
use history_model::JobNo;

impl JobTable {
    /// The job with a child whose label comes next after the text in byte order, with its number and the child's run. Calls
    /// that begin with the empty text and go on with each answer's label meet every child. It takes no memory.
    pub fn child_after(&self, text: &str) -> Option<(&str, JobNo, u64)>
        ensures { (s : State) → KeepsState self.now s → IsNextChild self.now text.now s result }
    {
        self.jobs.child_after(text)
    }

    /// The path that comes next after the text in byte order, of all that the loaded definitions list in `PathState`,
    /// `WatchPaths` and `QueueDirectories`. It takes no memory.
    pub fn path_after(&self, text: &str) -> Option<&str>
        ensures { (s : State) → KeepsState self.now s →
            IsNearestOf text.now (listed_paths s.jobs) (option_map (λ path. path.now) result) }
    {
        self.jobs.path_after(text)
    }
}
