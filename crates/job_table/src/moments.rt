//! When time alone may next make an order due: the wake-up times of all loaded jobs, and whether some have calendar entries.

ghost use Rattle.std.specs.Prelude.{◌≡◌};
ghost use Rattle.history_model.specs.Machine.{State};
ghost use Rattle.loaded_jobs.specs.StandsFor.{KeepsState};
ghost use Rattle.loaded_jobs.specs.Minutes.{has_calendars};
ghost use Rattle.loaded_jobs.specs.NextMoments.{IsNextUp};
ghost use Rattle.history_model.specs.News.{have_calendars};

use crate::JobTable;

impl JobTable {
    /// The least time, in milliseconds of `up` and after the last clock reading, at which the clock alone may make an order of a
    /// loaded job due. None, if no job has one. Until then only an event of a job needs to wake the launcher, or a calendar if
    /// `has_calendars` says that there is one. It takes no memory.
    pub fn next_up(&self) -> Option<u64>
        ensures { (s : State) → KeepsState self.now s → IsNextUp s.jobs result }
    {
        self.jobs.next_up()
    }

    /// Whether a loaded job has calendar entries, so that each civil minute may make an order due. It takes no memory.
    pub fn has_calendars(&self) -> bool
        ensures jobs { (s : State) → KeepsState self.now s → result ≡ have_calendars s.jobs }
        ensures rows { result ≡ has_calendars self.now.rows }
    {
        self.jobs.has_calendars()
    }
}
