//! Which clock readings may change something. The others are not delivered to the launcher, so that its journal does
//! not grow while nothing happens.

ghost use Rattle.std.specs.Prelude.{◌≡◌, List};
ghost use Rattle.std.specs.List.{list_any};
ghost use Rattle.history_model.specs.Machine.{Job, State, Tick};
ghost use Rattle.history_model.specs.LeftOut.{last_read};
ghost use Rattle.history_model.specs.Moments.{next_moment};
ghost use Rattle.loaded_jobs.specs.StandsFor.{KeepsState};
ghost use Rattle.loaded_jobs.specs.NextMoments.{IsNextUp};
ghost use Rattle.history_model.specs.News.{is_moment_reached as has_come, is_any_minute_crossed as is_some_minute, may_change};

use history_model::{MAX_UP, MAX_WALL, Reading};
use job_table::JobTable;

/// Whether the clock reading may change something since the table's last one. It may if a job's next time is reached,
/// or if the wall clock was set back. It may too if some job has calendar entries and a civil minute is crossed. It
/// takes no memory.
pub fn is_news(table: &JobTable, at: Reading) -> bool
    ensures { (s : State) → KeepsState table.now s →
        result ≡ may_change s.jobs table.now.reading at }
{
    let last = table.reading();
    let is_due = is_reached(table.next_up(), at.up);
    let has_calendars = table.has_calendars();
    let is_minute = is_minute_crossed(last.wall, at.wall);
    let is_back = at.wall < last.wall;
    is_due | (has_calendars & is_minute | is_back)
}

// The least of all jobs' times is reached exactly if one of them is.
fn is_reached(moment: Option<u64>, up: u64) -> bool
    ensures { (jobs : List Job) → IsNextUp jobs moment →
        result ≡ list_any (λ job. has_come up (next_moment job.past)) jobs }
{
    match moment {
        None => false,
        Some(moment) => moment <= up,
    }
}

fn is_minute_crossed(before: u64, wall: u64) -> bool
    ensures { result ≡ is_some_minute before wall }
{
    before / 60 < wall / 60
}

/// The new clock reading, or the one before it if a launcher would refuse the new one: its `up` is less, or one of its
/// clocks is past a limit.
pub(crate) fn later_of(before: Reading, at: Reading) -> Reading
    ensures { result ≡ last_read before (Tick at) }
{
    if at.up < before.up || MAX_UP < at.up || MAX_WALL < at.wall {
        before
    } else {
        at
    }
}
