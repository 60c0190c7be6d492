//! What a clock reading counts of a sleep of the machine. It counts nothing more while a job waits for its KILL, since
//! a run that has time to exit slept too.

ghost use Rattle.std.specs.Prelude.{◌≡◌, ◌-◌, ◌^◌, ℕ, not, ◌&&◌, Option, Some};
ghost use Rattle.history_model.specs.Items.{History};
ghost use Rattle.history_model.specs.Machine.{State};
ghost use Rattle.history_model.specs.NextMomentByFacts.{has_come};
ghost use Rattle.loaded_jobs.specs.Nearest.{run_in};
ghost use Rattle.loaded_jobs.specs.StandsFor.{KeepsState};
ghost use Rattle.loaded_jobs.specs.Waking.{HasMoments};
ghost use Rattle.jobd.specs.KillWaits.{AreAwaited, IsHanded, is_waiting, with_sleep};

use history_model::{MAX_JOBS, Reading};
use job_table::{JobTable, Moments};

/// Whether some job has a child that gets KILL if nothing happens but clock readings, and only later than this `up`, in
/// milliseconds. A job whose `ExitTimeOut` is 0 does not wait, nor does one that was given KILL. It takes no memory,
/// and asks each child's job once.
pub fn is_kill_awaited(table: &JobTable, up: u64) -> bool
    ensures { (s : State) → KeepsState table.now s → AreAwaited result up s }
{
    let mut behind = "";
    for _ in 0..MAX_JOBS + 1 {
        let Some(found) = table.child_after(behind) else {
            return false;
        };
        if waits(table.moments(found.0), up) {
            return true;
        }
        behind = found.0;
    }
    true
}

// Whether the job with a child that has these times waits.
fn waits(moments: Option<Moments>, up: u64) -> bool
    ensures { (past : Option History) (run : ℕ) → HasMoments past moments → run_in past ≡ Some run →
        is_waiting up past ≡ result }
{
    match moments {
        None => false,
        Some(moments) => is_to_come(moments.kill, up),
    }
}

// Whether the time is after this one.
fn is_to_come(moment: Option<u64>, up: u64) -> bool
    ensures { result ≡ (has_come moment (2 ^ 64 - 1) && not (has_come moment up)) }
{
    match moment {
        None => false,
        Some(moment) => up < moment,
    }
}

/// What a clock that counts sleeps shows, by what one that stops in them shows: `slept` milliseconds more of `up`.
pub(crate) fn counting(awake: Reading, slept: u64) -> Reading
    ensures { result ≡ with_sleep slept awake }
{
    Reading {
        up: awake.up.saturating_add(slept),
        wall: awake.wall,
    }
}

/// How many milliseconds of sleep the new clock reading counts. `up` is its `up` without further ones. The one before
/// counted `before`, and the machine slept for `slept` by now.
pub(crate) fn counted(table: &JobTable, up: u64, before: u64, slept: u64) -> u64
    ensures { IsHanded up table.now before slept result }
{
    if slept <= before {
        return before;
    }
    if is_kill_awaited(table, up) {
        return before;
    }
    slept
}
