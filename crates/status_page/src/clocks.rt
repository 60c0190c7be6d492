//! What follows from what a table says of a job, as the clocks go on and nothing else happens.

ghost use Rattle.std.specs.Prelude.{◌≡◌, ◌≤◌};
ghost use Rattle.history_model.specs.declared.TheConstants.{MAX_UP, MAX_WALL};
ghost use Rattle.history_model.specs.Items.{History};
ghost use Rattle.history_model.specs.NextRun.{looked_ahead};
ghost use Rattle.history_model.specs.Reasons.{reasons_of, some_want};
ghost use Rattle.calendar_due.specs.ZoneRules.{minute_at};
ghost use Rattle.run_times.specs.Told.{IsTold};
ghost use Rattle.status_page.specs.declared.clocks.TheConstants.{FARTHEST};
ghost use Rattle.status_page.specs.Clocks.{can_start, can_start_again, gone_on, StartsSo};

use calendar_due::Zone;
use history_model::{Entry, MAX_UP, MAX_WALL, Reading, Reasons, SECOND, Wants};
use run_times::next_run;

/// How far is looked ahead, in seconds: 400 days.
pub const FARTHEST: u64 = 34_560_000;

/// The clock reading, no later than one may be.
pub fn within_limits(at: Reading) -> Reading
    ensures up { result.up ≤ MAX_UP }
    ensures wall { result.wall ≤ MAX_WALL }
{
    Reading {
        up: at.up.min(MAX_UP),
        wall: at.wall.min(MAX_WALL),
    }
}

/// The clock reading at this second of `wall`, if both clocks went on alike from the last one on. If the second is not later, it is the
/// last one.
pub fn gone_on(last: Reading, second: u64) -> Reading
    requires up { last.up ≤ MAX_UP }
    requires wall { last.wall ≤ MAX_WALL }
    ensures { result ≡ gone_on last second }
{
    let seconds = second.min(MAX_WALL).saturating_sub(last.wall);
    Reading {
        up: last.up + SECOND * seconds,
        wall: last.wall + seconds,
    }
}

/// When time alone starts a job, by seconds of `wall`.
#[derive(Clone, Copy)]
pub enum StartWhen {
    Never,
    /// The start has been due since this second.
    Since(u64),
    /// It comes at this second.
    At(u64),
}

/// When time alone starts the job, as of this second of `wall`, if both clocks go on alike from its last clock reading on.
pub fn start_when(
    reasons: &Reasons,
    spawns_from: Option<u64>,
    entries: &[Entry],
    zone: &Zone,
    last: Reading,
    now: u64,
) -> StartWhen
    requires up { last.up ≤ MAX_UP }
    requires wall { last.wall ≤ MAX_WALL }
    ensures { (past : History) → IsTold reasons.now spawns_from entries.now last past →
        StartsSo (minute_at zone.now) past (looked_ahead last FARTHEST) last now result }
{
    match next_run(reasons, spawns_from, entries, zone, last, FARTHEST) {
        Some(seconds) => {
            let at = last.wall.saturating_add(seconds);
            if at <= now {
                StartWhen::Since(at)
            } else {
                StartWhen::At(at)
            }
        }
        None => StartWhen::Never,
    }
}

/// Whether a start can ever come of the load: it is not being removed, and its launches are not used up.
pub fn can_start_again(reasons: &Reasons) -> bool
    ensures past { (past : History) → reasons.now ≡ reasons_of past → result ≡ can_start_again past }
    ensures reasons { result ≡ can_start reasons.now }
{
    !(reasons.is_removing || reasons.is_launch_spent || reasons.are_runs_spent)
}

/// Whether something wants the job.
pub fn is_wanted(wants: &Wants) -> bool
    ensures { result ≡ some_want wants.now }
{
    wants.demand
        || wants.connections > 0
        || wants.keep_alive
        || wants.successful_exit
        || wants.crashed
        || wants.path_state
        || wants.queue_directories
}
