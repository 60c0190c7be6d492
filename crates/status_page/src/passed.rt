//! A minute of a job's calendar that passed while no launcher ran.

ghost use Rattle.calendar_due.specs.Next.{IsFirstDue};
ghost use Rattle.calendar_due.specs.ZoneRules.{minute_at};
ghost use Rattle.std.specs.Prelude.{◌≤◌};
ghost use Rattle.history_model.specs.declared.TheConstants.{MAX_WALL};
ghost use Rattle.status_page.specs.Passed.{HasPassed};

use calendar_due::{Calendar, Zone};
use history_model::{Entry, MAX_WALL};

/// Between which seconds of Unix time no launcher ran: the last one that the launcher before is known to have taken events, and the first one of this.
#[derive(Clone, Copy)]
pub struct Down {
    pub since: u64,
    pub until: u64,
    /// By when the definitions of the boot were loaded.
    pub loaded: u64,
}

/// The first whole minute that some entry matches in the zone, of those that passed while no launcher ran. None once the job was started under this
/// launcher: that start is the catch-up.
pub fn passed_minute(
    entries: &[Entry],
    zone: &Zone,
    has_started: bool,
    down: Option<Down>,
) -> Option<u64>
    ensures { HasPassed (minute_at zone.now) entries.now has_started down result }
{
    if has_started {
        return None;
    }
    match down {
        Some(down) => first_between(entries, zone, down.since, down.until.min(MAX_WALL)),
        None => None,
    }
}

fn first_between(entries: &[Entry], zone: &Zone, since: u64, until: u64) -> Option<u64>
    requires { until ≤ MAX_WALL }
    ensures { IsFirstDue (minute_at zone.now) entries.now since until result }
{
    if entries.is_empty() {
        return None;
    }
    Calendar::next(entries, zone, since, until)
}
