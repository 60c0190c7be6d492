//! When the clock wants a job next.

ghost use Rattle.std.specs.Prelude.{◌≡◌, ◌≤◌, ◌+◌, ◌<◌, MatchOption};
ghost use Rattle.calendar_due.specs.Next.{IsFirstDue};
ghost use Rattle.calendar_due.specs.ZoneRules.{minute_at};
ghost use Rattle.definition_files.specs.Coming.{last_looked_at};

use calendar_due::{Calendar, Zone};
use history_model::{Entry, MAX_WALL};

/// How far ahead a minute of the calendar is looked for, in seconds: 2,930 days. Any entry that matches at all on a civil clock without
/// gaps does so in each 2,922 days: there is no 29th of February between those of 2096 and 2104.
const FARTHEST: u64 = 253_152_000;

/// The least whole minute after the second that some entry matches in the zone; none if there is none within 2,930 days. Both in
/// seconds of Unix time.
pub fn calendar_after(entries: &[Entry], zone: &Zone, after: u64) -> Option<u64>
    ensures { IsFirstDue (minute_at zone.now) entries.now after (last_looked_at after) result }
{
    if entries.is_empty() {
        return None;
    }
    Calendar::next(entries, zone, after, last_looked_at(after))
}

fn last_looked_at(after: u64) -> u64
    ensures value { result ≡ last_looked_at after }
    ensures range { result ≤ MAX_WALL }
{
    after.saturating_add(FARTHEST).min(MAX_WALL)
}

/// The second at which an interval of `every` seconds is over that began at `after`; none if it is past what a launcher's clock may
/// show, and only then.
pub(crate) fn interval_after(every: u32, after: u64) -> Option<u64>
    ensures { MatchOption result (MAX_WALL < after + every)
        (λ second. (second ≡ after + every) × (second ≤ MAX_WALL)) }
{
    let second = after.checked_add(u64::from(every))?;
    if second <= MAX_WALL {
        Some(second)
    } else {
        None
    }
}
