//! The lines of a log for what no event says: an end without a shutdown, and a clock that was set.

ghost use Rattle.std.specs.Prelude.{◌≡◌, ◌≤◌};
ghost use Rattle.history_model.specs.declared.TheConstants.{MAX_UP, MAX_WALL};
ghost use Rattle.scope.specs.ClockSteps.{clock_step};

use history_model::{Reading, SECOND};
use launcher_life::Life;
use run_times::Filling::{Now, Span};
use run_times::Page;
use status_page::within_limits;

/// How many seconds the wall clock may differ from the launcher's own, and does not count as set: both are rounded.
const ROUNDED: u64 = 2;

/// How many seconds a clock may be corrected by in each one that it goes on, and does not count as set: one in this many.
const CORRECTED: u64 = 500;

/// What a wall clock did besides going on as the launcher's own clock did.
#[derive(Clone, Copy)]
pub enum ClockStep {
    None,
    /// It went ahead by this many seconds.
    Ahead(u64),
    /// It went back by this many seconds.
    Back(u64),
}

/// What the wall clock did from one clock reading of a launcher to the next.
pub fn clock_step(before: Reading, now: Reading) -> ClockStep
    requires wall { before.wall ≤ MAX_WALL }
    requires up { now.up ≤ MAX_UP }
    ensures { result ≡ clock_step before now }
{
    let elapsed = now.up.saturating_sub(before.up) / SECOND;
    let wanted = before.wall.saturating_add(elapsed);
    let least = elapsed / CORRECTED + ROUNDED;
    let ahead = now.wall.saturating_sub(wanted);
    let back = wanted.saturating_sub(now.wall);
    if ahead > least {
        ClockStep::Ahead(ahead)
    } else if back > least {
        ClockStep::Back(back)
    } else {
        ClockStep::None
    }
}

/// Adds the line for a wall clock that did not go on as the launcher's own did.
pub(crate) fn add_clock(page: &mut Page<'_>, before: Reading, now: Reading) {
    match clock_step(within_limits(before), within_limits(now)) {
        ClockStep::None => {}
        ClockStep::Ahead(seconds) => page.add(
            "$  the wall clock went ahead by $: it was set, or the machine slept\n",
            &[Now, Span(seconds.saturating_mul(SECOND))],
        ),
        ClockStep::Back(seconds) => page.add(
            "$  the wall clock went back by $: it was set\n",
            &[Now, Span(seconds.saturating_mul(SECOND))],
        ),
    }
}

/// Adds the line for the end of a journal, if its launcher did not exit in order.
pub(crate) fn add_end(page: &mut Page<'_>, life: Life) {
    let form = match life {
        Life::Runs | Life::Silent(_) | Life::Stopped | Life::Exited => return,
        Life::Killed =>
            "$  the journal ends without a shutdown: the launcher was killed, or its journal closed\n",
        Life::NotSeen | Life::Unknown =>
            "$  the journal ends here: whether its launcher still runs is not known\n",
    };
    page.add(form, &[Now]);
}
