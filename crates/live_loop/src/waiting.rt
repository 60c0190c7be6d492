//! How long a pass of the live loop waits, in milliseconds.

ghost use Rattle.std.specs.Prelude.{◌≡◌, ◌≤◌, ◌∷◌, ℕ, Bool, List};
ghost use Rattle.live_loop.specs.Waiting.{pause_after, quick_after, IsNotPast, IsLongestWait};

/// The longest pause.
pub(crate) const LONGEST: u64 = 100;

/// The pause after a pass in which something happened, and before the first one.
pub(crate) const SHORTEST: u64 = 1;

/// The pause after one pass more; `pause` is that after those before it. It is a millisecond after a pass in which
/// something happened. Each quiet pass since then doubles it, up to a tenth of a second.
pub fn next_pause(is_active: bool, pause: u64) -> u64
    ensures { (rounds : List Bool) → pause ≡ pause_after rounds →
        result ≡ pause_after (is_active ∷ rounds) }
{
    if is_active {
        SHORTEST
    } else {
        pause.saturating_mul(2).min(LONGEST)
    }
}

/// How many passes are quick after one in which a client's request came whole.
const QUICK: u32 = 4;

/// How many of the next passes are quick, after one pass more; `quick` is how many were after those before it. Four are
/// quick after a pass in which a client's request came whole. The reason: most runs that answer one exit soon, and
/// without a helper that reports exits none wakes a pass. A quick pass then waits 200 microseconds if nothing is there.
pub fn quick_rounds(is_whole: bool, quick: u32) -> u32
    ensures { (rounds : List Bool) → quick ≡ quick_after rounds →
        result ≡ quick_after (is_whole ∷ rounds) }
{
    if is_whole {
        QUICK
    } else {
        quick.saturating_sub(1)
    }
}

/// How long a pass waits from `up` on: the longest time within the pause that does not go past the next time of the
/// table. Nor does it go past the next check of paths, if there is one.
pub fn round_wait(pause: u64, up: u64, moment: Option<u64>, look: Option<u64>) -> u64
    ensures { IsLongestWait pause up moment look result }
{
    until(until(pause, up, moment), up, look)
}

fn until(wait: u64, up: u64, moment: Option<u64>) -> u64
    ensures within { result ≤ wait }
    ensures not_past { (other : ℕ) → other ≤ result → IsNotPast up moment other }
    ensures longest { (other : ℕ) → other ≤ wait → IsNotPast up moment other → other ≤ result }
{
    match moment {
        None => wait,
        Some(moment) => wait.min(moment.saturating_sub(up)),
    }
}
