//! What came due by time alone since a journal's last event or since a launcher wrote its file.

ghost use Rattle.std.specs.Prelude.{◌≡◌, ℕ, Bool};
ghost use Rattle.history_model.specs.Items.{History};
ghost use Rattle.history_model.specs.NextMomentByFacts.{has_come};
ghost use Rattle.job_core.specs.JobMoments.{AreMoments, may_kill_when, may_term_when};
ghost use Rattle.scope.specs.Ages.{ComesSince, is_overdue, reasons_then};

use crate::view::JobView;
use history_model::{Reading, Reasons};
use job_table::Moments;
use run_times::Filling::{Text, Time};
use run_times::{Page, coming_second};
use status_page::{StartWhen, second_told};

/// When KILL came due for the present run: after this `up` of the last clock reading, and not after now.
pub(crate) fn kill_since(moments: &Moments, last: u64, now: u64) -> Option<u64>
    ensures { (past : History) → AreMoments past moments.now →
        ComesSince (λ at. may_kill_when at past) last now result }
{
    came_since(moments.kill, last, now)
}

/// The same of TERM, once more if one was refused.
pub(crate) fn term_since(moments: &Moments, last: u64, now: u64) -> Option<u64>
    ensures { (past : History) → AreMoments past moments.now →
        ComesSince (λ at. may_term_when at past) last now result }
{
    came_since(moments.term, last, now)
}

fn came_since(from: Option<u64>, last: u64, now: u64) -> Option<u64>
    ensures { (may : ℕ → Bool) → ((at : ℕ) → has_come from at ≡ may at) →
        ComesSince may last now result }
{
    match from {
        Some(at) if last < at && at <= now => Some(at),
        _ => None,
    }
}

/// The reasons as of this `up`: a throttle that is over then keeps the job from nothing.
pub(crate) fn reasons_then(reasons: &Reasons, up: u64) -> Reasons
    ensures { result ≡ reasons_then reasons.now up }
{
    let mut then = *reasons;
    then.throttled_until = match reasons.throttled_until {
        Some(until) if until > up => Some(until),
        _ => None,
    };
    then
}

/// How many seconds after its time a start is not overdue yet: a launcher that runs orders it meanwhile, and says so in its journal and its file.
pub const ON_TIME: u64 = 2;

// Whether a start that comes at one second is overdue at another.
fn is_overdue(at: u64, now: u64) -> bool
    ensures { result ≡ is_overdue at now }
{
    now.saturating_sub(at) > ON_TIME
}

/// Adds when time alone starts the job, or what came due after the last clock reading of its source and up to now. If the job waits only to be wanted,
/// the ways to its start have named the coming start already.
pub(crate) fn add_coming(page: &mut Page<'_>, job: &JobView<'_>, now: Reading, is_idle: bool) {
    match job.start {
        StartWhen::Since(at) if is_overdue(at, now.wall) => {
            page.add(
                "  Its start has been overdue since $.\n",
                &[Time(second_told(job.throttle, at))],
            );
        }
        StartWhen::Since(_) => page.writer.put("  Its start is due.\n"),
        StartWhen::At(at) if !is_idle => {
            let at = Time(second_told(job.throttle, at));
            page.add("  It starts at $, if nothing else happens.\n", &[at]);
        }
        _ => {}
    }
    let moments = &job.told.facts.moments;
    let kill = kill_since(moments, job.last.up, now.up);
    add_since(page, "KILL for its run", kill, job.last);
    let term = term_since(moments, job.last.up, now.up);
    add_since(page, "TERM for its run", term, job.last);
}

fn add_since(page: &mut Page<'_>, what: &'static str, up: Option<u64>, last: Reading) {
    if let Some(up) = up {
        let at = Time(coming_second(last, up));
        page.add("  $ has been overdue since $.\n", &[Text(what), at]);
    }
}
