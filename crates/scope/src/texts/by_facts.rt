//! What the texts say of a job by its facts, as plain values: when TERM and KILL come, and with which command a client can ask for a start.

ghost use Rattle.std.specs.Prelude.{◌≡◌, ℕ, Bool};
ghost use Rattle.history_model.specs.NextMomentByFacts.{has_come};
ghost use Rattle.history_model.specs.Items.{History};
ghost use Rattle.history_model.specs.Reasons.{reasons_of};
ghost use Rattle.job_core.specs.JobMoments.{AreMoments, may_kill_when, may_term_when};
ghost use Rattle.scope.specs.ByFacts.{ComesSo, AsksBy};

use history_model::Reasons;
use job_table::Moments;

/// When an order comes, if nothing happens but that the clocks go on.
#[derive(Clone, Copy)]
pub(crate) enum OrderWhen {
    Never,
    /// It is due, and is given once no answer is awaited.
    AtOnce,
    /// From this `up` on.
    At(u64),
}

/// When KILL comes for the run that is running, by the deadlines that the table gives at this `up`.
pub(crate) fn kill_when(moments: &Moments, up: u64) -> OrderWhen
    ensures { (past : History) → AreMoments past moments.now →
        ComesSo (λ at. may_kill_when at past) up result }
{
    order_when(moments.kill, up)
}

/// When TERM comes for the run that is running, once more if one was refused.
pub(crate) fn term_when(moments: &Moments, up: u64) -> OrderWhen
    ensures { (past : History) → AreMoments past moments.now →
        ComesSo (λ at. may_term_when at past) up result }
{
    order_when(moments.term, up)
}

fn order_when(from: Option<u64>, up: u64) -> OrderWhen
    ensures { (may : ℕ → Bool) → ((at : ℕ) → has_come from at ≡ may at) → ComesSo may up result }
{
    match from {
        None => OrderWhen::Never,
        Some(at) if at <= up => OrderWhen::AtOnce,
        Some(at) => OrderWhen::At(at),
    }
}

/// With which command of `jobctl` a client can ask for a start.
#[derive(Clone, Copy)]
pub(crate) enum StartWord {
    Start,
    /// `kickstart -k`, which ends the present run.
    Kickstart,
}

/// With which command a client can ask for a start: `start`, where that makes a start request. A job that runs and is not being stopped has
/// none. While a start is awaited the reasons don't say whether a stop was asked.
pub(crate) fn start_word(reasons: &Reasons) -> StartWord
    ensures { (past : History) → reasons.now ≡ reasons_of past → AsksBy past result }
{
    match reasons.child {
        Some(child) if child.is_stopped => StartWord::Start,
        Some(_) => StartWord::Kickstart,
        None if reasons.awaited.is_none() => StartWord::Start,
        None => StartWord::Kickstart,
    }
}
