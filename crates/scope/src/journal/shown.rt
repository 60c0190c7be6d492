//! Which causes the text of `why` shows.

ghost use Rattle.std.specs.List.{filter};
ghost use Rattle.std.specs.Prelude.{◌≡◌, ◌++◌, IfOk, OnOk};
ghost use Rattle.scope.specs.CauseLists.{when};
ghost use Rattle.scope.specs.ShownCauses.{is_left_out, is_shown, is_spent, AreShown};

use crate::journal::telling::{JobCause, causes};
use history_model::Reasons;
use std::alloc::{AllocError, Global};

/// Whether no start can come of the load any more, since its launches or its runs are used up.
pub(crate) fn is_spent(reasons: &Reasons) -> bool
    ensures { result ≡ is_spent reasons.now }
{
    reasons.is_launch_spent || reasons.are_runs_spent
}

/// Whether a cause can't matter: the throttle, and that nothing wants the job, while a run is running. Once no start can come of the load, so is what
/// wants the job.
fn is_left_out(reasons: &Reasons, cause: JobCause) -> bool
    ensures { result ≡ is_left_out reasons.now cause }
{
    match cause {
        JobCause::Throttled(_) | JobCause::NotWanted => {
            reasons.child.is_some() || is_spent(reasons)
        }
        JobCause::Demand
        | JobCause::Connections(_)
        | JobCause::KeepAlive
        | JobCause::SuccessfulExit
        | JobCause::Crashed
        | JobCause::PathState
        | JobCause::QueueDirectories => is_spent(reasons),
        JobCause::Removing
        | JobCause::Child(_)
        | JobCause::Awaited(_)
        | JobCause::LaunchSpent
        | JobCause::RunsSpent => false,
    }
}

/// The causes that are shown: those of the reasons, in order, but for those that can't matter.
pub(crate) fn shown_causes(alloc: Global, reasons: &Reasons) -> Result<Vec<JobCause>, AllocError>
    ensures { IfOk result (λ shown. AreShown reasons.now shown.items) }
{
    let all = causes(alloc, reasons)?;
    let shown = those_shown(alloc, reasons, all.as_slice());
    drop(all);
    shown
}

fn those_shown(
    alloc: Global,
    reasons: &Reasons,
    causes: &[JobCause],
) -> Result<Vec<JobCause>, AllocError>
    ensures { IfOk result (λ shown. shown.items ≡ filter (is_shown reasons.now) causes.now) }
{
    let mut shown = Vec::new(alloc);
    for cause in causes {
        add_shown(&mut shown, reasons, *cause)?;
    }
    Ok(shown)
}

fn add_shown(
    shown: &mut Vec<JobCause>,
    reasons: &Reasons,
    cause: JobCause,
) -> Result<(), AllocError>
    ensures { OnOk result (shown.new.items ≡ shown.old.items ++ when (is_shown reasons.now cause) cause) }
{
    if !is_left_out(reasons, cause) {
        shown.push(cause)?;
    }
    Ok(())
}
