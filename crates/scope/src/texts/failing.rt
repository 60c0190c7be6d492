//! Which jobs fail, whichever sources were read: the rule, and the text of `why --failing`.

ghost use Rattle.std.specs.Prelude.{◌≡◌, is_some, IfSome};
ghost use Rattle.status_page.specs.Failing.{is_failing, FaultHolds};
ghost use Rattle.scope.specs.KnownFaults.{past_in};

use crate::errors::FailedRun;
use crate::joined::sources_said;
use crate::known_runs::KnownRuns;
use crate::texts::heads::add_launcher;
use crate::view::rows::{Row, loaded_of, loaded_rows};
use crate::view::{JobView, LauncherView};
use history_model::Text;
use run_times::Page;
use status_file::JobFacts;
use status_page::{Failing, Fault, add_failing, add_left_out, fault_of};
use std::alloc::{AllocError, Global};

/// As of when it is asked which jobs fail.
#[derive(Clone, Copy)]
pub(crate) struct LauncherNow {
    /// Whether the launcher may be running then.
    pub(crate) may_live: bool,
    /// The `up` of its clock, if it went on since.
    pub(crate) up: u64,
}

/// A line for each loaded job, or for those named, that fails, and for each definition that the boot left out, and how many there are. The jobs whose last
/// run failed are added to `failed`.
pub(crate) fn failing_text<'a>(
    alloc: Global,
    of: &LauncherView<'a>,
    labels: &[Text],
    failed: &mut Vec<FailedRun<'a>>,
) -> Result<(String, u64), AllocError> {
    let rows = loaded_rows(alloc, of, labels)?;
    let mut page = Page::new(alloc, of.shown, of.now);
    add_launcher(&mut page, of, sources_said(of.sources));
    let mut count: u64 = 0;
    for row in &rows {
        let fails = add_if_failing(&mut page, of, *row, failed);
        count = count.saturating_add(u64::from(fails));
    }
    drop(rows);
    if let Some(standing) = of.standing() {
        count = count.saturating_add(add_left_out(&mut page, standing, labels));
    }
    match page.into_text() {
        Ok(text) => Ok((text, count)),
        Err(error) => Err(error),
    }
}

fn add_if_failing<'a>(
    page: &mut Page<'_>,
    of: &LauncherView<'a>,
    row: Row<'a>,
    failed: &mut Vec<FailedRun<'a>>,
) -> bool {
    match loaded_of(page.alloc, of, row) {
        Ok(Some(job)) => add_fault(page, &job, failed),
        Ok(None) => false,
        Err(_) => {
            page.writer.refuse();
            false
        }
    }
}

fn add_fault<'a>(page: &mut Page<'_>, job: &JobView<'a>, failed: &mut Vec<FailedRun<'a>>) -> bool {
    let Some(fault) = job.fault else {
        return false;
    };
    let runs = &job.told.runs;
    let ended = match &runs.last {
        Some(last) => Some(last.ended),
        None => None,
    };
    add_failing(
        page,
        &Failing {
            label: job.label,
            fault,
            refused: runs.refused_at(),
            reason: runs.reason(),
            ended,
        },
    );
    note_failed(page, job, failed);
    true
}

/// Adds the job to those whose last run failed, if it did, and if it is known where its errors go.
pub(crate) fn note_failed<'a>(
    page: &mut Page<'_>,
    job: &JobView<'a>,
    failed: &mut Vec<FailedRun<'a>>,
) {
    let keys = &job.told.keys;
    if !keys.knows_errors || !is_failed_run(job.fault) {
        return;
    }
    let run = FailedRun {
        label: job.label,
        errors: keys.errors,
        is_served: keys.has_sockets,
    };
    if failed.push(run).is_err() {
        page.writer.refuse();
    }
}

/// Whether a job is reported as failing because its last run failed.
pub(crate) fn is_failed_run(fault: Option<Fault>) -> bool {
    match fault {
        Some(Fault::Ended(_)) => true,
        _ => false,
    }
}

/// Why a job is reported as failing, if it is: by its runs, or since a minute of its calendar passed while no launcher ran.
pub(crate) fn fault_or_missed(
    facts: &JobFacts<'_>,
    runs: &KnownRuns<'_>,
    throttle: u32,
    missed: Option<u64>,
    now: LauncherNow,
) -> Option<Fault> {
    match (fault_in(facts, runs, throttle, now), missed) {
        (Some(fault), _) => Some(fault),
        (None, Some(minute)) => Some(Fault::Missed(minute)),
        (None, None) => None,
    }
}

/// Why a job with this `ThrottleInterval` is reported as failing, if it is, by its facts and by what is known of its runs. Of a journal and of a file
/// this decides.
pub(crate) fn fault_in(
    facts: &JobFacts<'_>,
    runs: &KnownRuns<'_>,
    throttle: u32,
    now: LauncherNow,
) -> Option<Fault>
    ensures exactly { is_some result ≡ is_failing now.may_live facts.now.reasons (past_in runs.now throttle) now.up }
    ensures so { IfSome result (λ fault. FaultHolds now.may_live facts.now.reasons (past_in runs.now throttle) now.up fault) }
{
    fault_of(now.may_live, &facts.reasons, runs.past(throttle), now.up)
}
