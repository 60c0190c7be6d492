//! What a job waits for once its run has ended, or its start was refused, and the step is over.

ghost use Rattle.std.specs.Option.{option_map};
ghost use Rattle.history_model.specs.Reasons.{reasons_of};
ghost use Rattle.history_model.specs.Machine.{State, past_of};
ghost use Rattle.loaded_jobs.specs.StandsFor.{KeepsState};
ghost use Rattle.scope.specs.Waits.{WaitsFor};

use history_model::Reasons;
use job_table::JobTable;
use run_times::needs_event;
use status_page::is_wanted;

/// What a job that has no run waits for.
#[derive(Clone, Copy)]
pub(crate) enum Wait {
    /// For nothing: it left with its run.
    Leaves,
    /// For something to want it.
    Unwanted,
    /// For the end of its throttle at this `up`, and for nothing else.
    Throttled(u64),
    /// For what the next line says, as the answer to its start, or for what the clocks don't bring.
    Other,
}

/// What the job with this label waits for, as the table has it.
pub(crate) fn wait_in(table: &JobTable, label: &str) -> Wait
    ensures { (s : State) → KeepsState table.now s →
        WaitsFor (option_map reasons_of (past_of s label.now)) result }
{
    wait_of(table.reasons(label))
}

// What it waits for by these reasons; one that is not loaded has left.
fn wait_of(reasons: Option<Reasons>) -> Wait
    ensures { WaitsFor reasons result }
{
    let Some(reasons) = reasons else {
        return Wait::Leaves;
    };
    match reasons.throttled_until {
        _ if reasons.awaited.is_some() => Wait::Other,
        _ if !is_wanted(&reasons.wants) => Wait::Unwanted,
        Some(up) if !needs_event(&reasons) => Wait::Throttled(up),
        _ => Wait::Other,
    }
}
