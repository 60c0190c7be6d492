//! What a table of jobs says of one of them.

ghost use Rattle.history_model.specs.Machine.{State, past_of};
ghost use Rattle.loaded_jobs.specs.StandsFor.{KeepsState};
ghost use Rattle.status_file.specs.Facts.{HasFacts};

use history_model::{DemandKind, Reasons};
use job_table::{JobTable, Moments};

/// What the table says of a job that is loaded. Times are milliseconds of `up`.
#[derive(Clone, Copy)]
pub struct JobFacts<'a> {
    /// What keeps it from a start, and what wants it.
    pub reasons: Reasons,
    /// From when on TERM and KILL are due for its run, and when its interval is over.
    pub moments: Moments,
    /// From which `up` on a clock reading starts it, if no entry of its calendar fires.
    pub spawns_from: Option<u64>,
    /// What made the pending start request.
    pub demand: Option<DemandKind>,
    /// Which path holds it wanted.
    pub path: Option<&'a str>,
}

/// What the table says of the job with this label; None if it is not loaded. It takes no memory.
pub fn facts_of<'a>(table: &'a JobTable, label: &str) -> Option<JobFacts<'a>>
    ensures { (s : State) → KeepsState table.now s → HasFacts (past_of s label.now) result }
{
    let reasons = table.reasons(label)?;
    let moments = table.moments(label)?;
    Some(JobFacts {
        reasons,
        moments,
        spawns_from: table.spawns_from(label),
        demand: table.latest_demand(label),
        path: table.path_that_holds(label),
    })
}
