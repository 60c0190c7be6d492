//! What is asked of the launcher for a step.

ghost use Rattle.std.specs.Prelude.{◌≡◌, true, false};
ghost use Rattle.load_plan.specs.declared.requests.JobSeen.TheVariants.{Running, Gone};
ghost use Rattle.load_plan.specs.Requests.{is_asked_load, is_asked_unload, next_request, plans_unload, unload_next, unloaded_next};

use crate::{Operation, Reason};

/// The state of a job just before a request.
#[derive(Clone, Copy)]
pub enum JobSeen {
    /// Nothing of its label is loaded.
    Gone,
    /// It is being removed.
    Removing,
    /// A run is running, or one is being started.
    Running,
    Idle,
}

/// What is asked next.
#[derive(Clone, Copy)]
pub enum NextRequest {
    Unload,
    Load,
    /// Nothing, until the job is removed.
    Wait,
    /// Nothing more, for this reason.
    Leave(Reason),
    /// Nothing more: it is done.
    Done,
}

fn unload_next(seen: JobSeen, may_end: bool, afterwards: NextRequest) -> NextRequest
    ensures { result ≡ unload_next seen may_end afterwards }
{
    match seen {
        JobSeen::Gone => afterwards,
        JobSeen::Removing => NextRequest::Leave(Reason::Goes),
        JobSeen::Idle => NextRequest::Unload,
        JobSeen::Running if may_end => NextRequest::Unload,
        JobSeen::Running => NextRequest::Leave(Reason::Runs),
    }
}

fn unloaded_next(seen: JobSeen, afterwards: NextRequest) -> NextRequest
    ensures { result ≡ unloaded_next seen afterwards }
{
    match seen {
        JobSeen::Gone => afterwards,
        JobSeen::Removing => NextRequest::Wait,
        JobSeen::Running | JobSeen::Idle => NextRequest::Leave(Reason::Meanwhile),
    }
}

/// What is asked next for a step of a plan, by the job's present state. `may_end`: a run of it may be ended. `is_unloaded`: its
/// unload was accepted. An unload is asked at most once, only if the plan has it, and never of a run that may not be ended. What
/// takes a job's place is loaded only once the job is removed.
pub fn next_request(
    operation: &Operation<'_>,
    seen: JobSeen,
    may_end: bool,
    is_unloaded: bool,
) -> NextRequest
    ensures next { result ≡ next_request operation.now seen may_end is_unloaded }
    ensures as_planned { is_asked_unload result ≡ true → plans_unload operation.now ≡ true }
    ensures once { is_unloaded ≡ true → is_asked_unload result ≡ false }
    ensures ends_no_run { seen ≡ Running → may_end ≡ false → is_asked_unload result ≡ false }
    ensures after_it { plans_unload operation.now ≡ true → is_asked_load result ≡ true → seen ≡ Gone }
{
    match operation {
        Operation::Load(_) => NextRequest::Load,
        Operation::Replace(_) if is_unloaded => unloaded_next(seen, NextRequest::Load),
        Operation::Replace(_) => unload_next(seen, may_end, NextRequest::Load),
        Operation::Unload if is_unloaded => unloaded_next(seen, NextRequest::Done),
        Operation::Unload => unload_next(seen, may_end, NextRequest::Done),
        Operation::Leave(why) => NextRequest::Leave(*why),
    }
}
