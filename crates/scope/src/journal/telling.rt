//! What keeps a job from a start, and what wants it, as a list in the order in which it is shown.
ghost use Rattle.std.specs.Prelude.{◌≡◌, ◌++◌, OnOk, IfOk};
ghost use Rattle.scope.specs.Causes.{AreCauses};
ghost use Rattle.scope.specs.CauseLists.{when, causes_holding, causes_wanting};

use history_model::{Act, Reasons, StandingChild, Wants};
use status_page::is_wanted;
use std::alloc::{AllocError, Global};

/// One thing that keeps a job from a start, or one that wants it.
#[derive(Clone, Copy)]
pub enum JobCause {
    /// An unload or a shutdown was asked.
    Removing,
    /// A run is running.
    Child(StandingChild),
    /// The answer to this order is awaited.
    Awaited(Act),
    /// `LaunchOnlyOnce`, and a start succeeded.
    LaunchSpent,
    /// All runs are used up.
    RunsSpent,
    /// It is throttled until this `up`.
    Throttled(u64),
    /// Nothing wants it.
    NotWanted,
    Demand,
    /// This many connections wait.
    Connections(usize),
    KeepAlive,
    SuccessfulExit,
    Crashed,
    PathState,
    QueueDirectories,
}

fn add_if(causes: &mut Vec<JobCause>, holds: bool, cause: JobCause) -> Result<(), AllocError>
    ensures { OnOk result (causes.new.items ≡ causes.old.items ++ when holds cause) }
{
    if holds {
        causes.push(cause)?;
    }
    Ok(())
}

// What keeps it from a start but that nothing wants it.
fn holding(alloc: Global, reasons: &Reasons) -> Result<Vec<JobCause>, AllocError>
    ensures { IfOk result (λ causes. causes.items ≡ causes_holding reasons.now) }
{
    let mut causes = Vec::new(alloc);
    add_if(&mut causes, reasons.is_removing, JobCause::Removing)?;
    if let Some(child) = reasons.child {
        causes.push(JobCause::Child(child))?;
    }
    if let Some(act) = reasons.awaited {
        causes.push(JobCause::Awaited(act))?;
    }
    add_if(&mut causes, reasons.is_launch_spent, JobCause::LaunchSpent)?;
    add_if(&mut causes, reasons.are_runs_spent, JobCause::RunsSpent)?;
    if let Some(until) = reasons.throttled_until {
        causes.push(JobCause::Throttled(until))?;
    }
    Ok(causes)
}

// What wants it, or that nothing does.
fn add_wants(causes: &mut Vec<JobCause>, wants: &Wants) -> Result<(), AllocError>
    ensures { OnOk result (causes.new.items ≡ causes.old.items ++ causes_wanting wants.now) }
{
    add_if(causes, wants.demand, JobCause::Demand)?;
    let waits = wants.connections > 0;
    add_if(causes, waits, JobCause::Connections(wants.connections))?;
    add_if(causes, wants.keep_alive, JobCause::KeepAlive)?;
    add_if(causes, wants.successful_exit, JobCause::SuccessfulExit)?;
    add_if(causes, wants.crashed, JobCause::Crashed)?;
    add_if(causes, wants.path_state, JobCause::PathState)?;
    add_if(causes, wants.queue_directories, JobCause::QueueDirectories)?;
    add_if(causes, !is_wanted(wants), JobCause::NotWanted)
}

/// The causes of what the table says of a job: one for each thing that holds, and none besides, first what keeps the job from a start.
pub fn causes(alloc: Global, reasons: &Reasons) -> Result<Vec<JobCause>, AllocError>
    ensures { IfOk result (λ causes. AreCauses reasons.now causes.items) }
{
    let mut causes = holding(alloc, reasons)?;
    add_wants(&mut causes, &reasons.wants)?;
    Ok(causes)
}
