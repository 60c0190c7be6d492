//! What touches a job from outside: a minute of the hour, or a path.

ghost use Rattle.std.specs.Prelude.{◌≡◌, ◌++◌, OnOk, IfOk, map};
ghost use Rattle.std.specs.Option.{option_map};
ghost use Rattle.history_model.specs.Labels.{is_before};
ghost use Rattle.loaded_jobs.specs.Triggers.{rank, rank_of, path_in, triggers_of, minute_before};
ghost use Rattle.loaded_jobs.specs.declared.trigger.Trigger.TheVariants as triggers;

use crate::byte_order::is_before;
use history_model::definition::{Def, PathState};
use history_model::{Entry, JobNo, Text};
use std::alloc::{AllocError, Global};

/// What touches a job.
#[derive(Drop)]
pub enum Trigger {
    /// The minute of a calendar entry; an entry without one wants each.
    Minute(Option<u8>),
    /// A path that the definition lists in `PathState`, `WatchPaths` or `QueueDirectories`.
    Path(Text),
}

/// A trigger that is looked for.
#[derive(Clone, Copy)]
pub enum Query<'a> {
    Minute(Option<u8>),
    Path(&'a str),
}

/// A trigger of the job with this number.
#[derive(Drop)]
pub struct Listed {
    pub trigger: Trigger,
    pub number: JobNo,
}

impl Trigger {
    /// The trigger, lent.
    pub fn lent(&self) -> Query<'_>
        ensures { rank_of result ≡ rank self.now }
    {
        match self {
            Trigger::Minute(minute) => Query::Minute(*minute),
            Trigger::Path(path) => Query::Path(path.as_str()),
        }
    }

    /// The path, if it is one.
    pub fn path(&self) -> Option<&str>
        ensures { option_map (λ path. path.now) result ≡ path_in self.now }
    {
        match self {
            Trigger::Minute(_) => None,
            Trigger::Path(path) => Some(path.as_str()),
        }
    }
}

/// Whether a trigger comes before another: minutes before paths, both in rising order.
pub fn is_earlier(one: Query<'_>, other: Query<'_>) -> bool
    ensures { result ≡ is_before (rank_of one.entry) (rank_of other.entry) }
{
    match (one, other) {
        (Query::Minute(minute), Query::Minute(other)) => is_minute_before(minute, other),
        (Query::Minute(_), Query::Path(_)) => true,
        (Query::Path(_), Query::Minute(_)) => false,
        (Query::Path(path), Query::Path(other)) => is_before(path, other),
    }
}

/// Whether a minute is less than another; none is the least.
fn is_minute_before(one: Option<u8>, other: Option<u8>) -> bool
    ensures { result ≡ minute_before one other }
{
    match (one, other) {
        (_, None) => false,
        (None, Some(_)) => true,
        (Some(minute), Some(other)) => minute < other,
    }
}

/// All that touches a job with this definition.
pub fn triggers_of(alloc: Global, def: &Def) -> Result<Vec<Trigger>, AllocError>
    ensures { IfOk result (λ all. all.items ≡ triggers_of def.now) }
{
    let mut all = Vec::new(alloc);
    add_minutes(&mut all, def.calendar())?;
    add_states(alloc, &mut all, def.path_state())?;
    add_paths(alloc, &mut all, def.watch_paths())?;
    add_paths(alloc, &mut all, def.queue_directories())?;
    Ok(all)
}

fn add_minutes(all: &mut Vec<Trigger>, calendar: &[Entry]) -> Result<(), AllocError>
    ensures { OnOk result (all.new.items
        ≡ all.old.items ++ map (λ due. triggers.Minute due.minute) calendar.now) }
{
    for due in calendar {
        all.push(Trigger::Minute(due.minute))?;
    }
    Ok(())
}

fn add_states(alloc: Global, all: &mut Vec<Trigger>, states: &[PathState]) -> Result<(), AllocError>
    ensures { OnOk result (all.new.items
        ≡ all.old.items ++ map (λ state. triggers.Path state.path) states.now) }
{
    for state in states {
        all.push(Trigger::Path(Text::copy_of(alloc, state.path.as_str())?))?;
    }
    Ok(())
}

fn add_paths(alloc: Global, all: &mut Vec<Trigger>, paths: &[Text]) -> Result<(), AllocError>
    ensures { OnOk result (all.new.items ≡ all.old.items ++ map triggers.Path paths.now) }
{
    for path in paths {
        all.push(Trigger::Path(Text::copy_of(alloc, path.as_str())?))?;
    }
    Ok(())
}
