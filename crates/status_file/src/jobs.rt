//! The lines of all loaded jobs.

ghost use Rattle.std.specs.Prelude.{◌≡◌, true, Some, is_some, cond};
ghost use Rattle.history_model.specs.Machine.{State};
ghost use Rattle.loaded_jobs.specs.StandsFor.{KeepsState};
ghost use Rattle.status_file.specs.declared.status.DisabledBy.TheVariants.{Definition, Override};
ghost use Rattle.status_file.specs.Jobs.{AddsJobs, Tells};

use crate::facts::facts_of;
use crate::line::StatusText;
use crate::run_notes::RunNotes;
use crate::status::{DisabledBy, JobKeys, JobNote, JobStatus};
use crate::write::add_job;
use history_model::definition::Def;
use history_model::{Entry, JobNo};
use job_table::JobTable;
use std::alloc::{AllocError, Global};
use std::cmp::Ordering;

/// How many job numbers are asked for. A table gives a job the least number that is free. A removed job keeps its number until the next event.
pub(crate) const NUMBERS: JobNo = 2048;

/// How many jobs are loaded, and so how many lines `add_jobs` adds. It takes no memory.
pub fn job_count(table: &JobTable) -> u64 {
    let mut count: u64 = 0;
    for job in 0..NUMBERS {
        if is_loaded(table, job) {
            count = count.saturating_add(1);
        }
    }
    count
}

// Whether the number is that of a loaded job, and not of one that was just removed.
pub(crate) fn is_loaded(table: &JobTable, job: JobNo) -> bool {
    match job_of(table, job) {
        Some((label, _)) => table.moments(label).is_some(),
        None => false,
    }
}

/// The label and the definition of the job with this number, also of one that was just removed; None for a number that no job has. It takes no
/// memory.
pub(crate) fn job_of(table: &JobTable, job: JobNo) -> Option<(&str, &Def)> {
    let step = table.last_step();
    let label = step.label(job);
    if label.is_empty() {
        return None;
    }
    Some((label, step.def(job)))
}

/// Adds a line for each loaded job, by rising bytes of labels. `order` is room for their numbers. Each line has the facts that the table has of its
/// own job.
pub fn add_jobs(
    text: &mut StatusText,
    alloc: Global,
    table: &JobTable,
    notes: &RunNotes,
    order: &mut Vec<JobNo>,
)
    ensures { AddsJobs table.now text.old text.new }
{
    put_in_order(text, table, order);
    add_each(text, alloc, table, notes, order.as_slice());
}

// The numbers of all jobs, by rising bytes of their labels.
fn put_in_order(text: &mut StatusText, table: &JobTable, order: &mut Vec<JobNo>)
    ensures { AddsJobs table.now text.old text.new }
{
    match ordered(table, order) {
        Ok(()) => {}
        Err(_) => text.refuse(),
    }
}

fn ordered(table: &JobTable, order: &mut Vec<JobNo>) -> Result<(), AllocError> {
    order.clear();
    for job in 0..NUMBERS {
        if let Some((label, _)) = job_of(table, job) {
            let place = place_in_order(table, order.as_slice(), label).min(order.len());
            order.insert(place, job)?;
        }
    }
    Ok(())
}

// How many of them have a label before this one.
fn place_in_order(table: &JobTable, order: &[JobNo], label: &str) -> usize {
    order.partition_point(|job| is_before(table, *job, label))
}

fn is_before(table: &JobTable, job: JobNo, label: &str) -> bool {
    let step = table.last_step();
    match Ord::cmp(&step.label(job), &label) {
        Ordering::Less => true,
        _ => false,
    }
}

fn add_each(
    text: &mut StatusText,
    alloc: Global,
    table: &JobTable,
    notes: &RunNotes,
    order: &[JobNo],
)
    ensures { AddsJobs table.now text.old text.new }
{
    for job in order {
        add_numbered(text, alloc, table, notes, *job);
    }
}

// The line of the job with this number, if there is one.
fn add_numbered(
    text: &mut StatusText,
    alloc: Global,
    table: &JobTable,
    notes: &RunNotes,
    job: JobNo,
)
    ensures { AddsJobs table.now text.old text.new }
{
    match job_of(table, job) {
        Some((label, def)) => add_loaded(text, alloc, table, notes.of(job), label, def),
        None => {}
    }
}

// The line of the job with this label, if it is loaded.
fn add_loaded(
    text: &mut StatusText,
    alloc: Global,
    table: &JobTable,
    note: JobNote<'_>,
    label: &str,
    def: &Def,
)
    ensures { AddsJobs table.now text.old text.new }
{
    match facts_of(table, label) {
        Some(facts) => match table.is_disabled(label) {
            Some(is_disabled) => {
                let job = JobStatus {
                    label,
                    facts,
                    note,
                    keys: JobKeys::of(def, facts.path),
                    disabled: disabled_by(is_disabled, def.disabled()),
                };
                add_line(text, alloc, table, &job, def.calendar());
            }
            None => {}
        },
        None => {}
    }
}

// The line of a job, with the facts of the table.
fn add_line(
    text: &mut StatusText,
    alloc: Global,
    table: &JobTable,
    job: &JobStatus<'_>,
    calendar: &[Entry],
)
    requires { (s : State) → KeepsState table.now s → Tells s job.now }
    ensures { AddsJobs table.now text.old text.new }
{
    let _ = table; // for the proof
    add_job(text, alloc, job, calendar);
}

// By what a label is disabled, if it is. If its definition and a setting both disable it, the definition is named.
fn disabled_by(is_disabled: bool, in_definition: bool) -> Option<DisabledBy>
    ensures disabled { is_some result ≡ is_disabled }
    ensures by { is_disabled ≡ true → result ≡ Some (cond in_definition Definition Override) }
{
    match (is_disabled, in_definition) {
        (false, _) => None,
        (true, true) => Some(DisabledBy::Definition),
        (true, false) => Some(DisabledBy::Override),
    }
}
