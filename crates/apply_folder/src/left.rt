//! The processes that runs of unloaded jobs left running.

use files_and_process::processes::ticks_now;
use files_and_process::run_names::LauncherId;
use launcher_places::Places;
use leftovers::{RunProcess, add_still_runs, run_processes};
use std::alloc::{AllocError, Global};

/// A job that was unloaded.
#[derive(Drop)]
pub(crate) struct EndedJob {
    label: String,
    // When it was removed, and not loaded again, in clock ticks since the boot.
    at: u64,
}

/// Notes that the job is removed now, if it was unloaded.
pub(crate) fn note_ended(
    host: &HostRuntime,
    alloc: Global,
    label: &str,
    is_unloaded: bool,
    ended: &mut Vec<EndedJob>,
) -> Result<(), AllocError> {
    if is_unloaded {
        ended.push(EndedJob {
            label: String::from_str(alloc, label)?,
            at: ticks_now(host, alloc).unwrap_or(u64::MAX),
        })?;
    }
    Ok(())
}

/// Reports on standard error each process that a run of these jobs left running. Without the launcher's places file it reports nothing, since these
/// processes are not known.
pub(crate) fn report_left(
    host: &HostRuntime,
    alloc: Global,
    places: &Option<Places>,
    ended: &[EndedJob],
) -> Result<(), AllocError> {
    let launcher = match places {
        Some(places) if !ended.is_empty() => LauncherId {
            pid: places.pid,
            began: places.began,
        },
        _ => return Ok(()),
    };
    let left = run_processes(host, alloc, launcher)?;
    for process in &left {
        if is_left(process, ended) {
            report_one(host, alloc, process)?;
        }
    }
    drop(left);
    Ok(())
}

fn is_left(process: &RunProcess, ended: &[EndedJob]) -> bool {
    for job in ended {
        if process.is_left_of(job.label.as_str(), job.at) {
            return true;
        }
    }
    false
}

fn report_one(host: &HostRuntime, alloc: Global, process: &RunProcess) -> Result<(), AllocError> {
    let mut text = String::new(alloc);
    add_still_runs(&mut text, process)?;
    let _written = eprintln!(host; "jobctl: apply: {}", text.as_str());
    drop(text);
    Ok(())
}
