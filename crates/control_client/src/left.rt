//! What is reported after an unload of the processes that runs of the job left running.

use files_and_process::run_names::LauncherId;
use history_model::Text;
use launcher_places::places_beside;
use leftovers::{RunProcess, add_still_runs, run_processes};
use std::alloc::{AllocError, Global};
use std::fs::{File, Files};
use std::rt::Clock;
use std::thread;
use std::time::Duration;

/// The pauses between two looks, in milliseconds: a job that ends at its TERM has ended by the last one.
const PAUSES: [u64; 6] = [5, 10, 20, 40, 80, 160];

/// Waits a third of a second at most for the runs of these labels to end, and reports on standard error each process that one that ended left
/// running. The launcher is asked nothing: a run goes on while its own process, a child of the launcher, has its name. Nothing is reported if it is not known
/// which process the launcher is, as where there is no `jobd.sock.places`.
pub(crate) fn report_left<R: Files<File = File> + Clock + Eprint + AllocGlobal>(
    rt: &R,
    alloc: Global,
    socket: &str,
    labels: &[Text],
) {
    if labels.is_empty() {
        return;
    }
    if let Some(launcher) = launcher_of(rt, alloc, socket) {
        let _reported = report_of(rt, alloc, launcher, labels);
    }
}

fn launcher_of<R: Files<File = File> + AllocGlobal>(
    rt: &R,
    alloc: Global,
    socket: &str,
) -> Option<LauncherId> {
    let Ok(Some(places)) = places_beside(rt, alloc, socket) else {
        return None;
    };
    let launcher = LauncherId {
        pid: places.pid,
        began: places.began,
    };
    drop(places);
    Some(launcher)
}

fn report_of<R: Files + Clock + Eprint>(
    rt: &R,
    alloc: Global,
    launcher: LauncherId,
    labels: &[Text],
) -> Result<(), AllocError> {
    for pause in PAUSES {
        let left = named_in(rt, alloc, launcher, labels)?;
        if left.is_empty() {
            return Ok(());
        }
        let goes_on = left.iter().any(|process| process.parent == launcher.pid);
        drop(left);
        if !goes_on {
            break;
        }
        thread::sleep(rt, Duration::from_millis(pause));
    }
    // A run may end while one look goes through the processes. Its first process is then not listed, and another one of it is.
    // So what is reported is what a further look finds.
    let left = named_in(rt, alloc, launcher, labels)?;
    report_all(rt, alloc, launcher, left.as_slice())
}

// The processes of runs of these labels.
fn named_in<R: Files>(
    rt: &R,
    alloc: Global,
    launcher: LauncherId,
    labels: &[Text],
) -> Result<Vec<RunProcess>, AllocError> {
    let mut left = run_processes(rt, alloc, launcher)?;
    left.retain(|process| is_among(labels, process.label.as_str()));
    Ok(left)
}

fn is_among(labels: &[Text], label: &str) -> bool {
    for other in labels {
        if other.as_str() == label {
            return true;
        }
    }
    false
}

// Reports each of the processes whose label has no run that goes on.
fn report_all<R: Eprint>(
    rt: &R,
    alloc: Global,
    launcher: LauncherId,
    left: &[RunProcess],
) -> Result<(), AllocError> {
    for process in left {
        if !has_run(left, launcher, process.label.as_str()) {
            report_one(rt, alloc, process)?;
        }
    }
    Ok(())
}

fn has_run(left: &[RunProcess], launcher: LauncherId, label: &str) -> bool {
    for process in left {
        if process.parent == launcher.pid && process.label.as_str() == label {
            return true;
        }
    }
    false
}

fn report_one<R: Eprint>(rt: &R, alloc: Global, process: &RunProcess) -> Result<(), AllocError> {
    let mut text = String::new(alloc);
    add_still_runs(&mut text, process)?;
    let _written = eprintln!(rt; "jobctl: {}", text.as_str());
    Ok(())
}
