//! Processes that a run left running: they have its name in their variables, and it has ended.
#![tactic(auto)]

ghost use Rattle.std.specs.Prelude.{◌≡◌};
ghost use Rattle.leftovers.specs.Left.{is_left};

use files_and_process::processes::{add_pids, name_in, process_in, read_of};
use files_and_process::run_names::{LauncherId, NamedRun, front_of, named_run};
use plain_text::add_plain;
use std::alloc::{AllocError, Global};
use std::fmt::Write;
use std::fs::Files;
use std::str;

/// How many bytes of a process's variables are read. Linux allows no more for arguments and variables together, unless the limit on the
/// stack is above 8 MiB.
const VARIABLES: usize = 2_097_152;

/// How many bytes of `/proc/PID/stat` are read.
const STAT: usize = 4_096;

/// A process that has the name of a run in its variables.
#[derive(Drop)]
pub struct RunProcess {
    pub pid: u32,
    /// The PID of its parent: of a run's own process that of the launcher.
    pub parent: u32,
    /// When it began, in clock ticks since the boot.
    pub began: u64,
    /// The name of its program, as the system shows it.
    pub name: String,
    /// The label of the run's job, and the number of the run.
    pub label: String,
    pub run: u64,
}

impl RunProcess {
    /// Whether it is left of a job of this label, of which no process of its present run began before `since`, in clock ticks since the boot.
    pub fn is_left_of(&self, label: &str, since: u64) -> bool
        ensures { result ≡ is_left self.now label.now since }
    {
        self.label.as_str() == label && self.began < since
    }
}

/// The processes that have the name of a run of this launcher in their variables, as far as the system shows these to this user. Those that
/// cleared their variables are not among them. Where the system lists no processes there are none.
pub fn run_processes<R: Files>(
    rt: &R,
    alloc: Global,
    launcher: LauncherId,
) -> Result<Vec<RunProcess>, AllocError> {
    let mut pids = Vec::new(alloc);
    let _listed = add_pids(rt, alloc, &mut pids);
    let found = run_processes_among(rt, alloc, launcher, pids.as_slice());
    drop(pids);
    found
}

/// Those of these processes, which the caller may have listed (`files_and_process::processes::add_pids`).
pub fn run_processes_among<R: Files>(
    rt: &R,
    alloc: Global,
    launcher: LauncherId,
    pids: &[u32],
) -> Result<Vec<RunProcess>, AllocError> {
    let front = front_of(alloc, launcher)?;
    let mut found = Vec::new(alloc);
    let added = add_all(rt, alloc, pids, front.as_str(), &mut found);
    drop(front);
    match added {
        Ok(()) => Ok(found),
        Err(error) => {
            drop(found);
            Err(error)
        }
    }
}

fn add_all<R: Files>(
    rt: &R,
    alloc: Global,
    pids: &[u32],
    front: &str,
    found: &mut Vec<RunProcess>,
) -> Result<(), AllocError> {
    let mut variables = Vec::new(alloc);
    for pid in pids {
        if read_of(rt, alloc, *pid, "environ", VARIABLES, &mut variables).is_ok() {
            if let Some(named) = named_run(variables.as_slice(), front) {
                add_one(rt, alloc, *pid, named, found)?;
            }
        }
    }
    drop(variables);
    Ok(())
}

// The process, if it is still there.
fn add_one<R: Files>(
    rt: &R,
    alloc: Global,
    pid: u32,
    named: NamedRun<'_>,
    found: &mut Vec<RunProcess>,
) -> Result<(), AllocError> {
    let mut bytes = Vec::new(alloc);
    let is_read = read_of(rt, alloc, pid, "stat", STAT, &mut bytes).is_ok();
    let stat = str::from_utf8(bytes.as_slice()).unwrap_or("");
    if let (true, Some(process)) = (is_read, process_in(stat)) {
        if !process.has_ended {
            found.push(RunProcess {
                pid,
                parent: parent_in(stat).unwrap_or(0),
                began: process.began,
                name: String::from_str(alloc, name_in(stat))?,
                label: String::from_str(alloc, named.label)?,
                run: named.run,
            })?;
        }
    }
    drop(bytes);
    Ok(())
}

// Field 4, the second after the name.
fn parent_in(stat: &str) -> Option<u32> {
    let (_, after) = stat.rsplit_once(')')?;
    after.split(' ').nth(2)?.parse().ok()
}

/// Adds that it still runs, as one line of text without its newline. What others wrote in it is made plain.
pub fn add_still_runs(text: &mut String, process: &RunProcess) -> Result<(), AllocError> {
    write!(text, "process {} (", process.pid)?;
    add_plain(text, process.name.as_str())?;
    write!(text, ") of run {} of ", process.run)?;
    add_plain(text, process.label.as_str())?;
    text.push_str(" still runs")
}
