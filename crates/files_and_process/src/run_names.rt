//! What a run is called among the processes of its machine: the variable that the launcher gives to each run.

ghost use Rattle.std.specs.Prelude.{◌≡◌, IfOk, string_bytes};
ghost use Rattle.files_and_process.specs.RunNames.{name_of_run};

use std::alloc::{AllocError, Global};
use std::str;

/// The variable. Its value is `PID.START/LABEL/RUN`: the launcher's PID and the time of its start, the label of the job, and the number of the run.
pub const RUN_VARIABLE: &str = "JOBD_RUN";

/// A launcher among the processes of its machine: its PID, and the time of its start in clock ticks since the boot, as field 22 of
/// `/proc/PID/stat` has it. No other process of this boot has both.
#[derive(Clone, Copy)]
pub struct LauncherId {
    pub pid: u32,
    pub began: u64,
}

/// The value of the variable for this run. `AllocError` if memory for it was refused.
pub fn run_name(
    alloc: Global,
    launcher: LauncherId,
    label: &str,
    run: u64,
) -> Result<String, AllocError>
    ensures { IfOk result (λ name.
        string_bytes name ≡ name_of_run launcher.pid launcher.began label.now run) }
{
    let LauncherId { pid, began } = launcher;
    format!(in alloc; "{pid}.{began}/{label}/{run}")
}

/// A run, by its job's label and its number.
#[derive(Clone, Copy)]
pub struct NamedRun<'a> {
    pub label: &'a str,
    pub run: u64,
}

/// The run of this launcher that a process's variables name: `front` is what [`front_of`] gives. The variables are those of
/// `/proc/PID/environ`, each with a byte of 0 after it; of a variable that is there twice the first counts, as for getenv(3).
pub fn named_run<'a>(environ: &'a [u8], front: &str) -> Option<NamedRun<'a>> {
    for entry in environ.split(|byte| *byte == 0) {
        if let Some(value) = value_in(entry) {
            return run_of(value.strip_prefix(front)?);
        }
    }
    None
}

// The value of the variable, if the entry is it.
fn value_in(entry: &[u8]) -> Option<&str> {
    let text = str::from_utf8(entry).ok()?;
    let (name, value) = text.split_once('=')?;
    if name == RUN_VARIABLE {
        Some(value)
    } else {
        None
    }
}

// The run number has no slash; a label may have some.
fn run_of(value: &str) -> Option<NamedRun<'_>> {
    let (label, run) = value.rsplit_once('/')?;
    let run = run.parse().ok()?;
    Some(NamedRun { label, run })
}

/// What the values of all runs of the launcher begin with.
pub fn front_of(alloc: Global, launcher: LauncherId) -> Result<String, AllocError> {
    let LauncherId { pid, began } = launcher;
    format!(in alloc; "{pid}.{began}/")
}
