//! What the process of a run takes of the machine, as proc(5) shows it.

use files_and_process::processes::{process_in, read_of};
use status_file::{JobStatus, LauncherStatus};
use std::alloc::Global;
use std::str;

/// How many bytes of a file of `/proc/PID` are read.
const MOST: usize = 4_096;

/// How many fields are between the parent of a process, which is field 4, and the processor time that it took, from field 14 on.
const BETWEEN: usize = 9;

/// How many milliseconds a clock tick has.
const TICK: u64 = 10;

/// What the process of a run takes.
#[derive(Clone, Copy)]
pub struct Usage {
    /// How much of it is in memory, in bytes.
    pub resident: u64,
    /// How much processor time it took, with its children that ended, in milliseconds.
    pub processor: u64,
}

/// What the process of the job's run takes, if it still is that of the run: the launcher's child, which did not begin before the run was ordered.
pub fn usage_of(
    host: &HostRuntime,
    alloc: Global,
    launcher: &LauncherStatus<'_>,
    job: &JobStatus<'_>,
) -> Option<Usage> {
    let child = job.facts.reasons.child?;
    // `up` counts from the launcher's own start, and does not go on while the machine sleeps.
    let begun = launcher.began.saturating_mul(TICK);
    let ordered = begun.saturating_add(job.note.started?.up);
    let mut bytes = Vec::new(alloc);
    let processor = match read_of(host, alloc, child.pid, "stat", MOST, &mut bytes) {
        Ok(()) => processor_in(text_of(bytes.as_slice()), launcher.pid, ordered),
        Err(_) => None,
    };
    let resident = match read_of(host, alloc, child.pid, "status", MOST, &mut bytes) {
        Ok(()) => resident_in(text_of(bytes.as_slice())),
        Err(_) => None,
    };
    drop(bytes);
    Some(Usage {
        resident: resident?,
        processor: processor?,
    })
}

// The text, as far as it is UTF-8: the name of a program may have any byte, and what is looked for comes after it.
fn text_of(bytes: &[u8]) -> &str {
    match str::from_utf8(bytes) {
        Ok(text) => text,
        Err(_) => "",
    }
}

// The processor time of the process in this line of `/proc/PID/stat`, if it is a child of the launcher that began no earlier than
// `ordered`, in milliseconds since the boot.
fn processor_in(stat: &str, launcher: u32, ordered: u64) -> Option<u64> {
    let process = process_in(stat)?;
    let until = process.began.saturating_add(1).saturating_mul(TICK);
    if process.has_ended || until < ordered {
        return None;
    }
    let (_, after) = stat.rsplit_once(')')?;
    let mut fields = after.split(' ');
    let parent: u32 = fields.nth(2)?.parse().ok()?;
    if parent != launcher {
        return None;
    }
    let mut ticks: u64 = fields.nth(BETWEEN)?.parse().ok()?;
    for _ in 0..3 {
        let more: u64 = fields.nth(0)?.parse().ok()?;
        ticks = ticks.saturating_add(more);
    }
    Some(ticks.saturating_mul(TICK))
}

// What `/proc/PID/status` says after `VmRSS:`, in kB of 1024 bytes.
fn resident_in(status: &str) -> Option<u64> {
    for line in status.lines() {
        if let Some(rest) = line.strip_prefix("VmRSS:") {
            let count: u64 = rest.split_whitespace().nth(0)?.parse().ok()?;
            return Some(count.saturating_mul(1_024));
        }
    }
    None
}
