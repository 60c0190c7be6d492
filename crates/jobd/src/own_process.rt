//! Which process this is.

use files_and_process::processes::process_in;
use std::fs;
use std::fs::Files;

/// What the system says of this process (proc(5)).
const ITS_STAT: &str = "/proc/self/stat";

/// Its PID, and the time of its start in ticks since the boot.
#[derive(Clone, Copy)]
pub(crate) struct OwnProcess {
    pub(crate) pid: u32,
    pub(crate) began: u64,
}

/// What the system says of this process; none, if it says nothing.
pub(crate) fn own_process<R: AllocGlobal + Files>(rt: &R) -> Option<OwnProcess> {
    let text = fs::read_to_string(rt, ITS_STAT).ok()?;
    let told = process_in(text.as_str());
    drop(text);
    let own = told?;
    Some(OwnProcess {
        pid: own.pid,
        began: own.began,
    })
}
