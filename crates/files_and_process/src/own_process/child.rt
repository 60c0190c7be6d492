//! Whether a process sees how its children end.

use std::alloc::Global;
use std::io;
use std::io::ErrorKind;
use std::process::{Command, Processes, Stdio};

/// Starts `/bin/sh -c :` and waits for its exit. False: the system does not report the exit, as in a process whose
/// starter ignores SIGCHLD. An `Err` if the shell can't be started.
pub fn sees_children<R: Processes>(rt: &R, alloc: Global) -> io::Result<bool> {
    let mut command = Command::new(alloc, "/bin/sh")?;
    let has_flag = command.arg("-c").is_ok();
    let has_script = command.arg(":").is_ok();
    if !(has_flag && has_script) {
        drop(command);
        return Err(io::Error::from(ErrorKind::OutOfMemory));
    }
    command.stdin(Stdio::null());
    command.stdout(Stdio::null());
    command.stderr(Stdio::null());
    let started = command.spawn(rt);
    drop(command);
    let mut child = started?;
    let end = child.wait();
    drop(child);
    Ok(end.is_ok())
}
