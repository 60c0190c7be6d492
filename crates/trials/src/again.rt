//! This program, started again by another one.

use anyhow::{Result, bail};
use std::env;
use std::process::Command;

/// Runs a program with these arguments and the path of this one, which it starts again. An error if that run fails.
pub fn run_by(rt: &HostRuntime, program: &str, words: [&str; 2]) -> Result<()> {
    let own = env::current_exe(rt)?;
    let mut command = Command::new(rt.alloc(), program)?;
    let [first, second] = words;
    let has_first = command.arg(first).is_ok();
    let has_second = command.arg(second).is_ok();
    let has_own = command.arg(own.as_path()).is_ok();
    let status = command.status(rt);
    drop(command);
    match status {
        Ok(status) if has_first && has_second && has_own && status.success() => Ok(()),
        _ => bail!("the run by {program} failed"),
    }
}
