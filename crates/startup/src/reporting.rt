//! How a fault is reported: one line on standard error, with the path and the reason.

use exit_status::NO_MEMORY;
use std::fmt::Display;
use std::io;

/// Whether each line begins with its level, as systemd's journal reads it (sd-daemon(3)).
#[derive(Clone, Copy)]
pub struct Level {
    pub is_told: bool,
}

impl Level {
    /// No level is printed.
    pub const NONE: Level = Level { is_told: false };

    pub fn warning(self) -> &'static str {
        if self.is_told { "<4>" } else { "" }
    }
}

/// Reports what is at fault, and why.
pub fn tell(rt: &impl Eprint, level: Level, part: &str, reason: &str) {
    let front = level.warning();
    let _written = eprintln!(rt; "{front}jobd: {part}: {reason}");
}

/// Reports what of the program failed, at which path, and why.
pub fn report(rt: &impl Eprint, level: Level, part: &str, path: &str, reason: &impl Display) {
    let front = level.warning();
    let _written = eprintln!(rt; "{front}jobd: {part} {path}: {reason}");
}

/// Reports an error of the system, unless memory ran out, and gives its status.
pub fn refuse(
    rt: &impl Eprint,
    level: Level,
    status: u8,
    part: &str,
    path: &str,
    error: &io::Error,
) -> u8 {
    if error.kind() == io::ErrorKind::OutOfMemory {
        return NO_MEMORY;
    }
    report(rt, level, part, path, error);
    status
}
