//! What `jobd-run` wrote of the boot of a launcher, next to its status file: since when no launcher ran before, and which definitions were not
//! loaded.

use crate::passed::Down;
use ctl_protocol::{ReadFault, read_header};
use files_and_process::path_files::read_file;
use json_kinds::json_value;
use run_times::telling::tell_of;
use serde_json::Value;
use status_file::LauncherStatus;
use std::alloc::{AllocError, Global};
use std::io::ErrorKind;

/// What the path of the boot's file has after that of the status file.
const BEHIND: &str = ".boot";

/// How many bytes such a file may have.
const LONGEST: usize = 16_777_216;

/// A definition that was not loaded at the boot.
#[derive(Drop)]
pub struct LeftOut {
    line: Value,
}

impl LeftOut {
    /// The path of its file.
    pub fn path(&self) -> &str {
        text_of(&self.line, "path")
    }

    /// Why it was not loaded.
    pub fn reason(&self) -> &str {
        text_of(&self.line, "reason")
    }

    /// The label in it, if it was found, and if no job of this label was loaded then.
    pub fn label(&self) -> Option<&str> {
        self.line.get("label")?.as_str()
    }

    /// Whether an argument means it: its path, the name of its file without `.json` or `.plist`, or its label.
    pub fn is_meant_by(&self, word: &str) -> bool {
        self.path() == word || is_named(self.path(), word) || self.label() == Some(word)
    }
}

fn is_named(path: &str, word: &str) -> bool {
    let stem = match path.strip_suffix(".json") {
        Some(stem) => stem,
        None => path.strip_suffix(".plist").unwrap_or(path),
    };
    match stem.strip_suffix(word) {
        Some(folder) => folder.is_empty() || folder.ends_with("/"),
        None => false,
    }
}

fn text_of<'a>(line: &'a Value, key: &'static str) -> &'a str {
    match line.get(key) {
        Some(text) => text.as_str().unwrap_or(""),
        None => "",
    }
}

/// What is known of a boot.
#[derive(Drop)]
pub struct Boot {
    /// Whether something was written of it.
    pub is_known: bool,
    /// Between which seconds no launcher ran before.
    pub down: Option<Down>,
    /// The definitions that were not loaded, in the order of the boot.
    pub left_out: Vec<LeftOut>,
}

impl Boot {
    fn unknown(alloc: Global) -> Boot {
        Boot {
            is_known: false,
            down: None,
            left_out: Vec::new(alloc),
        }
    }
}

/// What was written of the boot of this launcher, whose status file has the path. It skips what was written of another launcher. It reports if the
/// file can't be read, and a line that does not belong there.
pub(crate) fn boot_of(
    host: &HostRuntime,
    alloc: Global,
    status_file: &str,
    launcher: &LauncherStatus<'_>,
) -> Result<Boot, AllocError> {
    let path = format!(in alloc; "{status_file}{BEHIND}")?;
    let read = read_file(host, alloc, path.as_str(), LONGEST);
    let boot = match read {
        Ok(Some(bytes)) => {
            let boot = boot_in(host, alloc, path.as_str(), bytes.as_slice(), launcher);
            drop(bytes);
            boot
        }
        Ok(None) => {
            tell_of(host, path.as_str(), &"longer than 16777216 bytes");
            Ok(Boot::unknown(alloc))
        }
        Err(error) => {
            if error.kind() != ErrorKind::NotFound {
                tell_of(host, path.as_str(), &error);
            }
            drop(error);
            Ok(Boot::unknown(alloc))
        }
    };
    drop(path);
    boot
}

// What the lines say, the first of which names the launcher.
fn boot_in(
    host: &HostRuntime,
    alloc: Global,
    path: &str,
    bytes: &[u8],
    launcher: &LauncherStatus<'_>,
) -> Result<Boot, AllocError> {
    let mut boot = Boot::unknown(alloc);
    let mut number: u64 = 0;
    for line in bytes.split(|byte| *byte == b'\n') {
        number = number.saturating_add(1);
        if number > 1 && !boot.is_known {
            return Ok(boot);
        }
        let is_taken = if number == 1 {
            boot.open(alloc, line, launcher)
        } else {
            boot.add(alloc, line)
        };
        match is_taken {
            Ok(true) => {}
            Ok(false) => tell_of(host, path, &"a line of another form"),
            Err(error) => {
                drop(boot);
                return Err(error);
            }
        }
    }
    Ok(boot)
}

impl Boot {
    // Takes the first line, and returns whether it is one. The line of another launcher says nothing here.
    fn open(
        &mut self,
        alloc: Global,
        line: &[u8],
        launcher: &LauncherStatus<'_>,
    ) -> Result<bool, AllocError> {
        let Some(line) = json_value(alloc, line)? else {
            return Ok(false);
        };
        let head = head_of(&line);
        drop(line);
        let Some(head) = head else {
            return Ok(false);
        };
        if head.pid == u64::from(launcher.pid) && head.began == launcher.began {
            self.is_known = true;
            self.down = down_from(alloc, head, launcher)?;
        }
        Ok(true)
    }

    // Takes the line of a file, and returns whether it is one. The line after the last newline is empty.
    fn add(&mut self, alloc: Global, line: &[u8]) -> Result<bool, AllocError> {
        if line.is_empty() {
            return Ok(true);
        }
        let Some(line) = json_value(alloc, line)? else {
            return Ok(false);
        };
        let file = LeftOut { line };
        if file.path().is_empty() {
            drop(file);
            return Ok(false);
        }
        self.left_out.push(file)?;
        Ok(true)
    }
}

/// The first line.
#[derive(Clone, Copy)]
struct Head {
    pid: u64,
    began: u64,
    since: Option<u64>,
    loaded: u64,
}

fn head_of(line: &Value) -> Option<Head> {
    let head = line.get("boot")?;
    Some(Head {
        pid: head.get("pid")?.as_u64()?,
        began: head.get("began")?.as_u64()?,
        since: head.get("since")?.as_u64(),
        loaded: head.get("loaded")?.as_u64()?,
    })
}

// Until when no launcher ran: up to the first clock reading of this one.
fn down_from(
    alloc: Global,
    head: Head,
    launcher: &LauncherStatus<'_>,
) -> Result<Option<Down>, AllocError> {
    let Some(since) = head.since else {
        return Ok(None);
    };
    match read_header(alloc, launcher.header.as_bytes()) {
        Ok(header) => {
            let until = header.reading.wall;
            drop(header);
            Ok(Some(Down {
                since,
                until,
                loaded: head.loaded,
            }))
        }
        Err(ReadFault::NoMemory) => Err(AllocError),
        Err(ReadFault::BadRequest) => Ok(None),
    }
}
