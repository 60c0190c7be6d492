//! A launcher is asked after: that of a journal, or that of a status file.

use crate::age::silence_of;
use crate::life::{Life, LifeFacts, LockSeen, ProcessSeen, life_of};
use crate::locks::holder_of;
use crate::seen::{is_launcher, process_seen, sees_all};
use std::alloc::{AllocGlobal, Global};
use std::fs::{Files, metadata};
use std::io::ErrorKind;
use std::rt::Clock;

/// What the path of a status file's lock has after that of the file.
const BEHIND: &str = ".lock";

/// What is seen of a launcher.
#[derive(Clone, Copy)]
pub struct LauncherSeen {
    pub life: Life,
    /// The number that its process has here, if that is known.
    pub pid: Option<u32>,
}

/// The journal whose launcher is asked after.
#[derive(Clone, Copy)]
pub struct JournalAsked<'a> {
    pub path: &'a str,
    /// Whether its last lines are those of a shutdown that is over.
    pub has_ended: bool,
}

/// The status file whose launcher is asked after.
#[derive(Clone, Copy)]
pub struct StatusFileAsked<'a> {
    pub path: &'a str,
    /// The number that the launcher's process has in its own PID namespace, and when it began, in clock ticks since the boot.
    pub pid: u32,
    pub began: u64,
    /// Whether it has no job, as after an end in order.
    pub is_empty: bool,
    /// Whether its launcher renews its modification time.
    pub renews: bool,
}

/// The process that holds a lock, as far as it is shown.
#[derive(Clone, Copy)]
enum Holder {
    Process(u32),
    Nobody,
    /// The file is not there.
    NoFile,
    Unknown,
}

fn holder_at<R: Files>(rt: &R, alloc: Global, path: &str) -> Holder {
    let data = match metadata(rt, path) {
        Ok(data) => data,
        Err(error) if error.kind() == ErrorKind::NotFound => return Holder::NoFile,
        Err(_) => return Holder::Unknown,
    };
    match holder_of(rt, alloc, path, &data) {
        Ok(Some(pid)) => Holder::Process(pid),
        Ok(None) => Holder::Nobody,
        Err(error) => {
            drop(error);
            Holder::Unknown
        }
    }
}

/// Whether the launcher that writes the journal is running: by the lock on its file.
pub fn journal_life<R: AllocGlobal + Files>(
    rt: &R,
    alloc: Global,
    of: JournalAsked<'_>,
) -> LauncherSeen {
    let (lock, process, pid) = match holder_at(rt, alloc, of.path) {
        Holder::Process(pid) => (
            LockSeen::Held,
            process_seen(rt, alloc, pid, None),
            Some(pid),
        ),
        Holder::Nobody | Holder::NoFile => (LockSeen::Free, ProcessSeen::Hidden, None),
        Holder::Unknown => (LockSeen::Unknown, ProcessSeen::Hidden, None),
    };
    let life = life_of(&LifeFacts {
        lock,
        process,
        sees_all: sees_all(rt, alloc),
        has_ended: of.has_ended,
        silent: None,
    });
    LauncherSeen { life, pid }
}

/// Whether the launcher that wrote the status file is running: by the lock next to the file, then by its process.
pub fn file_life<R: AllocGlobal + Clock + Files>(
    rt: &R,
    alloc: Global,
    of: StatusFileAsked<'_>,
) -> LauncherSeen {
    let holder = match format!(in alloc; "{}{BEHIND}", of.path) {
        Ok(path) => {
            let holder = holder_at(rt, alloc, path.as_str());
            drop(path);
            holder
        }
        Err(_) => Holder::Unknown,
    };
    let (lock, pid) = match holder {
        Holder::Process(holder) => lock_of(rt, alloc, holder, of),
        Holder::Nobody => (LockSeen::Free, of.pid),
        Holder::NoFile => (LockSeen::Absent, of.pid),
        Holder::Unknown => (LockSeen::Unknown, of.pid),
    };
    let process = match lock {
        LockSeen::Held => process_seen(rt, alloc, pid, None),
        _ => process_seen(rt, alloc, pid, Some(of.began)),
    };
    let is_there = is_seen(process) || is_held(lock);
    let silent = if of.renews && is_there {
        silence_of(rt, of.path)
    } else {
        None
    };
    let sees_all = sees_all(rt, alloc);
    let life = life_of(&LifeFacts {
        lock,
        process,
        sees_all,
        has_ended: has_ended(lock, of.is_empty),
        silent,
    });
    let pid = if is_there { Some(pid) } else { None };
    LauncherSeen { life, pid }
}

// Whether this process, which holds the lock, is the launcher of the file, and the number of the launcher here.
fn lock_of<R: AllocGlobal + Files>(
    rt: &R,
    alloc: Global,
    holder: u32,
    of: StatusFileAsked<'_>,
) -> (LockSeen, u32) {
    match is_launcher(rt, alloc, holder, of.pid, of.began) {
        Some(true) => (LockSeen::Held, holder),
        Some(false) => (LockSeen::Others, of.pid),
        None if holder == of.pid => (LockSeen::Held, holder),
        None => (LockSeen::Unknown, of.pid),
    }
}

fn is_seen(process: ProcessSeen) -> bool {
    match process {
        ProcessSeen::Running | ProcessSeen::Stopped => true,
        ProcessSeen::None | ProcessSeen::Hidden => false,
    }
}

fn is_held(lock: LockSeen) -> bool {
    match lock {
        LockSeen::Held => true,
        _ => false,
    }
}

// A launcher that exits in order removes the file of its lock, and its status file then has no job.
fn has_ended(lock: LockSeen, is_empty: bool) -> bool {
    match lock {
        LockSeen::Absent => is_empty,
        _ => false,
    }
}
