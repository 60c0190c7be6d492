//! What proc(5) shows of a process, and whether it shows all of them.

use crate::life::ProcessSeen;
use files_and_process::processes::{process_in, read_of};
use std::alloc::{AllocGlobal, Global};
use std::fs::Files;
use std::{fs, str};

/// How many bytes of a file of `/proc/PID` are read.
const MOST: usize = 4_096;

/// What `/proc/self/ns/pid` leads to in the first PID namespace (its number is fixed in Linux, `PROC_PID_INIT_INO`).
const FIRST_NAMESPACE: &str = "pid:[4026531836]";

/// Whether this process sees those of the whole machine, and all locks: it is in the first PID namespace, and so is its `/proc`.
pub(crate) fn sees_all<R: AllocGlobal + Files>(rt: &R, alloc: Global) -> bool {
    match fs::read_link(rt, "/proc/self/ns/pid") {
        Ok(path) => {
            let is_first = path.as_str() == FIRST_NAMESPACE;
            drop(path);
            is_first
        }
        Err(_) => false,
    }
}

/// What is seen of the process of this number. If it is known when it began, in clock ticks since the boot, one that began at another time is
/// another process.
pub(crate) fn process_seen<R: Files>(
    rt: &R,
    alloc: Global,
    pid: u32,
    began: Option<u64>,
) -> ProcessSeen {
    let mut bytes = Vec::new(alloc);
    let seen = match read_of(rt, alloc, pid, "stat", MOST, &mut bytes) {
        Ok(()) => stands_in(text_of(bytes.as_slice()), began),
        Err(_) => None,
    };
    drop(bytes);
    match seen {
        Some(seen) => seen,
        // If not even the first process is shown, the system hides those of others.
        None if shows(rt, alloc, 1) => ProcessSeen::None,
        None => ProcessSeen::Hidden,
    }
}

// Whether the system shows the state of this process.
fn shows<R: Files>(rt: &R, alloc: Global, pid: u32) -> bool {
    let mut bytes = Vec::new(alloc);
    let is_shown = read_of(rt, alloc, pid, "stat", MOST, &mut bytes).is_ok();
    drop(bytes);
    is_shown
}

// What a line of `/proc/PID/stat` says. A zombie is not there.
fn stands_in(stat: &str, began: Option<u64>) -> Option<ProcessSeen> {
    let process = process_in(stat)?;
    let is_other = match began {
        Some(began) => process.began != began,
        None => false,
    };
    Some(if is_other || process.has_ended {
        ProcessSeen::None
    } else if is_stopped(stat) {
        ProcessSeen::Stopped
    } else {
        ProcessSeen::Running
    })
}

// Whether its state is that of a process which a signal or a tracer stopped.
fn is_stopped(stat: &str) -> bool {
    match stat.rsplit_once(')') {
        Some((_, after)) => {
            let mut fields = after.split(' ');
            match fields.nth(1) {
                Some(state) => state == "T" || state == "t",
                None => false,
            }
        }
        None => false,
    }
}

/// Whether the process of this number as it is seen here is the one that gave its number and its start itself, maybe in a PID namespace of its own.
/// None if the system hides it.
pub(crate) fn is_launcher<R: AllocGlobal + Files>(
    rt: &R,
    alloc: Global,
    holder: u32,
    pid: u32,
    began: u64,
) -> Option<bool> {
    let mut bytes = Vec::new(alloc);
    let own = match read_of(rt, alloc, holder, "status", MOST, &mut bytes) {
        Ok(()) => own_number_in(text_of(bytes.as_slice())),
        Err(_) => None,
    };
    drop(bytes);
    if own? != pid {
        return Some(false);
    }
    match process_seen(rt, alloc, holder, Some(began)) {
        ProcessSeen::Running | ProcessSeen::Stopped => Some(true),
        // In another time namespace a process counts the ticks from another start.
        ProcessSeen::None => Some(has_other_clock(rt, alloc, holder)),
        ProcessSeen::Hidden => None,
    }
}

// The number that the process has in its own PID namespace: the last one of `NSpid`.
fn own_number_in(status: &str) -> Option<u32> {
    for line in status.lines() {
        if let Some(numbers) = line.strip_prefix("NSpid:") {
            return last_of(numbers);
        }
    }
    None
}

fn last_of(numbers: &str) -> Option<u32> {
    let mut last = None;
    for number in numbers.split_whitespace() {
        last = number.parse::<u32>().ok();
    }
    last
}

// Whether the process is in another time namespace than this one, as far as it is shown.
fn has_other_clock<R: AllocGlobal + Files>(rt: &R, alloc: Global, pid: u32) -> bool {
    let Ok(path) = format!(in alloc; "/proc/{pid}/ns/time") else {
        return false;
    };
    let its = fs::read_link(rt, path.as_str());
    drop(path);
    let own = fs::read_link(rt, "/proc/self/ns/time");
    let is_other = match (&its, &own) {
        (Ok(its), Ok(own)) => its.as_str() != own.as_str(),
        _ => false,
    };
    drop(its);
    drop(own);
    is_other
}

// The text, as far as it is UTF-8: the name of a program may have any byte.
fn text_of(bytes: &[u8]) -> &str {
    str::from_utf8(bytes).unwrap_or("")
}
