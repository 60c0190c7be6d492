//! The processes of the machine, as proc(5) shows them.

use crate::path_files::read_front;
use std::alloc::{AllocError, Global};
use std::fs::Files;
use std::{io, str};

/// How many fields are between the name and the start time, which is field 22; the first of them is the state.
const BETWEEN: usize = 19;

/// How many bytes of `/proc/PID/stat` and `/proc/uptime` are read.
const MOST: usize = 4_096;

/// A process, as `/proc/PID/stat` shows it.
#[derive(Clone, Copy)]
pub struct ProcessStat {
    pub pid: u32,
    /// When it began, in clock ticks since the boot.
    pub began: u64,
    /// It has ended, and nobody has waited for it.
    pub has_ended: bool,
}

/// The process that this line of `/proc/PID/stat` shows; none, if it shows none. The name of a program may have any byte but 0: what
/// follows its last bracket are a letter and numbers.
pub fn process_in(stat: &str) -> Option<ProcessStat> {
    let (front, after) = stat.rsplit_once(')')?;
    let (pid, _) = front.split_once(' ')?;
    let mut fields = after.split(' ');
    let state = fields.nth(1)?;
    let began = fields.nth(BETWEEN - 1)?;
    Some(ProcessStat {
        pid: pid.parse().ok()?,
        began: began.parse().ok()?,
        has_ended: state == "Z" || state == "X",
    })
}

/// The name of its program in such a line, as far as it is there.
pub fn name_in(stat: &str) -> &str {
    let front = match stat.rsplit_once(')') {
        Some((front, _)) => front,
        None => "",
    };
    match front.split_once('(') {
        Some((_, name)) => name,
        None => "",
    }
}

/// The process of this PID; none, if the system shows none.
pub fn process_at<R: Files>(rt: &R, alloc: Global, pid: u32) -> Option<ProcessStat> {
    let mut bytes = Vec::new(alloc);
    let process = match read_of(rt, alloc, pid, "stat", MOST, &mut bytes) {
        Ok(()) => process_in(str::from_utf8(bytes.as_slice()).unwrap_or("")),
        Err(_) => None,
    };
    drop(bytes);
    process
}

/// Puts what the file of this name in `/proc/PID` holds into the bytes, in place of what is there, as far as `most` of it.
pub fn read_of<R: Files>(
    rt: &R,
    alloc: Global,
    pid: u32,
    name: &str,
    most: usize,
    bytes: &mut Vec<u8>,
) -> io::Result<()> {
    let path = format!(in alloc; "/proc/{pid}/{name}")?;
    bytes.clear();
    let read = read_front(rt, path.as_str(), most, bytes);
    drop(path);
    read
}

/// Adds the PIDs that `/proc` lists.
pub fn add_pids<R: Files>(rt: &R, alloc: Global, pids: &mut Vec<u32>) -> io::Result<()> {
    let mut listing = rt.open_dir("/proc/")?;
    let mut names = Vec::new(alloc);
    // Into room for many names: the system refuses a read into less than one takes.
    let listed = io::copy(&mut listing, &mut names);
    drop(listing);
    let added = add_numbers(names.as_slice(), pids);
    drop(names);
    added?;
    match listed {
        Ok(_) => Ok(()),
        Err(error) => Err(error),
    }
}

// Each of the names, which have a byte of 0 after them, that is a number.
fn add_numbers(names: &[u8], pids: &mut Vec<u32>) -> Result<(), AllocError> {
    for name in names.split(|byte| *byte == 0) {
        if let Some(pid) = number_in(name) {
            pids.push(pid)?;
        }
    }
    Ok(())
}

fn number_in(name: &[u8]) -> Option<u32> {
    str::from_utf8(name).ok()?.parse().ok()
}

/// The time now in clock ticks since the boot, of which a second has 100 (`/proc/uptime`); none, if the system does not say it.
pub fn ticks_now<R: Files>(rt: &R, alloc: Global) -> Option<u64> {
    let mut bytes = Vec::new(alloc);
    let ticks = match read_front(rt, "/proc/uptime", MOST, &mut bytes) {
        Ok(()) => ticks_in(str::from_utf8(bytes.as_slice()).unwrap_or("")),
        Err(_) => None,
    };
    drop(bytes);
    ticks
}

// The first number has two digits after the point.
fn ticks_in(uptime: &str) -> Option<u64> {
    let (seconds, rest) = uptime.split_once('.')?;
    let (hundredths, _) = rest.split_once(' ')?;
    if hundredths.len() != 2 {
        return None;
    }
    let seconds: u64 = seconds.parse().ok()?;
    let hundredths: u64 = hundredths.parse().ok()?;
    Some(seconds.saturating_mul(100).saturating_add(hundredths))
}
