//! The limits, the user and the ignored signals of this process, as Linux shows them in its folder `/proc/self`.

use crate::path_files::read_front;
use std::alloc::Global;
use std::fs::Files;
use std::{fs, str};

/// No text that the system has of a process is as long.
const MOST: usize = 65_536;

/// A signal that a process may be started with as ignored.
#[derive(Clone, Copy)]
pub enum Signal {
    Hup,
    Int,
    Quit,
    Term,
    Xfsz,
}

/// What the system says of this process. Where it says nothing, nothing is known.
#[derive(Clone, Copy)]
pub struct ProcessState {
    /// How many descriptors it may have open at a time.
    pub descriptors: Option<u64>,
    /// How many bytes a file may have that it writes.
    pub file_size: Option<u64>,
    /// The number of the user whose rights it has.
    pub user: Option<u32>,
    // Bit 0 stands for the signal 1.
    ignored: u64,
}

impl ProcessState {
    /// Reads `limits` and `status` of `/proc/self`. What can't be read is not known; so is a limit that is none.
    pub fn read<R: AllocGlobal + Files>(rt: &R) -> ProcessState {
        let mut standing = ProcessState {
            descriptors: None,
            file_size: None,
            user: None,
            ignored: 0,
        };
        if let Ok(limits) = fs::read_to_string(rt, "/proc/self/limits") {
            standing.descriptors = limit_in(limits.as_str(), "Max open files");
            standing.file_size = limit_in(limits.as_str(), "Max file size");
        }
        if let Ok(status) = fs::read_to_string(rt, "/proc/self/status") {
            standing.user = user_in(status.as_str());
            standing.ignored = ignored_in(status.as_str());
        }
        standing
    }

    /// Whether it was started with the signal ignored, or has that since.
    pub fn ignores(&self, signal: Signal) -> bool {
        self.ignored & bit_of(signal) != 0
    }
}

/// The number of the user whose rights this process has, as `/proc/self/status` says it, if that can be read.
pub(crate) fn own_user<R: Files>(rt: &R, alloc: Global) -> Option<u32> {
    let mut bytes = Vec::new(alloc);
    read_front(rt, "/proc/self/status", MOST, &mut bytes).ok()?;
    user_in(str::from_utf8(bytes.as_slice()).ok()?)
}

fn bit_of(signal: Signal) -> u64 {
    match signal {
        Signal::Hup => 0x1,
        Signal::Int => 0x2,
        Signal::Quit => 0x4,
        Signal::Term => 0x4000,
        Signal::Xfsz => 0x100_0000,
    }
}

// What follows the name in the line that begins with it.
fn behind<'a>(text: &'a str, name: &str) -> Option<&'a str> {
    for line in text.lines() {
        if let Some(rest) = line.strip_prefix(name) {
            return Some(rest);
        }
    }
    None
}

// The first field is the limit that holds: a number, or `unlimited`.
fn limit_in(limits: &str, name: &str) -> Option<u64> {
    let word = behind(limits, name)?.split_whitespace().next()?;
    word.parse::<u64>().ok()
}

// The second number is the user whose rights the process has.
fn user_in(status: &str) -> Option<u32> {
    let word = behind(status, "Uid:")?.split_whitespace().nth(1)?;
    word.parse::<u32>().ok()
}

fn ignored_in(status: &str) -> u64 {
    match behind(status, "SigIgn:") {
        Some(word) => u64::from_str_radix(word.trim(), 16).unwrap_or(0),
        None => 0,
    }
}
