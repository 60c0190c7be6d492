//! Who holds the lock on a file, by the list of all locks.

use files_and_process::path_files::read_front;
use std::alloc::Global;
use std::fs::{Files, Metadata, metadata};
use std::io::ErrorKind;
use std::os::unix::fs::MetadataExt;
use std::{io, str};

/// Where Linux lists the locks of all files, one in a line: `4: FLOCK  ADVISORY  WRITE 812 08:01:1234 0 EOF`.
const LOCKS: &str = "/proc/locks";

/// How many bytes of that list are looked at.
const MOST: usize = 4_194_304;

/// How many times the list is read before a file counts as one without a lock. Linux gives a long list in pieces, and leaves a lock out if another one goes
/// from the list between two of them.
const READS: u32 = 4;

/// The process that the list names for the lock on the file at the path.
pub(crate) fn holder_of<R: Files>(
    rt: &R,
    alloc: Global,
    path: &str,
    data: &Metadata,
) -> io::Result<Option<u32>> {
    for _ in 0..READS {
        let holder = listed_holder(rt, alloc, path, data)?;
        if holder.is_some() {
            return Ok(holder);
        }
    }
    Ok(None)
}

// The process that the list names as it is read now. If the layers of an overlayfs are on several file systems, a file reports another device than the
// list. Its folder reports that of the list.
fn listed_holder<R: Files>(
    rt: &R,
    alloc: Global,
    path: &str,
    data: &Metadata,
) -> io::Result<Option<u32>> {
    let mut bytes = Vec::new(alloc);
    read_front(rt, LOCKS, MOST, &mut bytes)?;
    let Ok(list) = str::from_utf8(bytes.as_slice()) else {
        return Err(io::Error::from(ErrorKind::InvalidData));
    };
    let holder = match marked_in(alloc, list, data.dev(), data.ino())? {
        None => {
            let folder = metadata(rt, folder_of(path))?;
            marked_in(alloc, list, folder.dev(), data.ino())?
        }
        holder => holder,
    };
    match holder {
        None if bytes.len() > MOST => Err(io::Error::from(ErrorKind::FileTooLarge)),
        holder => Ok(holder),
    }
}

fn folder_of(path: &str) -> &str {
    match path.rsplit_once('/') {
        Some(("", _)) => "/",
        Some((folder, _)) => folder,
        None => ".",
    }
}

// The process that the list names for the file of this number on this device.
fn marked_in(alloc: Global, list: &str, device: u64, inode: u64) -> io::Result<Option<u32>> {
    let mark = mark_of(alloc, device, inode)?;
    let holder = holder_in(list, mark.as_str());
    drop(mark);
    Ok(holder)
}

// The file as the list names it: the two parts of its device's number in hexadecimal digits, and its own number.
fn mark_of(alloc: Global, device: u64, inode: u64) -> io::Result<String> {
    let major = (device >> 8 & 0xfff) | (device >> 32 & 0xffff_f000);
    let minor = (device & 0xff) | (device >> 12 & 0xffff_ff00);
    Ok(format!(in alloc; "{major:02x}:{minor:02x}:{inode}")?)
}

fn holder_in(list: &str, mark: &str) -> Option<u32> {
    for line in list.lines() {
        if let Some(pid) = holder_by(line, mark) {
            return Some(pid);
        }
    }
    None
}

// The process of a line about an exclusive lock on this file. A line about a process that waits for a lock has an arrow before its kind.
fn holder_by(line: &str, mark: &str) -> Option<u32> {
    let mut words = line.split_whitespace();
    let _number = words.next()?;
    let kind = words.next()?;
    let _way = words.next()?;
    let access = words.next()?;
    let pid = words.next()?;
    let file = words.next()?;
    if kind == "FLOCK" && access == "WRITE" && file == mark {
        pid.parse::<u32>().ok()
    } else {
        None
    }
}
