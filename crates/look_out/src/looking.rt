//! Path checks: what is at a path, as launchd.plist(5) speaks of it under WatchPaths, QueueDirectories and PathState.

ghost use Rattle.std.specs.Prelude.{◌≡◌, ◌+◌, ◌-◌, ◌*◌, ◌^◌, min};

use crate::answer::Answer;
use std::fs::{Files, Metadata};
use std::io::ErrorKind;
use std::os::unix::fs::MetadataExt;
use std::{fs, io};

/// EINVAL, where the system gave no number.
pub(crate) const INVALID: u64 = 22;

/// ENOMEM.
const NO_MEMORY: u64 = 12;

/// The system's number of the error.
pub(crate) fn refused(error: &io::Error) -> Answer {
    let error = match error.raw_os_error() {
        Some(number) => u64::from(number.unsigned_abs()),
        None if error.kind() == ErrorKind::OutOfMemory => NO_MEMORY,
        None => INVALID,
    };
    Answer::Refused { error }
}

/// Checks the path. That nothing is there is an answer too, also if a folder above it is a file.
pub(crate) fn look<R: AllocGlobal + Clone + Drop + Files>(rt: &R, path: &str) -> Answer {
    match fs::metadata(rt, path) {
        Ok(data) => observation_of(rt, path, &data),
        Err(error) => match error.kind() {
            ErrorKind::NotFound | ErrorKind::NotADirectory => Answer::Absent,
            _ => refused(&error),
        },
    }
}

fn observation_of<R: AllocGlobal + Clone + Drop + Files>(
    rt: &R,
    path: &str,
    data: &Metadata,
) -> Answer {
    let stamp = match u64::try_from(data.mtime()) {
        Ok(seconds) => stamp_of(seconds, data.mtime_nsec().unsigned_abs()),
        Err(_) => 0,
    };
    if !data.is_dir() {
        return Answer::There { stamp };
    }
    match has_entry(rt, path) {
        Ok(true) => Answer::Filled { stamp },
        Ok(false) => Answer::There { stamp },
        Err(error) => refused(&error),
    }
}

// A folder that may not be read counts as one without an entry. It is known that it is there.
fn has_entry<R: AllocGlobal + Clone + Drop + Files>(rt: &R, path: &str) -> io::Result<bool> {
    let mut listing = match fs::read_dir(rt, path) {
        Ok(listing) => listing,
        Err(error) if error.kind() == ErrorKind::PermissionDenied => return Ok(false),
        Err(error) => return Err(error),
    };
    let first = listing.next();
    drop(listing);
    let answer = match &first {
        None => Ok(false),
        Some(Ok(_)) => Ok(true),
        Some(Err(error)) => Err(*error),
    };
    drop(first);
    answer
}

// Nanoseconds of Unix time, or the greatest stamp if they are more.
fn stamp_of(seconds: u64, nanos: u64) -> u64
    ensures { result ≡ min (seconds * 1000000000 + nanos) (2 ^ 64 - 1) }
{
    seconds.saturating_mul(1_000_000_000).saturating_add(nanos)
}
