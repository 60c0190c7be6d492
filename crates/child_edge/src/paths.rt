//! Observations of paths, as launchd.plist(5) speaks of them under WatchPaths, QueueDirectories and PathState. They
//! come out of a helper's answers or, if the system starts none, of checks by this process itself.

ghost use Rattle.std.specs.Prelude.{◌≡◌, ◌+◌, ◌-◌, ◌*◌, ◌^◌, min, Some, IfOk};
ghost use Rattle.child_edge.specs.Observations.{observation_in};

use crate::asking::error_of;
use history_model::Obs;
use look_out::{Answer, Seen, no_answer};
use std::fs::{Files, Metadata};
use std::io::ErrorKind;
use std::os::unix::fs::MetadataExt;
use std::{fs, io};

const ABSENT: Obs = Obs {
    present: false,
    nonempty_dir: false,
    stamp: 0,
};

/// What a helper saw. An error if it was refused, or gave no answer.
pub(crate) fn observation_of_seen(seen: Seen) -> io::Result<Obs>
    ensures { IfOk result (λ obs. (answer : Answer) × (seen ≡ Seen.Answered answer) × (observation_in answer ≡ Some obs)) }
{
    match seen {
        Seen::Answered(answer) => observation_of_answer(answer),
        Seen::Failed(error) => Err(error),
        Seen::Waits | Seen::Silent | Seen::Unstarted => Err(no_answer()),
    }
}

fn observation_of_answer(answer: Answer) -> io::Result<Obs>
    ensures { IfOk result (λ obs. observation_in answer ≡ Some obs) }
{
    let (nonempty_dir, stamp) = match answer {
        Answer::Absent => return Ok(ABSENT),
        Answer::There { stamp } => (false, stamp),
        Answer::Filled { stamp } => (true, stamp),
        Answer::Refused { error } => return Err(error_of(error)),
        _ => return Err(io::Error::from(ErrorKind::InvalidData)),
    };
    Ok(Obs {
        present: true,
        nonempty_dir,
        stamp,
    })
}

/// Checks the path. That nothing is there is an observation too, also if a folder above it is a file.
pub(crate) fn look<R: Files + AllocGlobal + Clone + Drop>(rt: &R, path: &str) -> io::Result<Obs> {
    match fs::metadata(rt, path) {
        Ok(data) => observation_of(rt, path, &data),
        Err(error) if is_absence(&error) => Ok(ABSENT),
        Err(error) => Err(error),
    }
}

fn observation_of<R: Files + AllocGlobal + Clone + Drop>(
    rt: &R,
    path: &str,
    data: &Metadata,
) -> io::Result<Obs> {
    let stamp = match u64::try_from(data.mtime()) {
        Ok(seconds) => stamp_of(seconds, data.mtime_nsec().unsigned_abs()),
        Err(_) => 0,
    };
    let mut seen = Obs {
        present: true,
        nonempty_dir: false,
        stamp,
    };
    if data.is_dir() {
        match has_entry(rt, path) {
            Ok(has_entry) => seen.nonempty_dir = has_entry,
            Err(error) => return Err(error),
        }
    }
    Ok(seen)
}

fn is_absence(error: &io::Error) -> bool {
    matches!(error.kind(), ErrorKind::NotFound | ErrorKind::NotADirectory)
}

// A folder that may not be read counts as one without an entry. It is known that it is there.
fn has_entry<R: Files + AllocGlobal + Clone + Drop>(rt: &R, path: &str) -> io::Result<bool> {
    let mut listing = match fs::read_dir(rt, path) {
        Ok(listing) => listing,
        Err(error) if error.kind() == ErrorKind::PermissionDenied => return Ok(false),
        Err(error) => return Err(error),
    };
    let first = listing.next();
    drop(listing);
    let answer = match &first {
        None => Ok(false),
        Some(Ok(_)) => Ok(true),
        Some(Err(error)) => Err(*error),
    };
    drop(first);
    answer
}

// Nanoseconds of Unix time, or the greatest stamp if they are more.
fn stamp_of(seconds: u64, nanos: u64) -> u64
    ensures { result ≡ min (seconds * 1000000000 + nanos) (2 ^ 64 - 1) }
{
    seconds.saturating_mul(1_000_000_000).saturating_add(nanos)
}
