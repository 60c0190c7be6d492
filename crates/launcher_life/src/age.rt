//! For how long a launcher has not renewed its status file.

use crate::life::LATEST;
use std::fs::{Files, metadata};
use std::rt::Clock;
use std::thread;
use std::time::{Duration, SystemTime};

/// How many milliseconds are between two looks at a file that seems to be old.
const PAUSE: u64 = 100;

/// How often it is looked at again. A launcher that runs renews its file within a tenth of a second after the machine slept, and after the clock
/// was set.
const LOOKS: u32 = 20;

/// The second of Unix time at which the file was renewed last.
pub fn mark_of<R: Files>(rt: &R, path: &str) -> Option<u64> {
    let modified = metadata(rt, path).ok()?.modified().ok()?;
    match modified.duration_since(SystemTime::UNIX_EPOCH) {
        Ok(since) => Some(since.as_secs()),
        Err(_) => None,
    }
}

/// For how many seconds the file was not renewed, by the wall clock. Before it says that this is longer than a launcher may take it looks again,
/// for two seconds: the machine may have slept, or the clock was set. A file of the future counts as just renewed.
pub fn silence_of<R: Clock + Files>(rt: &R, path: &str) -> Option<u64> {
    for _ in 0..LOOKS {
        match age_of(rt, path) {
            Some(age) if age > LATEST => thread::sleep(rt, Duration::from_millis(PAUSE)),
            age => return age,
        }
    }
    age_of(rt, path)
}

fn age_of<R: Clock + Files>(rt: &R, path: &str) -> Option<u64> {
    let modified = metadata(rt, path).ok()?.modified().ok()?;
    match SystemTime::now(rt).ok()?.duration_since(modified) {
        Ok(age) => Some(age.as_secs()),
        Err(_) => Some(0),
    }
}
