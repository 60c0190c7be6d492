//! Finds the journal of the launcher of a status file, and those of the launchers before it.

use crate::launcher::launcher_files;
use ctl_protocol::{LINE_LIMIT, ReadFault, read_header};
use files_and_process::path_files::read_front;
use history_model::Reading;
use status_page::StatusRead;
use std::alloc::{AllocError, Global};
use std::env;
use std::env::VarError;
use std::fs::metadata;

/// How many journals of launchers before are kept, if `JOBD_JOURNALS` does not say it. `jobd-run` keeps no more than `MOST_KEPT`.
const KEPT: u64 = 7;

pub(crate) const MOST_KEPT: u64 = 99;

/// How many bytes of journals are read besides a status file, together.
pub(crate) const MOST_BYTES: u64 = 33_554_432;

/// The path of the journal of the file's launcher, and that launcher's first clock reading. None: it is not that of `JOBD_JOURNAL`, nor, if that is
/// not set, that of the launcher of `JOBD_SOCKET`, else the package's.
pub(crate) fn journal_of(
    host: &HostRuntime,
    alloc: Global,
    standing: &StatusRead,
) -> Result<Option<(String, Reading)>, AllocError> {
    let begun = begun_of(alloc, standing)?;
    let (Some(begun), Some(path)) = (begun, journal_path(host, alloc)?) else {
        return Ok(None);
    };
    if begin_at(host, alloc, path.as_str())? == Some(begun) {
        Ok(Some((path, begun)))
    } else {
        drop(path);
        Ok(None)
    }
}

/// The first clock reading of the file's launcher.
pub(crate) fn begun_of(
    alloc: Global,
    standing: &StatusRead,
) -> Result<Option<Reading>, AllocError> {
    match standing.launcher() {
        Some(launcher) => first_reading(alloc, launcher.header.as_bytes()),
        None => Ok(None),
    }
}

fn first_reading(alloc: Global, line: &[u8]) -> Result<Option<Reading>, AllocError> {
    match read_header(alloc, line) {
        Ok(header) => {
            let reading = header.reading;
            drop(header);
            Ok(Some(reading))
        }
        Err(ReadFault::NoMemory) => Err(AllocError),
        Err(ReadFault::BadRequest) => Ok(None),
    }
}

// That of `JOBD_JOURNAL`, else that of the launcher.
fn journal_path(host: &HostRuntime, alloc: Global) -> Result<Option<String>, AllocError> {
    match env::var(host, "JOBD_JOURNAL") {
        Ok(path) if path.is_empty() => Ok(None),
        Ok(path) => Ok(Some(path)),
        Err(VarError::OutOfMemory) => Err(AllocError),
        Err(_) => match launcher_files(host, alloc) {
            Ok(files) => Ok(files.into_journal()),
            Err(error) => {
                drop(error);
                Err(AllocError)
            }
        },
    }
}

/// How many bytes the file at the path has, if it is a plain file.
pub(crate) fn length_at(host: &HostRuntime, path: &str) -> Option<u64> {
    match metadata(host, path) {
        Ok(data) if data.is_file() => Some(data.len()),
        _ => None,
    }
}

/// The first clock reading of the journal at the path. None: it is not a plain file, can't be read, or is not a journal.
pub(crate) fn begin_at(
    host: &HostRuntime,
    alloc: Global,
    path: &str,
) -> Result<Option<Reading>, AllocError> {
    if length_at(host, path).is_none() {
        return Ok(None);
    }
    let mut bytes = Vec::new(alloc);
    let begun = match read_front(host, path, LINE_LIMIT, &mut bytes) {
        Ok(()) => match bytes.as_slice().split(|byte| *byte == b'\n').next() {
            Some(line) => first_reading(alloc, line),
            None => Ok(None),
        },
        Err(_) => Ok(None),
    };
    drop(bytes);
    begun
}

/// The path of the journal of a launcher before; the last one has number 1.
pub(crate) fn before_path(alloc: Global, path: &str, number: u64) -> Result<String, AllocError> {
    format!(in alloc; "{path}.{number}")
}

/// How many journals of launchers before are kept.
pub(crate) fn kept_journals(host: &HostRuntime) -> Result<u64, AllocError> {
    match env::var(host, "JOBD_JOURNALS") {
        Ok(words) => {
            let count: Option<u64> = words.as_str().parse().ok();
            drop(words);
            Ok(count.unwrap_or(KEPT))
        }
        Err(VarError::OutOfMemory) => Err(AllocError),
        Err(_) => Ok(KEPT),
    }
}
