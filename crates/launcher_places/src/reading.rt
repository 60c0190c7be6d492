//! The file, read as one that a user may have put there: only a plain file of the socket's owner, and only a short one.

use crate::BEHIND_SOCKET;
use crate::line::{Places, places_in};
use files_and_process::path_files::read_front;
use std::alloc::{AllocError, Global};
use std::fs::{File, Files};
use std::io::{Error, ErrorKind};
use std::os::unix::fs::MetadataExt;
use std::{fs, io};

/// How many bytes the file may have.
const LONGEST: usize = 4_096;

/// Why the places are not known.
#[derive(Drop)]
pub enum PlacesFault {
    NoMemory,
    /// The socket or the file can't be read, or is not one of the socket's owner.
    Read(Error),
    /// It is not what a launcher writes.
    NotPlaces,
}

/// The number of the user who owns what is at the path.
pub fn owner_of<R: Files>(rt: &R, path: &str) -> io::Result<u32> {
    let data = fs::metadata(rt, path)?;
    Ok(data.uid())
}

/// Refuses what is at the path, unless it is a plain file of this user, or of root. InvalidInput: it is not one. Any other error is that of the
/// system's call.
pub fn check_own_file<R: Files>(rt: &R, path: &str, owner: u32) -> io::Result<()> {
    let data = fs::symlink_metadata(rt, path)?;
    if !data.is_file() {
        Err(Error::new(ErrorKind::InvalidInput, "it is not a plain file"))
    } else if data.uid() != owner && data.uid() != 0 {
        Err(Error::new(
            ErrorKind::InvalidInput,
            "the launcher's user does not own it",
        ))
    } else {
        Ok(())
    }
}

/// What the launcher at the socket wrote. None: the file is missing.
pub fn places_beside<R: Files<File = File> + AllocGlobal>(
    rt: &R,
    alloc: Global,
    socket: &str,
) -> Result<Option<Places>, PlacesFault> {
    let path = match format!(in alloc; "{socket}{BEHIND_SOCKET}") {
        Ok(path) => path,
        Err(_) => return Err(PlacesFault::NoMemory),
    };
    let found = places_at(rt, alloc, socket, path.as_str());
    drop(path);
    found
}

fn places_at<R: Files<File = File>>(
    rt: &R,
    alloc: Global,
    socket: &str,
    path: &str,
) -> Result<Option<Places>, PlacesFault> {
    match checked_line(rt, alloc, socket, path) {
        Ok(bytes) => {
            let found = places_in(alloc, bytes.as_slice());
            drop(bytes);
            match found {
                Ok(Some(places)) => Ok(Some(places)),
                Ok(None) => Err(PlacesFault::NotPlaces),
                Err(AllocError) => Err(PlacesFault::NoMemory),
            }
        }
        Err(error) if error.kind() == ErrorKind::NotFound => Ok(None),
        Err(error) => Err(PlacesFault::Read(error)),
    }
}

fn checked_line<R: Files<File = File>>(
    rt: &R,
    alloc: Global,
    socket: &str,
    path: &str,
) -> io::Result<Vec<u8>> {
    check_own_file(rt, path, owner_of(rt, socket)?)?;
    let mut bytes = Vec::new(alloc);
    read_front(rt, path, LONGEST, &mut bytes)?;
    if bytes.len() <= LONGEST {
        Ok(bytes)
    } else {
        drop(bytes);
        Err(Error::new(ErrorKind::InvalidInput, "it is too long"))
    }
}
