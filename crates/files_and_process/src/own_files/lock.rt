//! A file that is there for its lock alone.

use std::fs::{File, Files, OpenOptions, TryLockError};
use std::io::{Error, ErrorKind};
use std::os::unix::fs::{MetadataExt, OpenOptionsExt};
use std::{fs, io};

/// How often a lock is tried whose file somebody else has just made or removed.
const TRIES: u32 = 3;

/// A lock that is held.
#[derive(Drop)]
pub struct LockFile {
    file: File,
    path: String,
}

impl LockFile {
    /// Takes the lock on the file at the path, which is made for this user alone (mode 0600) if none is there.
    /// `ResourceBusy`: another process holds it. `AlreadyExists`: what is there is not a plain file. Any other error is
    /// that of the system's call.
    pub fn take<R: Files<File = File>>(rt: &R, path: String) -> io::Result<LockFile> {
        for _ in 0..TRIES {
            if let Some(file) = open(rt, path.as_str())? {
                lock_file(&file)?;
                if is_at(rt, path.as_str(), &file)? {
                    return Ok(LockFile { file, path });
                }
            }
        }
        Err(busy())
    }

    /// Whether the lock's file is still at its path. False: another is there, or none. An error is that of the system's
    /// call: then it may be there.
    pub fn is_at_its_path<R: Files<File = File>>(&self, rt: &R) -> io::Result<bool> {
        is_at(rt, self.path.as_str(), &self.file)
    }

    /// Removes the lock's file, while the lock is held. A file that somebody else put there is left.
    pub fn remove<R: Files<File = File>>(&self, rt: &R) {
        if let Ok(true) = self.is_at_its_path(rt) {
            let _left = fs::remove_file(rt, self.path.as_str());
        }
    }
}

/// Locks the file, without waiting. `ResourceBusy`: another process holds a lock on it.
pub(crate) fn lock_file(file: &File) -> io::Result<()> {
    match file.try_lock() {
        Ok(()) => Ok(()),
        Err(TryLockError::WouldBlock) => Err(busy()),
        Err(TryLockError::Error(error)) => Err(error),
    }
}

fn busy() -> Error {
    Error::new(ErrorKind::ResourceBusy, "another launcher holds it")
}

/// The error at what is not a plain file.
pub(crate) fn no_plain_file() -> Error {
    Error::new(ErrorKind::AlreadyExists, "it is not a plain file")
}

// Opens the file, or makes it. None: it came or went in between. A link is not followed, and an open for both ways waits at
// no FIFO.
fn open<R: Files<File = File>>(rt: &R, path: &str) -> io::Result<Option<File>> {
    let mut options = OpenOptions::new();
    options.read(true).write(true).mode(0o600);
    let passing = match fs::symlink_metadata(rt, path) {
        Ok(data) if data.is_file() => ErrorKind::NotFound,
        Ok(_) => return Err(no_plain_file()),
        Err(error) if error.kind() == ErrorKind::NotFound => {
            options.create_new(true);
            ErrorKind::AlreadyExists
        }
        Err(error) => return Err(error),
    };
    match options.open(rt, path) {
        Ok(file) => Ok(Some(file)),
        Err(error) if error.kind() == passing => Ok(None),
        Err(error) => Err(error),
    }
}

// Whether the file is the one at the path.
fn is_at<R: Files<File = File>>(rt: &R, path: &str, file: &File) -> io::Result<bool> {
    let own = file.metadata()?;
    match fs::symlink_metadata(rt, path) {
        Ok(there) => Ok(own.dev() == there.dev() && own.ino() == there.ino()),
        Err(error) if error.kind() == ErrorKind::NotFound => Ok(false),
        Err(error) => Err(error),
    }
}
