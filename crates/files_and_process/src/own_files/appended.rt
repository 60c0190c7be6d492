//! A file that is written at its end, by its holder alone.

use super::lock::{lock_file, no_plain_file};
use std::fs::{File, Files, OpenOptions};
use std::io::ErrorKind;
use std::os::unix::fs::OpenOptionsExt;
use std::{fs, io};

/// Opens the plain file at the path and locks it; what it holds stays. If nothing is there it is made, for this user
/// alone (mode 0600). Each write goes to its end, wherever that is by then.
///
/// `ResourceBusy`: another process holds it. `AlreadyExists`: what is there is not a plain file, or is a link that
/// leads nowhere; a link to a plain file is followed. Any other error is that of the system's call. It waits at no
/// FIFO.
pub fn open_appended<R: Files<File = File>>(rt: &R, path: &str) -> io::Result<File> {
    let mut options = OpenOptions::new();
    options.read(true).append(true).mode(0o600);
    match fs::metadata(rt, path) {
        Ok(data) if data.is_file() => {}
        Ok(_) => return Err(no_plain_file()),
        Err(error) if error.kind() == ErrorKind::NotFound => {
            options.create_new(true);
        }
        Err(error) => return Err(error),
    }
    let file = options.open(rt, path)?;
    match take(&file) {
        Ok(()) => Ok(file),
        Err(error) => {
            drop(file);
            Err(error)
        }
    }
}

// Locks the file, if it is a plain one.
fn take(file: &File) -> io::Result<()> {
    if !file.metadata()?.is_file() {
        return Err(no_plain_file());
    }
    lock_file(file)
}
