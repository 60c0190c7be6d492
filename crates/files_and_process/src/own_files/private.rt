//! A file that is made for one user alone.

use super::lock::no_plain_file;
use std::fs::{Files, OpenOptions};
use std::io::ErrorKind;
use std::os::unix::fs::OpenOptionsExt;
use std::{fs, io};

/// Makes an empty file at the path, for this user alone (mode 0600), if nothing is there. A plain file that is there is
/// left as it is. `AlreadyExists`: what is there is not a plain file, or is a link that leads nowhere. Any other error
/// is that of the system's call.
pub fn make_private<R: Files>(rt: &R, path: &str) -> io::Result<()> {
    match fs::metadata(rt, path) {
        Ok(data) if data.is_file() => Ok(()),
        Ok(_) => Err(no_plain_file()),
        Err(error) if error.kind() == ErrorKind::NotFound => {
            let mut options = OpenOptions::new();
            options.write(true).create_new(true).mode(0o600);
            let _made = options.open(rt, path)?;
            Ok(())
        }
        Err(error) => Err(error),
    }
}
