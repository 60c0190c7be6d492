//! Whether a folder is safe for files that nobody else may put there.

use std::fs::{Files, Metadata};
use std::io::{Error, ErrorKind};
use std::os::unix::fs::MetadataExt;
use std::{fs, io};

/// The bits of a folder's mode by which its group and all others may write in it.
const OTHERS_WRITE: u32 = 0o022;

/// Refuses a folder in which others may write, as its mode says, or which another user owns: it has to be this user's, if its
/// number is known, or root's. `InvalidInput`: it is refused. Any other error is that of the system's call.
pub fn check_folder<R: Files>(rt: &R, folder: &str, user: Option<u32>) -> io::Result<()> {
    let data = fs::metadata(rt, folder)?;
    check_data(&data, user)
}

/// The same of a folder of which the system says this.
pub(crate) fn check_data(data: &Metadata, user: Option<u32>) -> io::Result<()> {
    let owner = data.uid();
    let is_own = owner == 0 || user.is_none_or(|user| user == owner);
    if !data.is_dir() {
        Err(refusal("it is not a folder"))
    } else if data.mode() & OTHERS_WRITE != 0 {
        Err(refusal("others may write in it; chmod 700 mends it"))
    } else if !is_own {
        Err(refusal("another user owns it"))
    } else {
        Ok(())
    }
}

fn refusal(why: &'static str) -> Error {
    Error::new(ErrorKind::InvalidInput, why)
}
