//! A file that is put in place whole, for this user alone, or for a group to read too.

use child_edge::System;
use std::fs::{File, OpenOptions, Permissions};
use std::io::Write;
use std::os::unix::fs::{OpenOptionsExt, PermissionsExt, lchown};
use std::{fs, io};

/// Writes the text next to the path, and puts it there, in the place of what is there. The group, if one is named by
/// its number, may read it.
pub(crate) fn put_whole<R: System>(
    rt: &R,
    path: &str,
    beside: &str,
    text: &[u8],
    group: Option<u32>,
) -> io::Result<()> {
    let mut file = new_file(rt, beside)?;
    let written = match file.write_all(text) {
        Ok(()) => shared(rt, &file, beside, group),
        Err(error) => Err(error),
    };
    drop(file);
    let put = match written {
        Ok(()) => fs::rename(rt, beside, path),
        Err(error) => Err(error),
    };
    if put.is_err() {
        let _gone = fs::remove_file(rt, beside);
    }
    put
}

/// A new file, for this user alone. What is at the path is removed.
pub(crate) fn new_file<R: System>(rt: &R, beside: &str) -> io::Result<File> {
    // A launcher that was killed may have left it.
    let _gone = fs::remove_file(rt, beside);
    let mut options = OpenOptions::new();
    options.write(true).create_new(true).mode(0o600);
    options.open(rt, beside)
}

/// Lets the group read the file. The group first: the mode is never that of another group.
pub(crate) fn shared<R: System>(
    rt: &R,
    file: &File,
    beside: &str,
    group: Option<u32>,
) -> io::Result<()> {
    match group {
        Some(group) => {
            lchown(rt, beside, None, Some(group))?;
            file.set_permissions(Permissions::from_mode(0o640))
        }
        None => Ok(()),
    }
}
