//! A folder that is held open: what is done at a name in it is done in this folder, wherever its path leads by then.

use crate::own_files::check_data;
use std::alloc::{AllocError, Global};
use std::fs::{File, Files, Metadata};
use std::os::fd::AsRawFd;
use std::os::unix::fs::MetadataExt;
use std::{fs, io};

#[derive(Drop)]
pub(super) struct HeldFolder {
    alloc: Global,
    folder: File,
    // What leads to it, with a slash at its end.
    front: String,
    // That is the folder that is open, and not a path.
    is_held: bool,
    // The number of this user, if it is known.
    user: Option<u32>,
}

/// The folder that the path is in, and its name in that. That of a path below the root is empty.
pub(super) fn parts_of(path: &str) -> (&str, &str) {
    match path.rsplit_once('/') {
        Some(parts) => parts,
        None => (".", path),
    }
}

impl HeldFolder {
    /// Opens the folder; an empty path is the root. Any error is that of the system's call. It waits at no FIFO. Where there is
    /// no `/proc/self/fd`, all is done by the folder's path.
    pub(super) fn open<R: Files<File = File>>(
        rt: &R,
        alloc: Global,
        path: &str,
        user: Option<u32>,
    ) -> io::Result<HeldFolder> {
        let inside = format!(in alloc; "{path}/.")?;
        let folder = File::open(rt, inside.as_str())?;
        let held = format!(in alloc; "/proc/self/fd/{}/", folder.as_raw_fd())?;
        let is_held = fs::metadata(rt, held.as_str()).is_ok();
        let front = if is_held {
            held
        } else {
            format!(in alloc; "{path}/")?
        };
        Ok(HeldFolder {
            alloc,
            folder,
            front,
            is_held,
            user,
        })
    }

    /// The path of a name in the folder, and of what ends it.
    pub(super) fn at(&self, name: &str, end: &str) -> Result<String, AllocError> {
        format!(in self.alloc; "{}{name}{end}", self.front.as_str())
    }

    pub(super) fn alloc(&self) -> Global {
        self.alloc
    }

    pub(super) fn user(&self) -> Option<u32> {
        self.user
    }

    pub(super) fn file(&self) -> &File {
        &self.folder
    }

    /// Whether nobody else may write in it: this user or root owns it, and its mode lets no other in.
    pub(super) fn is_private(&self) -> bool {
        match self.folder.metadata() {
            Ok(data) => check_data(&data, self.user).is_ok(),
            Err(_) => false,
        }
    }

    /// Whether the system has said which folder is open, and who this user is.
    pub(super) fn is_known(&self) -> bool {
        self.is_held && self.user.is_some()
    }

    /// Whether the folder is the one that this describes, and is this user's and for nobody else.
    pub(super) fn is_ours(&self, there: &Metadata) -> io::Result<bool> {
        let own = self.folder.metadata()?;
        let is_same = own.dev() == there.dev() && own.ino() == there.ino();
        let is_own = self.user == Some(own.uid()) && own.mode() & 0o077 == 0;
        Ok(is_same && is_own)
    }
}
