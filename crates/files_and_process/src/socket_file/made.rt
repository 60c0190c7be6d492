//! A new folder next to a socket's place, in which nobody else may write.

use super::held::HeldFolder;
use crate::own_files::lock_file;
use std::fs::{DirBuilder, File, Files};
use std::io::{Error, ErrorKind};
use std::os::unix::fs::{DirBuilderExt, FileTypeExt};
use std::{fs, io};

/// What the folder's name has after the socket's.
const END: &str = ".binding";

/// The socket's name in the folder.
const SOCKET: &str = "socket";

/// The folder, held open and locked.
#[derive(Drop)]
pub(super) struct MadeFolder {
    folder: HeldFolder,
    path: String,
    socket: String,
}

impl MadeFolder {
    /// Makes the folder next to the name, for this user alone (mode 0700), or takes over one that a killed launcher
    /// left. `AddrInUse`: another launcher holds it, or has just removed it. `PermissionDenied`: what is there is
    /// another user's, or is not such a folder. Any other error is that of the system's call.
    pub(super) fn make<R: Files<File = File>>(
        rt: &R,
        within: &HeldFolder,
        name: &str,
    ) -> io::Result<MadeFolder> {
        if !within.is_known() {
            let why = "others may write in its folder, and without /proc it can't be held";
            return Err(Error::new(ErrorKind::PermissionDenied, why));
        }
        let path = within.at(name, END)?;
        let mut builder = DirBuilder::new();
        builder.mode(0o700);
        match builder.create(rt, path.as_str()) {
            Err(error) if error.kind() != ErrorKind::AlreadyExists => return Err(error),
            _ => {}
        }
        let folder = HeldFolder::open(rt, within.alloc(), path.as_str(), within.user())?;
        take(rt, &folder, path.as_str())?;
        let socket = folder.at(SOCKET, "")?;
        remove_socket(rt, socket.as_str());
        Ok(MadeFolder {
            folder,
            path,
            socket,
        })
    }

    /// The path of the socket in it.
    pub(super) fn socket(&self) -> &str {
        self.socket.as_str()
    }

    /// Removes the folder with its socket, while it is held.
    pub(super) fn remove<R: Files>(&self, rt: &R) {
        remove_socket(rt, self.socket.as_str());
        let _left = fs::remove_dir(rt, self.path.as_str());
    }
}

// Locks the folder, if it is the one at the path, and this user's alone.
fn take<R: Files>(rt: &R, folder: &HeldFolder, path: &str) -> io::Result<()> {
    match lock_file(folder.file()) {
        Err(error) if error.kind() == ErrorKind::ResourceBusy => {
            return Err(Error::from(ErrorKind::AddrInUse));
        }
        answer => answer?,
    }
    match fs::symlink_metadata(rt, path) {
        Ok(there) if folder.is_ours(&there)? => Ok(()),
        Ok(_) => Err(Error::new(
            ErrorKind::PermissionDenied,
            "its path is taken, and `.binding` is not a folder of this user alone",
        )),
        Err(error) if error.kind() == ErrorKind::NotFound => {
            Err(Error::from(ErrorKind::AddrInUse))
        }
        Err(error) => Err(error),
    }
}

// Removes a socket of ours, or of a launcher that was killed, and no other file.
fn remove_socket<R: Files>(rt: &R, path: &str) {
    if let Ok(data) = fs::symlink_metadata(rt, path) {
        if data.file_type().is_socket() {
            let _left = fs::remove_file(rt, path);
        }
    }
}
