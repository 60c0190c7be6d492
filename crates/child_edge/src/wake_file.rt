//! The program of the helper that reports exits, `jobd-wake`: next to the launcher's own, or in `../libexec` of that.
//! It is opened once and held, so that an upgrade changes nothing.

use files_and_process::own_files::check_folder;
use std::alloc::Global;
use std::fs::{File, Files, Metadata};
use std::io::{Error, ErrorKind};
use std::os::fd::AsRawFd;
use std::os::unix::fs::MetadataExt;
use std::{env, fs, io};

/// The name of its file, and its first argument.
pub(crate) const NAME: &str = "jobd-wake";

/// The bits of a file's mode by which its group and all others may write it.
const OTHERS_WRITE: u32 = 0o022;

/// The program, held open, and the path by which it is started.
#[derive(Drop)]
pub(crate) struct WakeFile {
    file: File,
    path: String,
}

impl WakeFile {
    /// The path by which it is started: that of what is held.
    pub(crate) fn path(&self) -> &str {
        self.path.as_str()
    }

    /// Opens it. `NotFound`: it is missing. `InvalidInput`: somebody else than root and this user may change it.
    pub(crate) fn open<R: AllocGlobal + Files<File = File>>(
        rt: &R,
        alloc: Global,
        user: u32,
    ) -> io::Result<WakeFile> {
        let own = match env::current_exe(rt) {
            Ok(own) => own,
            Err(error) => return Err(error),
        };
        let file = open_near(rt, alloc, own.as_str(), user);
        drop(own);
        match file {
            Ok(file) => hold(rt, alloc, file),
            Err(error) => Err(error),
        }
    }
}

// In the program's own folder, and else in the other one.
fn open_near<R: Files<File = File>>(
    rt: &R,
    alloc: Global,
    own: &str,
    user: u32,
) -> io::Result<File> {
    let Some((folder, _)) = own.rsplit_once('/') else {
        return Err(Error::from(ErrorKind::NotFound));
    };
    match open_in(rt, alloc, folder, ".", user) {
        Err(error) if error.kind() == ErrorKind::NotFound => {
            open_in(rt, alloc, folder, "../libexec", user)
        }
        answer => answer,
    }
}

fn open_in<R: Files<File = File>>(
    rt: &R,
    alloc: Global,
    front: &str,
    rest: &str,
    user: u32,
) -> io::Result<File> {
    let folder = match format!(in alloc; "{front}/{rest}") {
        Ok(folder) => folder,
        Err(error) => return Err(Error::from(error)),
    };
    let path = match format!(in alloc; "{front}/{rest}/{NAME}") {
        Ok(path) => path,
        Err(error) => {
            drop(folder);
            return Err(Error::from(error));
        }
    };
    let file = open_checked(rt, folder.as_str(), path.as_str(), user);
    drop((folder, path));
    file
}

// Where only root and this user may write in the folder, nobody else changes what is at the path after it was checked.
fn open_checked<R: Files<File = File>>(
    rt: &R,
    folder: &str,
    path: &str,
    user: u32,
) -> io::Result<File> {
    let data = fs::symlink_metadata(rt, path)?;
    check_folder(rt, folder, Some(user))?;
    check_file(&data, user)?;
    File::open(rt, path)
}

fn check_file(data: &Metadata, user: u32) -> io::Result<()> {
    let owner = data.uid();
    if !data.is_file() {
        Err(refusal("it is not a plain file"))
    } else if data.mode() & OTHERS_WRITE != 0 {
        Err(refusal("others may write it"))
    } else if owner != 0 && owner != user {
        Err(refusal("another user owns it"))
    } else {
        Ok(())
    }
}

fn refusal(why: &'static str) -> Error {
    Error::new(ErrorKind::InvalidInput, why)
}

// A child closes what it has of this process before it starts a program, so the path names this process by its PID.
fn hold<R: AllocGlobal + Files<File = File>>(
    rt: &R,
    alloc: Global,
    file: File,
) -> io::Result<WakeFile> {
    let own = match fs::read_link(rt, "/proc/self") {
        Ok(own) => own,
        Err(error) => {
            drop(file);
            return Err(error);
        }
    };
    let number = file.as_raw_fd();
    let path = format!(in alloc; "/proc/{}/fd/{number}", own.as_str());
    drop(own);
    match path {
        Ok(path) => Ok(WakeFile { file, path }),
        Err(error) => {
            drop(file);
            Err(Error::from(error))
        }
    }
}
