//! Which files root reads whose paths others wrote: a path must not lead root to what its writer may not read.

ghost use Rattle.std.specs.Prelude.{◌≡◌};
ghost use Rattle.scope.specs.ReadAsRoot.{may_be_read};

use crate::journal::source::open_journal;
use std::alloc::Global;
use std::fs::{File, OpenOptions, metadata, read_link, symlink_metadata};
use std::io;
use std::io::{Error, ErrorKind};
use std::os::fd::AsRawFd;
use std::os::unix::fs::MetadataExt;

/// The bits of a folder's mode by which its group and all others may write in it, and by which they may move there only what is their own.
const OTHERS_WRITE: u32 = 0o022;

const STICKY: u32 = 0o1000;

/// For whom a file is read.
#[derive(Clone, Copy)]
pub(crate) enum ReadFor {
    /// For a user who is not root, and who sees what that user may read.
    User,
    /// For root. The path was written by this user, whom the file or the journal belongs to that has it; None if that is not known.
    Root(Option<u32>),
}

/// For whom is read what the file at the path names. None: it came on standard input.
pub(crate) fn read_for(host: &HostRuntime, path: Option<&str>) -> ReadFor {
    if !is_root(host) {
        return ReadFor::User;
    }
    ReadFor::Root(match path {
        Some(path) => writer_of(host, path),
        None => None,
    })
}

fn is_root(host: &HostRuntime) -> bool {
    match metadata(host, "/proc/self") {
        Ok(data) => data.uid() == 0,
        Err(_) => true,
    }
}

// The user whose file it is. A file of root's counts as root's only if nobody else could put another one there. None of the
// folders above it is another user's, and in none may others replace what is not theirs.
fn writer_of(host: &HostRuntime, path: &str) -> Option<u32> {
    let data = symlink_metadata(host, path).ok()?;
    if !data.is_file() {
        return None;
    }
    if data.uid() != 0 {
        return Some(data.uid());
    }
    if path.starts_with('/') {
        return if are_roots(host, path) { Some(0) } else { None };
    }
    let folder = read_link(host, "/proc/self/cwd").ok()?;
    let here = folder.as_str();
    let is_roots = is_roots(host, here) && are_roots(host, here) && are_roots(host, path);
    drop(folder);
    if is_roots { Some(0) } else { None }
}

// Whether each folder above is root's.
fn are_roots(host: &HostRuntime, path: &str) -> bool {
    for (at, byte) in path.as_bytes().iter().enumerate() {
        if *byte == b'/' {
            let folder = path.get(..at.max(1)).unwrap_or("/");
            if !is_roots(host, folder) {
                return false;
            }
        }
    }
    true
}

fn is_roots(host: &HostRuntime, folder: &str) -> bool {
    match metadata(host, folder) {
        Ok(data) => {
            let may_be_replaced = data.mode() & OTHERS_WRITE != 0 && data.mode() & STICKY == 0;
            data.is_dir() && data.uid() == 0 && !may_be_replaced
        }
        Err(_) => false,
    }
}

/// What is known of a file that root opened.
#[derive(Clone, Copy)]
pub(crate) struct OpenedFile {
    pub(crate) is_plain: bool,
    pub(crate) owner: u32,
    /// How many names it has.
    pub(crate) names: u64,
    /// Whether no link led to it.
    pub(crate) is_direct: bool,
}

// Whether root reads the opened file, whose path this user wrote. Of another user than root only that user's own files are read. Of root's those are
// read to which no link leads, since others may have put it there.
fn may_be_read(writer: Option<u32>, file: OpenedFile) -> bool
    ensures { result ≡ may_be_read writer file }
{
    match writer {
        None => false,
        Some(0) => file.is_plain && file.names == 1 && file.is_direct,
        Some(user) => file.is_plain && file.owner == user,
    }
}

/// Opens a plain file to be read. InvalidInput: it is none, or root does not read it.
pub(crate) fn open_for(
    host: &HostRuntime,
    alloc: Global,
    path: &str,
    whom: ReadFor,
) -> io::Result<File> {
    match whom {
        ReadFor::User => open_journal(host, path),
        ReadFor::Root(writer) => open_as_root(host, alloc, path, writer),
    }
}

// It is opened to be written too, though nothing is written: so a FIFO that was put there meanwhile does not wait for a writer.
fn open_as_root(
    host: &HostRuntime,
    alloc: Global,
    path: &str,
    writer: Option<u32>,
) -> io::Result<File> {
    if !symlink_metadata(host, path)?.is_file() {
        return Err(Error::new(ErrorKind::InvalidInput, "no plain file"));
    }
    let file = OpenOptions::new().read(true).append(true).open(host, path)?;
    let data = file.metadata()?;
    let opened = OpenedFile {
        is_plain: data.is_file(),
        owner: data.uid(),
        names: data.nlink(),
        is_direct: is_at(host, alloc, &file, path)?,
    };
    if may_be_read(writer, opened) {
        Ok(file)
    } else {
        drop(file);
        Err(Error::new(
            ErrorKind::InvalidInput,
            "root does not read what another user may have put there",
        ))
    }
}

// Whether the opened file is the one at this path, to which no link leads.
fn is_at(host: &HostRuntime, alloc: Global, file: &File, path: &str) -> io::Result<bool> {
    let number = file.as_raw_fd();
    let held = format!(in alloc; "/proc/self/fd/{number}")?;
    let found = read_link(host, held.as_str());
    drop(held);
    let found = found?;
    let is_same = found.as_str() == path;
    drop(found);
    Ok(is_same)
}
