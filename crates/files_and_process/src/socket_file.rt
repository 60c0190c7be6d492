//! A socket's file: bound, distinguished from others, and removed.

mod held;
mod made;

use crate::own_process::own_user;
use held::{HeldFolder, parts_of};
use made::MadeFolder;
use mio::net::{UnixListener, UnixStream};
use std::alloc::Global;
use std::fs::{File, Files, Permissions};
use std::io::{Error, ErrorKind};
use std::net::Net;
use std::os::unix::fs::{FileTypeExt, MetadataExt, PermissionsExt};
use std::os::unix::net::SocketAddr;
use std::{fs, io};

/// How many clients are turned away at most after a bind in place: the system lets no more wait at a socket.
const WAITING: u32 = 4_096;

/// Which file a socket is: the number of its device, and that of the file on it. While the socket's listener is open,
/// no other file has the same.
#[derive(Clone, Copy)]
pub struct SocketMark {
    device: u64,
    inode: u64,
    // For the texts of paths.
    alloc: Global,
}

/// Binds a listener at the path, for this user alone (mode 0600), and says which file it is. A socket file on which
/// nobody listens any more is replaced. `AddrInUse`: somebody listens at the path, or a file of another kind is there;
/// it is left as it is. Any other error is that of the system's call, or says why the folder is not safe; then no file
/// of ours is left.
///
/// The folder is held open. Checks, modes and removals are made in it, wherever its path leads by then. The socket is
/// bound in place if the folder is this user's or root's, and nobody else may write in it. Then the system makes the
/// file by the process's own mask, and its mode is set in a second step. Clients that came in between are closed.
///
/// In any other folder the socket is bound in a new one next to its place, for this user alone, and gets its mode
/// there. It comes to its place by a hard link, which fails if something is there. So nobody can put another file in
/// its place before it has its mode. Where no such folder or link can be made, the bind is refused.
pub fn bind<R: Files<File = File> + Net>(
    rt: &R,
    alloc: Global,
    path: &str,
) -> io::Result<(UnixListener, SocketMark)> {
    // A client could not connect to a longer one.
    let _fits = SocketAddr::from_pathname(path)?;
    let (folder, name) = parts_of(path);
    let within = HeldFolder::open(rt, alloc, folder, own_user(rt, alloc))?;
    let answer = match bind_new(rt, &within, path, name) {
        Err(error) if error.kind() == ErrorKind::AddrInUse => {
            bind_instead(rt, &within, path, name)
        }
        answer => answer,
    };
    drop(within);
    answer
}

/// Removes the socket's file if it is the one of the mark. Any other file at the path is left, and so is this one if
/// its folder can't be opened. Call it while the listener is open: after that the system may give the numbers of a mark
/// to another file.
pub fn remove<R: Files<File = File>>(rt: &R, path: &str, mark: SocketMark) {
    let (folder, name) = parts_of(path);
    if let Ok(within) = HeldFolder::open(rt, mark.alloc, folder, None) {
        if let Ok(path) = within.at(name, "") {
            remove_at(rt, path.as_str(), mark);
        }
        drop(within);
    }
}

/// Whether the file at the path is the one of the mark, as long as its listener is open. False: another is there, or
/// none. An error is that of the system's call: then the file may be there.
pub fn is_at<R: Files>(rt: &R, path: &str, mark: SocketMark) -> io::Result<bool> {
    match mark_at(rt, mark.alloc, path) {
        Ok(Some(found)) => Ok(found.device == mark.device && found.inode == mark.inode),
        Ok(None) => Ok(false),
        Err(error) if error.kind() == ErrorKind::NotFound => Ok(false),
        Err(error) => Err(error),
    }
}

// The path is one in a folder that is held.
fn remove_at<R: Files>(rt: &R, path: &str, mark: SocketMark) {
    if let Ok(true) = is_at(rt, path, mark) {
        let _left = fs::remove_file(rt, path);
    }
}

// Removes a socket on which nobody listens, and binds.
fn bind_instead<R: Files<File = File> + Net>(
    rt: &R,
    within: &HeldFolder,
    path: &str,
    name: &str,
) -> io::Result<(UnixListener, SocketMark)> {
    let place = within.at(name, "")?;
    let door = if within.is_private() {
        path
    } else {
        place.as_str()
    };
    give_way(rt, within.alloc(), place.as_str(), door)?;
    bind_new(rt, within, path, name)
}

fn bind_new<R: Files<File = File> + Net>(
    rt: &R,
    within: &HeldFolder,
    path: &str,
    name: &str,
) -> io::Result<(UnixListener, SocketMark)> {
    if within.is_private() {
        let place = within.at(name, "")?;
        bind_in_place(rt, within.alloc(), path, place.as_str())
    } else {
        bind_beside(rt, within, name)
    }
}

fn bind_beside<R: Files<File = File> + Net>(
    rt: &R,
    within: &HeldFolder,
    name: &str,
) -> io::Result<(UnixListener, SocketMark)> {
    let made = MadeFolder::make(rt, within, name)?;
    let answer = bind_in(rt, &made, within, name);
    made.remove(rt);
    drop(made);
    answer
}

// Binds in the new folder, and puts the socket in its place.
fn bind_in<R: Files<File = File> + Net>(
    rt: &R,
    made: &MadeFolder,
    within: &HeldFolder,
    name: &str,
) -> io::Result<(UnixListener, SocketMark)> {
    let place = within.at(name, "")?;
    let inner = made.socket();
    let listener = UnixListener::bind(rt, inner)?;
    match put(rt, within.alloc(), inner, place.as_str()) {
        Ok(mark) => Ok((listener, mark)),
        Err(error) => {
            drop(listener);
            Err(error)
        }
    }
}

// Closes the file to others, and links it to its place.
fn put<R: Files>(rt: &R, alloc: Global, inner: &str, place: &str) -> io::Result<SocketMark> {
    fs::set_permissions(rt, inner, Permissions::from_mode(0o600))?;
    let Some(mark) = mark_at(rt, alloc, inner)? else {
        return Err(Error::from(ErrorKind::AddrInUse));
    };
    match fs::hard_link(rt, inner, place) {
        Ok(()) => Ok(mark),
        Err(error) if error.kind() == ErrorKind::AlreadyExists => {
            Err(Error::from(ErrorKind::AddrInUse))
        }
        Err(error) => Err(error),
    }
}

// By its path, as tables of the system then show it; all else is done at its place in the folder that is held.
fn bind_in_place<R: Files + Net>(
    rt: &R,
    alloc: Global,
    path: &str,
    place: &str,
) -> io::Result<(UnixListener, SocketMark)> {
    let listener = UnixListener::bind(rt, path)?;
    match mark_at(rt, alloc, place) {
        Ok(Some(mark)) => match make_private(rt, place, &listener) {
            Ok(()) => Ok((listener, mark)),
            Err(error) => {
                remove_at(rt, place, mark);
                drop(listener);
                Err(error)
            }
        },
        Ok(None) => {
            drop(listener);
            Err(Error::from(ErrorKind::AddrInUse))
        }
        Err(error) => {
            let _left = fs::remove_file(rt, place);
            drop(listener);
            Err(error)
        }
    }
}

// Closes the file to others, and turns away who came before that.
fn make_private<R: Files>(rt: &R, path: &str, listener: &UnixListener) -> io::Result<()> {
    fs::set_permissions(rt, path, Permissions::from_mode(0o600))?;
    for _ in 0..WAITING {
        match listener.accept() {
            Ok(client) => drop(client),
            Err(error) if error.kind() == ErrorKind::Interrupted => {}
            Err(error) if error.kind() == ErrorKind::WouldBlock => return Ok(()),
            Err(error) => return Err(error),
        }
    }
    Ok(())
}

// Removes the socket at the place, if nobody listens at the door, a path that leads there. `AddrInUse`: the file is
// another, or is in use.
fn give_way<R: Files + Net>(rt: &R, alloc: Global, place: &str, door: &str) -> io::Result<()> {
    let mark = match mark_at(rt, alloc, place) {
        Ok(Some(mark)) => mark,
        Ok(None) => return Err(Error::from(ErrorKind::AddrInUse)),
        Err(error) if error.kind() == ErrorKind::NotFound => return Ok(()),
        Err(error) => return Err(error),
    };
    match UnixStream::connect(rt, door) {
        Err(error) if error.kind() == ErrorKind::ConnectionRefused => {
            remove_at(rt, place, mark);
            Ok(())
        }
        answer => {
            drop(answer);
            Err(Error::from(ErrorKind::AddrInUse))
        }
    }
}

// The mark of the file at the path, if it is a socket's. A link is not followed.
fn mark_at<R: Files>(rt: &R, alloc: Global, path: &str) -> io::Result<Option<SocketMark>> {
    let data = fs::symlink_metadata(rt, path)?;
    let mark = SocketMark {
        device: data.dev(),
        inode: data.ino(),
        alloc,
    };
    Ok(data.file_type().is_socket().then_some(mark))
}
