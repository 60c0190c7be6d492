//! Opens, and what a start needs besides its streams: its folder and its program.
//!
//! An open of anything but a plain file, a terminal or a device of the system's memory may wait for ever, as that of a
//! FIFO without a peer does. So each path is checked first, and what was opened is checked again. Some opens still
//! wait: of a file that is put there in between, under a lease of another process, or on a file system of the network.
//! For these the launcher has a timeout.

use crate::answer::Answer;
use crate::looking::{INVALID, refused};
use crate::needed::{follow, put_below};
use crate::own::{has_any, has_number};
use crate::told::Told;
use crate::walking::may_go;
use std::alloc::{AllocError, Global};
use std::fs::{File, Files, Metadata, OpenOptions};
use std::io::{ErrorKind, Write};
use std::os::fd::AsRawFd;
use std::os::unix::fs::{FileTypeExt, MetadataExt};
use std::rt::Env;
use std::{env, fs, io};

/// Opens the path, and holds it: from its beginning, or to be appended to.
pub(crate) fn open<R: Files<File = File>>(
    rt: &R,
    path: &str,
    is_read: bool,
    held: &mut Vec<File>,
) -> Answer {
    match fs::metadata(rt, path) {
        Ok(data) => {
            if let Some(unfit) = unfit(&data) {
                return unfit;
            }
        }
        Err(error) if is_read || error.kind() != ErrorKind::NotFound => return refused(&error),
        Err(_) => {}
    }
    let mut how = OpenOptions::new();
    how.read(is_read);
    how.append(!is_read);
    how.create(!is_read);
    match how.open(rt, path) {
        Ok(file) => hold_if_fit(file, held),
        Err(error) => refused(&error),
    }
}

fn hold_if_fit(file: File, held: &mut Vec<File>) -> Answer {
    let unfit = match file.metadata() {
        Ok(data) => unfit(&data),
        Err(error) => Some(refused(&error)),
    };
    match unfit {
        None => hold(file, held),
        Some(answer) => {
            drop(file);
            answer
        }
    }
}

fn hold(file: File, held: &mut Vec<File>) -> Answer {
    let number = u64::from(file.as_raw_fd().unsigned_abs());
    match held.push(file) {
        Ok(()) => Answer::Held { number },
        Err(_) => Answer::Refused { error: INVALID },
    }
}

// What is said of a file whose open may wait.
fn unfit(data: &Metadata) -> Option<Answer> {
    let kind = data.file_type();
    if data.is_file() || (kind.is_char_device() && opens_at_once(data.rdev())) {
        None
    } else if kind.is_fifo() {
        Some(Answer::Fifo)
    } else if kind.is_socket() {
        Some(Answer::Socket)
    } else if kind.is_dir() {
        Some(Answer::Folder)
    } else {
        Some(Answer::Device)
    }
}

// Of the devices by number (Linux, admin-guide/devices.txt): those of the memory as /dev/null, the virtual terminals, /dev/tty,
// /dev/console, and pseudo-terminals. A serial line waits for its carrier, a tape for its drive.
fn opens_at_once(device: u64) -> bool {
    let major = ((device >> 8) & 0xfff) | ((device >> 32) & 0xffff_f000);
    let minor = (device & 0xff) | ((device >> 12) & 0xffff_ff00);
    match major {
        1 | 136..=143 => true,
        4 | 5 => minor < 64,
        _ => false,
    }
}

/// Holds the folder, if it may be read; an error if it may not be entered.
pub(crate) fn enter<R: Files<File = File>>(
    rt: &R,
    alloc: Global,
    path: &str,
    held: &mut Vec<File>,
) -> Answer {
    let inside = match format!(in alloc; "{path}/.") {
        Ok(inside) => inside,
        Err(error) => return refused(&io::Error::from(error)),
    };
    let data = fs::metadata(rt, inside.as_str());
    let answer = match data {
        Ok(_) => match File::open(rt, inside.as_str()) {
            Ok(file) => hold(file, held),
            Err(_) => Answer::There { stamp: 0 },
        },
        Err(error) => refused(&error),
    };
    drop(inside);
    answer
}

/// Whether the program is there. What the system opens to start it is read if it may be, since what is remembered of a file says nothing of who
/// keeps it.
pub(crate) fn program<R: AllocGlobal + Env + Files<File = File>, S: Write>(
    rt: &R,
    told: &Told,
    socket: &mut S,
    folder: &str,
    path: &str,
) -> Answer {
    match fs::metadata(rt, path) {
        Ok(data) => read_needed(rt, told, socket, folder, path, &data),
        Err(error) => refused(&error),
    }
}

fn read_needed<R: AllocGlobal + Env + Files<File = File>, S: Write>(
    rt: &R,
    told: &Told,
    socket: &mut S,
    folder: &str,
    path: &str,
    data: &Metadata,
) -> Answer {
    if data.is_file() {
        match follow(rt, told, socket, folder, path) {
            Ok(true) => {}
            Ok(false) => return Answer::Shut,
            Err(error) => return refused(&error),
        }
    }
    Answer::There { stamp: 0 }
}

/// Looks for the name in these folders, or in those of this process's own search path, up to the first that has it as a file that may be run. What
/// does not begin with a slash is taken from the folder.
pub(crate) fn search<R: AllocGlobal + Env + Files<File = File>, S: Write>(
    rt: &R,
    told: &Told,
    socket: &mut S,
    folder: &str,
    text: &str,
) -> Answer {
    match text.split_once('/') {
        Some((name, folders)) => search_in(rt, told, socket, folder, name, folders),
        None => match env::var(rt, "PATH") {
            Ok(folders) => {
                let answer = search_in(rt, told, socket, folder, text, folders.as_str());
                drop(folders);
                answer
            }
            Err(_) => search_in(rt, told, socket, folder, text, "/bin:/usr/bin"),
        },
    }
}

fn search_in<R: AllocGlobal + Env + Files<File = File>, S: Write>(
    rt: &R,
    told: &Told,
    socket: &mut S,
    folder: &str,
    name: &str,
    folders: &str,
) -> Answer {
    let mut path = String::new(rt.alloc());
    let mut answer = Answer::Absent;
    for at in folders.split(':') {
        path.clear();
        match put_name(&mut path, folder, at, name) {
            Ok(()) => {}
            Err(error) => {
                answer = refused(&io::Error::from(error));
                break;
            }
        }
        answer = runnable(rt, told, socket, folder, path.as_str());
        if answer != Answer::Absent {
            break;
        }
    }
    drop(path);
    answer
}

fn put_name(path: &mut String, folder: &str, at: &str, name: &str) -> Result<(), AllocError> {
    if at.is_empty() {
        return put_below(path, folder, name);
    }
    put_below(path, folder, at)?;
    path.push_str("/")?;
    path.push_str(name)
}

// `Absent`: the search goes on after it.
fn runnable<R: AllocGlobal + Env + Files<File = File>, S: Write>(
    rt: &R,
    told: &Told,
    socket: &mut S,
    folder: &str,
    path: &str,
) -> Answer {
    match may_go(rt, rt.alloc(), told, socket, path, false) {
        Ok(true) => {}
        Ok(false) => return Answer::Shut,
        Err(error) => return refused(&error),
    }
    match fs::metadata(rt, path) {
        Ok(data) if data.is_file() && may_be_run(rt, rt.alloc(), &data) => {
            read_needed(rt, told, socket, folder, path, &data)
        }
        _ => Answer::Absent,
    }
}

// As the modes say it (path_resolution(7)). Where the system does not say who this process is, it may.
fn may_be_run<R: AllocGlobal + Files>(rt: &R, alloc: Global, data: &Metadata) -> bool {
    let mode = data.mode() & 0o111;
    if mode == 0 || mode == 0o111 {
        return mode != 0;
    }
    match fs::read_to_string(rt, "/proc/self/status") {
        Ok(status) => {
            let bit = bit_of(status.as_str(), data.uid(), data.gid());
            drop(status);
            mode & bit != 0
        }
        Err(_) => true,
    }
}

// The bits of a mode that count for this process: any for root.
fn bit_of(status: &str, owner: u32, group: u32) -> u32 {
    if has_number(status, "Uid:", 1, 0) {
        0o111
    } else if has_number(status, "Uid:", 1, owner) {
        0o100
    } else if has_number(status, "Gid:", 1, group) || has_any(status, "Groups:", group) {
        0o010
    } else {
        0o001
    }
}
