//! The streams of a child: a plain file, a terminal, a device of the system's memory, or the null device.
//!
//! An open of anything else may wait for ever, as that of a FIFO without a peer does, and there is no open that does
//! not. So a helper process opens each path first, after it has checked it, and holds it. The launcher opens what is
//! held (`/proc/HELPER/fd/N`). So nothing that is put at the path since comes between, and no lease of the file can
//! be taken (fcntl(2), F_SETLEASE). The launcher waits for a file system that begins to hang between the two opens. That
//! is a tenth of a millisecond, or the time of the start before if this one was [expected](crate::ChildEdge::expect).
//!
//! That folder may be closed to the launcher. Then an output that the helper has opened is opened by its path to be
//! read and written, which waits at no FIFO. After that it is opened by its number here to be appended to. An input is
//! opened by its path. If the system starts no helper, everything is: then each path is checked first, and what was
//! opened is checked again.

use crate::failure::{Failure, Part};
use crate::held::Held;
use crate::spool::Spooled;
use history_model::definition::Def;
use std::alloc::Global;
use std::fs::{File, FileType, Files, Metadata, OpenOptions};
use std::io::ErrorKind;
use std::os::fd::AsRawFd;
use std::os::unix::fs::{FileTypeExt, MetadataExt};
use std::process::{Command, Stdio};
use std::{fs, io};

/// Gives the command the streams that the definition says.
pub(crate) fn own_streams<R: Files<File = File>>(
    rt: &R,
    alloc: Global,
    def: &Def,
    held: &Held,
    command: &mut Command,
) -> Result<(), Failure> {
    match give(
        rt,
        alloc,
        Part::Input,
        def.standard_in_path(),
        held,
        command,
    ) {
        Ok(()) => {}
        Err(failure) => return Err(failure),
    }
    match give(
        rt,
        alloc,
        Part::Output,
        def.standard_out_path(),
        held,
        command,
    ) {
        Ok(()) => give(
            rt,
            alloc,
            Part::Errors,
            def.standard_error_path(),
            held,
            command,
        ),
        Err(failure) => Err(failure),
    }
}

/// Gives the command the streams of a run that serves a connection: it reads the request and writes the reply. Without a
/// connection, which its client has given up or which was lost, both are the null device.
pub(crate) fn served_streams<R: Files<File = File>>(
    rt: &R,
    alloc: Global,
    def: &Def,
    held: &Held,
    files: Option<&Spooled>,
    command: &mut Command,
) -> Result<(), Failure> {
    match files {
        Some(files) => {
            match give_file(Part::Request, files.read_request(rt), command) {
                Ok(()) => {}
                Err(failure) => return Err(failure),
            }
            match give_file(Part::Reply, files.write_reply(rt), command) {
                Ok(()) => {}
                Err(failure) => return Err(failure),
            }
        }
        None => {
            command.stdin(Stdio::null());
            command.stdout(Stdio::null());
        }
    }
    give(
        rt,
        alloc,
        Part::Errors,
        def.standard_error_path(),
        held,
        command,
    )
}

// The command's part is the file at the path, or the null device.
fn give<R: Files<File = File>>(
    rt: &R,
    alloc: Global,
    part: Part,
    path: Option<&str>,
    held: &Held,
    command: &mut Command,
) -> Result<(), Failure> {
    match path {
        Some(path) => give_file(part, opened_as(rt, alloc, part, path, held), command),
        None => {
            set(part, Stdio::null(), command);
            Ok(())
        }
    }
}

fn give_file(part: Part, file: io::Result<File>, command: &mut Command) -> Result<(), Failure> {
    match file {
        Ok(file) => {
            set(part, Stdio::from(file), command);
            Ok(())
        }
        Err(error) => Err(Failure { part, error }),
    }
}

fn set(part: Part, stream: Stdio, command: &mut Command) {
    match part {
        Part::Input | Part::Request => command.stdin(stream),
        Part::Output | Part::Reply => command.stdout(stream),
        _ => command.stderr(stream),
    };
}

// The file at the path, as the helper holds it, if it does.
fn opened_as<R: Files<File = File>>(
    rt: &R,
    alloc: Global,
    part: Part,
    path: &str,
    held: &Held,
) -> io::Result<File> {
    let place = match held.path_of(alloc, part) {
        Ok(place) => place,
        Err(error) => return Err(io::Error::from(error)),
    };
    match place {
        Some(place) => {
            let file = open_held(rt, part, place.as_str());
            drop(place);
            file
        }
        None if held.has(part) && !matches!(part, Part::Input) => open_both_ways(rt, alloc, path),
        None => opened(rt, part, path),
    }
}

// What is held is there, and was checked.
fn open_held<R: Files<File = File>>(rt: &R, part: Part, place: &str) -> io::Result<File> {
    let is_read = matches!(part, Part::Input);
    let mut how = OpenOptions::new();
    how.read(is_read);
    how.append(!is_read);
    how.open(rt, place)
}

// An open both ways waits at no FIFO. What was opened is checked, and opened again by its number to be appended to
// alone.
fn open_both_ways<R: Files<File = File>>(rt: &R, alloc: Global, path: &str) -> io::Result<File> {
    let mut how = OpenOptions::new();
    how.read(true);
    how.append(true);
    let file = match how.open(rt, path) {
        Ok(file) => file,
        Err(error) if error.kind() == ErrorKind::PermissionDenied => {
            return opened(rt, Part::Output, path);
        }
        Err(error) => return Err(error),
    };
    let answer = match allow(file.metadata()) {
        Ok(()) => open_again(rt, alloc, &file),
        Err(error) => Err(error),
    };
    drop(file);
    answer
}

fn open_again<R: Files<File = File>>(rt: &R, alloc: Global, file: &File) -> io::Result<File> {
    let number = file.as_raw_fd();
    let place = match format!(in alloc; "/proc/self/fd/{number}") {
        Ok(place) => place,
        Err(error) => return Err(io::Error::from(error)),
    };
    let answer = open_held(rt, Part::Output, place.as_str());
    drop(place);
    answer
}

// The file at the path: the input is read from its beginning, and the others are appended to, and made if they are not there.
fn opened<R: Files<File = File>>(rt: &R, part: Part, path: &str) -> io::Result<File> {
    let is_read = matches!(part, Part::Input);
    let mut how = OpenOptions::new();
    how.read(is_read);
    how.append(!is_read);
    how.create(!is_read);
    match allow(fs::metadata(rt, path)) {
        Err(error) if is_read || error.kind() != ErrorKind::NotFound => return Err(error),
        _ => {}
    }
    match how.open(rt, path) {
        Ok(file) => match allow(file.metadata()) {
            Ok(()) => Ok(file),
            Err(error) => {
                drop(file);
                Err(error)
            }
        },
        Err(error) => Err(error),
    }
}

// An error if the file is of a kind whose open may wait.
fn allow(data: io::Result<Metadata>) -> io::Result<()> {
    match data {
        Ok(data) => {
            let kind = data.file_type();
            if data.is_file() || (kind.is_char_device() && opens_at_once(data.rdev())) {
                return Ok(());
            }
            Err(io::Error::new(ErrorKind::InvalidInput, words_of(kind)))
        }
        Err(error) => Err(error),
    }
}

fn words_of(kind: FileType) -> &'static str {
    if kind.is_fifo() {
        "is a FIFO, not a plain file"
    } else if kind.is_socket() {
        "is a socket, not a plain file"
    } else if kind.is_dir() {
        "is a folder, not a plain file"
    } else {
        "is a device whose open may wait, not a plain file"
    }
}

// Of the devices by number (Linux, admin-guide/devices.txt): those of the memory as /dev/null, the virtual terminals, /dev/tty,
// /dev/console, and pseudo-terminals. A serial line waits for its carrier, a tape for its drive.
fn opens_at_once(device: u64) -> bool {
    let major = ((device >> 8) & 0xfff) | ((device >> 32) & 0xffff_f000);
    let minor = (device & 0xff) | ((device >> 12) & 0xffff_ff00);
    match major {
        1 | 136..=143 => true,
        4 | 5 => minor < 64,
        _ => false,
    }
}
