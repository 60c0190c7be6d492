//! A helper process: this program's own file, under a name that nobody else gives it, with one end of a socket as its input.

use std::alloc::{AllocError, Global};
use std::fs::Files;
use std::io::ErrorKind;
use std::net::Net;
use std::os::fd::OwnedFd;
use std::os::unix::net::UnixStream;
use std::os::unix::process::CommandExt;
use std::process::{Child, Command, Processes, Stdio};
use std::time::Duration;
use std::{fs, io};

/// The name under which this program is a helper.
pub const NAME: &str = "jobd-look-out";

/// This program's own file, also if another is at its path by now.
const OWN_FILE: &str = "/proc/self/exe";

/// How many milliseconds a question may take to be taken.
const PATIENCE: u64 = 500;

/// A helper that is asked, by its number among those that there are, and its PID.
#[derive(Drop)]
pub(crate) struct Helper {
    pub(crate) number: u64,
    pub(crate) id: u32,
    pub(crate) socket: UnixStream,
    // For how many milliseconds a read of the socket waits, if that was said.
    pub(crate) waits: u64,
}

/// Whether this program's own file is not there to be started, as without `/proc`.
pub(crate) fn is_missing<R: Files>(rt: &R) -> bool {
    fs::symlink_metadata(rt, OWN_FILE).is_err()
}

/// Whether the error says that a helper has exited.
pub(crate) fn is_end(error: &io::Error) -> bool {
    matches!(
        error.kind(),
        ErrorKind::UnexpectedEof | ErrorKind::BrokenPipe | ErrorKind::ConnectionReset
    )
}

/// Starts a helper. One that nobody waits for has a socket that makes nobody wait.
pub(crate) fn start<R: Net + Processes>(
    rt: &R,
    alloc: Global,
    is_waited_for: bool,
) -> io::Result<(Child<R::Started>, UnixStream)> {
    let (socket, far) = match UnixStream::pair(rt) {
        Ok(pair) => pair,
        Err(error) => return Err(error),
    };
    let answer = match set_up(&socket, is_waited_for) {
        Ok(()) => start_at(rt, alloc, far),
        Err(error) => {
            drop(far);
            Err(error)
        }
    };
    match answer {
        Ok(child) => Ok((child, socket)),
        Err(error) => {
            drop(socket);
            Err(error)
        }
    }
}

fn set_up(socket: &UnixStream, is_waited_for: bool) -> io::Result<()> {
    if is_waited_for {
        socket.set_write_timeout(Some(Duration::from_millis(PATIENCE)))
    } else {
        socket.set_nonblocking(true)
    }
}

// The far end is the helper's input.
fn start_at<R: Processes>(rt: &R, alloc: Global, far: UnixStream) -> io::Result<Child<R::Started>> {
    let input = Stdio::from(OwnedFd::from(far));
    match command_of(alloc, input) {
        Ok(command) => {
            let mut command = command;
            let child = command.spawn(rt);
            drop(command);
            child
        }
        Err(error) => Err(io::Error::from(error)),
    }
}

// It has the launcher's variables, output, errors and folder: a path may be relative or name one of the streams. A
// program's name is looked for in the launcher's search path.
fn command_of(alloc: Global, input: Stdio) -> Result<Command, AllocError> {
    let mut command = Command::new(alloc, OWN_FILE)?;
    command.stdin(input);
    let is_named = command.arg0(NAME).is_ok();
    if is_named {
        Ok(command)
    } else {
        drop(command);
        Err(AllocError)
    }
}

/// What is said of a path that gave no answer.
pub fn no_answer() -> io::Error {
    io::Error::new(ErrorKind::TimedOut, "no answer")
}
