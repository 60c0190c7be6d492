//! TERM, by `kill` of `/bin/sh`. A child is given no other signal but KILL, and the kit has no call for TERM.
//!
//! One shell is kept, since a shell for each TERM costs more than a millisecond of the loop. It reads numbers from a
//! socket, one a line, and answers each with the status of its `kill`. It ends once its socket does, so also if the
//! launcher is killed. What it is asked has its answer before anything else is done. So no number waits in it whose
//! process may have exited.

use std::alloc::{AllocError, Global};
use std::io::{Read, Write};
use std::net::Net;
use std::os::fd::OwnedFd;
use std::os::unix::net::UnixStream;
use std::process::{Child, Command, OpenProcess, Processes, Stdio};
use std::time::Duration;
use std::{io, mem};

const SCRIPT: &str = "while read p; do kill -s TERM \"$p\"; echo $?; done";

/// How many milliseconds a shell that is kept may take for its answer. One that was stopped is given up then.
const PATIENCE: u64 = 500;

#[derive(Drop)]
struct Shell<P: OpenProcess + Drop> {
    child: Child<P>,
    socket: UnixStream,
}

/// The shell that is kept: none before the first TERM.
#[derive(Drop)]
pub(crate) struct KeptShell<P: OpenProcess + Drop> {
    alloc: Global,
    shell: Option<Shell<P>>,
    // It was given up and ended, and not yet waited for. There is no other meanwhile.
    given_up: Option<Child<P>>,
}

impl<P: OpenProcess + Drop> KeptShell<P> {
    pub(crate) fn new(alloc: Global) -> KeptShell<P> {
        KeptShell {
            alloc,
            shell: None,
            given_up: None,
        }
    }

    /// Gives TERM to the process, which nobody has waited for. If no shell can be kept, or if it does not answer, a shell of its
    /// own gives it; an `Err` is then the reason of that.
    pub(crate) fn term<R: Net + Processes<Started = P>>(
        &mut self,
        rt: &R,
        pid: u32,
    ) -> io::Result<()> {
        let is_done = match self.ask(rt, pid) {
            Some(is_done) => is_done,
            None => {
                self.end();
                match run_shell(rt, self.alloc, pid) {
                    Ok(is_done) => {
                        self.is_gone();
                        is_done
                    }
                    Err(error) => return Err(error),
                }
            }
        };
        if is_done {
            Ok(())
        } else {
            Err(io::Error::other("kill of /bin/sh was refused"))
        }
    }

    // Whether `kill` of the shell that is kept exited with 0. None: no shell can be kept, or it gives no answer.
    fn ask<R: Net + Processes<Started = P>>(&mut self, rt: &R, pid: u32) -> Option<bool> {
        if !self.is_running() && !self.begin(rt) {
            return None;
        }
        let Some(shell) = &mut self.shell else {
            return None;
        };
        let Ok(line) = format!(in self.alloc; "{pid}\n") else {
            return None;
        };
        let answer = answer_to(&mut shell.socket, line.as_str());
        drop(line);
        answer
    }

    // Starts a shell, once the one before it has exited. False: there is none.
    fn begin<R: Net + Processes<Started = P>>(&mut self, rt: &R) -> bool {
        self.end();
        if !self.is_gone() {
            return false;
        }
        let shell = start(rt, self.alloc);
        drop(mem::replace(&mut self.shell, shell));
        true
    }

    fn is_running(&mut self) -> bool {
        match &mut self.shell {
            Some(shell) => matches!(shell.child.try_wait(), Ok(None)),
            None => false,
        }
    }

    /// Ends the shell that is kept, if there is one: also one that was stopped.
    pub(crate) fn end(&mut self) {
        if let Some(shell) = self.shell.take() {
            let Shell { mut child, socket } = shell;
            let _ = child.kill();
            drop(socket);
            drop(mem::replace(&mut self.given_up, Some(child)));
        }
    }

    // Whether no shell is left that was given up. It does not wait for that.
    fn is_gone(&mut self) -> bool {
        let is_gone = match &mut self.given_up {
            Some(child) => !matches!(child.try_wait(), Ok(None)),
            None => true,
        };
        if is_gone {
            drop(self.given_up.take());
        }
        is_gone
    }
}

// What the shell writes of a number is a line, and comes whole. Its end, and anything else, is not an answer.
fn answer_to(socket: &mut UnixStream, line: &str) -> Option<bool> {
    if socket.write_all(line.as_bytes()).is_err() {
        return None;
    }
    let mut text = [0u8; 8];
    let Ok(count) = socket.read(&mut text) else {
        return None;
    };
    let answer = &text[..count];
    answer
        .ends_with(b"\n")
        .then_some(answer == b"0\n".as_slice())
}

// A shell with nothing of the launcher but its own end of a socket. No other child gets the launcher's end.
fn start<R: Net + Processes>(rt: &R, alloc: Global) -> Option<Shell<R::Started>> {
    let Ok((socket, far)) = UnixStream::pair(rt) else {
        return None;
    };
    let patience = Duration::from_millis(PATIENCE);
    let is_patient = socket.set_read_timeout(Some(patience)).is_ok();
    match start_at(rt, alloc, far, is_patient) {
        Some(child) => Some(Shell { child, socket }),
        None => {
            drop(socket);
            None
        }
    }
}

// Its far end is the shell's input and output. None is started where the near end would wait for ever.
fn start_at<R: Processes>(
    rt: &R,
    alloc: Global,
    far: UnixStream,
    is_patient: bool,
) -> Option<Child<R::Started>> {
    let input = match far.try_clone() {
        Ok(input) if is_patient => Stdio::from(OwnedFd::from(input)),
        other => {
            drop(other);
            drop(far);
            return None;
        }
    };
    let output = Stdio::from(OwnedFd::from(far));
    match shell_of(alloc, SCRIPT, input, output) {
        Ok(command) => {
            let mut command = command;
            let child = command.spawn(rt);
            drop(command);
            child.ok()
        }
        Err(_) => None,
    }
}

// Whether `kill` of a shell for this TERM alone exited with 0.
fn run_shell<R: Processes>(rt: &R, alloc: Global, pid: u32) -> io::Result<bool> {
    let text = match format!(in alloc; "kill -s TERM {pid}") {
        Ok(text) => text,
        Err(error) => return Err(io::Error::from(error)),
    };
    let shell = shell_of(alloc, text.as_str(), Stdio::null(), Stdio::null());
    drop(text);
    match shell {
        Ok(command) => {
            let mut command = command;
            let status = command.status(rt);
            drop(command);
            match status {
                Ok(status) => Ok(status.success()),
                Err(error) => Err(error),
            }
        }
        Err(error) => Err(io::Error::from(error)),
    }
}

// It gets nothing of the launcher's environment, where a function could stand for `kill`.
fn shell_of(
    alloc: Global,
    script: &str,
    input: Stdio,
    output: Stdio,
) -> Result<Command, AllocError> {
    let mut command = Command::new(alloc, "/bin/sh")?;
    command.env_clear();
    command.stdin(input);
    command.stdout(output);
    command.stderr(Stdio::null());
    let has_flag = command.arg("-c").is_ok();
    let has_script = command.arg(script).is_ok();
    if has_flag && has_script {
        Ok(command)
    } else {
        drop(command);
        Err(AllocError)
    }
}
