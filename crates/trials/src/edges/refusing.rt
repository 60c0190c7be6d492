//! A system that refuses, by a runtime of the tests' own: what is asked of it fails with one kind of error. The exceptions are the clock since its
//! start, and what it grants.

use std::alloc::{Allocator, Global};
use std::cell::RefCell;
use std::fmt::Display;
use std::fs::{File, Files, Metadata, OpenOptions};
use std::io;
use std::io::{ErrorKind, PipeReader, PipeWriter};
use std::net::{Net, SocketAddr, TcpListener, TcpStream};
use std::os::unix::process::ExitStatusExt;
use std::process::{Child, Command, ExitStatus, OpenProcess, Processes, Stdio};
use std::rc::Rc;
use std::rt::Clock;
use std::time::Duration;

/// What the system grants all the same.
#[derive(Clone, Copy)]
pub enum Grants {
    Nothing,
    /// Files are opened, and a socket is bound at which nobody can be let in.
    Openings,
}

/// A child that starts, by its PID, and how many waits for it are refused; after them it has exited with code 3.
#[derive(Clone, Copy)]
pub struct Found {
    pub pid: u32,
    pub refusals: u32,
}

#[derive(Clone, Drop)]
pub struct Refusing {
    pub host: HostRuntime,
    pub kind: ErrorKind,
    /// The child that a spawn gives, if it gives one.
    pub child: Option<Found>,
    pub grants: Grants,
    /// What was printed on standard error.
    pub told: Rc<RefCell<String>>,
}

/// A system that refuses with this kind of error. None without memory.
pub fn new_refusing(
    rt: &HostRuntime,
    kind: ErrorKind,
    child: Option<Found>,
    grants: Grants,
) -> Option<Refusing> {
    let host = rt.clone().ok()?;
    let told = Rc::new(rt.alloc(), RefCell::new(String::new(rt.alloc()))).ok()?;
    Some(Refusing {
        host,
        kind,
        child,
        grants,
        told,
    })
}

fn refused<T>(kind: ErrorKind) -> io::Result<T> {
    Err(io::Error::from(kind))
}

impl Alloc for Refusing {
    type A = Global;

    fn alloc(&self) -> Global {
        self.host.alloc()
    }
}

impl Clock for Refusing {
    fn monotonic(&self) -> io::Result<Duration> {
        Ok(Duration::from_secs(7))
    }

    fn since_1970(&self) -> io::Result<Duration> {
        refused(self.kind)
    }
}

impl Eprint for Refusing {
    fn eprint<D: Display + Drop>(&self, value: D) -> io::Result<()> {
        let text = format!(in self.alloc(); "{value}")?;
        match self.told.try_borrow_mut() {
            Ok(mut told) => Ok(told.push_str(text.as_str())?),
            Err(_) => refused(self.kind),
        }
    }

    fn eprintln<D: Display + Drop>(&self, value: D) -> io::Result<()> {
        self.eprint(value)?;
        self.eprint("\n")
    }
}

/// A child that can't be ended.
#[derive(Drop)]
pub struct Lost {
    child: Found,
    kind: ErrorKind,
}

impl OpenProcess for Lost {
    type Stdin = PipeWriter;

    type Stdout = PipeReader;

    type Stderr = PipeReader;

    fn id(&self) -> u32 {
        self.child.pid
    }

    fn wait(&mut self) -> io::Result<ExitStatus> {
        refused(self.kind)
    }

    fn try_wait(&mut self) -> io::Result<Option<ExitStatus>> {
        if self.child.refusals > 0 {
            self.child.refusals -= 1;
            return refused(self.kind);
        }
        Ok(Some(ExitStatus::from_raw(3 * 256)))
    }

    fn kill(&mut self) -> io::Result<()> {
        refused(self.kind)
    }
}

impl Processes for Refusing {
    type Started = Lost;

    fn spawn<B: Allocator + Clone>(
        &self,
        _command: &Command<B>,
        _stdin: &Stdio,
        _stdout: &Stdio,
        _stderr: &Stdio,
    ) -> io::Result<Child<Lost>> {
        match self.child {
            Some(child) => {
                let lost = Lost {
                    child,
                    kind: self.kind,
                };
                Ok(Child::from_parts(lost, None, None, None))
            }
            None => refused(self.kind),
        }
    }
}

impl Files for Refusing {
    type File = File;

    type Dir = File;

    fn open_file(&self, how: &OpenOptions, path: &str) -> io::Result<File> {
        match self.grants {
            Grants::Nothing => refused(self.kind),
            Grants::Openings => self.host.open_file(how, path),
        }
    }

    fn open_dir(&self, _path: &str) -> io::Result<File> {
        refused(self.kind)
    }

    fn metadata(&self, _path: &str) -> io::Result<Metadata> {
        refused(self.kind)
    }

    fn symlink_metadata(&self, _path: &str) -> io::Result<Metadata> {
        refused(self.kind)
    }

    fn copy(&self, _from: &str, _to: &str) -> io::Result<u64> {
        refused(self.kind)
    }

    fn rename(&self, _from: &str, _to: &str) -> io::Result<()> {
        refused(self.kind)
    }

    fn remove_file(&self, _path: &str) -> io::Result<()> {
        refused(self.kind)
    }

    fn create_dir(&self, _path: &str) -> io::Result<()> {
        refused(self.kind)
    }

    fn remove_dir(&self, _path: &str) -> io::Result<()> {
        refused(self.kind)
    }

    fn remove_dir_all<B: Allocator>(&self, _alloc: B, _path: &str) -> io::Result<()> {
        refused(self.kind)
    }
}

impl Net for Refusing {
    type Stream = TcpStream;

    type Listener = TcpListener;

    fn bind(&self, _addr: SocketAddr) -> io::Result<TcpListener> {
        match self.grants {
            Grants::Nothing => refused(self.kind),
            // Nothing ever made it listen.
            Grants::Openings => Ok(TcpListener::from(self.host.unix_socket()?)),
        }
    }

    fn connect(&self, _addr: SocketAddr) -> io::Result<TcpStream> {
        refused(self.kind)
    }
}
