//! The children that were started and not yet waited for, by job and run.

ghost use Rattle.std.specs.Prelude.{◌≡◌, ◌<◌, true, false, IfOk, OnErr, IfSome};

use crate::failure::{Failure, culprit};
use crate::held::Held;
use crate::maps::key_from;
use crate::shell::KeptShell;
use crate::start::Start;
use crate::waking::{Watch, is_asked, sent, unsent};
use history_model::{Ended, JobNo, Text};
use std::alloc::{AllocError, Global};
use std::collections::BTreeMap;
use std::fs::Files;
use std::io::ErrorKind;
use std::net::Net;
use std::os::unix::process::ExitStatusExt;
use std::process::{Child, Command, ExitStatus, OpenProcess, Processes};
use std::rt::Clock;
use std::time::Instant;
use std::{io, mem};

/// A job and one of its runs.
pub(crate) type RunKey = (JobNo, u64);

/// What is kept of a run besides its child. This is the connection that it serves, its job's label if there was memory
/// for it, and its start if that must be logged.
#[derive(Drop)]
pub(crate) struct Kept {
    pub(crate) conn: Option<u64>,
    pub(crate) label: Option<Text>,
    pub(crate) since: Option<Instant>,
}

impl Kept {
    fn of<R: Clock>(rt: &R, alloc: Global, start: Start<'_>, is_timed: bool) -> Kept {
        let since = if is_timed {
            Instant::now(rt).ok()
        } else {
            None
        };
        Kept {
            conn: start.conn,
            label: Text::copy_of(alloc, start.def.label()).ok(),
            since,
        }
    }
}

/// A run that has a child, or is about to get one.
#[derive(Drop)]
struct Run<P: OpenProcess + Drop> {
    child: Option<Child<P>>,
    kept: Kept,
    watch: Watch,
}

impl<P: OpenProcess + Drop> Run<P> {
    // Starts the command as the run's child, and answers its PID. No child has PID 0.
    fn spawn<R: Processes<Started = P>>(&mut self, rt: &R, command: &mut Command) -> io::Result<u32>
        ensures { IfOk result (λ pid. 0 < pid) }
    {
        let child = match command.spawn(rt) {
            Ok(child) => child,
            Err(error) => return Err(error),
        };
        let pid = child.id();
        drop(mem::replace(&mut self.child, Some(child)));
        if pid == 0 {
            return Err(io::Error::from(ErrorKind::InvalidData));
        }
        Ok(pid)
    }

    // How the child exited, if it did. From then on, and after a refusal, each pass asks about it.
    fn ask(&mut self) -> io::Result<Option<ExitStatus>>
        ensures exit { IfOk result (λ answer. IfSome answer (λ _. self.new.watch ≡ Watch.Due)) }
        ensures refusal { OnErr result (self.new.watch ≡ Watch.Due) }
    {
        let Some(child) = &mut self.child else {
            self.watch = Watch::Due;
            return Err(io::Error::from(ErrorKind::NotFound));
        };
        let answer = child.try_wait();
        if !matches!(answer, Ok(None)) {
            self.watch = Watch::Due;
        }
        answer
    }

    // The PID of the child, if it has one.
    fn pid(&self) -> Option<u32> {
        match &self.child {
            Some(child) => Some(child.id()),
            None => None,
        }
    }

    // The helper reported the exit of this PID. It says whether that is news of the child.
    fn report(&mut self, pid: u32) -> bool {
        let is_news = self.watch == Watch::Sent && self.pid() == Some(pid);
        if is_news {
            self.watch = Watch::Due;
        }
        is_news
    }
}

/// The runs that have a child. A child that was not waited for keeps its PID, so no signal can reach another process.
#[derive(Drop)]
pub(crate) struct Children<P: OpenProcess + Drop> {
    runs: BTreeMap<RunKey, Run<P>>,
    /// The helper that reports exits may not know each child.
    pub(crate) has_unsent: bool,
    // The helper knows each child, and nothing was heard of one since: a pass at rest looks at none.
    is_quiet: bool,
}

impl<P: OpenProcess + Drop> Children<P> {
    pub(crate) fn new(alloc: Global) -> Children<P> {
        Children {
            runs: BTreeMap::new(alloc),
            has_unsent: false,
            is_quiet: false,
        }
    }

    /// Starts the command for the run, and answers its PID. It keeps when the run began if its time must be logged.
    pub(crate) fn start<R: Clock + Files + Processes<Started = P>>(
        &mut self,
        rt: &R,
        alloc: Global,
        start: Start<'_>,
        is_timed: bool,
        command: Command,
        held: &Held,
    ) -> Result<u32, Failure>
        ensures { IfOk result (λ pid. 0 < pid) }
    {
        let mut command = command;
        let kept = Kept::of(rt, alloc, start, is_timed);
        let answer = match self.spawn(rt, start.key, kept, &mut command) {
            Ok(pid) => Ok(pid),
            Err(error) => Err(culprit(rt, alloc, start.def, held, error)),
        };
        drop(command);
        answer
    }

    // The room for the child is made first: a child that was started is kept. A run that has a child is refused another.
    fn spawn<R: Processes<Started = P>>(
        &mut self,
        rt: &R,
        key: RunKey,
        kept: Kept,
        command: &mut Command,
    ) -> io::Result<u32>
        ensures { IfOk result (λ pid. 0 < pid) }
    {
        if self.runs.contains_key(&key) {
            drop(kept);
            return Err(io::Error::from(ErrorKind::AlreadyExists));
        }
        let watch = Watch::Unsent;
        let run = Run {
            child: None,
            kept,
            watch,
        };
        let room = self.runs.insert(key, run);
        self.has_unsent = true;
        self.is_quiet = false;
        let has_room = room.is_ok();
        drop(room);
        if !has_room {
            return Err(io::Error::from(ErrorKind::OutOfMemory));
        }
        let answer = match self.runs.get_mut(&key) {
            Some(one) => one.spawn(rt, command),
            None => Err(io::Error::from(ErrorKind::NotFound)),
        };
        if answer.is_err() {
            drop(self.runs.remove(&key));
        }
        answer
    }

    // The run's child, if it has one.
    fn child(&mut self, key: RunKey) -> io::Result<&mut Child<P>> {
        match self.runs.get_mut(&key) {
            Some(
                Run {
                    child: Some(child),
                    ..
                },
            ) => Ok(child),
            _ => Err(io::Error::from(ErrorKind::NotFound)),
        }
    }

    /// The label of the run's job, if the run has a child.
    pub(crate) fn label(&self, key: RunKey) -> Option<&str> {
        match self.runs.get(&key) {
            Some(
                Run {
                    kept: Kept {
                        label: Some(label),
                        ..
                    },
                    ..
                },
            ) => Some(label.as_str()),
            _ => None,
        }
    }

    /// Gives the run's child TERM, by `kill` of `/bin/sh`. It first asks whether the child has exited: one that has
    /// gets no signal, as its PID is free. If the system refuses to wait for the child, TERM is refused, as the PID may
    /// be another's.
    pub(crate) fn term<R: Net + Processes<Started = P>>(
        &mut self,
        rt: &R,
        shell: &mut KeptShell<P>,
        key: RunKey,
    ) -> io::Result<()> {
        let Some(run) = self.runs.get_mut(&key) else {
            return Err(io::Error::from(ErrorKind::NotFound));
        };
        let pid = run.pid().unwrap_or(0);
        let answer = run.ask();
        if matches!(answer, Ok(None)) {
            return shell.term(rt, pid);
        }
        self.is_quiet = false;
        match answer {
            Ok(_) => Ok(()),
            Err(_) => Err(io::Error::other(
                "it can't be waited for, so its PID may be another process's",
            )),
        }
    }

    /// Gives the run's child KILL.
    pub(crate) fn kill(&mut self, key: RunKey) -> io::Result<()> {
        match self.child(key) {
            Ok(child) => child.kill(),
            Err(error) => Err(error),
        }
    }

    /// The first child, from the job of this number on, that has exited or whose wait the system refuses: its job and
    /// run. It stays until it is polled. If the helper that reports exits has answered, only those are asked about whose exit
    /// it reported, and those that it does not know: then `asks_all` is false.
    pub(crate) fn over_from(&mut self, job: JobNo, asks_all: bool) -> Option<RunKey> {
        if self.is_quiet && !asks_all {
            return None;
        }
        let mut next = (job, 0);
        for _ in 0..self.runs.len() {
            let Some(key) = self.asked_from(next, asks_all) else {
                self.is_quiet = !asks_all && next == (0, 0);
                return None;
            };
            if !matches!(self.poll(key), Ok(None)) {
                return Some(key);
            }
            next = (key.0, key.1.saturating_add(1));
        }
        None
    }

    // The first run, from this one on, of which the system is asked.
    fn asked_from(&self, from: RunKey, asks_all: bool) -> Option<RunKey> {
        for (key, run) in self.runs.range(from..) {
            if is_asked(run.watch, asks_all) {
                return Some(*key);
            }
        }
        None
    }

    /// The helper reported that the job's child of this PID has exited. It says whether that is news of a child.
    pub(crate) fn reported(&mut self, job: JobNo, pid: u32) -> bool
        ensures { result ≡ true → self.new.is_quiet ≡ false }
    {
        let mut next = (job, 0);
        for _ in 0..self.runs.len() {
            let Some(key) = key_from(&self.runs, next) else {
                return false;
            };
            if key.0 != job {
                return false;
            }
            let is_news = match self.runs.get_mut(&key) {
                Some(run) => run.report(pid),
                None => false,
            };
            if is_news {
                self.is_quiet = false;
                return true;
            }
            next = (job, key.1.saturating_add(1));
        }
        false
    }

    /// The lines that name to the helper each child that it does not know: its job and its PID.
    pub(crate) fn unsent_lines(&self, alloc: Global) -> Result<String, AllocError> {
        let mut lines = String::new(alloc);
        for (key, run) in self.runs.iter() {
            match run.pid() {
                Some(pid) if run.watch == Watch::Unsent => put_line(&mut lines, key.0, pid)?,
                _ => {}
            }
        }
        Ok(lines)
    }

    /// The helper knows each of those from now on.
    pub(crate) fn all_sent(&mut self) {
        for run in self.runs.values_mut() {
            run.watch = sent(run.watch);
        }
        self.has_unsent = false;
    }

    /// The helper that knew children was given up: the next one knows none.
    pub(crate) fn none_sent(&mut self)
        ensures { self.new.is_quiet ≡ false }
    {
        for run in self.runs.values_mut() {
            run.watch = unsent(run.watch);
        }
        self.has_unsent = true;
        self.is_quiet = false;
    }

    /// Whether no run has a child.
    pub(crate) fn is_empty(&self) -> bool {
        self.runs.is_empty()
    }

    /// How the run's child exited, if it did. It stays until it is removed, and each pass asks about it.
    pub(crate) fn poll(&mut self, key: RunKey) -> io::Result<Option<Ended>>
        ensures exit { IfOk result (λ answer. IfSome answer (λ _. self.new.is_quiet ≡ false)) }
        ensures refusal { OnErr result (self.new.is_quiet ≡ false) }
    {
        let answer = match self.runs.get_mut(&key) {
            Some(run) => run.ask(),
            None => Err(io::Error::from(ErrorKind::NotFound)),
        };
        let is_running = matches!(answer, Ok(None));
        self.is_quiet = self.is_quiet & is_running;
        match answer {
            Ok(None) => Ok(None),
            Ok(Some(status)) => Ok(Some(end_of(status))),
            Err(error) => Err(error),
        }
    }

    /// The run has no child from now on. What was kept of it is given back.
    pub(crate) fn remove(&mut self, key: RunKey) -> Option<Kept> {
        match self.runs.remove(&key) {
            Some(gone) => {
                let Run { child, kept, .. } = gone;
                drop(child);
                Some(kept)
            }
            None => None,
        }
    }
}

fn put_line(lines: &mut String, job: JobNo, pid: u32) -> Result<(), AllocError> {
    match writeln!(lines, "{job} {pid}") {
        Ok(()) => Ok(()),
        Err(_) => Err(AllocError),
    }
}

// The system gives a code of 0 to 255, or the number of a signal.
fn end_of(status: ExitStatus) -> Ended {
    match status.code() {
        Some(code) => Ended::Code((code & 0xff).unsigned_abs() as u8),
        None => {
            let signal = status.signal().unwrap_or(0);
            Ended::Signal(u8::try_from(signal).unwrap_or(0))
        }
    }
}
