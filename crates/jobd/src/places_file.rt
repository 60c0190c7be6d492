//! The file next to the control socket that says where the launcher's other files are. It is written once the launcher
//! serves, again where it was removed, and removed at the end.

use crate::own_process::{OwnProcess, own_process};
use crate::whole_file::put_whole;
use child_edge::{Notice, NoticeKind, System};
use history_model::{SECOND, Text};
use launcher_places::{BEHIND_SOCKET, PlacesTold, places_line};
use startup::{Plan, real_of, report};
use std::alloc::Global;
use std::io::ErrorKind;
use std::rt::Env;
use std::{env, fs, io, mem};

/// What names the folder of definitions.
const JOBS: &str = "JOBD_JOBS";

/// How many milliseconds lie at least between two checks for it.
const PAUSE: u64 = SECOND;

/// The file, and what it says.
#[derive(Drop)]
pub struct PlacesFile<R: System> {
    rt: R,
    alloc: Global,
    path: String,
    // What is written before it is put at the path.
    beside: String,
    line: Vec<u8>,
    // The group that may read it.
    group: Option<u32>,
    // The `up` at which it was looked for last.
    looked: Option<u64>,
    is_begun: bool,
    // That it can't be written was logged, or waits to be.
    is_refused: bool,
    untold: Option<Notice>,
}

/// That of the launcher with this plan, and with this status file if it keeps one. None: it can't be made, which is
/// logged.
pub(crate) fn places_file<R: System + Env>(
    rt: &R,
    alloc: Global,
    plan: &Plan,
    status_file: Option<&str>,
    group: Option<u32>,
) -> Option<PlacesFile<R>> {
    let found = match own_process(rt) {
        Some(own) => made(rt, alloc, plan, status_file, own, group),
        None => Err(io::Error::new(
            ErrorKind::NotFound,
            "/proc/self/stat does not say which process this is",
        )),
    };
    match found {
        Ok(file) => Some(file),
        Err(error) => {
            let socket = plan.places.socket.as_str();
            report(rt, plan.requested.level, "places next to", socket, &error);
            None
        }
    }
}

fn made<R: System + Env>(
    rt: &R,
    alloc: Global,
    plan: &Plan,
    status_file: Option<&str>,
    own: OwnProcess,
    group: Option<u32>,
) -> io::Result<PlacesFile<R>> {
    let line = line_of(rt, alloc, plan, status_file, own)?;
    let socket = plan.places.socket.as_str();
    Ok(PlacesFile {
        rt: rt.clone()?,
        alloc,
        path: format!(in alloc; "{socket}{BEHIND_SOCKET}")?,
        beside: format!(in alloc; "{socket}{BEHIND_SOCKET}.new")?,
        line,
        group,
        looked: None,
        is_begun: false,
        is_refused: false,
        untold: None,
    })
}

fn line_of<R: System + Env>(
    rt: &R,
    alloc: Global,
    plan: &Plan,
    status_file: Option<&str>,
    own: OwnProcess,
) -> io::Result<Vec<u8>> {
    let places = &plan.places;
    let kept = match &places.journal {
        Some(path) => Some(real_of(rt, alloc, path.as_str())?),
        None => None,
    };
    let standing = match status_file {
        Some(path) => Some(real_of(rt, alloc, path)?),
        None => None,
    };
    let named = match env::var(rt, JOBS) {
        Ok(path) if !path.is_empty() => Some(real_of(rt, alloc, path.as_str())?),
        _ => None,
    };
    let store = real_of(rt, alloc, places.store.as_str())?;
    let spool = real_of(rt, alloc, places.spool.as_str())?;
    let journal = lent(&kept);
    let status_file = lent(&standing);
    let jobs = lent(&named);
    let told = PlacesTold {
        pid: own.pid,
        began: own.began,
        journal,
        status_file,
        store: store.as_str(),
        spool: spool.as_str(),
        jobs,
    };
    let line = places_line(alloc, &told)?;
    Ok(line)
}

fn lent(path: &Option<String>) -> Option<&str> {
    match path {
        Some(path) => Some(path.as_str()),
        None => None,
    }
}

impl<R: System> PlacesFile<R> {
    /// Writes it, the first time that this is called.
    pub(crate) fn begin(&mut self) {
        if !self.is_begun {
            self.is_begun = true;
            self.put();
        }
    }

    /// Writes it again if it was removed, once a second at most.
    pub(crate) fn keep(&mut self, up: u64) {
        let looked = self.looked.unwrap_or(up);
        if self.looked.is_some() && up < looked.saturating_add(PAUSE) {
            return;
        }
        self.looked = Some(up);
        if self.is_begun && self.is_gone() {
            self.put();
        }
    }

    // If the system does not say it, as without a descriptor, the file is not written.
    fn is_gone(&self) -> bool {
        match fs::metadata(&self.rt, self.path.as_str()) {
            Ok(_) => false,
            Err(error) => error.kind() == ErrorKind::NotFound,
        }
    }

    // What the system refuses is logged once, until it is written again.
    fn put(&mut self) {
        let (path, beside) = (self.path.as_str(), self.beside.as_str());
        let line = self.line.as_slice();
        let put = match put_whole(&self.rt, path, beside, line, self.group) {
            Err(_) if self.group.is_some() => put_whole(&self.rt, path, beside, line, None),
            answer => answer,
        };
        match put {
            Ok(()) => self.is_refused = false,
            Err(error) => self.tell(error),
        }
    }

    fn tell(&mut self, error: io::Error) {
        if self.is_refused {
            return;
        }
        self.is_refused = true;
        let path = self.path.as_str();
        if let Ok(line) = format!(in self.alloc; "places {path}: {error}") {
            let notice = Notice {
                kind: NoticeKind::Refusal,
                text: Text::new(line),
            };
            drop(mem::replace(&mut self.untold, Some(notice)));
        }
    }

    /// What has to be logged of it.
    pub(crate) fn next_notice(&mut self) -> Option<Notice> {
        self.untold.take()
    }

    /// The launcher ends.
    pub(crate) fn remove(&self) {
        if self.is_begun {
            let _gone = fs::remove_file(&self.rt, self.path.as_str());
        }
    }
}
