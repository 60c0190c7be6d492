//! The status file: held by a lock next to it, written next to it in pieces, one in each pass of the event loop, and put in place whole. Its modification
//! time is renewed while its text still holds.

use crate::whole_file::{new_file, shared};
use child_edge::{Notice, NoticeKind, System};
use files_and_process::own_files::{LockFile, check_folder};
use history_model::{Reading, SECOND, Text};
use std::alloc::Global;
use std::fs::{File, OpenOptions};
use std::io::{ErrorKind, Write};
use std::time::SystemTime;
use std::{fs, io, mem};

/// How many bytes of the text are written in one pass of the event loop, at most.
const PIECE: usize = 65_536;

/// How many milliseconds pass at most until the modification time of the file is renewed.
pub(crate) const RENEWED: u64 = 10 * SECOND;

/// The file, with its lock, which is held until this is dropped.
#[derive(Drop)]
pub struct StandingFile<R: System> {
    rt: R,
    alloc: Global,
    path: String,
    // What is written before it is put at the path.
    beside: String,
    user: Option<u32>,
    // The group that may read it.
    group: Option<u32>,
    lock: LockFile,
    // Whether there is a text to write that is not in place yet, the file that has some of it, and how much.
    is_going: bool,
    file: Option<File>,
    written: usize,
    // When that text was made.
    began: Option<SystemTime>,
    // Something happened since it was written, and it was tried last at this `up`.
    has_changed: bool,
    tried: Option<u64>,
    // The clock reading as of which its modification time is.
    renewed: Option<Reading>,
    // The text that is written next is the last one.
    is_last: bool,
    // That it can't be written was logged, or waits to be.
    is_refused: bool,
    untold: Option<Notice>,
}

// The folder that the path is in.
fn folder_of(path: &str) -> &str {
    match path.rsplit_once('/') {
        Some(("", _)) => "/",
        Some((folder, _)) => folder,
        None => ".",
    }
}

// Whether either clock went on by ten seconds, or the wall clock was set back.
fn is_old(last: Reading, at: Reading) -> bool {
    let by_wall = at.wall < last.wall || at.wall >= last.wall.saturating_add(RENEWED / SECOND);
    by_wall || at.up >= last.up.saturating_add(RENEWED)
}

/// EPERM: this user may not give a file to the group (chown(2)).
const NOT_PERMITTED: i32 = 1;

// Whether the file can't be given to the group.
fn is_of_group(error: &io::Error, group: Option<u32>) -> bool {
    group.is_some() && error.raw_os_error() == Some(NOT_PERMITTED)
}

impl<R: System> StandingFile<R> {
    /// Takes the lock of the file at the path. Refused: `ResourceBusy`, if another launcher holds it; `InvalidInput`, if others may write in its folder;
    /// any other error of the system.
    pub fn take(
        rt: &R,
        alloc: Global,
        path: &str,
        user: Option<u32>,
        group: Option<u32>,
    ) -> io::Result<StandingFile<R>> {
        check_folder(rt, folder_of(path), user)?;
        let own = rt.clone()?;
        let beside = format!(in alloc; "{path}.new")?;
        let lock = LockFile::take(rt, format!(in alloc; "{path}.lock")?)?;
        let path = String::from_str(alloc, path)?;
        Ok(StandingFile {
            rt: own,
            alloc,
            path,
            beside,
            user,
            group,
            lock,
            is_going: false,
            file: None,
            written: 0,
            began: None,
            has_changed: true,
            tried: None,
            renewed: None,
            is_last: false,
            is_refused: false,
            untold: None,
        })
    }

    /// Whether it must be written at this clock reading: something changed, it was not tried within a second, and no text is on its way.
    pub(crate) fn is_due(&mut self, at: Reading, has_changed: bool) -> bool {
        self.has_changed = self.has_changed || has_changed;
        let is_soon = match self.tried {
            Some(tried) => at.up < tried.saturating_add(SECOND),
            None => false,
        };
        self.is_last || (self.has_changed && !is_soon && !self.is_going)
    }

    /// Renews the modification time of the file, if its text holds at this clock reading and this was not done within ten seconds of either clock. A
    /// sleep of the machine counts, and so does a clock that was set: it is renewed at once then. A file that is not there is written again.
    pub(crate) fn renew(&mut self, at: Reading) {
        let Some(last) = self.renewed else {
            return;
        };
        if self.has_changed || self.is_going || !is_old(last, at) {
            return;
        }
        self.renewed = Some(at);
        match self.mark() {
            Ok(()) => self.is_refused = false,
            Err(error) if error.kind() == ErrorKind::NotFound => {
                drop(error);
                self.has_changed = true;
            }
            Err(error) => self.tell(error),
        }
    }

    // Sets the modification time of the file at the path, which is a plain one of this launcher's folder.
    fn mark(&self) -> io::Result<()> {
        check_folder(&self.rt, folder_of(self.path.as_str()), self.user)?;
        let now = SystemTime::now(&self.rt)?;
        if !fs::symlink_metadata(&self.rt, self.path.as_str())?.is_file() {
            return Err(io::Error::from(ErrorKind::NotFound));
        }
        let mut options = OpenOptions::new();
        options.write(true);
        let file = options.open(&self.rt, self.path.as_str())?;
        let marked = file.set_modified(now);
        drop(file);
        marked
    }

    /// The launcher ends: the next text is the last one, and is due.
    pub(crate) fn note_end(&mut self) {
        self.is_last = true;
    }

    /// Whether the text that is written next is the last one.
    pub(crate) fn is_last(&self) -> bool {
        self.is_last
    }

    /// The next change is written at once, also within a second.
    pub(crate) fn hurry(&mut self) {
        self.tried = None;
    }

    /// What it says has changed since it was written.
    pub(crate) fn note_change(&mut self) {
        self.has_changed = true;
    }

    /// Writes the first piece of a text of this clock reading. `go_on` and `end` write the others, of the same text.
    pub(crate) fn begin(&mut self, text: &[u8], at: Reading) {
        self.tried = Some(at.up);
        self.began = SystemTime::now(&self.rt).ok();
        self.renewed = Some(at);
        self.has_changed = false;
        self.is_going = true;
        self.write(text, PIECE);
    }

    /// Writes the next piece of the text that was begun, if there is more, and puts it in the place of the file after the last one. True: there is more of it.
    pub(crate) fn go_on(&mut self, text: &[u8]) -> bool {
        self.write(text, PIECE);
        self.is_going
    }

    /// Writes all that is left of the text that was begun, and puts it in the place of the file.
    pub(crate) fn end(&mut self, text: &[u8]) {
        self.write(text, usize::MAX);
    }

    /// There was no memory for the text: it is tried again a second later.
    pub(crate) fn put_off(&mut self, at: Reading) {
        self.tried = Some(at.up);
    }

    // What the system refuses is logged once, until it is written again. It is tried again a second later.
    fn write(&mut self, text: &[u8], most: usize) {
        if !self.is_going {
            return;
        }
        match self.put_next(text, most) {
            Ok(is_left) => {
                self.is_going = is_left;
                self.is_refused = self.is_refused && is_left;
            }
            Err(error) => {
                let _gone = fs::remove_file(&self.rt, self.beside.as_str());
                self.is_going = false;
                self.has_changed = true;
                self.tell(error);
            }
        }
    }

    // Whether there is more. After a refusal, and after the last piece, the next one is the first of a text.
    fn put_next(&mut self, text: &[u8], most: usize) -> io::Result<bool> {
        let from = mem::replace(&mut self.written, 0);
        let kept = self.file.take();
        check_folder(&self.rt, folder_of(self.path.as_str()), self.user)?;
        let mut file = match kept {
            Some(file) => file,
            None => new_file(&self.rt, self.beside.as_str())?,
        };
        let rest = text.get(from..).unwrap_or(&[]);
        let piece = rest.get(..most).unwrap_or(rest);
        file.write_all(piece)?;
        if piece.len() < rest.len() {
            self.written = from.saturating_add(piece.len());
            self.file = Some(file);
            return Ok(true);
        }
        self.date(&file)?;
        self.share(&file)?;
        drop(file);
        fs::rename(&self.rt, self.beside.as_str(), self.path.as_str())?;
        Ok(false)
    }

    // The file is as old as its text, and not as its last piece: what happened before its modification time is in it.
    fn date(&self, file: &File) -> io::Result<()> {
        match self.began {
            Some(began) => file.set_modified(began),
            None => Ok(()),
        }
    }

    // Lets the group read it. That this user may not is logged, and the group is left out from then on.
    fn share(&mut self, file: &File) -> io::Result<()> {
        match shared(&self.rt, file, self.beside.as_str(), self.group) {
            Err(error) if is_of_group(&error, self.group) => {
                self.group = None;
                self.tell(error);
                Ok(())
            }
            answer => answer,
        }
    }

    fn tell(&mut self, error: io::Error) {
        if self.is_refused {
            return;
        }
        self.is_refused = true;
        let path = self.path.as_str();
        if let Ok(line) = format!(in self.alloc; "status file {path}: {error}") {
            let notice = Notice {
                kind: NoticeKind::Refusal,
                text: Text::new(line),
            };
            drop(mem::replace(&mut self.untold, Some(notice)));
        }
    }

    /// What has to be logged of it.
    pub(crate) fn next_notice(&mut self) -> Option<Notice> {
        self.untold.take()
    }

    /// The launcher has ended: the file of the lock is removed, and the file is left as it is.
    pub(crate) fn release(&self) {
        self.lock.remove(&self.rt);
    }
}
