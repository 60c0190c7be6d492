//! Whether the journal is still at its path. The launcher writes on to one that is renamed or removed, where that is,
//! and reports it. Once the journal is closed its lock is released, so that others see that nobody writes it.

use child_edge::{Notice, NoticeKind, System};
use history_model::{SECOND, Text};
use startup::Plan;
use std::alloc::Global;
use std::fs::{File, Metadata};
use std::io::ErrorKind;
use std::os::unix::fs::MetadataExt;
use std::{fs, mem};

/// How many milliseconds lie at least between two checks of it.
const PAUSE: u64 = SECOND;

/// Which file one is: the number of its device, and that of the file on it.
#[derive(Clone, Copy)]
struct FileId {
    device: u64,
    inode: u64,
}

/// The journal at its path.
#[derive(Drop)]
pub struct JournalWatch<R: System> {
    rt: R,
    alloc: Global,
    path: String,
    // The journal by a handle of its own, which shares the lock.
    file: Option<File>,
    // That of the journal, once the launcher serves.
    own: Option<FileId>,
    looked: u64,
    is_told: bool,
    untold: Option<Notice>,
}

/// That of the launcher with this plan. None: it keeps no journal, or there is no memory.
pub(crate) fn journal_watch<R: System>(
    rt: &R,
    alloc: Global,
    plan: &Plan,
) -> Option<JournalWatch<R>> {
    let path = match &plan.places.journal {
        Some(path) => String::from_str(alloc, path.as_str()).ok()?,
        None => return None,
    };
    match rt.clone() {
        Ok(rt) => Some(JournalWatch {
            rt,
            alloc,
            path,
            file: None,
            own: None,
            looked: 0,
            is_told: false,
            untold: None,
        }),
        Err(_) => {
            drop(path);
            None
        }
    }
}

impl FileId {
    fn of(data: &Metadata) -> FileId {
        FileId {
            device: data.dev(),
            inode: data.ino(),
        }
    }

    fn is(self, data: &Metadata) -> bool {
        self.device == data.dev() && self.inode == data.ino()
    }
}

impl<R: System> JournalWatch<R> {
    /// What is at the path is the journal, which was just opened. It counts the first time that this is called.
    pub(crate) fn begin(&mut self) {
        if self.own.is_none() && !self.is_told {
            if let Ok(data) = fs::metadata(&self.rt, self.path.as_str()) {
                self.own = Some(FileId::of(&data));
            }
        }
    }

    /// Checks, once a second at most.
    pub(crate) fn look(&mut self, up: u64) {
        let Some(own) = self.own else {
            return;
        };
        if up < self.looked.saturating_add(PAUSE) {
            return;
        }
        self.looked = up;
        let is_there = match fs::metadata(&self.rt, self.path.as_str()) {
            Ok(data) => own.is(&data),
            Err(error) if error.kind() == ErrorKind::NotFound => false,
            // The system does not say it, as without a descriptor.
            Err(_) => return,
        };
        if is_there {
            self.is_told = false;
        } else if !self.is_told {
            self.tell();
        }
    }

    fn tell(&mut self) {
        self.is_told = true;
        let path = self.path.as_str();
        let line = format!(in self.alloc;
            "journal {path}: it was renamed or removed; the launcher goes on writing to the same file"
        );
        if let Ok(line) = line {
            let notice = Notice {
                kind: NoticeKind::Refusal,
                text: Text::new(line),
            };
            drop(mem::replace(&mut self.untold, Some(notice)));
        }
    }

    /// Keeps a handle of the journal.
    pub(crate) fn keep(&mut self, file: File) {
        drop(mem::replace(&mut self.file, Some(file)));
    }

    /// Nothing more is written to it: its lock is released.
    pub(crate) fn end(&mut self) {
        if let Some(file) = self.file.take() {
            let _freed = file.unlock();
            drop(file);
        }
        self.own = None;
        self.is_told = true;
    }

    /// What has to be logged of it.
    pub(crate) fn next_notice(&mut self) -> Option<Notice> {
        self.untold.take()
    }
}
