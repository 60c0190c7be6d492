//! What was refused to the control socket, so that it is logged once.

use history_model::Text;
use std::alloc::{AllocError, Global};
use std::io::{Error, ErrorKind};

/// Refusals of one kind: the last, until something went well, and what is still to be logged.
#[derive(Clone, Copy)]
struct Refusals {
    last: Option<Error>,
    due: Option<Error>,
}

/// What a line is about.
#[derive(Clone, Copy)]
enum Subject {
    Accept,
    Client,
    NoMemory,
    Look,
    NoFile,
    File,
    NoLock,
    Lock,
}

/// The refusals of the control socket. They take no memory until they are logged.
#[derive(Clone, Copy)]
pub(crate) struct Notices {
    accepts: Refusals,
    clients: Refusals,
    // That a check of the socket's file, or of the lock's, was refused.
    looks: Refusals,
    // That the socket's file can't be made again.
    files: Refusals,
    // It was made again, and this was not logged.
    is_made_again: bool,
    // That the lock can't be taken again.
    locks: Refusals,
    // It was taken again, and this was not logged.
    is_taken_again: bool,
}

impl Refusals {
    fn note(&mut self, error: Error) {
        let is_known = match self.last {
            None => false,
            Some(last) => {
                last.kind() == error.kind() && last.raw_os_error() == error.raw_os_error()
            }
        };
        if !is_known {
            self.last = Some(error);
            self.due = Some(error);
        }
    }
}

impl Notices {
    pub(crate) fn new() -> Notices {
        let none = Refusals {
            last: None,
            due: None,
        };
        Notices {
            accepts: none,
            clients: none,
            looks: none,
            files: none,
            is_made_again: false,
            locks: none,
            is_taken_again: false,
        }
    }

    /// The socket's file and the lock's are those that were made. The next refusal to check one, or to make it again,
    /// is logged.
    pub(crate) fn files_stand(&mut self) {
        self.looks.last = None;
        self.files.last = None;
        self.locks.last = None;
    }

    /// The system refused to say whether the socket's file or the lock's is there.
    pub(crate) fn look_refused(&mut self, error: Error) {
        self.looks.note(error);
    }

    /// The socket's file was removed, and is made again.
    pub(crate) fn made_again(&mut self) {
        self.files.last = None;
        self.files.due = None;
        self.is_made_again = true;
    }

    /// The socket's file was removed, and can't be made again.
    pub(crate) fn not_made_again(&mut self, error: Error) {
        self.files.note(error);
    }

    /// The lock's file was removed, and the lock is held on a new one.
    pub(crate) fn taken_again(&mut self) {
        self.locks.last = None;
        self.locks.due = None;
        self.is_taken_again = true;
    }

    /// The lock's file was removed, and no lock can be taken on a new one.
    pub(crate) fn not_taken_again(&mut self, error: Error) {
        self.locks.note(error);
    }

    /// A client could not be taken.
    pub(crate) fn accept_refused(&mut self, error: Error) {
        self.accepts.note(error);
    }

    /// All clients that waited were taken: the next refusal is logged again.
    pub(crate) fn accepted(&mut self) {
        self.accepts.last = None;
    }

    /// A client was disconnected for want of memory, or since a read or a write failed. One that only went away is not
    /// logged.
    pub(crate) fn disconnected(&mut self, error: Error) {
        if !is_going_away(error.kind()) {
            self.clients.note(error);
        }
    }

    /// A client had all its replies: the next one that is disconnected is logged again.
    pub(crate) fn ended_well(&mut self) {
        self.clients.last = None;
    }

    /// The next line to be logged. None also for want of memory for it: it then stays.
    pub(crate) fn next(&mut self, alloc: Global) -> Option<Text> {
        let (told, error) = self.due()?;
        let Ok(line) = line_of(alloc, told, error) else {
            return None;
        };
        match told {
            Subject::Accept => self.accepts.due = None,
            Subject::Client | Subject::NoMemory => self.clients.due = None,
            Subject::Look => self.looks.due = None,
            Subject::NoFile => self.files.due = None,
            Subject::File => self.is_made_again = false,
            Subject::NoLock => self.locks.due = None,
            Subject::Lock => self.is_taken_again = false,
        }
        Some(Text::new(line))
    }

    // What has to be logged first, and the error at the end of its line, if it has one.
    fn due(&self) -> Option<(Subject, Option<Error>)> {
        if self.accepts.due.is_some() {
            return Some((Subject::Accept, self.accepts.due));
        }
        if let Some(error) = self.clients.due {
            return Some(client_told(error));
        }
        if self.looks.due.is_some() {
            return Some((Subject::Look, self.looks.due));
        }
        if self.files.due.is_some() {
            return Some((Subject::NoFile, self.files.due));
        }
        if self.is_made_again {
            return Some((Subject::File, None));
        }
        if self.locks.due.is_some() {
            return Some((Subject::NoLock, self.locks.due));
        }
        if self.is_taken_again {
            return Some((Subject::Lock, None));
        }
        None
    }
}

fn client_told(error: Error) -> (Subject, Option<Error>) {
    if error.kind() == ErrorKind::OutOfMemory {
        (Subject::NoMemory, None)
    } else {
        (Subject::Client, Some(error))
    }
}

fn is_going_away(kind: ErrorKind) -> bool {
    matches!(
        kind,
        ErrorKind::BrokenPipe | ErrorKind::ConnectionReset | ErrorKind::ConnectionAborted
    )
}

fn line_of(alloc: Global, told: Subject, error: Option<Error>) -> Result<String, AllocError> {
    let what = match told {
        Subject::Accept => "cannot accept",
        Subject::Client => "a client was disconnected",
        Subject::NoMemory => "a client was disconnected: no memory",
        Subject::Look => "cannot check its file",
        Subject::NoFile => "its file was removed, and can't be made again",
        Subject::File => "its file was removed, and is made again",
        Subject::NoLock => "its lock's file was removed, and can't be made again",
        Subject::Lock => "its lock's file was removed, and is made again",
    };
    match error {
        Some(error) => format!(in alloc; "control socket: {what}: {error}"),
        None => format!(in alloc; "control socket: {what}"),
    }
}
