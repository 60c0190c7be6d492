//! What keeps a request from its reply.

ghost use Rattle.std.specs.Prelude.{◌≡◌};
ghost use Rattle.control_client.specs.declared.fault.Fault.TheVariants.{NoMemory};

use exit_status::{BAD_FILE, BAD_OUTPUT, NO_ANSWER, NO_MEMORY, READER_GONE};
use job_defs::DefFault;
use plain_text::plain;
use std::alloc::{AllocError, Global};
use std::fmt::{Display, Formatter};
use std::io::ErrorKind;
use std::{fmt, io};

/// What keeps a request from its reply.
#[derive(Drop)]
pub enum Fault {
    NoMemory,
    /// The file, or the folder, can't be read.
    File(io::Error),
    NotText,
    /// The request would be longer than a line may be.
    TooLong,
    /// The journal's line of the request would be longer than a line may be, so that `jobd replay` could not read it.
    LongRecord,
    /// The file is not a definition, so its label is not known.
    Definition(DefFault),
    /// The launcher can't be reached, or the connection failed.
    Connection(io::Error),
    /// The launcher took the connection, but did not answer within this many seconds.
    Silent(u32),
    /// The connection ended before the reply did.
    NoReply,
    LongReply,
    BadReply,
    /// The text of a reply can't be printed.
    Output(io::Error),
}

impl Display for Fault {
    fn fmt<W: fmt::Write>(&self, f: &mut Formatter<W>) -> fmt::Result {
        let text = match self {
            Fault::File(error) | Fault::Connection(error) | Fault::Output(error) => {
                return error.fmt(f);
            }
            Fault::Definition(fault) => return fault.fmt(f),
            Fault::Silent(seconds) => {
                return write!(f, "no answer within {seconds} s (JOBCTL_TIMEOUT)");
            }
            Fault::NoMemory => "no memory",
            Fault::NotText => "not UTF-8",
            Fault::TooLong => "too long for a request",
            Fault::LongRecord => "too long for a line of the journal",
            Fault::NoReply => "no reply",
            Fault::LongReply => "the reply is too long",
            Fault::BadReply => "what came is not a reply",
        };
        f.write_str(text)
    }
}

impl Fault {
    /// The exit status for the fault, as sysexits.h has them: 65 of a file, 69 of the launcher, 74 of the output; 1 for want
    /// of memory. If the output's reader has closed it, `READER_GONE`.
    pub fn status(&self) -> u8 {
        match self {
            Fault::NoMemory => NO_MEMORY,
            Fault::File(_) | Fault::NotText | Fault::TooLong => BAD_FILE,
            Fault::LongRecord | Fault::Definition(_) => BAD_FILE,
            Fault::Connection(_) | Fault::Silent(_) | Fault::NoReply => NO_ANSWER,
            Fault::LongReply | Fault::BadReply => NO_ANSWER,
            Fault::Output(error) if error.kind() == ErrorKind::BrokenPipe => READER_GONE,
            Fault::Output(_) => BAD_OUTPUT,
        }
    }

    /// Whether no further request is made.
    pub fn is_last(&self) -> bool {
        self.status() == NO_MEMORY || self.status() == NO_ANSWER
    }

    pub(crate) fn of_file(error: io::Error) -> Fault {
        match error.kind() {
            ErrorKind::OutOfMemory => Fault::NoMemory,
            _ => Fault::File(error),
        }
    }

    pub(crate) fn of_connection(error: io::Error) -> Fault {
        match error.kind() {
            ErrorKind::OutOfMemory => Fault::NoMemory,
            _ => Fault::Connection(error),
        }
    }
}

impl From<AllocError> for Fault {
    ghost from_gives = { λ _ fault. fault ≡ NoMemory };

    fn from(_error: AllocError) -> Fault {
        Fault::NoMemory
    }
}

/// Reports what the fault is about, and why. It does not report that the output's reader has closed it, since this is not a
/// fault of the program.
pub(crate) fn tell<R: Eprint>(rt: &R, alloc: Global, about: &str, fault: &Fault) {
    if fault.status() == READER_GONE {
        return;
    }
    let Ok(shown) = plain(alloc, about) else {
        let _written = eprintln!(rt; "jobctl: {fault}");
        return;
    };
    let about = shown.as_str();
    let _written = eprintln!(rt; "jobctl: {about}: {fault}");
}

/// Reports that a launcher can't be reached whose socket nothing named, while the package's socket exists.
pub(crate) fn tell_unnamed<R: Eprint>(rt: &R, about: &str, fault: &Fault) {
    let _written = eprintln!(rt;
        "jobctl: {about} (JOBD_SOCKET is not set; the package's launcher is at /run/jobd/jobd.sock): {fault}"
    );
}
