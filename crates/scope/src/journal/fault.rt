//! What keeps a journal from being read.

ghost use Rattle.std.specs.Prelude.{◌≡◌, IfOk};
ghost use Rattle.scope.specs.Findings.{found_by};

use crate::found::{Findings, NO_CLOCK, UNREADABLE};
use run_times::telling::{tell_line, tell_of};
use run_times::{Piece, TextWriter};
use std::io;
use std::io::ErrorKind;

/// What keeps a journal from being read.
#[derive(Drop)]
pub enum JournalFault {
    NoMemory,
    /// The journal has no line, or only one that is not whole.
    NoHeader,
    /// The first line is not a header.
    BadHeader,
    /// The header's zone is not a zone.
    BadZone,
    /// A name among the header's settings is not a label, or its clock reading is past a limit.
    BadSettings,
    /// The header's time is after the one that is asked for.
    BeginsLater,
    /// A given time has a date that the clock of its zone never shows.
    NoDate,
    /// A time is asked for, but the journal does not come from a file.
    NoFile,
    /// A line is longer than one may be.
    LongLine(u64),
    /// A read failed.
    Read(io::Error),
    /// The clock can't be read, and this was reported.
    Clock,
    /// What is to be shown of it can't be written.
    Write(io::Error),
}

/// Reports that the line is too long.
pub(crate) fn tell_long(host: &HostRuntime, name: &str, line: u64) {
    let mut told = TextWriter::new(host.alloc());
    told.fill(
        "jobscope: $: line $: longer than 262144 bytes; the output covers the lines before it\n",
        &[Piece::Text(name), Piece::Number(line)],
    );
    tell_line(host, told);
}

/// Reports what keeps the journal from being read, and returns what that means. An error for want of memory, or of a write.
pub(crate) fn tell_fault(
    host: &HostRuntime,
    name: &str,
    fault: JournalFault,
) -> io::Result<Findings>
    ensures { IfOk result (λ found. found ≡ found_by fault) }
{
    let words = match fault {
        JournalFault::NoMemory => return Err(io::Error::from(ErrorKind::OutOfMemory)),
        JournalFault::Write(error) => return Err(error),
        JournalFault::Clock => return Ok(NO_CLOCK),
        JournalFault::Read(error) => {
            tell_of(host, name, &error);
            drop(error);
            return Ok(UNREADABLE);
        }
        JournalFault::LongLine(line) => {
            tell_long(host, name, line);
            return Ok(UNREADABLE);
        }
        JournalFault::NoHeader => "line 1: not a complete line; a journal begins with its header",
        JournalFault::BadHeader => "line 1: not the header of a journal",
        JournalFault::BadZone => "line 1: the header's zone is not valid",
        JournalFault::NoDate => "the clock of its zone does not show the date that an option names",
        JournalFault::BeginsLater => "it begins after the time that an option names",
        JournalFault::NoFile => "--at and --until need its file, which is read more than once",
        JournalFault::BadSettings => {
            "line 1: a setting's name is not a label, or the clock reading is past its limit"
        }
    };
    tell_of(host, name, &words);
    Ok(UNREADABLE)
}
