//! A journal's events for people, as they come.

use crate::found::Findings;
use crate::journal::fault::{JournalFault, tell_fault};
use crate::journal::lines::{JournalLines, Receives};
use crate::journal::source::{open_journal, read_source, tell_bad};
use std::alloc::Global;
use std::fs::File;
use std::io::{ErrorKind, Read, Seek, SeekFrom};
use std::sync::Wait;
use std::time::Duration;
use std::{io, mem, thread};

/// The milliseconds between two looks at a file that may grow.
const PAUSE: u64 = 250;

/// Shows the journal as it grows, and from the beginning if a new launcher has emptied it. A file that is away for a while, as when a new
/// launcher puts it aside, is waited for. It returns why the journal can't be read.
pub(crate) fn follow<W: Wait, H: Receives>(
    host: &HostRuntime,
    waits: &W,
    alloc: Global,
    path: &str,
    lines: &mut JournalLines,
    receiver: &mut H,
) -> io::Result<Findings> {
    let mut told: u64 = 0;
    let mut open = None;
    for _ in waits.forever() {
        match look(host, alloc, path, &mut open, lines, receiver) {
            Ok(()) => {}
            Err(fault) => return tell_fault(host, path, fault),
        }
        if lines.bad > told {
            let _is_bad = tell_bad(host, path, lines);
        }
        told = lines.bad;
        thread::sleep(host, Duration::from_millis(PAUSE));
    }
    unreachable!()
}

// Shows what is new: first of the file that is open, to its end, and then of the one that the path names now.
fn look<H: Receives>(
    host: &HostRuntime,
    alloc: Global,
    path: &str,
    open: &mut Option<File>,
    lines: &mut JournalLines,
    receiver: &mut H,
) -> Result<(), JournalFault> {
    if let Some(file) = open {
        if is_resumed(alloc, file, lines)? {
            read_source(host, file, false, lines, receiver)?;
        }
    }
    match reopened(host, alloc, path, lines) {
        Ok(mut file) => {
            let shown = read_source(host, &mut file, false, lines, receiver);
            drop(mem::replace(open, Some(file)));
            shown
        }
        Err(error) if error.kind() == ErrorKind::NotFound && lines.offset > 0 => Ok(()),
        Err(error) => Err(JournalFault::Read(error)),
    }
}

// Opens the file where it was read up to. If it is shorter than that, or begins otherwise, it is another journal: it is read from its
// beginning.
fn reopened(
    host: &HostRuntime,
    alloc: Global,
    path: &str,
    lines: &mut JournalLines,
) -> io::Result<File> {
    let mut file = open_journal(host, path)?;
    match go_on(alloc, &mut file, lines) {
        Ok(()) => Ok(file),
        Err(error) => {
            drop(file);
            Err(error)
        }
    }
}

fn go_on(alloc: Global, file: &mut File, lines: &mut JournalLines) -> io::Result<()> {
    if is_other(alloc, file, lines)? {
        drop(mem::replace(lines, JournalLines::new(alloc)));
    }
    file.seek(SeekFrom::Start(lines.offset))?;
    Ok(())
}

// Whether the file that is open is still the journal that was read up to here, and it goes on from there.
fn is_resumed(alloc: Global, file: &mut File, lines: &JournalLines) -> Result<bool, JournalFault> {
    match seen_again(alloc, file, lines) {
        Ok(is_same) => Ok(is_same),
        Err(error) => Err(JournalFault::Read(error)),
    }
}

fn seen_again(alloc: Global, file: &mut File, lines: &JournalLines) -> io::Result<bool> {
    file.seek(SeekFrom::Start(0))?;
    let is_other = is_other(alloc, file, lines)?;
    file.seek(SeekFrom::Start(lines.offset))?;
    Ok(!is_other)
}

fn is_other(alloc: Global, file: &File, lines: &JournalLines) -> io::Result<bool> {
    let length = file.metadata()?.len();
    let mut head = Vec::new(alloc);
    let _count = file.take(lines.head.len() as u64).read_to_end(&mut head)?;
    Ok(length < lines.offset || head.as_slice() != lines.head.as_slice())
}
