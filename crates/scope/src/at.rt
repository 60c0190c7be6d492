//! Reads a journal up to a given time.

ghost use Rattle.std.specs.Prelude.{None, OnOk};
ghost use Rattle.scope.specs.Journals.{ReceivesAll, StandsAfter};

use crate::age::AsOf;
use crate::journal::fault::JournalFault;
use crate::journal::lines::{JournalLines, Receives};
use crate::journal::source::{open_journal, read_journal, read_source};
use crate::listener::{JournalListener, zone_shown};
use crate::window::{WHOLE, meant};
use history_model::{MAX_WALL, Text};
use launchctl_words::ScopeCommand;
use moment_words::Moment;
use std::alloc::Global;
use std::io::Read;

/// Finds the last event of a journal that is not later than a second of `wall`.
#[derive(Drop)]
struct MomentFinder<'a> {
    listener: JournalListener<'a>,
    until: u64,
    /// How many bytes the received lines have, and those up to that event.
    read: u64,
    found: u64,
}

impl Receives for MomentFinder<'_> {
    ghost stands = { λ finder lines. StandsAfter finder.listener.journal lines };

    fn receive(
        &mut self,
        line: &[u8],
        is_header: bool,
        shown: &mut String,
    ) -> Result<bool, JournalFault> {
        let is_event = self.listener.receive(line, is_header, shown)?;
        self.read = self
            .read
            .saturating_add(line.len() as u64)
            .saturating_add(1);
        if last_second(&self.listener) <= self.until {
            self.found = self.read;
        }
        Ok(is_event)
    }
}

/// Where a journal is cut.
#[derive(Clone, Copy)]
struct Cut {
    /// How many of its bytes are read.
    bytes: u64,
    /// Whether these are all.
    is_end: bool,
    /// The number of a line that is too long. Nothing after it is read.
    long: Option<u64>,
}

/// Which of several journals are read up to this time, and the second that the time means. Journals at the end of the list that begin later are
/// dropped; the first one is always kept. The time is read as of the last journal, as in `read_up_to`. None: there are fewer than two journals, or
/// the second can't be found in the last one. Whoever reads the last one reports that.
pub(crate) fn begun_by<'a>(
    host: &HostRuntime,
    alloc: Global,
    paths: &'a [Text],
    of: &ScopeCommand,
    moment: Moment,
    now: Option<u64>,
) -> Option<(&'a [Text], u64)> {
    let [_, .., last] = paths else {
        return None;
    };
    let second = match second_of(host, alloc, last.as_str(), of, moment, now) {
        Ok(second) => second,
        Err(_) => return None,
    };
    let mut told = paths;
    for _ in 1..paths.len() {
        match told.split_last() {
            Some((last, before)) if begins_behind(host, alloc, last.as_str(), of, second) => {
                told = before;
            }
            _ => return Some((told, second)),
        }
    }
    Some((told, second))
}

// A journal that can't be read does not count as one that begins later.
fn begins_behind(
    host: &HostRuntime,
    alloc: Global,
    path: &str,
    of: &ScopeCommand,
    second: u64,
) -> bool {
    match cut_at(host, alloc, path, of, second) {
        Ok(cut) => cut.bytes == 0,
        Err(_) => false,
    }
}

/// Reads the journal at the path up to its last event that is not later than the given time. It returns as of when the journal is reported: as of
/// that time, or as of the journal's end if the end is earlier. The time is read as of `now`; if `now` is `None`, as of the journal's last event. The
/// journal is read twice for this, and once more if its zone or its last event must be known.
pub(crate) fn read_up_to(
    host: &HostRuntime,
    alloc: Global,
    path: Option<&str>,
    moment: Moment,
    now: Option<u64>,
    lines: &mut JournalLines,
    listener: &mut JournalListener<'_>,
) -> Result<AsOf, JournalFault> {
    let Some(path) = path else {
        return Err(JournalFault::NoFile);
    };
    let of = listener.of;
    let second = second_of(host, alloc, path, of, moment, now)?;
    let cut = cut_at(host, alloc, path, of, second)?;
    read_front_of(host, path, cut.bytes, lines, listener)?;
    match cut.long {
        _ if lines.count == 0 => Err(JournalFault::BeginsLater),
        Some(line) => Err(JournalFault::LongLine(line)),
        None => Ok(AsOf::Moment {
            second,
            is_end: cut.is_end,
            is_gap: false,
        }),
    }
}

// Reads this many bytes of the journal.
fn read_front_of<H: Receives>(
    host: &HostRuntime,
    path: &str,
    bytes: u64,
    lines: &mut JournalLines,
    receiver: &mut H,
) -> Result<(), JournalFault>
    ensures { OnOk result (ReceivesAll H.stands None None lines.old receiver.old lines.new receiver.new) }
{
    match open_journal(host, path) {
        Ok(file) => {
            let mut front = file.take(bytes);
            let read = read_source(host, &mut front, true, lines, receiver);
            drop(front);
            read
        }
        Err(error) => Err(JournalFault::Read(error)),
    }
}

// Where the journal is cut for this second.
fn cut_at(
    host: &HostRuntime,
    alloc: Global,
    path: &str,
    of: &ScopeCommand,
    until: u64,
) -> Result<Cut, JournalFault> {
    let mut finder = finder_of(alloc, of, until);
    let long = scan(host, alloc, path, &mut finder)?;
    let is_end = finder.found == finder.read;
    let bytes = finder.found;
    drop(finder);
    Ok(Cut {
        bytes,
        is_end,
        long,
    })
}

// The second that the time means. The journal's zone decides, unless the time is a second already.
fn second_of(
    host: &HostRuntime,
    alloc: Global,
    path: &str,
    of: &ScopeCommand,
    moment: Moment,
    now: Option<u64>,
) -> Result<u64, JournalFault> {
    if let Moment::Second(second) = moment {
        return Ok(second);
    }
    let mut finder = finder_of(alloc, of, MAX_WALL);
    let _long = scan(host, alloc, path, &mut finder)?;
    let last = last_second(&finder.listener).min(MAX_WALL);
    let second = match &finder.listener.journal {
        Some(journal) => {
            let zone = zone_shown(of, &finder.listener.utc, &journal.zone);
            meant(moment, zone, now.unwrap_or(last))
        }
        None => Ok(last),
    };
    drop(finder);
    second
}

fn finder_of(alloc: Global, of: &ScopeCommand, until: u64) -> MomentFinder<'_> {
    MomentFinder {
        listener: JournalListener::new(alloc, of, WHOLE, None),
        until,
        read: 0,
        found: 0,
    }
}

// Reads the journal to its end, or to a line that is too long, and returns the number of that line.
fn scan(
    host: &HostRuntime,
    alloc: Global,
    path: &str,
    finder: &mut MomentFinder<'_>,
) -> Result<Option<u64>, JournalFault> {
    let mut lines = JournalLines::new(alloc);
    let read = read_journal(host, Some(path), true, &mut lines, finder);
    drop(lines);
    match read {
        Ok(()) => Ok(None),
        Err(JournalFault::LongLine(line)) => Ok(Some(line)),
        Err(fault) => Err(fault),
    }
}

// The second of its last event.
fn last_second(listener: &JournalListener<'_>) -> u64 {
    match &listener.journal {
        Some(journal) => journal.table.reading().wall,
        None => 0,
    }
}
