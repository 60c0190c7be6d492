//! What the journals of a launcher, and of those before it, say of the runs of its jobs. `metrics` counts them, so that its counts go on over a
//! restart.

ghost use Rattle.std.specs.Prelude.{IfOk};
ghost use Rattle.scope.specs.Journals.{ReceivesLine};

use crate::journal::fault::JournalFault;
use crate::journal::lines::{JournalLines, Receives};
use crate::journal::source::read_journal;
use crate::kept_journals::{
    MOST_BYTES, MOST_KEPT, before_path, begin_at, journal_of, kept_journals, length_at,
};
use calendar_due::Zone;
use ctl_protocol::{LineRoom, ReadFault, read_event, read_header};
use history_model::{Answer, Ended, Event, JobItem, MAX_WALL, Reading, Text};
use run_log::is_failure;
use run_times::{time_text, utc};
use status_file::JournalStatus;
use status_page::{RunCount, RunCounts, StatusRead};
use std::alloc::{AllocError, Global};

/// How lines begin that count nothing. Most lines of a journal are such lines, and are not read.
const UNCOUNTED: [&[u8]; 4] = [
    b"{\"ev\":\"saw\",",
    b"{\"conn\":",
    b"{\"ev\":\"list\"",
    b"{\"ev\":\"print\",",
];

/// How the line of a clock reading begins. It is read only once a run ends after it.
const CLOCK: &[u8] = b"{\"ev\":\"clock\",";

/// Counts the runs of some labels, line by line.
#[derive(Drop)]
struct RunCounter {
    alloc: Global,
    room: LineRoom,
    counts: RunCounts,
    /// The second of the header, or of the last clock reading that was read.
    wall: u64,
    /// The line of a later one.
    clock: Vec<u8>,
}

impl RunCounter {
    // The second of the last clock reading.
    fn second(&mut self) -> Result<u64, JournalFault> {
        if self.clock.is_empty() {
            return Ok(self.wall);
        }
        match read_event(self.alloc, self.clock.as_slice(), &mut self.room) {
            Ok(Event::Clock(at)) => self.wall = at.wall,
            Ok(event) => drop(event),
            Err(ReadFault::NoMemory) => return Err(JournalFault::NoMemory),
            Err(ReadFault::BadRequest) => {}
        }
        self.clock.clear();
        Ok(self.wall)
    }

    fn begin(&mut self, line: &[u8]) -> Result<bool, JournalFault> {
        self.clock.clear();
        match read_header(self.alloc, line) {
            Ok(header) => {
                self.wall = header.reading.wall;
                drop(header);
                Ok(true)
            }
            Err(ReadFault::NoMemory) => Err(JournalFault::NoMemory),
            Err(ReadFault::BadRequest) => Err(JournalFault::BadHeader),
        }
    }

    fn keep_clock(&mut self, line: &[u8]) -> Result<bool, JournalFault> {
        self.clock.clear();
        match self.clock.extend_from_slice(line) {
            Ok(()) => Ok(true),
            Err(_) => Err(JournalFault::NoMemory),
        }
    }

    // Counts what an event says of a run.
    fn count(&mut self, line: &[u8]) -> Result<bool, JournalFault> {
        let second = self.second()?;
        match read_event(self.alloc, line, &mut self.room) {
            Ok(event) => {
                count_event(&mut self.counts, &event, second);
                drop(event);
                Ok(true)
            }
            Err(ReadFault::NoMemory) => Err(JournalFault::NoMemory),
            Err(ReadFault::BadRequest) => Ok(false),
        }
    }
}

fn count_event(counts: &mut RunCounts, event: &Event<'_>, second: u64) {
    if let Event::OfJob { job, item } = event {
        if let Some(count) = counts.of_mut(job.as_str()) {
            count_item(count, *item, second);
        }
    }
}

// Counts an answer to an order, or the end of a run.
fn count_item(count: &mut RunCount, item: JobItem, second: u64) {
    match item {
        JobItem::Answered(Answer::Spawned { .. }) => count_start(count),
        JobItem::Answered(Answer::SpawnRefused { .. }) => {
            count_start(count);
            count.refusals = count.refusals.saturating_add(1);
        }
        JobItem::Answered(Answer::Termed { .. } | Answer::Killed { .. }) => {
            count.is_ordered_to_end = true;
        }
        JobItem::Ended { how, .. } => count_end(count, how, second),
        _ => {}
    }
}

fn count_start(count: &mut RunCount) {
    count.starts = count.starts.saturating_add(1);
    count.is_ordered_to_end = false;
}

fn count_end(count: &mut RunCount, how: Ended, second: u64) {
    if is_failure(how, count.is_ordered_to_end) {
        count.failures = count.failures.saturating_add(1);
    }
    match how {
        Ended::Code(0) => count.succeeded = Some(second),
        _ => {}
    }
}

impl Receives for RunCounter {
    ghost stands = { λ counter lines. Unit {0} };

    fn receive(
        &mut self,
        line: &[u8],
        is_header: bool,
        shown: &mut String,
    ) -> Result<bool, JournalFault> {
        let _ = shown; // nothing is shown
        if is_header {
            self.begin(line)
        } else if line.starts_with(CLOCK) {
            self.keep_clock(line)
        } else if UNCOUNTED.iter().any(|front| line.starts_with(front)) {
            Ok(true)
        } else {
            self.count(line)
        }
    }
}

/// What the journals say of the runs of the file's jobs: that of its launcher, and of those before that began in the same month. None: the launcher
/// writes none, or closed it; it is not found, can't be read, or has too many bytes.
pub(crate) fn counts_of(
    host: &HostRuntime,
    alloc: Global,
    standing: &StatusRead,
) -> Result<Option<RunCounts>, AllocError> {
    if !is_open(standing) {
        return Ok(None);
    }
    let Some((path, begun)) = journal_of(host, alloc, standing)? else {
        return Ok(None);
    };
    let found = counted_at(host, alloc, standing, path.as_str(), begun);
    drop(path);
    found
}

fn is_open(standing: &StatusRead) -> bool {
    match standing.launcher() {
        Some(launcher) => match launcher.journal {
            JournalStatus::Open => true,
            JournalStatus::None | JournalStatus::Closed(_) => false,
        },
        None => false,
    }
}

// Reads the journals, the oldest first.
fn counted_at(
    host: &HostRuntime,
    alloc: Global,
    standing: &StatusRead,
    path: &str,
    begun: Reading,
) -> Result<Option<RunCounts>, AllocError> {
    let Some(length) = length_at(host, path) else {
        return Ok(None);
    };
    let Some(room) = MOST_BYTES.checked_sub(length) else {
        return Ok(None);
    };
    let (before, since) = before_of(host, alloc, path, begun, room)?;
    let mut counter = counter_of(alloc, standing, since)?;
    let mut is_read = true;
    for newer in 0..before {
        if is_read {
            let older = before_path(alloc, path, before - newer)?;
            is_read = is_counted(host, alloc, older.as_str(), &mut counter)?;
            drop(older);
        }
    }
    let is_read = is_read && is_counted(host, alloc, path, &mut counter)?;
    let RunCounter { counts, .. } = counter;
    if is_read {
        Ok(Some(counts))
    } else {
        drop(counts);
        Ok(None)
    }
}

// Each job of the file is counted.
fn counter_of(alloc: Global, standing: &StatusRead, since: u64) -> Result<RunCounter, AllocError> {
    let mut counts = RunCounts::new(alloc, since);
    for line in standing.jobs() {
        if let Ok(job) = line.job() {
            counts.add_label(alloc, job.label)?;
        }
    }
    Ok(RunCounter {
        alloc,
        room: LineRoom::new(alloc)?,
        counts,
        wall: since,
        clock: Vec::new(alloc),
    })
}

// Whether the journal could be read, and so is counted.
fn is_counted(
    host: &HostRuntime,
    alloc: Global,
    path: &str,
    counter: &mut RunCounter,
) -> Result<bool, AllocError> {
    let mut lines = JournalLines::new(alloc);
    let read = read_journal(host, Some(path), false, &mut lines, counter);
    drop(lines);
    match read {
        Ok(()) => Ok(true),
        Err(JournalFault::NoMemory) => Err(AllocError),
        Err(fault) => {
            drop(fault);
            Ok(false)
        }
    }
}

// How many journals of launchers before are counted, and from which second on: of those that began in the month in which this launcher began, in UTC.
// Only so a count never falls but to what this launcher itself counts. If the oldest journal that is kept counted always, each start of a launcher
// would take its runs away, and Prometheus would take what is left for new runs. So none counts if an earlier one of the month may be gone, or if
// they have more bytes than there is room for.
fn before_of(
    host: &HostRuntime,
    alloc: Global,
    path: &str,
    begun: Reading,
    room: u64,
) -> Result<(u64, u64), AllocError> {
    let most = kept_journals(host)?;
    let zone = utc();
    let month = month_of(alloc, &zone, begun.wall)?;
    let (mut count, mut since, mut left) = (0, begun.wall, Some(room));
    let mut is_whole = false;
    for number in 1..most.min(MOST_KEPT) + 1 {
        if !is_whole {
            let before = before_path(alloc, path, number)?;
            let length = length_at(host, before.as_str()).unwrap_or(0);
            let earlier = begin_at(host, alloc, before.as_str())?;
            drop(before);
            match earlier {
                Some(at) if is_in_month(alloc, &zone, at.wall, month.as_str())? => {
                    count = number;
                    since = at.wall;
                    left = left.and_then(|room| room.checked_sub(length));
                }
                _ => is_whole = true,
            }
        }
    }
    drop(month);
    drop(zone);
    Ok(if is_whole && left.is_some() {
        (count, since)
    } else {
        (0, begun.wall)
    })
}

// The year and the month of a second, as `2026-11`.
fn month_of(alloc: Global, zone: &Zone, second: u64) -> Result<String, AllocError> {
    let text = time_text(alloc, zone, second.min(MAX_WALL))?;
    let month = String::from_str(alloc, text.as_str().get(..7).unwrap_or(""));
    drop(text);
    month
}

fn is_in_month(alloc: Global, zone: &Zone, second: u64, month: &str) -> Result<bool, AllocError> {
    let text = month_of(alloc, zone, second)?;
    let is_same = text.as_str() == month;
    drop(text);
    Ok(is_same)
}
