//! The other source of a launcher: the journal besides its status file, and the status file besides its journal. Both are of one launcher if its first
//! clock reading is the same in both.

ghost use Rattle.std.specs.Prelude.{◌≡◌};
ghost use Rattle.scope.specs.Joined.{is_long};

use crate::joined::SourcesRead;
use crate::journal::fault::JournalFault;
use crate::journal::labels::KnownLabels;
use crate::journal::lines::JournalLines;
use crate::journal::reader::OpenJournal;
use crate::journal::source::read_journal;
use crate::kept_journals::{
    MOST_BYTES, MOST_KEPT, before_path, begin_at, begun_of, journal_of, kept_journals, length_at,
};
use crate::launcher::launcher_files;
use crate::listener::JournalListener;
use crate::window::WHOLE;
use history_model::{Reading, Text};
use launchctl_words::ScopeCommand;
use status_file::{DisabledBy, StatusFault};
use status_page::{Diagnostic, StatusRead, is_asked, named_path, read_standing};
use std::alloc::{AllocError, Global};
use std::mem;

/// The journal of a status file's launcher.
#[derive(Drop)]
pub(crate) enum BesideJournal {
    /// It was read to its end.
    Read(OpenJournal),
    /// It has more bytes than are read.
    Long,
    /// There is none, it can't be read, or it is another launcher's.
    Unread,
    /// The file has all that is asked for.
    Unneeded,
}

impl BesideJournal {
    /// The journal, if it was read.
    pub(crate) fn journal(&self) -> Option<&OpenJournal> {
        match self {
            BesideJournal::Read(journal) => Some(journal),
            BesideJournal::Long | BesideJournal::Unread | BesideJournal::Unneeded => None,
        }
    }

    /// Which sources were read, the status file among them.
    pub(crate) fn sources(&self) -> SourcesRead {
        match self {
            BesideJournal::Read(_) => SourcesRead::Both,
            BesideJournal::Long => SourcesRead::FileOfLongJournal,
            BesideJournal::Unread => SourcesRead::FileAlone,
            BesideJournal::Unneeded => SourcesRead::FileEnough,
        }
    }
}

/// The status file that is read besides journals, and the first clock reading of its launcher: that of `JOBD_STATUS_FILE`, else that of the launcher that
/// is meant. Of its jobs it has those of the labels, or all if none is named. None: it can't be read, or is not a launcher's.
pub(crate) fn file_beside(
    host: &HostRuntime,
    alloc: Global,
    labels: &[Text],
) -> Result<Option<(StatusRead, Reading)>, AllocError> {
    let Some(path) = status_path(host, alloc)? else {
        return Ok(None);
    };
    let read = read_standing(host, alloc, path.as_str(), labels);
    drop(path);
    match read {
        Ok(standing) => with_begun(alloc, standing),
        Err(Diagnostic::NoMemory | Diagnostic::Line(_, StatusFault::NoMemory)) => Err(AllocError),
        unread => {
            drop(unread);
            Ok(None)
        }
    }
}

// The file with its launcher's first clock reading, if it has one.
fn with_begun(
    alloc: Global,
    standing: StatusRead,
) -> Result<Option<(StatusRead, Reading)>, AllocError> {
    match begun_of(alloc, &standing) {
        Ok(Some(begun)) => Ok(Some((standing, begun))),
        Ok(None) => {
            drop(standing);
            Ok(None)
        }
        Err(error) => {
            drop(standing);
            Err(error)
        }
    }
}

/// The status file of the journal's launcher: that of `JOBD_STATUS_FILE`, else that of the launcher that is meant. Of its jobs it has those of the labels,
/// or all if none is named. None: it can't be read, or is another launcher's.
pub(crate) fn standing_beside(
    host: &HostRuntime,
    alloc: Global,
    begun: Reading,
    labels: &[Text],
) -> Result<Option<StatusRead>, AllocError> {
    match file_beside(host, alloc, labels)? {
        Some((standing, first)) if first == begun => Ok(Some(standing)),
        other => {
            drop(other);
            Ok(None)
        }
    }
}

fn status_path(host: &HostRuntime, alloc: Global) -> Result<Option<String>, AllocError> {
    if let Some(path) = named_path(host, &None::<Text>)? {
        return Ok(Some(path));
    }
    match launcher_files(host, alloc) {
        Ok(files) => Ok(files.into_status_file()),
        Err(error) => {
            drop(error);
            Err(AllocError)
        }
    }
}

/// The journal of the file's launcher, read to its end, if it has not too many bytes. A part of it would say what was, and not what is. If the file lacks
/// the time of a label's setting, the journals before it are read too, as far as all have not too many bytes.
pub(crate) fn journal_beside(
    host: &HostRuntime,
    alloc: Global,
    of: &ScopeCommand,
    standing: &StatusRead,
) -> Result<BesideJournal, AllocError> {
    let Some((path, begun)) = journal_of(host, alloc, standing)? else {
        return Ok(BesideJournal::Unread);
    };
    if is_long(length_at(host, path.as_str())) {
        drop(path);
        return Ok(BesideJournal::Long);
    }
    let mut listener = JournalListener::new(alloc, of, WHOLE, None);
    let with_before = leaves_open(standing, of.words.as_slice());
    let read = read_all(host, alloc, path.as_str(), with_before, &mut listener);
    drop(path);
    let journal = listener.journal.take();
    drop(listener);
    match read {
        Ok(()) => Ok(begun_at(journal, begun)),
        Err(error) => {
            drop(journal);
            Err(error)
        }
    }
}

// The journal, if it has this first clock reading: the last one that was read may be an earlier one.
fn begun_at(journal: Option<OpenJournal>, begun: Reading) -> BesideJournal {
    match journal {
        Some(journal) if journal.begun == begun => BesideJournal::Read(journal),
        journal => {
            drop(journal);
            BesideJournal::Unread
        }
    }
}

// Whether a journal of this length has more bytes than are read.
fn is_long(length: Option<u64>) -> bool
    ensures { result ≡ is_long length }
{
    match length {
        Some(length) => length > MOST_BYTES,
        None => false,
    }
}

/// What the journals say of settings, if the file leaves open since when a label is disabled that is asked for. Nothing if they don't say it.
pub(crate) fn settings_of(
    host: &HostRuntime,
    alloc: Global,
    of: &ScopeCommand,
    standing: &StatusRead,
) -> Result<KnownLabels, AllocError> {
    if !leaves_open(standing, of.words.as_slice()) {
        return Ok(KnownLabels::new(alloc));
    }
    match journal_beside(host, alloc, of, standing)? {
        BesideJournal::Read(mut journal) => {
            let labels = mem::replace(&mut journal.past.labels, KnownLabels::new(alloc));
            drop(journal);
            Ok(labels)
        }
        BesideJournal::Long | BesideJournal::Unread | BesideJournal::Unneeded => {
            Ok(KnownLabels::new(alloc))
        }
    }
}

// Whether a job that is asked for is disabled by a setting of which the file has no time.
fn leaves_open(standing: &StatusRead, labels: &[Text]) -> bool {
    for line in standing.jobs() {
        match line.job() {
            Ok(job) if is_asked(labels, job.label) => {
                match (job.disabled, job.note.disabled_at) {
                    (Some(DisabledBy::Override), None) => return true,
                    _ => {}
                }
            }
            _ => {}
        }
    }
    false
}

// Reads the journals, the oldest first. One that can't be read says nothing.
fn read_all(
    host: &HostRuntime,
    alloc: Global,
    path: &str,
    with_before: bool,
    listener: &mut JournalListener<'_>,
) -> Result<(), AllocError> {
    let before = if with_before {
        count_before(host, alloc, path)?
    } else {
        0
    };
    for newer in 0..before {
        let older = before_path(alloc, path, before - newer)?;
        let read = read_one(host, alloc, older.as_str(), listener);
        drop(older);
        read?;
    }
    read_one(host, alloc, path, listener)
}

fn read_one(
    host: &HostRuntime,
    alloc: Global,
    path: &str,
    listener: &mut JournalListener<'_>,
) -> Result<(), AllocError> {
    let mut lines = JournalLines::new(alloc);
    let read = read_journal(host, Some(path), false, &mut lines, listener);
    drop(lines);
    match read {
        Err(JournalFault::NoMemory) => Err(AllocError),
        read => {
            drop(read);
            Ok(())
        }
    }
}

// How many journals of launchers before are there, without a gap, as far as their bytes and those of the last journal are not too many.
fn count_before(host: &HostRuntime, alloc: Global, path: &str) -> Result<u64, AllocError> {
    let last = length_at(host, path).unwrap_or(0);
    let mut room = MOST_BYTES.checked_sub(last);
    let mut count = 0;
    for number in 1..kept_journals(host)?.min(MOST_KEPT) + 1 {
        let before = before_path(alloc, path, number)?;
        let length = length_at(host, before.as_str()).unwrap_or(0);
        let is_there = begin_at(host, alloc, before.as_str())?.is_some();
        drop(before);
        room = if is_there {
            room.and_then(|room| room.checked_sub(length))
        } else {
            None
        };
        if room.is_some() {
            count = number;
        }
    }
    Ok(count)
}
