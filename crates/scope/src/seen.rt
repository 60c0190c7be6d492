//! As of when a journal is reported, and what is seen of the launcher that writes it.

use crate::age::AsOf;
use crate::clock::now;
use crate::journal::fault::JournalFault;
use crate::listener::JournalListener;
use launcher_life::{JournalAsked, LauncherSeen, journal_life};
use std::alloc::Global;

/// The journal's end, seen now. The launcher is looked for only after the read: one that exited meanwhile does not count as running.
pub(crate) fn seen_now(
    host: &HostRuntime,
    alloc: Global,
    path: Option<&str>,
    listener: &JournalListener<'_>,
) -> Result<AsOf, JournalFault> {
    let second = match listener.of.from {
        Some(second) => Some(second),
        None => now(host),
    };
    let seen = seen_at(host, alloc, path, listener);
    let is_ending = match &listener.journal {
        Some(journal) => journal.table.is_shutting_down(),
        None => false,
    };
    match second {
        Some(second) => Ok(AsOf::Seen(second, seen, is_ending)),
        None => Err(JournalFault::Clock),
    }
}

/// What is seen of the launcher that writes the journal at the path, which was read to its end. None if it has no file.
pub(crate) fn seen_at(
    host: &HostRuntime,
    alloc: Global,
    path: Option<&str>,
    listener: &JournalListener<'_>,
) -> Option<LauncherSeen> {
    let has_ended = match &listener.journal {
        Some(journal) => journal.has_ended(),
        None => false,
    };
    Some(journal_life(
        host,
        alloc,
        JournalAsked {
            path: path?,
            has_ended,
        },
    ))
}

/// The same time, which is within a gap if it is later than the journal's last event and the launcher of the journal runs no more.
pub(crate) fn with_gap(
    host: &HostRuntime,
    alloc: Global,
    path: Option<&str>,
    listener: &JournalListener<'_>,
    as_of: AsOf,
) -> AsOf {
    let last = match &listener.journal {
        Some(journal) => journal.table.reading().wall,
        None => 0,
    };
    match as_of {
        AsOf::Moment {
            second,
            is_end: true,
            ..
        } if second > last => {
            let seen = AsOf::End(seen_at(host, alloc, path, listener));
            AsOf::Moment {
                second,
                is_end: true,
                is_gap: listener.is_followed || !seen.foretells(),
            }
        }
        as_of => as_of,
    }
}
