//! What `why` and `next` say of a launcher that was read: by its journal, by its status file, or by both.

use crate::age::AsOf;
use crate::asked::{NextAsked, WhyAsked};
use crate::beside::standing_beside;
use crate::found::{Findings, WELL};
use crate::journal::reader::OpenJournal;
use crate::left::left_for;
use crate::next::put_next;
use crate::view::LauncherView;
use crate::why::put_why;
use calendar_due::Zone;
use launchctl_words::{ScopeCommand, ScopeTask};
use std::alloc::Global;
use std::io;

/// Why each job runs or not, or when each starts, by the journal and, if the report is of now, by the status file of its launcher.
pub(crate) fn put_joined<'x>(
    host: &HostRuntime,
    alloc: Global,
    name: &str,
    journal: &'x OpenJournal,
    zone: &'x Zone,
    of: &'x ScopeCommand,
    as_of: AsOf,
) -> io::Result<Findings> {
    let standing = match as_of {
        AsOf::Seen(_, _, _) => standing_beside(host, alloc, journal.begun, of.words.as_slice())?,
        AsOf::End(_) | AsOf::Moment { .. } => None,
    };
    let left = match &standing {
        Some(standing) => left_for(host, alloc, standing, Some(journal), of),
        None => Ok(Vec::new(alloc)),
    };
    let found = match &left {
        Ok(left) => {
            let file = standing.as_ref();
            let view = LauncherView::by_journal(journal, as_of, file, left.as_slice(), zone);
            put_view(host, alloc, name, &view, of)
        }
        Err(_) => Err(io::Error::from(io::ErrorKind::OutOfMemory)),
    };
    drop(left);
    drop(standing);
    found
}

/// Writes what the arguments ask of a launcher that was read: why each job runs or not, or when each starts.
pub(crate) fn put_view<'x>(
    host: &HostRuntime,
    alloc: Global,
    name: &str,
    view: &LauncherView<'x>,
    of: &'x ScopeCommand,
) -> io::Result<Findings> {
    match &of.task {
        ScopeTask::Why(why) => put_why(host, alloc, name, view, WhyAsked::of(of, why)),
        ScopeTask::Next(next) => {
            put_next(host, alloc, name, view, NextAsked::of(of, next))?;
            Ok(WELL)
        }
        ScopeTask::Check(_)
        | ScopeTask::Log(_)
        | ScopeTask::Runs(_)
        | ScopeTask::Picture(_)
        | ScopeTask::Cron(_)
        | ScopeTask::Plist(_)
        | ScopeTask::Status
        | ScopeTask::Metrics
        | ScopeTask::Show
        | ScopeTask::Drift => Ok(WELL),
    }
}
