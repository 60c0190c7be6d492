//! What is known of a launcher and of each of its jobs: by its journal, by its status file, or by both. Each text and each list of objects that says why
//! jobs run or not, which of them fail, or when they start, is made of it.

pub(crate) mod by_file;
pub(crate) mod by_journal;
pub(crate) mod rows;

use crate::age::{AsOf, clock_as_of, reading_as_of};
use crate::joined::{Disabled, SourcesRead};
use crate::journal::labels::KnownLabel;
use crate::journal::reader::OpenJournal;
use crate::objects::job::{ReportContext, around_file, around_journal};
use crate::texts::failing::LauncherNow;
use crate::texts::told::ToldJob;
use calendar_due::Zone;
use history_model::{Reading, Text};
use job_defs::Def;
use leftovers::RunProcess;
use status_file::StatusLine;
use status_page::{
    Fault, StartWhen, StatusRead, ThrottleEnd, gone_on, reading_of, second_told, told_as_of,
};

/// Which source has the present, and the other one of the same launcher, if that was read too.
#[derive(Clone, Copy)]
pub(crate) enum Present<'a> {
    /// The journal, as of its end or of an earlier time.
    Journal(&'a OpenJournal, AsOf, Option<&'a StatusRead>),
    /// The status file, as of this second.
    File(&'a StatusRead, u64, Option<&'a OpenJournal>),
}

/// A launcher, as of when it is reported.
#[derive(Clone, Copy)]
pub(crate) struct LauncherView<'a> {
    pub(crate) present: Present<'a>,
    pub(crate) sources: SourcesRead,
    /// What its runs left running, as far as that was looked for.
    pub(crate) processes: &'a [RunProcess],
    /// Its own zone, in which the calendars of its jobs are.
    pub(crate) zone: &'a Zone,
    /// The zone in which times are shown.
    pub(crate) shown: &'a Zone,
    /// The clock reading as of which its jobs are reported.
    pub(crate) now: Reading,
    /// What the clocks show, if they went on alike, whether a launcher looked at them or not.
    pub(crate) clock: Reading,
    /// As of when, and whether it runs.
    pub(crate) around: ReportContext,
}

/// What is known of a label.
#[derive(Clone, Copy)]
pub(crate) enum LabelView<'a> {
    Loaded(JobView<'a>),
    Unloaded(UnloadedView<'a>),
}

/// What is known of a loaded job.
#[derive(Clone, Copy)]
pub(crate) struct JobView<'a> {
    pub(crate) label: &'a str,
    /// What the sentences on its reasons need.
    pub(crate) told: ToldJob<'a>,
    /// The clock reading of its source: that of the journal's last event, or that of the file.
    pub(crate) last: Reading,
    /// When time alone starts it, by the clocks as they count it.
    pub(crate) start: StartWhen,
    /// When it is throttled no longer, if it is throttled at that clock reading.
    pub(crate) throttle: Option<ThrottleEnd>,
    /// How many of its starts since its load were refused, or failed (`run_log::is_failure`).
    pub(crate) failures: u64,
    pub(crate) fault: Option<Fault>,
    /// The minute of its calendar that passed while no launcher ran.
    pub(crate) missed: Option<u64>,
    pub(crate) disabled: Option<Disabled>,
    pub(crate) past: JobPast<'a>,
    pub(crate) schedule: Schedule<'a>,
    /// Whether the status file has it.
    pub(crate) is_in_file: bool,
}

/// What a journal has of a job that the status file lacks.
#[derive(Clone, Copy)]
pub(crate) struct JobPast<'a> {
    /// Its last refused load only if that still matters.
    pub(crate) known: KnownLabel,
    /// Whether it looks as if its program put itself in the background.
    pub(crate) is_in_background: bool,
    /// The keys of its definition that are ignored.
    pub(crate) ignored: &'a [Text],
}

/// Where the entries of its calendar are.
#[derive(Clone, Copy)]
pub(crate) enum Schedule<'a> {
    Definition(&'a Def),
    Line(&'a StatusLine),
}

/// What is known of a label of which no job is loaded.
#[derive(Clone, Copy)]
pub(crate) struct UnloadedView<'a> {
    pub(crate) label: &'a str,
    /// When its job was removed, if it had one.
    pub(crate) gone: Option<Reading>,
    pub(crate) known: KnownLabel,
    /// Which of its sockets could not be bound, and why, if its last load was refused for that. The status file says it.
    pub(crate) unbound: Option<&'a str>,
    /// Whether the status file still has a job of this label.
    pub(crate) is_in_file: bool,
}

impl<'a> LauncherView<'a> {
    /// By a journal, and by its launcher's status file, if that was read.
    pub(crate) fn by_journal(
        journal: &'a OpenJournal,
        as_of: AsOf,
        standing: Option<&'a StatusRead>,
        processes: &'a [RunProcess],
        shown: &'a Zone,
    ) -> LauncherView<'a> {
        let last = journal.table.reading();
        LauncherView {
            present: Present::Journal(journal, as_of, standing),
            sources: match standing {
                Some(_) => SourcesRead::Both,
                None => SourcesRead::JournalAlone,
            },
            processes,
            zone: &journal.zone,
            shown,
            now: reading_as_of(as_of, last),
            clock: clock_as_of(as_of, last),
            around: around_journal(as_of, last),
        }
    }

    /// By a status file as of a second, and by its launcher's journal, if that was read.
    pub(crate) fn by_file(
        standing: &'a StatusRead,
        second: u64,
        journal: Option<&'a OpenJournal>,
        sources: SourcesRead,
        processes: &'a [RunProcess],
        zone: &'a Zone,
        shown: &'a Zone,
    ) -> LauncherView<'a> {
        let last = reading_of(standing);
        LauncherView {
            present: Present::File(standing, second, journal),
            sources,
            processes,
            zone,
            shown,
            now: told_as_of(standing, last, second),
            clock: gone_on(last, second),
            around: around_file(standing.seen, last),
        }
    }

    /// Its journal, if it was read.
    pub(crate) fn journal(&self) -> Option<&'a OpenJournal> {
        match self.present {
            Present::Journal(journal, _, _) => Some(journal),
            Present::File(_, _, journal) => journal,
        }
    }

    /// Its status file, if it was read.
    pub(crate) fn standing(&self) -> Option<&'a StatusRead> {
        match self.present {
            Present::Journal(_, _, standing) => standing,
            Present::File(standing, _, _) => Some(standing),
        }
    }

    /// Whether it may be running, and the `up` of its clock.
    pub(crate) fn launcher_now(&self) -> LauncherNow {
        LauncherNow {
            may_live: self.around.may_live,
            up: self.clock.up,
        }
    }
}

impl JobView<'_> {
    /// Whether the status file says what holds now; else the journal does.
    pub(crate) fn is_by_file(&self) -> bool {
        match self.schedule {
            Schedule::Line(_) => true,
            Schedule::Definition(_) => false,
        }
    }

    /// The second at which time alone starts it, as it is shown. It may be past: then the start is overdue since that second.
    pub(crate) fn start_second(&self) -> Option<u64> {
        match self.start {
            StartWhen::Since(at) | StartWhen::At(at) => Some(second_told(self.throttle, at)),
            StartWhen::Never => None,
        }
    }
}
