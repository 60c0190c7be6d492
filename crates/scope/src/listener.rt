//! What is made of a journal's lines as they are read.

ghost use Rattle.std.specs.Prelude.{IfOk};
ghost use Rattle.scope.specs.Journals.{ReceivesLine, StandsAfter};

use crate::charted::ReceivedMarks;
use crate::journal::fault::JournalFault;
use crate::journal::lines::Receives;
use crate::journal::news::News;
use crate::journal::reader::{OpenJournal, open};
use crate::named_labels::NamedLabels;
use crate::texts::log::{add_lines, tells_refused};
use crate::texts::log_ends::{add_clock, add_end};
use crate::window::{ReportedSpan, Window};
use calendar_due::Zone;
use history_model::{Reading, Text};
use launchctl_words::{ScopeCommand, ScopeTask};
use launcher_life::Life;
use run_times::Filling::Now;
use run_times::{Page, utc};
use status_page::StatusRead;
use std::alloc::{AllocError, Global};
use std::mem;

/// What is made of each line.
#[derive(Clone, Copy)]
enum Kept {
    /// Nothing: the journal's end is asked for.
    End,
    /// The marks of a chart.
    Marks,
    /// The lines of a log.
    Lines,
}

fn kept_for(task: &ScopeTask) -> Kept {
    match task {
        ScopeTask::Log(_) => Kept::Lines,
        ScopeTask::Picture(_) => Kept::Marks,
        ScopeTask::Check(_)
        | ScopeTask::Next(_)
        | ScopeTask::Status
        | ScopeTask::Metrics
        | ScopeTask::Why(_)
        | ScopeTask::Runs(_)
        | ScopeTask::Cron(_)
        | ScopeTask::Plist(_)
        | ScopeTask::Show
        | ScopeTask::Drift => Kept::End,
    }
}

/// Receives each line of a journal, and applies it to the journal's table. For a picture it keeps the marks of a chart, and for a log it
/// shows the lines. Other tasks need only the journal's end.
#[derive(Drop)]
pub(crate) struct JournalListener<'a> {
    alloc: Global,
    pub(crate) of: &'a ScopeCommand,
    kept: Kept,
    /// The journal, if its header was read.
    pub(crate) journal: Option<OpenJournal>,
    pub(crate) received: ReceivedMarks<'a>,
    /// The labels of the arguments that its lines named.
    pub(crate) named: NamedLabels<'a>,
    pub(crate) utc: Zone,
    pub(crate) window: Window,
    /// For a log, the status file of a launcher, and that launcher's first clock reading.
    pub(crate) beside: Option<(&'a StatusRead, Reading)>,
    /// Whether a start that was refused was shown of a launcher whose status file was not read.
    pub(crate) lacks_reason: bool,
    /// Whether a later journal is left out, since it begins after the time that is asked for.
    pub(crate) is_followed: bool,
    /// The seconds of the window, by the zone of the last header.
    told: ReportedSpan,
}

impl<'a> JournalListener<'a> {
    /// No line is received yet for what the command asks for.
    pub(crate) fn new(
        alloc: Global,
        of: &'a ScopeCommand,
        window: Window,
        beside: Option<(&'a StatusRead, Reading)>,
    ) -> JournalListener<'a> {
        JournalListener {
            alloc,
            of,
            kept: kept_for(&of.task),
            journal: None,
            received: ReceivedMarks::new(alloc, of.words.as_slice()),
            named: NamedLabels::new(alloc, of.words.as_slice()),
            utc: utc(),
            window,
            beside,
            lacks_reason: false,
            is_followed: false,
            told: ReportedSpan {
                since: 0,
                until: u64::MAX,
            },
        }
    }

    /// Whether a log has what comes at this clock reading.
    pub(crate) fn tells(&self, at: Reading) -> bool {
        is_within(self.told, at.wall)
    }

    // The line of a log for the end of the journal that comes before this header, if that was not one in order.
    fn tell_end(&self, shown: &mut String) -> Result<(), JournalFault> {
        match (&self.journal, self.kept) {
            (Some(journal), Kept::Lines) if self.tells(journal.table.reading()) => {
                let zone = zone_shown(self.of, &self.utc, &journal.zone);
                let mut page = Page::new(self.alloc, zone, journal.table.reading());
                let life = if journal.has_ended() {
                    Life::Exited
                } else {
                    Life::Killed
                };
                add_end(&mut page, life);
                match add_text(page, shown) {
                    Ok(()) => Ok(()),
                    Err(_) => Err(JournalFault::NoMemory),
                }
            }
            _ => Ok(()),
        }
    }

    // The line of a log for a clock that was set, if the last line shows it; `before` is the clock reading before that line.
    fn tell_clock(&self, before: Reading, shown: &mut String) -> Result<(), JournalFault> {
        match (&self.journal, self.kept) {
            (Some(journal), Kept::Lines) if self.tells(journal.table.reading()) => {
                let now = journal.table.reading();
                let zone = zone_shown(self.of, &self.utc, &journal.zone);
                let mut page = Page::new(self.alloc, zone, now);
                add_clock(&mut page, before, now);
                match add_text(page, shown) {
                    Ok(()) => Ok(()),
                    Err(_) => Err(JournalFault::NoMemory),
                }
            }
            _ => Ok(()),
        }
    }

    // The clock reading of the journal's last line.
    fn reading(&self) -> Option<Reading> {
        match &self.journal {
            Some(journal) => Some(journal.table.reading()),
            None => None,
        }
    }

    // The seconds of the window, by the zone of the header.
    fn told(&self) -> Result<ReportedSpan, JournalFault> {
        match &self.journal {
            Some(journal) => {
                let zone = zone_shown(self.of, &self.utc, &journal.zone);
                self.window.told(zone)
            }
            None => Ok(self.told),
        }
    }

    // A log that is asked for from a second on says where the first journal begins, if that is later.
    fn tell_begin(
        &self,
        is_first: bool,
        since: u64,
        shown: &mut String,
    ) -> Result<(), JournalFault> {
        match (&self.journal, self.kept) {
            (Some(journal), Kept::Lines) if is_first && since > 0 => {
                let now = journal.table.reading();
                if since >= now.wall {
                    return Ok(());
                }
                let zone = zone_shown(self.of, &self.utc, &journal.zone);
                let mut page = Page::new(self.alloc, zone, now);
                page.add(
                    "$  the journals begin: what was before is not kept\n",
                    &[Now],
                );
                match add_text(page, shown) {
                    Ok(()) => Ok(()),
                    Err(_) => Err(JournalFault::NoMemory),
                }
            }
            _ => Ok(()),
        }
    }

    // Takes in the line, and says whether it is an event, or the header.
    fn take(&mut self, line: &[u8], is_header: bool) -> Result<bool, JournalFault>
        ensures { IfOk result (λ _.
            ReceivesLine StandsAfter self.old.journal line.now is_header self.new.journal) }
    {
        match &mut self.journal {
            Some(journal) if !is_header => match journal.take(self.alloc, line) {
                Ok(is_event) => Ok(is_event),
                Err(_) => Err(JournalFault::NoMemory),
            },
            kept => {
                let mut opened = open(self.alloc, line)?;
                opened.past.has_news = match self.kept {
                    Kept::Marks | Kept::Lines => true,
                    Kept::End => false,
                };
                if let Some(before) = kept {
                    let last = before.table.reading();
                    let now = opened.table.reading();
                    opened.past.follow(&mut before.past, last, now);
                }
                drop(mem::replace(kept, Some(opened)));
                Ok(true)
            }
        }
    }
}

impl Receives for JournalListener<'_> {
    ghost stands = { λ listener lines. StandsAfter listener.journal lines };

    fn receive(
        &mut self,
        line: &[u8],
        is_header: bool,
        shown: &mut String,
    ) -> Result<bool, JournalFault> {
        let ended = match (&self.journal, self.kept) {
            (Some(journal), Kept::Marks) if is_header => self
                .received
                .end(&journal.past, journal.table.reading().wall),
            _ => Ok(()),
        };
        if ended.is_err() {
            return Err(JournalFault::NoMemory);
        }
        let is_first = self.journal.is_none();
        if is_header {
            self.tell_end(shown)?;
        }
        let before = self.reading();
        let is_event = self.take(line, is_header)?;
        if let (Some(before), false) = (before, is_header) {
            self.tell_clock(before, shown)?;
        }
        if is_header {
            let told = self.told()?;
            self.tell_begin(is_first, told.since, shown)?;
            self.told = told;
            self.received.since = told.since;
            if let Some(journal) = &mut self.journal {
                journal.past.from = told.since;
            }
        }
        if self.named.see(news_of(&self.journal)).is_err() {
            return Err(JournalFault::NoMemory);
        }
        let received = match (self.kept, &self.journal) {
            (Kept::Marks, Some(journal)) => {
                let at = journal.table.reading().wall;
                self.received.receive(at, journal.past.news.as_slice())
            }
            (Kept::Lines, Some(journal)) => {
                let zone = zone_shown(self.of, &self.utc, &journal.zone);
                let is_told = is_within(self.told, journal.table.reading().wall);
                if is_told && (is_header || !journal.past.news.is_empty()) {
                    let file = file_of(journal, self.beside);
                    let labels = self.of.words.as_slice();
                    let lacks = file.is_none() && tells_refused(journal, labels);
                    self.lacks_reason = self.lacks_reason || lacks;
                    add_shown(self.alloc, labels, journal, file, zone, is_header, shown)
                } else {
                    Ok(())
                }
            }
            _ => Ok(()),
        };
        match received {
            Ok(()) => Ok(is_event),
            Err(_) => Err(JournalFault::NoMemory),
        }
    }
}

// What the journal's last line gave; nothing before its header.
fn news_of(journal: &Option<OpenJournal>) -> &[News] {
    match journal {
        Some(journal) => journal.past.news.as_slice(),
        None => &[],
    }
}

/// The zone in which times are shown: the journal's, or UTC if the command wants it.
pub(crate) fn zone_shown<'a>(of: &ScopeCommand, utc: &'a Zone, journals: &'a Zone) -> &'a Zone {
    if of.is_utc { utc } else { journals }
}

fn is_within(told: ReportedSpan, second: u64) -> bool {
    told.since <= second && second <= told.until
}

// The status file, if it is that of the journal's launcher.
fn file_of<'a>(
    journal: &OpenJournal,
    beside: Option<(&'a StatusRead, Reading)>,
) -> Option<&'a StatusRead> {
    match beside {
        Some((standing, begun)) if begun == journal.begun => Some(standing),
        _ => None,
    }
}

// Adds the lines for what the journal's last line gave. After the header's line it adds that a launcher began.
fn add_shown(
    alloc: Global,
    labels: &[Text],
    journal: &OpenJournal,
    file: Option<&StatusRead>,
    zone: &Zone,
    is_header: bool,
    shown: &mut String,
) -> Result<(), AllocError> {
    let now = journal.table.reading();
    let mut page = Page::new(alloc, zone, now);
    let front = if is_header {
        "$  the launcher began\n"
    } else {
        ""
    };
    page.add(front, &[Now]);
    add_lines(&mut page, journal, labels, file);
    add_text(page, shown)
}

fn add_text(page: Page<'_>, shown: &mut String) -> Result<(), AllocError> {
    match page.into_text() {
        Ok(lines) => {
            let added = shown.push_str(lines.as_str());
            drop(lines);
            added
        }
        Err(error) => Err(error),
    }
}
