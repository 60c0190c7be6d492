//! What is kept for the status file, and the text of that file.

ghost use Rattle.std.specs.Prelude.{◌≡◌, true};
ghost use Rattle.jobd.specs.Standings.{IsStatusText};

use crate::loaded_definition::{load_in, writes_setting};
use crate::own_process::OwnProcess;
use crate::standing_file::RENEWED;
use history_model::{JobNo, Reading, Refusal, SECOND, Text};
use job_table::JobTable;
use status_file::{
    JournalStatus, LauncherStatus, RefusedBinds, RunNotes, StatusText, VERSION, add_jobs,
    add_launcher, job_count,
};
use std::alloc::Global;

/// Why a journal is closed, as far as it is known here.
const CLOSED: &str = "a write was refused, or a line found no memory";

/// What the status file says of a store that refused something.
const REFUSED: &str = "a setting was not stored";

// The state of the journal. Its lifetime is that of the status that it becomes a part of.
fn journal_of<'a>(has_journal: bool, is_closed: bool) -> JournalStatus<'a> {
    if !has_journal {
        JournalStatus::None
    } else if is_closed {
        JournalStatus::Closed(CLOSED)
    } else {
        JournalStatus::Open
    }
}

// What the store refused last.
fn refused_by<'a>(has_refused: bool) -> Option<&'a str> {
    if has_refused { Some(REFUSED) } else { None }
}

/// What is kept besides the table for the status file: what was heard of runs, and what the file says of the launcher.
#[derive(Drop)]
pub struct Keeper {
    alloc: Global,
    own: OwnProcess,
    header: Text,
    has_journal: bool,
    is_closed: bool,
    has_refused: bool,
    // Whether the file has had a job, and whether its text is due. If it is not, the table is only looked at.
    has_told: bool,
    is_due: bool,
    // How many calls of the edge had failed when it was lent.
    pub(crate) failed_calls: u64,
    pub(crate) notes: RunNotes,
    binds: RefusedBinds,
    order: Vec<JobNo>,
    pub(crate) text: StatusText,
}

impl Keeper {
    /// Nothing was heard yet.
    pub(crate) fn new(
        alloc: Global,
        own: OwnProcess,
        header: Text,
        has_journal: bool,
        at: Reading,
    ) -> Keeper {
        Keeper {
            alloc,
            own,
            header,
            has_journal,
            is_closed: false,
            has_refused: false,
            has_told: false,
            is_due: false,
            failed_calls: 0,
            notes: RunNotes::new(alloc, at),
            binds: RefusedBinds::new(alloc),
            order: Vec::new(alloc),
            text: StatusText::new(alloc),
        }
    }

    /// The journal is closed. True: that was not known.
    pub(crate) fn close(&mut self) -> bool {
        let is_new = !self.is_closed;
        self.is_closed = true;
        is_new
    }

    /// A client's line was answered: with a refusal, or well. What the store refused last is in the file until a later setting is stored. If sockets could not
    /// be bound, for this reason, that is in the file until a load of that label is accepted.
    pub(crate) fn replied(&mut self, line: &[u8], refusal: Option<Refusal>, unbound: Option<&str>) {
        if refusal == Some(Refusal::SocketRefused) {
            self.note_unbound(line, unbound);
        }
        if refusal == Some(Refusal::StoreRefused) {
            self.has_refused = true;
        } else if self.has_refused && refusal.is_none() {
            self.has_refused = !writes_setting(self.alloc, line);
        }
    }

    // Without a reason nothing is noted.
    fn note_unbound(&mut self, line: &[u8], reason: Option<&str>) {
        if let (Ok(Some(load)), Some(reason)) = (load_in(self.alloc, line), reason) {
            self.binds.note(load.label.as_str(), reason, self.notes.at);
            drop(load);
        }
    }

    /// Whether the first jobs were loaded, and the file had none so far. Then it is written at once.
    pub(crate) fn is_urgent(&self) -> bool {
        !self.has_told && self.notes.has_unseen()
    }

    /// Whether it has to see the table in this pass: its text is due, or a load was accepted.
    pub(crate) fn must_see(&mut self, is_due: bool) -> bool {
        self.is_due = is_due;
        is_due || self.notes.has_unseen()
    }

    /// Whether its text was due in this pass.
    pub(crate) fn was_due(&self) -> bool {
        self.is_due
    }

    /// A load was accepted, which this line asked for.
    pub(crate) fn loaded(&mut self, line: &[u8]) {
        match load_in(self.alloc, line) {
            Ok(Some(load)) => {
                self.notes.loaded(load.label.as_str(), load.digest.as_str());
                self.binds.forget(load.label.as_str());
                drop(load);
            }
            _ => self.notes.forget_loads(),
        }
    }

    /// Sees the table, and writes the text of the file again, if that is due. False: it was not, or found no memory.
    pub(crate) fn write(&mut self, table: &JobTable, at: Reading) -> bool
        ensures { result ≡ true → IsStatusText table.now self.new.text.bytes.items }
    {
        self.notes.see_all(table);
        if self.is_due {
            self.write_text(table, at)
        } else {
            false
        }
    }

    fn write_text(&mut self, table: &JobTable, at: Reading) -> bool
        ensures { result ≡ true → IsStatusText table.now self.new.text.bytes.items }
    {
        let jobs = job_count(table);
        self.has_told = self.has_told || jobs > 0;
        self.text.clear();
        let journal = journal_of(self.has_journal, self.is_closed);
        let store = refused_by(self.has_refused);
        let launcher = LauncherStatus {
            version: VERSION,
            pid: self.own.pid,
            began: self.own.began,
            header: self.header.as_str(),
            at,
            journal,
            store,
            renewed_each: Some(RENEWED / SECOND),
            failed_calls: Some(self.failed_calls),
            is_shutting_down: Some(table.is_shutting_down()),
            jobs,
        };
        let binds = self.binds.list();
        add_launcher(&mut self.text, self.alloc, &launcher, binds.as_slice());
        drop(binds);
        add_jobs(
            &mut self.text,
            self.alloc,
            table,
            &self.notes,
            &mut self.order,
        );
        self.text.is_whole()
    }
}
