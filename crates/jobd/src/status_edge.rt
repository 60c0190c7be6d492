//! An edge over another one, which keeps the status file. Each call is that of the other edge, and what becomes of runs
//! is noted.

ghost use Rattle.std.specs.Prelude.{◌≡◌, ◌≤◌, ℕ, List, Option, Some};

use crate::journal_watch::JournalWatch;
use crate::keeper::Keeper;
use crate::memory_want::MemoryWant;
use crate::places_file::PlacesFile;
use crate::round_edge::{RoundEdge, SleepEdge};
use crate::standing_file::StandingFile;
use child_edge::{
    ChildEdge, Client, ClockEdge, Edge, EdgeFault, Notice, PathEdge, SocketEdge, System,
};
use history_model::definition::Def;
use history_model::{Ended, JobNo, Obs, Reading, Refusal};
use live_loop::{Caller, Origin};
use mio::{Registry, Token};
use std::alloc::Global;
use std::fs::File;
use std::mem;

/// The edge, and what keeps the file, if one is kept.
#[derive(Drop)]
pub struct StatusEdge<E: RoundEdge, R: System> {
    edge: E,
    want: MemoryWant,
    file: Option<StandingFile<R>>,
    places: Option<PlacesFile<R>>,
    journal: Option<JournalWatch<R>>,
    // It is out while the text is made. Its text stays until all of it is in the file.
    keeper: Option<Keeper>,
}

impl<E: RoundEdge, R: System> StatusEdge<E, R> {
    /// The edge, with the file and what keeps it, or with none. It has the file that says the launcher's places, and
    /// the watch on its journal.
    pub(crate) fn new(
        alloc: Global,
        edge: E,
        kept: Option<(StandingFile<R>, Keeper)>,
        places: Option<PlacesFile<R>>,
        journal: Option<JournalWatch<R>>,
    ) -> StatusEdge<E, R>
        ensures { result.edge ≡ edge }
    {
        let (file, keeper) = match kept {
            Some((file, keeper)) => (Some(file), Some(keeper)),
            None => (None, None),
        };
        StatusEdge {
            edge,
            want: MemoryWant::new(alloc),
            file,
            places,
            journal,
            keeper,
        }
    }
}

fn note_end(
    kept: &mut Option<Keeper>,
    job: JobNo,
    run: u64,
    answer: &Result<Option<Ended>, EdgeFault>,
) {
    if let Ok(Some(how)) = answer {
        if let Some(keeper) = kept {
            keeper.notes.ended(job, run, *how);
        }
    }
}

impl<E: RoundEdge, R: System> Edge for StatusEdge<E, R> {
    ghost told = { λ e. E.told e.edge };

    ghost failures = { λ e. E.failures e.edge };
}

impl<E: RoundEdge, R: System> ChildEdge for StatusEdge<E, R> {
    fn expect(&mut self, job: JobNo, run: u64, def: &Def, conn: Option<u64>) {
        self.edge.expect(job, run, def, conn);
    }

    fn start(
        &mut self,
        job: JobNo,
        run: u64,
        def: &Def,
        conn: Option<u64>,
    ) -> Result<u32, EdgeFault> {
        let answer = self.edge.start(job, run, def, conn);
        if let Some(keeper) = &mut self.keeper {
            match &answer {
                Ok(_) => keeper.notes.started(job, run),
                Err(_) => keeper.notes.refused(job, run, self.edge.start_refusal()),
            }
        }
        answer
    }

    fn term(&mut self, job: JobNo, run: u64) -> Result<(), EdgeFault> {
        if let Some(keeper) = &mut self.keeper {
            keeper.notes.termed(job);
        }
        self.edge.term(job, run)
    }

    fn kill(&mut self, job: JobNo, run: u64) -> Result<(), EdgeFault> {
        if let Some(keeper) = &mut self.keeper {
            keeper.notes.killed(job);
        }
        self.edge.kill(job, run)
    }

    fn poll(&mut self, job: JobNo, run: u64) -> Result<Option<Ended>, EdgeFault> {
        let answer = self.edge.poll(job, run);
        note_end(&mut self.keeper, job, run, &answer);
        answer
    }
}

impl<E: RoundEdge, R: System> SocketEdge for StatusEdge<E, R> {
    fn bind(&mut self, job: JobNo, def: &Def) -> Result<(), EdgeFault> {
        self.edge.bind(job, def)
    }

    fn close(&mut self, job: JobNo, conn: u64) {
        self.edge.close(job, conn);
    }

    fn release(&mut self, job: JobNo) {
        if let Some(keeper) = &mut self.keeper {
            keeper.notes.gone(job);
        }
        self.edge.release(job);
    }
}

impl<E: RoundEdge, R: System> PathEdge for StatusEdge<E, R> {
    ghost Looks = { λ path answer old new. E.Looks path answer old.edge new.edge };

    fn begin_looks(&mut self) {
        self.edge.begin_looks();
    }

    fn ask(&mut self, path: &str) -> bool {
        self.edge.ask(path)
    }

    fn is_seen(&mut self, path: &str) -> bool {
        self.edge.is_seen(path)
    }

    fn look(&mut self, path: &str) -> Result<Obs, EdgeFault> {
        self.edge.look(path)
    }
}

impl<E: RoundEdge, R: System> ClockEdge for StatusEdge<E, R> {
    fn read(&mut self) -> Result<Reading, EdgeFault> {
        self.edge.read()
    }
}

impl<E: RoundEdge, R: System> SleepEdge for StatusEdge<E, R> {
    fn slept(&mut self) -> u64 {
        self.edge.slept()
    }

    // Each pass of the loop begins with it: from now on this clock reading is that of what is noted. In the first pass all is open that the launcher
    // needs, and nobody was answered.
    fn note_time(&mut self, at: Reading) {
        self.edge.note_time(at);
        if let Some(keeper) = &mut self.keeper {
            keeper.notes.at = at;
        }
        if let Some(places) = &mut self.places {
            places.begin();
        }
        if let Some(journal) = &mut self.journal {
            journal.begin();
        }
    }
}

impl<E: RoundEdge, R: System> RoundEdge for StatusEdge<E, R> {
    ghost Finds = { λ first found old new. E.Finds first found old.edge new.edge };

    ghost rises = { λ first job run old new finds. E.rises first job run old.edge new.edge finds };

    ghost Accepts = { λ job old new. E.Accepts job old.edge new.edge };

    ghost Holds = { λ conn job request is_held old new. E.Holds conn job request is_held old.edge new.edge };

    // What the system makes of the text is tested.
    ghost Hands = { λ text old new. Unit {0} };

    fn over_from(&mut self, job: JobNo) -> Option<(JobNo, u64)> {
        self.edge.over_from(job)
    }

    fn register(&mut self, registry: &Registry, token: Token) -> bool {
        self.edge.register(registry, token)
    }

    fn listener_from(&self, job: JobNo) -> Option<Origin> {
        self.edge.listener_from(job)
    }

    fn room(&self) -> usize {
        self.edge.room()
    }

    fn must_wait(&mut self, job: JobNo) -> bool {
        self.edge.must_wait(job)
    }

    fn is_woken_by_exits(&self) -> bool {
        self.edge.is_woken_by_exits()
    }

    fn listens_at(&self, origin: Origin) -> bool {
        self.edge.listens_at(origin)
    }

    fn accept(&mut self, job: JobNo) -> Option<Client> {
        self.edge.accept(job)
    }

    fn take(&mut self, conn: u64, caller: Caller) -> bool {
        self.edge.take(conn, caller)
    }

    // With the next piece of a text that goes out.
    fn forward(&mut self) -> bool {
        let may_go_on = self.edge.forward();
        let mut is_left = false;
        if let Some(file) = &mut self.file {
            if let Some(keeper) = &self.keeper {
                is_left = file.go_on(keeper.text.as_slice());
            }
        }
        may_go_on | is_left
    }

    // The file gets one more text, for which the keeper is lent and given back after this. Then its lock is released.
    fn release_all(&mut self) {
        self.edge.release_all();
        if let Some(file) = &mut self.file {
            if let Some(keeper) = &self.keeper {
                file.end(keeper.text.as_slice());
            }
            file.note_end();
        }
        if let Some(places) = &self.places {
            places.remove();
        }
    }

    fn next_notice(&mut self) -> Option<Notice> {
        if let Some(notice) = self.want.next_notice() {
            return Some(notice);
        }
        if let Some(file) = &mut self.file {
            if let Some(notice) = file.next_notice() {
                return Some(notice);
            }
        }
        if let Some(places) = &mut self.places {
            if let Some(notice) = places.next_notice() {
                return Some(notice);
            }
        }
        if let Some(journal) = &mut self.journal {
            if let Some(notice) = journal.next_notice() {
                return Some(notice);
            }
        }
        self.edge.next_notice()
    }

    fn start_refusal(&self) -> Option<&str> {
        self.edge.start_refusal()
    }

    fn bind_refusal(&self) -> Option<&str> {
        self.edge.bind_refusal()
    }

    fn failed_calls(&self) -> u64 {
        self.edge.failed_calls()
    }

    fn note_reply(&mut self, line: &[u8], has_loaded: bool, refusal: Option<Refusal>) {
        self.edge.note_reply(line, has_loaded, refusal);
        if let Some(keeper) = &mut self.keeper {
            keeper.replied(line, refusal, self.edge.bind_refusal());
            if has_loaded {
                keeper.loaded(line);
            }
        }
    }

    fn keep_journal(&mut self, journal: File) {
        match &mut self.journal {
            Some(watch) => watch.keep(journal),
            None => drop(journal),
        }
    }

    fn note_closing(&mut self) {
        if let Some(journal) = &mut self.journal {
            journal.end();
        }
        let is_new = match &mut self.keeper {
            Some(keeper) => keeper.close(),
            None => false,
        };
        if let Some(file) = &mut self.file {
            if is_new {
                file.note_change();
            }
        }
    }

    fn lend_keeper(&mut self, at: Reading, is_short: bool, has_changed: bool) -> Option<Keeper> {
        self.want.note(is_short);
        let failed_calls = self.edge.failed_calls();
        if let Some(places) = &mut self.places {
            places.keep(at.up);
        }
        if let Some(journal) = &mut self.journal {
            journal.look(at.up);
        }
        let file = self.file.as_mut()?;
        let keeper = self.keeper.as_mut()?;
        keeper.failed_calls = failed_calls;
        if keeper.is_urgent() {
            file.hurry();
        }
        let is_due = file.is_due(at, has_changed);
        if keeper.must_see(is_due) {
            self.keeper.take()
        } else {
            file.renew(at);
            None
        }
    }

    fn hand(&mut self, keeper: Keeper, is_whole: bool, at: Reading) {
        if let Some(file) = &mut self.file {
            if is_whole {
                file.begin(keeper.text.as_slice(), at);
            } else if keeper.was_due() {
                file.put_off(at);
            }
            if file.is_last() {
                file.end(keeper.text.as_slice());
                file.release();
            }
        }
        drop(mem::replace(&mut self.keeper, Some(keeper)));
    }
}
