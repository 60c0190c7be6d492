//! A machine with two disks in memory, a store's log and its database. They stay when a store that was over them is dropped. The machine refuses
//! the calls that its plan names.
//!
//! A call is new if its disk got none of its kind since either disk was last synced, or the disks were opened. Each sync is new, and each second
//! write. A plan names new calls alone: those that follow are alike, and there are hundreds.

ghost use Rattle.std.specs.Prelude.{◌≡◌, ◌+◌, ◌&&◌, not, false};
ghost use Rattle.sqlite_disk.specs.Disk.{CountsFault};
ghost use Rattle.sqlite_disk.specs.Refusal.{finds_no_room};

use sqlite::Files;
use sqlite_disk::{Crash, Disk, Memory, Tally};
use std::alloc::Global;
use std::cell::Cell;
use std::io;

/// More calls than any run makes.
pub const NEVER: u64 = 1_000_000;

// The kinds of calls.
const LEN: u8 = 1;

const READ: u8 = 2;

const WRITE: u8 = 4;

const SECOND_WRITE: u8 = 8;

const CUT: u8 = 16;

const SYNC: u8 = 32;

/// Which calls the disks refuse. The new ones of both are counted together, from 1 on.
#[derive(Clone, Copy)]
pub struct Plan {
    pub first: u64,
    pub second: u64,
    /// Whether the machine stops at the second one: it refuses each later call, too, also one that is not new.
    pub stops: bool,
}

/// No call is refused.
pub const NONE: Plan = Plan {
    first: NEVER,
    second: NEVER,
    stops: false,
};

impl Plan {
    /// Whether a call is refused. `calls` is the number of new ones so far, with this one if it is new.
    fn refuses(self, calls: u64, is_new: bool) -> bool {
        let is_named = calls == self.first || calls == self.second;
        (is_new && is_named) || (self.stops && calls >= self.second)
    }
}

/// How many new calls the disks got, how many calls they refused, and how often they were opened.
#[derive(Clone, Copy)]
pub struct Counts {
    pub calls: u64,
    pub refused: u64,
    pub opens: u64,
}

#[derive(Drop)]
pub struct Machine {
    log: Cell<Option<Memory>>,
    db: Cell<Option<Memory>>,
    /// The kinds of calls that the log got since the last sync or opening, and those that the database got.
    log_kinds: Cell<u8>,
    db_kinds: Cell<u8>,
    plan: Plan,
    counts: Cell<Counts>,
    /// Of the seeds of its connections, which differ from those of the machine that it is a copy of.
    seed: u64,
}

/// A disk with the same bytes, which are all synced.
fn copied(alloc: Global, slot: &mut Option<Memory>) -> Option<Memory> {
    let disk = slot.as_ref()?;
    let mut copy = Memory::new(alloc);
    let is_written = copy.write_at(0, disk.bytes()).is_ok();
    let is_synced = copy.sync().is_ok();
    if is_written && is_synced {
        Some(copy)
    } else {
        drop(copy);
        None
    }
}

fn crash(slot: &mut Option<Memory>) {
    if let Some(disk) = slot {
        disk.crash();
    }
}

impl Machine {
    /// Its disks hold nothing yet.
    pub fn new(alloc: Global) -> Machine {
        Machine::with(Memory::new(alloc), Memory::new(alloc), NONE, 0)
    }

    fn with(log: Memory, db: Memory, plan: Plan, seed: u64) -> Machine {
        let counts = Counts {
            calls: 0,
            refused: 0,
            opens: 0,
        };
        Machine {
            log: Cell::new(Some(log)),
            db: Cell::new(Some(db)),
            log_kinds: Cell::new(0),
            db_kinds: Cell::new(0),
            plan,
            counts: Cell::new(counts),
            seed,
        }
    }

    /// A machine whose disks hold the same.
    pub fn copy(&mut self, alloc: Global, plan: Plan) -> Option<Machine> {
        let log = copied(alloc, self.log.get_mut());
        let db = copied(alloc, self.db.get_mut());
        match (log, db) {
            (Some(log), Some(db)) => {
                let seed = self.seed.saturating_add(100);
                Some(Machine::with(log, db, plan, seed))
            }
            (log, db) => {
                drop(log);
                drop(db);
                None
            }
        }
    }

    /// Its disks lose all that was not synced.
    pub fn crash(&mut self) {
        crash(self.log.get_mut());
        crash(self.db.get_mut());
    }

    pub fn counts(&self) -> Counts {
        self.counts.get()
    }

    /// A number that no connection to its disks had yet.
    pub fn seed(&self) -> u64 {
        self.seed.saturating_add(self.counts().opens)
    }

    /// Counts a call of this kind to a disk that got those kinds, and says whether it is refused.
    fn refuses(&self, kinds: &Cell<u8>, kind: u8) -> bool {
        let mut counts = self.counts.get();
        let is_new = kinds.get() & kind == 0;
        if is_new {
            counts.calls = counts.calls.saturating_add(1);
        }
        let is_refused = self.plan.refuses(counts.calls, is_new);
        if is_refused {
            counts.refused = counts.refused.saturating_add(1);
        }
        self.counts.set(counts);
        kinds.set(kinds.get() | kind);
        is_refused
    }

    /// From now on the first call of each kind is new.
    fn begin(&self) {
        self.log_kinds.set(0);
        self.db_kinds.set(0);
    }

    /// Its disks, until they are dropped; none if they were lent and are not back.
    pub fn files(&self) -> Option<Files<LentDisk<'_, Memory>>> {
        let mut counts = self.counts.get();
        counts.opens = counts.opens.saturating_add(1);
        self.counts.set(counts);
        self.begin();
        match (self.log.replace(None), self.db.replace(None)) {
            (Some(log), Some(db)) => Some(Files {
                log: lent(self, &self.log, &self.log_kinds, log),
                db: lent(self, &self.db, &self.db_kinds, db),
            }),
            (log, db) => {
                drop(log);
                drop(db);
                None
            }
        }
    }
}

/// A disk of a machine, which goes back to it once it is dropped.
pub struct LentDisk<'a, D: Disk> {
    inner: D,
    slot: &'a Cell<Option<D>>,
    kinds: &'a Cell<u8>,
    machine: &'a Machine,
    refused: u64,
    sync_refused: bool,
}

fn lent<'a, D: Disk>(
    machine: &'a Machine,
    slot: &'a Cell<Option<D>>,
    kinds: &'a Cell<u8>,
    inner: D,
) -> LentDisk<'a, D> {
    LentDisk {
        inner,
        slot,
        kinds,
        machine,
        refused: 0,
        sync_refused: false,
    }
}

impl<D: Disk + Drop> Drop for LentDisk<'_, D> {
    fn drop(self) {
        let LentDisk {
            inner,
            slot,
            kinds: _,
            machine: _,
            refused: _,
            sync_refused: _,
        } = self;
        slot.set(Some(inner));
    }
}

/// An error if the machine refuses a call of this kind.
fn spend(machine: &Machine, kinds: &Cell<u8>, kind: u8, refused: &mut u64) -> io::Result<()>
    ensures faults { CountsFault result refused.old refused.new }
    ensures kind { finds_no_room result ≡ false }
{
    if machine.refuses(kinds, kind) {
        *refused = refused.saturating_add(1);
        return Err(io::Error::other("the disk refuses it"));
    }
    Ok(())
}

impl<D: Disk> Disk for LentDisk<'_, D> {
    ghost seen = { λ d. D.Disk.seen d.inner };

    ghost may_leave = { λ d. D.Disk.may_leave d.inner };

    ghost is_usable = { λ d. D.Disk.is_usable d.inner && not d.sync_refused };

    ghost faults = { λ d. D.Disk.faults d.inner + d.refused };

    ghost tally_of = { λ d. D.Disk.tally_of d.inner };

    ghost is_rotten = { λ d. D.Disk.is_rotten d.inner };

    ghost key_of = { λ d. D.Disk.key_of d.inner };

    ghost is_clean = { λ d. D.Disk.is_clean d.inner };

    ghost is_fair = { λ d. D.Disk.is_fair d.inner };

    ghost fair_if_clean = { λ d. D.Disk.fair_if_clean d.inner };

    ghost seen_may_stay = { λ d. D.Disk.seen_may_stay d.inner };

    ghost is_mixing = { λ d. D.Disk.is_mixing d.inner };

    fn mixes(&self) -> bool {
        self.inner.mixes()
    }

    fn key(&self) -> u64 {
        self.inner.key()
    }

    fn tally(&self) -> Tally {
        self.inner.tally()
    }

    fn may_be_used(&self) -> bool {
        self.inner.may_be_used() && !self.sync_refused
    }

    fn len(&mut self) -> io::Result<usize> {
        spend(self.machine, self.kinds, LEN, &mut self.refused)?;
        self.inner.len()
    }

    fn read_at(&mut self, at: usize, buf: &mut [u8]) -> io::Result<()> {
        spend(self.machine, self.kinds, READ, &mut self.refused)?;
        self.inner.read_at(at, buf)
    }

    fn read_checked(&mut self, key: u64, want: u64, at: usize, buf: &mut [u8]) -> io::Result<()> {
        spend(self.machine, self.kinds, READ, &mut self.refused)?;
        self.inner.read_checked(key, want, at, buf)
    }

    fn write_at(&mut self, at: usize, bytes: &[u8]) -> io::Result<()> {
        let is_first = self.kinds.get() & WRITE == 0;
        let kind = if is_first { WRITE } else { SECOND_WRITE };
        spend(self.machine, self.kinds, kind, &mut self.refused)?;
        self.inner.write_at(at, bytes)
    }

    fn set_len(&mut self, len: usize) -> io::Result<()> {
        spend(self.machine, self.kinds, CUT, &mut self.refused)?;
        self.inner.set_len(len)
    }

    fn sync(&mut self) -> io::Result<()> {
        let spent = spend(self.machine, self.kinds, SYNC, &mut self.refused);
        self.machine.begin();
        if let Err(error) = spent {
            self.sync_refused = true;
            return Err(error);
        }
        self.inner.sync()
    }
}
