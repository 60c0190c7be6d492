//! What is done with a launcher's store over a machine's disks. Only this module names the store over files: each function that names it is expensive
//! to prove.

ghost use Rattle.std.specs.Prelude.{None};
ghost use Rattle.override_store.specs.Places.{unknown};

use crate::stores::asked::{Asked, ask_all, has_asked, set_all};
use crate::stores::calls::{Row, has, opened, runs};
use crate::stores::disks::{LentDisk, Machine};
use crate::stores::stopped_turns::turned;
use override_store::{LastingSettings, StoreFault, StorePlace, StoreStatus, Telling, lasting};
use sqlite::{Alter, Connection, FileStore, Options};
use sqlite_disk::Memory;
use std::alloc::Global;

#[derive(Clone, Copy)]
pub enum Task {
    Execute(&'static str),
    /// The launcher's store makes these settings.
    Set(&'static [Row<'static>]),
    /// The launcher's store is asked for the settings that have no answer yet.
    Ask,
    /// A launcher over its store is.
    Turn,
    /// A store without a place has these settings, by rising bytes of their labels.
    Have(&'static [Row<'static>]),
    /// It has what it may have after these answers: if `is_exact`, all that was acknowledged and nothing else.
    MayHave { is_exact: bool },
}

/// What the launcher's connection has, too. It makes room for all of them when it is opened: with the 2,000 of `Options::new` a run took three times as long.
const CACHE_PAGES: usize = 64;

/// What is under a connection to the database on a machine's disks.
type DiskStore<'a> = FileStore<LentDisk<'a, Memory>>;

/// A connection to the database on the machine's disks, which are lent for it.
fn connected(alloc: Global, machine: &Machine) -> Result<Connection<DiskStore<'_>>, StoreFault> {
    let Some(files) = machine.files() else {
        return Err(StoreFault::Refused);
    };
    if !files.may_be_used() {
        drop(files);
        return Err(StoreFault::Refused);
    }
    let options = Options {
        cache_pages: CACHE_PAGES,
        ..Options::new(machine.seed())
    };
    match Connection::open_files(alloc, files, options) {
        Ok(conn) => Ok(conn),
        Err(_) => Err(StoreFault::Refused),
    }
}

/// The place of a store on a machine's disks.
#[derive(Clone, Copy)]
struct DiskPlace<'a> {
    machine: &'a Machine,
}

impl<'a> StorePlace<Connection<DiskStore<'a>>, DiskStore<'a>> for DiskPlace<'a> {
    // Contracts do not see the disks, which are in cells.
    ghost asked = { λ s. None };

    ghost finds = { λ s. unknown };

    ghost over = { λ s conn. unknown };

    ghost after = { λ s left. unknown };

    ghost is_open = { λ conn. Unit {0} };

    fn open(
        &mut self,
        alloc: Global,
        _telling: Telling,
    ) -> Result<Connection<DiskStore<'a>>, StoreFault> {
        connected(alloc, self.machine)
    }

    fn leave(&mut self, left: DiskStore<'a>) {
        drop(left);
    }

    fn close(&self, conn: Connection<DiskStore<'a>>) {
        drop(conn.close());
    }

    fn tell(&self, _status: StoreStatus) {}
}

/// Whether the task goes well over the launcher's store.
fn kept<S: Alter + Drop, P: StorePlace<Connection<S>, S> + Drop>(
    alloc: Global,
    store: LastingSettings<S, P>,
    task: Task,
    asked: &mut [Asked],
) -> bool {
    let mut store = store;
    let is_so = match task {
        Task::Turn => return turned(alloc, store, asked),
        Task::Set(rows) => set_all(&mut store, rows),
        _ => {
            ask_all(&mut store, asked);
            true
        }
    };
    drop(store);
    is_so
}

/// The same, over a connection to its database.
fn kept_on<S: Alter + Drop, P: StorePlace<Connection<S>, S> + Drop>(
    alloc: Global,
    place: P,
    conn: Connection<S>,
    task: Task,
    asked: &mut [Asked],
) -> bool {
    match lasting(alloc, place, conn) {
        Ok((store, all)) => {
            drop(all);
            kept(alloc, store, task, asked)
        }
        Err((_, left)) => {
            drop(left);
            false
        }
    }
}

/// Whether what a store without a place has is what it should have.
fn is_had<S: Alter + Drop>(
    alloc: Global,
    conn: Connection<S>,
    task: Task,
    asked: &[Asked],
) -> bool {
    let Some(store) = opened(alloc, conn) else {
        return false;
    };
    let mut store = store;
    let is_so = match task {
        Task::Have(want) => has(alloc, &mut store, want),
        Task::MayHave { is_exact } => has_asked(alloc, &mut store, asked, is_exact),
        _ => false,
    };
    drop(store);
    is_so
}

fn is_run<S: Alter + Drop>(conn: Connection<S>, sql: &str) -> bool {
    let mut conn = conn;
    let is_so = runs(&mut conn, sql);
    drop(conn);
    is_so
}

fn done_on<S: Alter + Drop, P: StorePlace<Connection<S>, S> + Drop>(
    alloc: Global,
    place: P,
    conn: Connection<S>,
    task: Task,
    asked: &mut [Asked],
) -> bool {
    match task {
        Task::Set(_) | Task::Ask | Task::Turn => kept_on(alloc, place, conn, task, asked),
        Task::Execute(sql) => {
            drop(place);
            is_run(conn, sql)
        }
        Task::Have(_) | Task::MayHave { is_exact: _ } => {
            drop(place);
            is_had(alloc, conn, task, asked)
        }
    }
}

/// Whether the task goes well over the machine's disks. Nothing is asked if they can't be opened.
pub fn done(alloc: Global, machine: &Machine, task: Task, asked: &mut [Asked]) -> bool {
    match connected(alloc, machine) {
        Ok(conn) => done_on(alloc, DiskPlace { machine }, conn, task, asked),
        Err(_) => false,
    }
}
