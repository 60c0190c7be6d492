//! The calls on a store that take memory: its opening, over a file of the first version, and those on an open one, over a database in memory. What
//! drops a store is proved for its whole type, so all but the connections is generic over what the store is built on.

use crate::little_memory::memory_hog::MemoryHog;
use crate::little_memory::trial::{Answer, Trial, tried};
use crate::stores::calls::{FIRST_VERSION, Row, SECOND, has, opened, runs};
use anyhow::Result;
use override_store::{OverrideStore, StoreFault};
use sqlite::{Alter, Connection, File, FileStore, MemStore};
use std::alloc::Global;
use std::mem;

const PATH: &str = "first.db";

const EMPTIED: &str = "DROP TABLE IF EXISTS settings; DROP TABLE IF EXISTS overrides";

/// What the file of the first version holds once it was moved.
const MOVED: [Row<'static>; 2] = [("a", true, 0), ("b", false, 0)];

/// The same once `a` was enabled.
const ENABLED: [Row<'static>; 2] = [("a", false, SECOND), ("b", false, 0)];

/// A database that can be connected to again and again.
pub trait Place<S: Alter> {
    fn connect(&self, alloc: Global) -> Option<Connection<S>>;
}

/// The file in the folder where the program runs.
#[derive(Clone, Copy)]
pub struct OwnFile<'a> {
    pub rt: &'a HostRuntime,
}

impl Place<FileStore<File>> for OwnFile<'_> {
    fn connect(&self, _alloc: Global) -> Option<Connection<FileStore<File>>> {
        Connection::open(self.rt, PATH).ok()
    }
}

/// A new database in memory each time.
#[derive(Clone, Copy)]
pub struct InMemory {}

impl Place<MemStore> for InMemory {
    fn connect(&self, alloc: Global) -> Option<Connection<MemStore>> {
        Connection::open_in_memory(alloc).ok()
    }
}

/// Which call is made.
#[derive(Clone, Copy)]
pub enum Call {
    Open,
    Set,
    All,
    Changes,
}

/// The opening, and each call on an open store, by its name.
pub static OPENING: &[(&str, Call)] = &[("OverrideStore::open_on", Call::Open)];

pub static CALLS: &[(&str, Call)] = &[
    ("OverrideStore::set", Call::Set),
    ("OverrideStore::all", Call::All),
    ("OverrideStore::changes", Call::Changes),
];

/// A call on a store that came from a database of the first version. If `OverrideStore::open_on` is refused, a new connection on
/// the same file is opened, and the store on that has the settings of the first version. If another call is refused, the store has
/// the settings that it had, and the same call with memory is not.
#[derive(Drop)]
struct Storing<S: Alter, P> {
    place: P,
    call: Call,
    /// What `OverrideStore::open_on` is to be called on.
    conn: Option<Connection<S>>,
    /// The store that was opened.
    store: Option<OverrideStore<S>>,
}

fn answer_of(fault: Option<StoreFault>) -> Answer {
    match fault {
        None => Answer::Made,
        Some(StoreFault::NoMemory) => Answer::NoMemory,
        Some(_) => Answer::Other,
    }
}

/// A connection to the place, whose database is made one of the first version.
fn first_version<S: Alter + Drop, P: Place<S>>(alloc: Global, place: &P) -> Option<Connection<S>> {
    let mut conn = place.connect(alloc)?;
    let is_emptied = runs(&mut conn, EMPTIED);
    let is_made = runs(&mut conn, FIRST_VERSION);
    if is_emptied && is_made {
        Some(conn)
    } else {
        drop(conn);
        None
    }
}

fn call_on<S: Alter>(alloc: Global, store: &mut OverrideStore<S>, call: Call) -> Answer {
    match call {
        Call::Set => answer_of(store.set("a", false, SECOND).err()),
        Call::All => answer_of(store.all(alloc).err()),
        Call::Changes => answer_of(store.changes(alloc).err()),
        Call::Open => Answer::Other,
    }
}

/// What the store holds after the call.
fn after(call: Call, answer: Answer) -> &'static [Row<'static>] {
    match (call, answer) {
        (Call::Set, Answer::Made) => &ENABLED,
        _ => &MOVED,
    }
}

/// Whether the store has what the answer leaves, and what the call makes with memory.
fn is_kept<S: Alter>(
    alloc: Global,
    store: &mut OverrideStore<S>,
    call: Call,
    answer: Answer,
) -> bool {
    let is_kept = has(alloc, store, after(call, answer));
    let is_made = call_on(alloc, store, call) == Answer::Made;
    let is_stored = has(alloc, store, after(call, Answer::Made));
    is_kept && is_made && is_stored
}

/// Whether the store has the settings of the first version. It drops the store.
fn has_moved<S: Alter + Drop>(alloc: Global, store: Option<OverrideStore<S>>) -> bool {
    match store {
        Some(mut store) => {
            let has_moved = has(alloc, &mut store, &MOVED);
            drop(store);
            has_moved
        }
        None => false,
    }
}

impl<S: Alter + Drop, P: Place<S>> Storing<S, P> {
    /// Opens the store on the connection that was prepared.
    fn open(&mut self, alloc: Global) -> Answer {
        match self.conn.take() {
            Some(conn) => match OverrideStore::open_on(alloc, conn) {
                Ok(store) => {
                    drop(mem::replace(&mut self.store, Some(store)));
                    Answer::Made
                }
                Err(fault) => answer_of(Some(fault)),
            },
            None => Answer::Other,
        }
    }
}

impl<S: Alter + Drop, P: Place<S>> Trial for Storing<S, P> {
    fn prepare(&mut self, alloc: Global) -> bool {
        if matches!(self.call, Call::Open) {
            drop(mem::replace(&mut self.conn, first_version(alloc, &self.place)));
            return self.conn.is_some();
        }
        let store = match first_version(alloc, &self.place) {
            Some(conn) => opened(alloc, conn),
            None => None,
        };
        drop(mem::replace(&mut self.store, store));
        self.store.is_some()
    }

    fn call(&mut self, alloc: Global) -> Answer {
        if matches!(self.call, Call::Open) {
            return self.open(alloc);
        }
        match &mut self.store {
            Some(store) => call_on(alloc, store, self.call),
            None => Answer::Other,
        }
    }

    fn is_right(&mut self, alloc: Global, answer: Answer) -> bool {
        if matches!(self.call, Call::Open) {
            let store = match answer {
                Answer::Made => self.store.take(),
                _ => match self.place.connect(alloc) {
                    Some(conn) => opened(alloc, conn),
                    None => None,
                },
            };
            return has_moved(alloc, store);
        }
        match &mut self.store {
            Some(store) => is_kept(alloc, store, self.call, answer),
            None => false,
        }
    }
}

/// Tries each of the calls on a store at the place.
pub fn try_all<S: Alter + Drop, P: Place<S> + Copy + Drop>(
    rt: &HostRuntime,
    memory_hog: &mut MemoryHog,
    place: P,
    calls: &[(&str, Call)],
) -> Result<()> {
    for (name, call) in calls {
        let trial = Storing {
            place,
            call: *call,
            conn: None,
            store: None,
        };
        tried(rt, memory_hog, name, trial)?;
    }
    Ok(())
}
