//! The store of a launcher: opened, served from, and settled once the launcher has released it.

ghost use Rattle.std.specs.Prelude.{None};
ghost use Rattle.override_store.specs.Places.{unknown};

use crate::connections::{
    ConnectionTask, Media, MediaConnection, MediaStore, connection_over, over_files,
};
use crate::looking::{StoreKind, copied_connection, look};
use crate::medium::Medium;
use crate::one_file::taken_for_store;
use crate::plan::Plan;
use crate::refusal::{StoreRefusal, number_of, refuse_store};
use crate::reporting::{Level, report};
use files_and_process::own_files::make_private;
use history_model::Setting;
use outside::SettingStore;
use override_store::{LastingSettings, StoreFault, StorePlace, StoreStatus, Telling, lasting};
use sqlite::{Alter, Connection, Files, Options, Unknown};
use sqlite_std_file::OpenError;
use std::alloc::Global;
use std::cell::Cell;
use std::hash::{BuildHasher, RandomState};
use std::io;

/// How many pages of the store are kept in memory.
const CACHE_PAGES: usize = 64;

/// How many pages the log next to the store has when it is moved into the store: a megabyte.
const LOG_PAGES: usize = 256;

/// How many reasons are logged at most, each once, until the store takes a setting.
const REASONS: usize = 8;

/// What is done with a store that was opened, and with the settings that it holds.
pub trait StoreUser {
    /// Uses the store, and gives the status. Err: nothing was set in it.
    fn use_store<T: SettingStore + Drop>(self, store: T, settings: Vec<Setting>) -> Result<u8, u8>;
}

/// Opens the store at the path, and has the user use it. The store is made, for this user alone, if it is not there. A
/// setting that its disk refuses shuts it, and the next one opens it again.
///
/// At the end it is opened once more. Settings that its files do not have as the launcher set them are written again,
/// which is reported. Then the contents of the log next to it are moved into its file. A refusal of this is reported,
/// unless another launcher has the store by then.
///
/// A store whose disk is full, so that it can't be opened, is used shut, if a copy of it in memory can be read. Its
/// settings then hold, and the next setting opens it. This is reported.
///
/// Status 5, with the user given back, if it is not a store, or can't be opened otherwise, as while another launcher
/// has it open. Status 5 too if its tables or its settings are refused, or if its file is the lock of another place.
/// The same holds for a file that the clearing of the spool may remove.
pub fn with_store<U: StoreUser>(
    rt: &HostRuntime,
    alloc: Global,
    plan: &Plan,
    user: U,
) -> Result<u8, (u8, U)> {
    let (path, level) = (plan.places.store.as_str(), plan.requested.level);
    let place = StoreFiles {
        rt,
        level,
        path,
        told: Cell::new([0; REASONS]),
    };
    let found = match look_at_own(rt, alloc, plan) {
        Ok(found) => found,
        Err(refusal) => return Err((refuse_store(rt, level, path, refusal), user)),
    };
    let (refusal, user) = match used_over(alloc, &place, Source::Files, user) {
        Ok(status) => return Ok(status),
        Err(both) => both,
    };
    let status = refuse_store(rt, level, path, refusal);
    if !matches!(found, StoreKind::Store) || !refusal.is_full() {
        return Err((status, user));
    }
    let why =
        "it stays closed: its settings apply, and no other is accepted until it can be opened";
    report(rt, level, "store", path, &why);
    match used_over(alloc, &place, Source::Copy, user) {
        Ok(status) => Ok(status),
        Err((refusal, user)) => Err((refuse_store(rt, level, path, refusal), user)),
    }
}

/// What a store is opened from: its files, or a copy of them in memory, and then it is shut.
#[derive(Clone, Copy)]
enum Source {
    Files,
    Copy,
}

fn used_over<U: StoreUser>(
    alloc: Global,
    place: &StoreFiles<'_>,
    source: Source,
    user: U,
) -> Result<u8, (StoreRefusal, U)> {
    let place = StoreFiles {
        rt: place.rt,
        level: place.level,
        path: place.path,
        told: Cell::new([0; REASONS]),
    };
    let opened = match source {
        Source::Files => connection_at(place.rt, place.path),
        Source::Copy => copied_connection(place.rt, alloc, place.path),
    };
    let conn = match opened {
        Ok(conn) => conn,
        Err(refusal) => return Err((refusal, user)),
    };
    match settings_of(alloc, place, conn, source) {
        Ok((store, settings)) => match user.use_store(store, settings) {
            Ok(status) | Err(status) => Ok(status),
        },
        Err(fault) => Err((StoreRefusal::Settings(fault), user)),
    }
}

// The settings at the place. If it is refused, what is under the connection is dropped. This is over any store, since a
// real one would be dropped part by part.
fn settings_of<S: Alter + Drop, P: StorePlace<Connection<S>, S> + Drop>(
    alloc: Global,
    place: P,
    conn: Connection<S>,
    source: Source,
) -> Result<(LastingSettings<S, P>, Vec<Setting>), StoreFault> {
    match lasting(alloc, place, conn) {
        Ok((mut store, settings)) => {
            if let Source::Copy = source {
                drop(store.store.take());
            }
            Ok((store, settings))
        }
        Err((fault, store)) => {
            drop(store);
            Err(fault)
        }
    }
}

// The file at the path is for this user alone and no other place's, and may be a store.
fn look_at_own(rt: &HostRuntime, alloc: Global, plan: &Plan) -> Result<StoreKind, StoreRefusal> {
    match private_file(rt, alloc, plan) {
        Ok(None) => look(rt, alloc, plan.places.store.as_str()),
        Ok(Some(why)) => Err(StoreRefusal::Taken(why)),
        Err(error) => Err(StoreRefusal::System("store", error)),
    }
}

// Makes the file, if it is not there, and says which other place it is, if any.
fn private_file(rt: &HostRuntime, alloc: Global, plan: &Plan) -> io::Result<Option<&'static str>> {
    make_private(rt, plan.places.store.as_str())?;
    taken_for_store(rt, alloc, plan)
}

/// Where a launcher's store is among the files of the system.
#[derive(Drop)]
struct StoreFiles<'a> {
    rt: &'a HostRuntime,
    level: Level,
    path: &'a str,
    // The numbers of the reasons that were logged since `StoreStatus::Anew`, and then 0.
    told: Cell<[u32; REASONS]>,
}

impl StoreFiles<'_> {
    // Whether the reason with this number is logged now: it was not yet, and it is among the first `REASONS`. It is noted.
    fn is_new(&self, number: u32) -> bool {
        let mut told = self.told.get();
        for one in told.iter_mut() {
            if *one == number {
                return false;
            }
            if *one == 0 {
                *one = number;
                self.told.set(told);
                return true;
            }
        }
        false
    }
}

impl StorePlace<MediaConnection, MediaStore> for StoreFiles<'_> {
    // Contracts do not see what is asked of the system, nor what it finds.
    ghost asked = { λ s. None };

    ghost finds = { λ s. unknown };

    ghost over = { λ s conn. unknown };

    ghost after = { λ s left. unknown };

    ghost is_open = { λ conn. Unit {0} };

    fn open(&mut self, _alloc: Global, telling: Telling) -> Result<MediaConnection, StoreFault> {
        match private_connection_at(self.rt, self.path) {
            Ok(conn) => Ok(conn),
            Err(refusal) => Err(fault_of(self, telling, refusal)),
        }
    }

    fn leave(&mut self, left: MediaStore) {
        drop(left);
    }

    fn close(&self, conn: MediaConnection) {
        if let Err(error) = conn.close() {
            report(self.rt, self.level, "store", self.path, &error);
        }
    }

    fn tell(&self, status: StoreStatus) {
        let why = match status {
            StoreStatus::Refused(StoreFault::NoMemory) => "no memory",
            StoreStatus::Refused(StoreFault::Refused) => "disk I/O error",
            StoreStatus::Refused(StoreFault::Full) => "database or disk is full",
            StoreStatus::Refused(StoreFault::Foreign) => "a database, but not a store of settings",
            StoreStatus::TooMany => "16,384 labels have a setting, and no other may have one",
            StoreStatus::Mended =>
                "its files lack the last settings of some labels: they are written again",
            StoreStatus::Anew => return self.told.set([0; REASONS]),
        };
        let is_told = match status {
            StoreStatus::Refused(fault) => self.is_new(number_of(fault)),
            _ => true,
        };
        if is_told {
            report(self.rt, self.level, "store", self.path, &why);
        }
    }
}

// Why the store was not opened. It reports that as `telling` says.
fn fault_of(place: &StoreFiles<'_>, telling: Telling, refusal: StoreRefusal) -> StoreFault {
    let is_told = match telling {
        Telling::New => place.is_new(refusal.number()),
        Telling::AllButBusy => !matches!(refusal, StoreRefusal::Files(OpenError::Busy)),
    };
    if is_told {
        let _status = refuse_store(place.rt, place.level, place.path, refusal);
    }
    StoreFault::Refused
}

fn private_connection_at(rt: &HostRuntime, path: &str) -> Result<MediaConnection, StoreRefusal> {
    match make_private(rt, path) {
        Ok(()) => connection_at(rt, path),
        Err(error) => Err(StoreRefusal::System("store", error)),
    }
}

fn connection_at(rt: &HostRuntime, path: &str) -> Result<MediaConnection, StoreRefusal> {
    match files_at(rt, path) {
        Ok((files, options)) => connection_over(rt.alloc(), files, options),
        Err(error) => Err(refused(error)),
    }
}

/// Does the task over the database in the file at the path.
pub(crate) fn over_store<T: ConnectionTask>(
    rt: &HostRuntime,
    path: &str,
    task: T,
) -> Result<T::Done, (StoreRefusal, T)> {
    match files_at(rt, path) {
        Ok((files, options)) => over_files(rt.alloc(), files, options, task),
        Err(error) => Err((refused(error), task)),
    }
}

fn refused(error: OpenError) -> StoreRefusal {
    match error {
        OpenError::Io(error) => StoreRefusal::System("store", error),
        error => StoreRefusal::Files(error),
    }
}

fn files_at(rt: &HostRuntime, path: &str) -> Result<(Media, Options), OpenError> {
    let state = RandomState::new(rt)?;
    let Files { log, db } = sqlite_std_file::open(rt, path, Unknown)?;
    let files = Files {
        log: Medium::Plain(log),
        db: Medium::Plain(db),
    };
    let options = Options {
        cache_pages: CACHE_PAGES,
        checkpoint_frames: LOG_PAGES,
        ..Options::new(state.hash_one(&0u8))
    };
    Ok((files, options))
}
