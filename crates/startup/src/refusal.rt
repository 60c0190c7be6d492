//! Why a store can't be used, and how that is reported.

use crate::reporting::{Level, refuse, report};
use exit_status::{NO_MEMORY, STORE};
use override_store::StoreFault;
use sqlite::{Error, ErrorCode};
use sqlite_std_file::OpenError;
use std::io;

/// Why a store can't be used.
#[derive(Clone, Copy)]
pub(crate) enum StoreRefusal {
    /// The system refused, at the store's file or, as the text says, at its log.
    System(&'static str, io::Error),
    /// Its file is another place's.
    Taken(&'static str),
    /// The files can't be opened for ourselves.
    Files(OpenError),
    Database(Error),
    /// It is a database with another table.
    Foreign,
    Settings(StoreFault),
}

// As `StoreRefusal::number`, of a disk that has no room, and of one that fails.
const FULL: u32 = 1;

const FAILED: u32 = 2;

/// What an error of the system adds to its number: at the store's file, and at its log.
const AT_FILE: u32 = 10_000;

const AT_LOG: u32 = 20_000;

/// As `StoreRefusal::number`, for a fault of a store that is open.
pub(crate) fn number_of(fault: StoreFault) -> u32 {
    match fault {
        StoreFault::Full => FULL,
        StoreFault::Refused => FAILED,
        StoreFault::NoMemory => 3,
        StoreFault::Foreign => 4,
    }
}

// Of an error of the system.
fn system_number(error: &io::Error, at: u32) -> u32 {
    let number = error.raw_os_error().unwrap_or(0);
    at.saturating_add(u32::try_from(number).unwrap_or(0))
}

impl StoreRefusal {
    /// A number above 0, another one for each reason.
    pub(crate) fn number(&self) -> u32 {
        match self {
            StoreRefusal::System("store", error) | StoreRefusal::Files(OpenError::Io(error)) => {
                system_number(error, AT_FILE)
            }
            StoreRefusal::System(_, error) => system_number(error, AT_LOG),
            StoreRefusal::Files(OpenError::OutOfMemory) => 3,
            StoreRefusal::Foreign => 4,
            StoreRefusal::Taken(_) => 5,
            StoreRefusal::Files(OpenError::Busy) => 6,
            StoreRefusal::Files(OpenError::HotJournal) => 7,
            StoreRefusal::Settings(fault) => number_of(*fault).saturating_add(10),
            StoreRefusal::Database(Error::SqliteFailure(code)) => code_number(*code),
            StoreRefusal::Database(_) => 8,
        }
    }

    /// Whether its disk had no room.
    pub(crate) fn is_full(&self) -> bool {
        match self {
            StoreRefusal::Settings(StoreFault::Full)
            | StoreRefusal::Database(Error::SqliteFailure(ErrorCode::DiskFull)) => true,
            StoreRefusal::System(_, error) | StoreRefusal::Files(OpenError::Io(error)) => {
                matches!(
                    error.kind(),
                    io::ErrorKind::StorageFull | io::ErrorKind::QuotaExceeded
                )
            }
            _ => false,
        }
    }
}

// As `StoreRefusal::number`, of a database.
fn code_number(code: ErrorCode) -> u32 {
    match code {
        ErrorCode::DiskFull => FULL,
        ErrorCode::SystemIoFailure => FAILED,
        ErrorCode::OutOfMemory => 3,
        ErrorCode::NotADatabase => 20,
        ErrorCode::DatabaseCorrupt => 21,
        ErrorCode::CannotOpen => 22,
        ErrorCode::DatabaseBusy => 23,
        _ => 24,
    }
}

/// Reports the refusal, unless memory ran out, and gives its status.
pub(crate) fn refuse_store(
    rt: &impl Eprint,
    level: Level,
    path: &str,
    refusal: StoreRefusal,
) -> u8 {
    let why = match refusal {
        StoreRefusal::System(part, error) => return refuse(rt, level, STORE, part, path, &error),
        StoreRefusal::Files(OpenError::OutOfMemory)
        | StoreRefusal::Database(Error::SqliteFailure(ErrorCode::OutOfMemory))
        | StoreRefusal::Settings(StoreFault::NoMemory) => return NO_MEMORY,
        StoreRefusal::Files(error) => {
            report(rt, level, "store", path, &error);
            return STORE;
        }
        StoreRefusal::Database(error) => {
            report(rt, level, "store", path, &error);
            return STORE;
        }
        StoreRefusal::Taken(why) => why,
        StoreRefusal::Foreign => "a database, but not a store of settings",
        StoreRefusal::Settings(StoreFault::Refused) => "the database refused",
        StoreRefusal::Settings(StoreFault::Full) => "database or disk is full",
        StoreRefusal::Settings(StoreFault::Foreign) => "a stored name is not a label",
    };
    report(rt, level, "store", path, &why);
    STORE
}
