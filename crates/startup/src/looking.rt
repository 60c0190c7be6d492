//! Whether a file is a store of settings, found out without a write: this module checks a copy of it in memory.

use crate::connections::{ConnectionTask, Media, MediaConnection, connection_over, over_files};
use crate::medium::Medium;
use crate::overrides::read_settings;
use crate::refusal::StoreRefusal;
use sqlite::{Alter, Connection, Error, ErrorCode, Files, Options};
use sqlite_disk::{Disk, Memory};
use std::alloc::Global;
use std::fs::{File, OpenOptions};
use std::io::{ErrorKind, Read};
use std::{fs, io};

/// The most bytes that a store's file has, and the log next to it. No launcher writes one with more: each label takes
/// two pages of 4,096 bytes at most, and few labels get a setting (`MOST_LABELS` of `override_store`).
const MOST_BYTES: u64 = 1_073_741_824;

/// How many pages of the copy are kept a second time.
const CACHE_PAGES: usize = 8;

/// What a file is that may be a store.
#[derive(Clone, Copy)]
pub(crate) enum StoreKind {
    /// It is empty, or a database without a table.
    Empty,
    /// A database with tables of a store, and no others, whose settings can be read.
    Store,
}

/// Checks the plain file at the path, with the log next to it. Neither is written to.
pub(crate) fn look<R: AllocGlobal + fs::Files<File = File>>(
    rt: &R,
    alloc: Global,
    path: &str,
) -> Result<StoreKind, StoreRefusal> {
    let (file, log) = read_both(rt, alloc, path)?;
    look_in(alloc, file, log)
}

/// A connection to a copy in memory of the database in the plain file at the path, with the log next to it.
pub(crate) fn copied_connection<R: AllocGlobal + fs::Files<File = File>>(
    rt: &R,
    alloc: Global,
    path: &str,
) -> Result<MediaConnection, StoreRefusal> {
    let (file, log) = read_both(rt, alloc, path)?;
    match copies(alloc, file, log) {
        Ok(files) => connection_over(alloc, files, copied_options()),
        Err(error) => Err(StoreRefusal::System("store", error)),
    }
}

fn copied_options() -> Options {
    Options {
        cache_pages: CACHE_PAGES,
        ..Options::new(0)
    }
}

// The bytes of the file that the path leads to, and those of its log.
fn read_both<R: AllocGlobal + fs::Files<File = File>>(
    rt: &R,
    alloc: Global,
    path: &str,
) -> Result<(Vec<u8>, Vec<u8>), StoreRefusal> {
    match fs::canonicalize(rt, path) {
        Ok(real) => read_real(rt, alloc, real.as_str()),
        Err(error) => Err(StoreRefusal::System("store", error)),
    }
}

fn read_real<R: fs::Files<File = File>>(
    rt: &R,
    alloc: Global,
    real: &str,
) -> Result<(Vec<u8>, Vec<u8>), StoreRefusal> {
    let file = match bytes_at(rt, alloc, real) {
        Ok(file) => file,
        Err(error) => return Err(StoreRefusal::System("store", error)),
    };
    match log_beside(rt, alloc, real) {
        Ok(log) => Ok((file, log)),
        Err(error) => {
            drop(file);
            Err(StoreRefusal::System("log of the store", error))
        }
    }
}

fn look_in(alloc: Global, file: Vec<u8>, log: Vec<u8>) -> Result<StoreKind, StoreRefusal> {
    if file.is_empty() && log.is_empty() {
        return Ok(StoreKind::Empty);
    }
    let files = match copies(alloc, file, log) {
        Ok(files) => files,
        Err(error) => return Err(StoreRefusal::System("store", error)),
    };
    match over_files(alloc, files, copied_options(), LookThrough { alloc }) {
        Ok(found) => Ok(found),
        Err((refusal, LookThrough { alloc: _ })) => Err(refusal),
    }
}

fn copies(alloc: Global, file: Vec<u8>, log: Vec<u8>) -> io::Result<Media> {
    let log = match in_memory(alloc, log) {
        Ok(log) => log,
        Err(error) => {
            drop(file);
            return Err(error);
        }
    };
    match in_memory(alloc, file) {
        Ok(db) => Ok(Files {
            log: Medium::Copied(log),
            db: Medium::Copied(db),
        }),
        Err(error) => {
            drop(log);
            Err(error)
        }
    }
}

/// Reads the copy: its tables first, and if they are a store's, all settings.
struct LookThrough {
    alloc: Global,
}

impl ConnectionTask for LookThrough {
    type Done = StoreKind;

    fn over<S: Alter + Drop>(
        self,
        conn: Connection<S>,
    ) -> Result<StoreKind, (StoreRefusal, LookThrough)> {
        let LookThrough { alloc } = self;
        let mut conn = conn;
        let found = match found_in(&mut conn) {
            Ok(found) => found,
            Err(refusal) => {
                drop(conn);
                return Err((refusal, LookThrough { alloc }));
            }
        };
        match read_settings(alloc, conn) {
            Ok(both) => {
                drop(both);
                Ok(found)
            }
            Err(refusal) => Err((refusal, LookThrough { alloc })),
        }
    }
}

// What the tables say, whose settings are not yet read.
fn found_in<S: Alter>(conn: &mut Connection<S>) -> Result<StoreKind, StoreRefusal> {
    let tables = conn.schema().tables.len();
    let first = has(conn, "SELECT label, disabled FROM overrides")?;
    let second = has(conn, "SELECT label, disabled, changed FROM settings")?;
    if usize::from(first) + usize::from(second) < tables {
        return Err(StoreRefusal::Foreign);
    }
    Ok(if tables == 0 {
        StoreKind::Empty
    } else {
        StoreKind::Store
    })
}

// Whether the database has what the statement reads.
fn has<S: Alter>(conn: &mut Connection<S>, sql: &str) -> Result<bool, StoreRefusal> {
    match conn.prepare(sql) {
        Ok(_) => Ok(true),
        Err(error @ Error::SqliteFailure(ErrorCode::OutOfMemory)) => {
            Err(StoreRefusal::Database(error))
        }
        Err(_) => Ok(false),
    }
}

// The open for both ways waits at no FIFO.
fn bytes_at<R: fs::Files<File = File>>(rt: &R, alloc: Global, path: &str) -> io::Result<Vec<u8>> {
    let mut options = OpenOptions::new();
    let file: File = options.read(true).write(true).open(rt, path)?;
    if !file.metadata()?.is_file() {
        return Err(io::Error::new(ErrorKind::InvalidInput, "it is not a plain file"));
    }
    let mut bytes = Vec::new(alloc);
    let count = file.take(MOST_BYTES + 1).read_to_end(&mut bytes)?;
    if count as u64 > MOST_BYTES {
        return Err(io::Error::new(ErrorKind::InvalidInput, "it has more than 1 GiB"));
    }
    Ok(bytes)
}

fn log_beside<R: fs::Files<File = File>>(rt: &R, alloc: Global, real: &str) -> io::Result<Vec<u8>> {
    let path = format!(in alloc; "{real}-wal")?;
    match bytes_at(rt, alloc, path.as_str()) {
        Err(error) if error.kind() == ErrorKind::NotFound => Ok(Vec::new(alloc)),
        answer => answer,
    }
}

fn in_memory(alloc: Global, bytes: Vec<u8>) -> io::Result<Memory> {
    let mut disk = Memory::new(alloc);
    let written = disk.write_at(0, bytes.as_slice());
    drop(bytes);
    match written {
        Ok(()) => Ok(disk),
        Err(error) => {
            drop(disk);
            Err(error)
        }
    }
}
