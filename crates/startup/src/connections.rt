//! What is done over the connection to a database, whatever its files are. A type parameter that becomes a real store is proved for all
//! that lies below the store, so this happens once, in `over_files`.

use crate::medium::Medium;
use crate::refusal::StoreRefusal;
use sqlite::{Alter, Connection, Error, ErrorCode, File, FileStore, Files, Options};
use sqlite_disk::Memory;
use std::alloc::Global;

/// The file of a database and its log: both of the system, or both copies in memory.
pub(crate) type Media = Files<Medium<File, Memory>>;

/// What is done over a connection, with what it gives. If it is refused, or nothing was done, it is given back.
pub(crate) trait ConnectionTask {
    type Done;

    fn over<S: Alter + Drop>(self, conn: Connection<S>) -> Result<Self::Done, (StoreRefusal, Self)>;
}

/// What is under a connection to the database of such files.
pub(crate) type MediaStore = FileStore<Medium<File, Memory>>;

/// A connection to it.
pub(crate) type MediaConnection = Connection<MediaStore>;

/// Opens the database of these files, and does the task over it.
pub(crate) fn over_files<T: ConnectionTask>(
    alloc: Global,
    files: Media,
    options: Options,
    task: T,
) -> Result<T::Done, (StoreRefusal, T)> {
    match connection_over(alloc, files, options) {
        Ok(conn) => task.over(conn),
        Err(refusal) => Err((refusal, task)),
    }
}

/// Opens the database of these files.
pub(crate) fn connection_over(
    alloc: Global,
    files: Media,
    options: Options,
) -> Result<MediaConnection, StoreRefusal> {
    if !files.may_be_used() {
        return Err(no_memory());
    }
    match Connection::open_files(alloc, files, options) {
        Ok(conn) => Ok(conn),
        Err((error, _)) => Err(StoreRefusal::Database(error)),
    }
}

// Only a copy in memory that found no memory may not be used.
fn no_memory() -> StoreRefusal {
    StoreRefusal::Database(Error::SqliteFailure(ErrorCode::OutOfMemory))
}
