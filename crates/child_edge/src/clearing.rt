//! What a launcher that was killed left in its spool.

use std::fs::{DirEntry, Files};
use std::{fs, io};

/// Removes the spool files that lie in the folder: those with a name as the launcher gives them, `JOB-CONN.request` or
/// `JOB-CONN.reply`, both numbers in plain decimals. Nothing else in the folder is touched. An `Err` if the folder
/// can't be read or such a file can't be removed; those before it are removed.
pub fn clear_spool<R: AllocGlobal + Clone + Drop + Files>(rt: &R, folder: &str) -> io::Result<()> {
    let listing = match fs::read_dir(rt, folder) {
        Ok(listing) => listing,
        Err(error) => return Err(error),
    };
    let mut answer = Ok(());
    for entry in listing {
        answer = clear(rt, entry);
        if answer.is_err() {
            break;
        }
    }
    answer
}

fn clear<R: Drop + Files>(rt: &R, entry: io::Result<DirEntry<R>>) -> io::Result<()> {
    let entry = match entry {
        Ok(entry) => entry,
        Err(error) => return Err(error),
    };
    let answer = if is_spooled(entry.file_name()) {
        remove_file(rt, &entry)
    } else {
        Ok(())
    };
    drop(entry);
    answer
}

// Removes what is a plain file.
fn remove_file<R: Files>(rt: &R, entry: &DirEntry<R>) -> io::Result<()> {
    match entry.file_type() {
        Ok(kind) if kind.is_file() => fs::remove_file(rt, entry.path()),
        Ok(_) => Ok(()),
        Err(error) => Err(error),
    }
}

fn is_spooled(name: &str) -> bool {
    let Some((numbers, "request" | "reply")) = name.split_once('.') else {
        return false;
    };
    match numbers.split_once('-') {
        Some((job, conn)) => is_number(job) && is_number(conn),
        None => false,
    }
}

// One that begins with a digit is a number if it can be read as one: the library takes a sign at the beginning alone.
fn is_number(text: &str) -> bool {
    let is_plain = match text.as_bytes().first() {
        Some(b'1'..=b'9') => true,
        _ => text == "0",
    };
    is_plain && text.parse::<u64>().is_ok()
}
