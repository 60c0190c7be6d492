//! The status file is not another place's file: something is put in its place again and again, and the file of its lock
//! is removed at the end.

use crate::one_file::{BESIDE_STORE, FileMark, name_of};
use crate::plan::Places;
use crate::reporting::{Level, report};
use exit_status::{CONTROL_SOCKET, JOURNAL, NO_MEMORY, SPOOL, STORE};
use std::alloc::{AllocError, Global};
use std::env::VarError;
use std::fs::Files;
use std::rt::Env;
use std::{env, fs};

/// What names the status file.
const STATUS_FILE: &str = "JOBD_STATUS_FILE";

/// What its files have after its path: itself, what is written before it is put in place, and its lock.
const OWN: [&str; 3] = ["", ".new", ".lock"];

/// A file, by its path without links and, if it is there, by its number.
#[derive(Drop)]
struct OneFile {
    real: String,
    mark: Option<FileMark>,
}

/// Another place's file, as its path has it and what comes after that: the exit status if the status file is this one,
/// and why.
#[derive(Clone, Copy)]
struct Other<'a> {
    path: &'a str,
    end: &'static str,
    status: u8,
    why: &'static str,
}

/// Refuses a status file that is another place, with the status of that, or 1 for want of memory. Its name has to be UTF-8, else it is none.
pub(crate) fn check_status_file<R: AllocGlobal + Env + Eprint + Files>(
    rt: &R,
    alloc: Global,
    places: &Places,
    level: Level,
) -> Result<(), u8> {
    let path = match env::var(rt, STATUS_FILE) {
        Ok(path) => path,
        Err(VarError::OutOfMemory) => return Err(NO_MEMORY),
        Err(_) => return Ok(()),
    };
    if path.is_empty() {
        drop(path);
        return Ok(());
    }
    match taken_for(rt, alloc, places, path.as_str()) {
        Ok(None) => Ok(()),
        Ok(Some((status, why))) => {
            report(rt, level, "status file", path.as_str(), &why);
            Err(status)
        }
        Err(AllocError) => Err(NO_MEMORY),
    }
}

// Which place one of its files is, if any.
fn taken_for<R: AllocGlobal + Files>(
    rt: &R,
    alloc: Global,
    places: &Places,
    path: &str,
) -> Result<Option<(u8, &'static str)>, AllocError> {
    // What is next to the store is where a link at its path leads.
    let store = real_of(rt, alloc, places.store.as_str())?;
    for end in OWN {
        let own = file_at(rt, alloc, path, end)?;
        let found = owning_place(rt, alloc, places, store.as_str(), &own);
        drop(own);
        match found {
            Ok(None) => {}
            answer => return answer,
        }
    }
    Ok(None)
}

fn owning_place<R: AllocGlobal + Files>(
    rt: &R,
    alloc: Global,
    places: &Places,
    store: &str,
    own: &OneFile,
) -> Result<Option<(u8, &'static str)>, AllocError> {
    for other in others_of(places, store) {
        if other.path.is_empty() {
            continue;
        }
        let file = file_at(rt, alloc, other.path, other.end)?;
        let is_same = is_one(own, &file);
        drop(file);
        if is_same {
            return Ok(Some((other.status, other.why)));
        }
    }
    if is_request(rt, alloc, places.spool.as_str(), own)? {
        let why = "it is in the spool, and has the name of a request or of a reply";
        return Ok(Some((SPOOL, why)));
    }
    Ok(None)
}

// The files of the other places. An empty path stands for a journal that is not kept.
fn others_of<'a>(places: &'a Places, store: &'a str) -> [Other<'a>; 10] {
    let socket = places.socket.as_str();
    let journal = match &places.journal {
        Some(path) => path.as_str(),
        None => "",
    };
    let beside = "it is a file of the store";
    let told = "it is where the launcher writes its places";
    [
        place(socket, "", CONTROL_SOCKET, "it is the control socket"),
        place(
            socket,
            ".lock",
            CONTROL_SOCKET,
            "it is the lock of the control socket",
        ),
        place(socket, ".places", CONTROL_SOCKET, told),
        place(socket, ".places.new", CONTROL_SOCKET, told),
        place(journal, "", JOURNAL, "it is the journal"),
        place(store, "", STORE, "it is the store"),
        place(store, BESIDE_STORE[0], STORE, beside),
        place(store, BESIDE_STORE[1], STORE, beside),
        place(store, BESIDE_STORE[2], STORE, beside),
        place(
            places.spool.as_str(),
            "/jobd.lock",
            SPOOL,
            "it is the lock of the spool",
        ),
    ]
}

fn place<'a>(path: &'a str, end: &'static str, status: u8, why: &'static str) -> Other<'a> {
    Other {
        path,
        end,
        status,
        why,
    }
}

// The file at the path with this end, wherever links lead.
fn file_at<R: AllocGlobal + Files>(
    rt: &R,
    alloc: Global,
    path: &str,
    end: &str,
) -> Result<OneFile, AllocError> {
    let path = format!(in alloc; "{path}{end}")?;
    let real = real_of(rt, alloc, path.as_str())?;
    let mark = match fs::metadata(rt, real.as_str()) {
        Ok(data) => Some(FileMark::of(&data)),
        Err(_) => None,
    };
    Ok(OneFile { real, mark })
}

fn is_one(first: &OneFile, second: &OneFile) -> bool {
    let is_same = match (first.mark, second.mark) {
        (Some(first), Some(second)) => first.is(second),
        _ => false,
    };
    is_same || first.real.as_str() == second.real.as_str()
}

/// The path without links. Of what is not there its folder's, if that is there.
pub fn real_of<R: AllocGlobal + Files>(
    rt: &R,
    alloc: Global,
    path: &str,
) -> Result<String, AllocError> {
    if let Ok(real) = fs::canonicalize(rt, path) {
        return String::from_str(alloc, real.as_str());
    }
    let (folder, name) = match path.rsplit_once('/') {
        Some(("", name)) => ("/", name),
        Some(parts) => parts,
        None => (".", path),
    };
    match fs::canonicalize(rt, folder) {
        Ok(real) => format!(in alloc; "{}/{name}", real.as_str()),
        Err(_) => String::from_str(alloc, path),
    }
}

// Whether the clearing of the spool may remove the file. The spool's files end so.
fn is_request<R: AllocGlobal + Files>(
    rt: &R,
    alloc: Global,
    spool: &str,
    own: &OneFile,
) -> Result<bool, AllocError> {
    let name = name_of(own.real.as_str());
    if !name.ends_with(".request") && !name.ends_with(".reply") {
        return Ok(false);
    }
    let path = format!(in alloc; "{spool}/{name}")?;
    let spooled = file_at(rt, alloc, path.as_str(), "")?;
    Ok(is_one(own, &spooled))
}
