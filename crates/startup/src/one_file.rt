//! Whether two places of a start are one file, by device and inode. A journal is emptied, the files of locks are
//! removed at the end, and a spool is cleared. So none of these files may be another place's. The file that replaces
//! the status file may not be there yet, so its path counts too (`status_file`).

use crate::plan::{Places, Plan};
use std::alloc::Global;
use std::fs::{Files, Metadata};
use std::os::unix::fs::MetadataExt;
use std::{fs, io};

/// What SQLite puts after a store's path: the names of its log, of its rollback journal and of its index of the log.
pub(crate) const BESIDE_STORE: [&str; 3] = ["-wal", "-journal", "-shm"];

/// Which file one is: the number of its device, and that of the file on it.
#[derive(Clone, Copy)]
pub(crate) struct FileMark {
    device: u64,
    inode: u64,
}

impl FileMark {
    pub(crate) fn of(data: &Metadata) -> FileMark {
        FileMark {
            device: data.dev(),
            inode: data.ino(),
        }
    }

    pub(crate) fn is(self, other: FileMark) -> bool {
        self.device == other.device && self.inode == other.inode
    }

    /// Whether the file is at the path, or a link that leads to it. If the system does not say what is there, it is
    /// not.
    pub(crate) fn is_at<R: Files>(self, rt: &R, path: &str) -> bool {
        match fs::metadata(rt, path) {
            Ok(data) => self.is(FileMark::of(&data)),
            Err(_) => false,
        }
    }
}

/// Why the journal's file can't be the journal: which other place it is, if any.
pub(crate) fn taken_for_journal<R: AllocGlobal + Files>(
    rt: &R,
    alloc: Global,
    plan: &Plan,
    path: &str,
    own: FileMark,
) -> io::Result<Option<&'static str>> {
    let store = plan.places.store.as_str();
    if own.is_at(rt, store) {
        return Ok(Some("it is the store"));
    }
    if is_beside(rt, alloc, store, own)? {
        return Ok(Some("it is a file of the store"));
    }
    taken_for_any(rt, alloc, &plan.places, path, own)
}

/// Why the store's file can't be the store: which other place it is, if any. The journal is open before that, and is
/// checked there.
pub(crate) fn taken_for_store<R: AllocGlobal + Files>(
    rt: &R,
    alloc: Global,
    plan: &Plan,
) -> io::Result<Option<&'static str>> {
    let path = plan.places.store.as_str();
    let own = FileMark::of(&fs::metadata(rt, path)?);
    taken_for_any(rt, alloc, &plan.places, path, own)
}

fn taken_for_any<R: AllocGlobal + Files>(
    rt: &R,
    alloc: Global,
    places: &Places,
    path: &str,
    own: FileMark,
) -> io::Result<Option<&'static str>> {
    let (socket, spool) = (places.socket.as_str(), places.spool.as_str());
    let lock = format!(in alloc; "{socket}.lock")?;
    if own.is_at(rt, lock.as_str()) {
        return Ok(Some("it is the lock of the control socket"));
    }
    let told = format!(in alloc; "{socket}.places")?;
    let beside = format!(in alloc; "{socket}.places.new")?;
    if own.is_at(rt, told.as_str()) || own.is_at(rt, beside.as_str()) {
        return Ok(Some("it is where the launcher writes its places"));
    }
    let lock = format!(in alloc; "{spool}/jobd.lock")?;
    if own.is_at(rt, lock.as_str()) {
        return Ok(Some("it is the lock of the spool"));
    }
    if is_request(rt, alloc, spool, path, own)? {
        return Ok(Some("it is in the spool, and has the name of a request or of a reply"));
    }
    Ok(None)
}

// Whether the file is one that SQLite has next to the store, wherever a link at the store's path leads.
fn is_beside<R: AllocGlobal + Files>(
    rt: &R,
    alloc: Global,
    store: &str,
    own: FileMark,
) -> io::Result<bool> {
    let real = match fs::canonicalize(rt, store) {
        Ok(real) => format!(in alloc; "{}", real.as_str())?,
        Err(_) => String::from_str(alloc, store)?,
    };
    for end in BESIDE_STORE {
        let path = format!(in alloc; "{}{end}", real.as_str())?;
        if own.is_at(rt, path.as_str()) {
            return Ok(true);
        }
    }
    Ok(false)
}

// Whether the clearing of the spool may remove the file. The spool's files end so.
fn is_request<R: AllocGlobal + Files>(
    rt: &R,
    alloc: Global,
    spool: &str,
    path: &str,
    own: FileMark,
) -> io::Result<bool> {
    let real = fs::canonicalize(rt, path)?;
    let name = name_of(real.as_str());
    if !name.ends_with(".request") && !name.ends_with(".reply") {
        return Ok(false);
    }
    let path = format!(in alloc; "{spool}/{name}")?;
    Ok(own.is_at(rt, path.as_str()))
}

pub(crate) fn name_of(path: &str) -> &str {
    match path.rsplit_once('/') {
        Some((_, name)) => name,
        None => path,
    }
}
