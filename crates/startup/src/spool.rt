//! The spool's folder: held by one launcher at a time, and safe from others.

use crate::plan::Plan;
use crate::reporting::{Level, refuse, report};
use child_edge::{System, clear_spool};
use exit_status::SPOOL;
use files_and_process::own_files::{LockFile, check_folder};
use std::alloc::Global;
use std::io;

/// Takes the folder for this launcher, by a lock on its file `jobd.lock`, and removes what a launcher that was killed
/// left in it. Status 10 if another launcher holds it, or others may write in it. A folder that is not there, or that
/// the system refuses, is reported, and is not held: jobs without sockets don't need it.
pub fn hold_spool<R: System>(rt: &R, alloc: Global, plan: &Plan) -> Result<Option<LockFile>, u8> {
    let (folder, level) = (plan.places.spool.as_str(), plan.requested.level);
    match held(rt, alloc, folder, plan.standing.user) {
        Ok(lock) => {
            clear(rt, level, folder);
            Ok(Some(lock))
        }
        Err(error) if error.raw_os_error().is_some() => {
            report(rt, level, "spool", folder, &error);
            Ok(None)
        }
        Err(error) => Err(refuse(rt, level, SPOOL, "spool", folder, &error)),
    }
}

fn held<R: System>(rt: &R, alloc: Global, folder: &str, user: Option<u32>) -> io::Result<LockFile> {
    check_folder(rt, folder, user)?;
    LockFile::take(rt, format!(in alloc; "{folder}/jobd.lock")?)
}

fn clear<R: System>(rt: &R, level: Level, folder: &str) {
    if let Err(error) = clear_spool(rt, folder) {
        report(rt, level, "spool", folder, &error);
    }
}
