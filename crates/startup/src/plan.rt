//! What a start goes by: the places that the arguments name, what the environment asks for, and what the system says of
//! this process.

use crate::reporting::{Level, refuse, report};
use crate::status_file::check_status_file;
use exit_status::{CLOCK_OR_WAITING, NO_MEMORY};
use files_and_process::own_process::{ProcessState, open_null_streams};
use history_model::Text;
use std::alloc::{AllocError, Global};
use std::env;
use std::env::VarError;
use std::fs::{File, Files};
use std::rt::Env;

/// The paths that the arguments name.
#[derive(Drop)]
pub struct Places {
    pub socket: Text,
    pub store: Text,
    pub spool: Text,
    pub journal: Option<Text>,
}

/// What the environment asks for.
#[derive(Clone, Copy)]
pub struct Requested {
    /// `JOBD_LOG=runs`: the launcher also logs starts, exits, TERM and KILL.
    pub logs_runs: bool,
    pub level: Level,
}

/// What a start goes by, and what is held as long as the launcher is running.
#[derive(Drop)]
pub struct Plan {
    pub places: Places,
    pub requested: Requested,
    pub standing: ProcessState,
    // The null device, in place of each standard stream that is missing.
    _null_streams: Vec<File>,
}

/// What is read before anything is opened. Status 1 for want of memory, 9 if the null device can't be opened; that of another place if the
/// status file that the environment names is that place's file.
pub fn plan_of<R: AllocGlobal + Env + Eprint + Files<File = File>>(
    rt: &R,
    alloc: Global,
    places: Places,
) -> Result<Plan, u8> {
    let Ok(requested) = read_requested(rt) else {
        return Err(NO_MEMORY);
    };
    match open_null_streams(rt, alloc) {
        Ok(held) => match check_status_file(rt, alloc, &places, requested.level) {
            Ok(()) => Ok(Plan {
                places,
                requested,
                standing: ProcessState::read(rt),
                _null_streams: held,
            }),
            Err(status) => {
                drop(places);
                drop(held);
                Err(status)
            }
        },
        Err(error) => {
            let (part, path) = ("null device", "/dev/null");
            Err(refuse(rt, requested.level, CLOCK_OR_WAITING, part, path, &error))
        }
    }
}

// What `JOBD_LOG` and `JOURNAL_STREAM` are set to. Another value than `runs` is reported, and asks for nothing.
fn read_requested<R: AllocGlobal + Env + Eprint>(rt: &R) -> Result<Requested, AllocError> {
    let level = match env::var(rt, "JOURNAL_STREAM") {
        Err(VarError::OutOfMemory) => return Err(AllocError),
        Err(VarError::NotPresent) => Level::NONE,
        _ => Level { is_told: true },
    };
    let logs_runs = match env::var(rt, "JOBD_LOG") {
        Ok(word) => is_runs(rt, level, word.as_str()),
        Err(VarError::OutOfMemory) => return Err(AllocError),
        Err(_) => false,
    };
    Ok(Requested { logs_runs, level })
}

fn is_runs(rt: &impl Eprint, level: Level, word: &str) -> bool {
    if word != "runs" && !word.is_empty() {
        report(rt, level, "JOBD_LOG", word, &"unknown value; expected runs");
    }
    word == "runs"
}
