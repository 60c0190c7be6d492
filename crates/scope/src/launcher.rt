//! The launcher that is read if neither the arguments nor the variables of its files name one: that of `JOBD_SOCKET`, else the package's. Its places
//! file says where its journal and its status file are.

use crate::sources::Answers;
use launcher_places::{
    BEHIND_SOCKET, Places, PlacesFault, check_own_file, owner_of, places_beside,
};
use run_times::telling::tell_of;
use status_page::packages_file;
use std::alloc::{AllocError, Global};
use std::env::VarError;
use std::fs::metadata;
use std::io::{Error, ErrorKind};
use std::{env, io};

/// The variable that names the launcher's control socket, as `jobctl` reads it.
const SOCKET: &str = "JOBD_SOCKET";

/// The control socket of the package's launcher.
const PACKAGES: &str = "/run/jobd/jobd.sock";

/// The journal of the package's launcher.
const PACKAGED: &str = "/var/lib/jobd/journal.jsonl";

/// Where the files of a launcher are.
#[derive(Drop)]
pub(crate) struct LauncherFiles {
    /// What a fault of theirs is about: the launcher's places file, or the variable.
    about: String,
    /// Whether it is the package's launcher, since the variable is not set.
    pub(crate) is_packages: bool,
    pub(crate) journal: Option<String>,
    pub(crate) status_file: Option<String>,
    /// Why they are not known.
    pub(crate) fault: Option<Error>,
}

impl LauncherFiles {
    /// The path of its status file, if it has one.
    pub(crate) fn into_status_file(self) -> Option<String> {
        let LauncherFiles { status_file, .. } = self;
        status_file
    }

    /// The path of its journal, if it has one.
    pub(crate) fn into_journal(self) -> Option<String> {
        let LauncherFiles { journal, .. } = self;
        journal
    }
}

/// Where the files of the launcher are. An error is of memory.
pub(crate) fn launcher_files(host: &HostRuntime, alloc: Global) -> io::Result<LauncherFiles> {
    match env::var(host, "JOBD_SOCKET") {
        Ok(socket) if !socket.is_empty() => {
            let found = named_launcher(host, alloc, socket.as_str());
            drop(socket);
            found
        }
        Ok(_) | Err(VarError::NotPresent) => packages_launcher(host, alloc, true),
        Err(VarError::OutOfMemory) => Err(Error::from(ErrorKind::OutOfMemory)),
        Err(VarError::NotUnicode) => {
            let about = String::from_str(alloc, SOCKET)?;
            Ok(unknown_files(about, Error::new(ErrorKind::InvalidInput, "not UTF-8")))
        }
    }
}

fn unknown_files(about: String, fault: Error) -> LauncherFiles {
    LauncherFiles {
        about,
        is_packages: false,
        journal: None,
        status_file: None,
        fault: Some(fault),
    }
}

fn places_path(alloc: Global, socket: &str) -> Result<String, AllocError> {
    format!(in alloc; "{socket}{BEHIND_SOCKET}")
}

fn named_launcher(host: &HostRuntime, alloc: Global, socket: &str) -> io::Result<LauncherFiles> {
    if socket == PACKAGES {
        return packages_launcher(host, alloc, false);
    }
    let fault = match places_beside(host, alloc, socket) {
        Ok(Some(places)) => return files_of(host, alloc, socket, false, places),
        Ok(None) => Error::new(
            ErrorKind::NotFound,
            "not there: does a launcher run at the socket of JOBD_SOCKET?",
        ),
        Err(PlacesFault::NotPlaces) => {
            Error::new(ErrorKind::InvalidInput, "not a file of a launcher's places")
        }
        Err(PlacesFault::Read(error)) => error,
        Err(PlacesFault::NoMemory) => Error::from(ErrorKind::OutOfMemory),
    };
    if fault.kind() == ErrorKind::OutOfMemory {
        return Err(fault);
    }
    match places_path(alloc, socket) {
        Ok(about) => Ok(unknown_files(about, fault)),
        Err(error) => {
            drop(fault);
            Err(Error::from(error))
        }
    }
}

// A launcher of an earlier version writes no places, and a user may not be one who may read them: the package's has its files where the package puts
// them.
fn packages_launcher(
    host: &HostRuntime,
    alloc: Global,
    is_packages: bool,
) -> io::Result<LauncherFiles> {
    match places_beside(host, alloc, PACKAGES) {
        Ok(Some(places)) => files_of(host, alloc, PACKAGES, is_packages, places),
        Err(PlacesFault::NoMemory) => Err(Error::from(ErrorKind::OutOfMemory)),
        other => {
            drop(other);
            fixed_files(host, alloc, is_packages)
        }
    }
}

// Where the package's launcher has its files, if it did not write where.
fn fixed_files(host: &HostRuntime, alloc: Global, is_packages: bool) -> io::Result<LauncherFiles> {
    let about = places_path(alloc, PACKAGES);
    let journal = String::from_str(alloc, PACKAGED);
    let status_file = String::from_str(alloc, packages_file(host));
    match (about, journal, status_file) {
        (Ok(about), Ok(journal), Ok(status_file)) => Ok(LauncherFiles {
            about,
            is_packages,
            journal: Some(journal),
            status_file: Some(status_file),
            fault: None,
        }),
        (about, journal, status_file) => {
            drop(about);
            drop(journal);
            drop(status_file);
            Err(Error::from(ErrorKind::OutOfMemory))
        }
    }
}

// Those that the places file names. If one of them is another user's, they are not known.
fn files_of(
    host: &HostRuntime,
    alloc: Global,
    socket: &str,
    is_packages: bool,
    places: Places,
) -> io::Result<LauncherFiles> {
    let Places {
        journal,
        status_file,
        ..
    } = places;
    let fault = fault_of_files(host, socket, &journal, &status_file);
    match (places_path(alloc, socket), fault) {
        (Ok(about), None) => Ok(LauncherFiles {
            about,
            is_packages,
            journal,
            status_file,
            fault: None,
        }),
        (Ok(about), Some(fault)) => {
            drop(journal);
            drop(status_file);
            Ok(unknown_files(about, fault))
        }
        (Err(error), fault) => {
            drop(journal);
            drop(status_file);
            drop(fault);
            Err(Error::from(error))
        }
    }
}

fn fault_of_files(
    host: &HostRuntime,
    socket: &str,
    journal: &Option<String>,
    status_file: &Option<String>,
) -> Option<Error> {
    match owner_of(host, socket) {
        Ok(owner) => match others_file(host, journal, owner) {
            Some(error) => Some(error),
            None => others_file(host, status_file, owner),
        },
        Err(error) => Some(error),
    }
}

// The error, if the path leads to what another user owns, or to what is not a plain file: a launcher's user must not lead root there. Whoever opens what
// can't be looked at reports why.
fn others_file(host: &HostRuntime, path: &Option<String>, owner: u32) -> Option<Error> {
    let Some(path) = path else {
        return None;
    };
    match check_own_file(host, path.as_str(), owner) {
        Err(error) if error.kind() == ErrorKind::InvalidInput => Some(error),
        Err(error) => {
            drop(error);
            None
        }
        Ok(()) => None,
    }
}

/// Whether something is at the path, as far as the system says it.
pub(crate) fn is_there(host: &HostRuntime, path: &str) -> bool {
    match metadata(host, path) {
        Ok(_) => true,
        Err(error) => error.kind() != ErrorKind::NotFound,
    }
}

/// Reports that the launcher has no file that answers the task, and which places were looked for, or why its files are not known.
pub(crate) fn tell_no_file(host: &HostRuntime, files: &LauncherFiles, answers: Answers) {
    let about = files.about.as_str();
    if let Some(fault) = &files.fault {
        tell_of(host, about, fault);
    } else if files.is_packages {
        tell_of(host, SOCKET, &not_found(answers));
    } else {
        tell_of(host, about, &not_written(answers));
    }
}

/// Reports the same, of the launcher that is meant.
pub(crate) fn tell_no_launcher(host: &HostRuntime, answers: Answers) -> io::Result<()> {
    let files = launcher_files(host, host.alloc())?;
    tell_no_file(host, &files, answers);
    drop(files);
    Ok(())
}

fn not_found(answers: Answers) -> &'static str {
    match answers {
        Answers::StatusFile => {
            "not set, and /run/jobd/jobd.sock.places and /run/jobd/status.jsonl are not there: set it, or give --status-file PATH"
        }
        Answers::Either => {
            "not set, and /run/jobd/jobd.sock.places, /var/lib/jobd/journal.jsonl and /run/jobd/status.jsonl are not there: set it, or give --status-file PATH or --journal PATH (- is standard input)"
        }
        Answers::Journals => {
            "not set, and /run/jobd/jobd.sock.places and /var/lib/jobd/journal.jsonl are not there: set it, or give --journal PATH (- is standard input)"
        }
    }
}

fn not_written(answers: Answers) -> &'static str {
    match answers {
        Answers::StatusFile => "its launcher writes no status file",
        Answers::Either => "its launcher writes no journal and no status file",
        Answers::Journals => "its launcher writes no journal",
    }
}
