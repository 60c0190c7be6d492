//! Why a start was refused: which part of it, and what the system said.

use crate::held::Held;
use history_model::definition::Def;
use std::alloc::Global;
use std::fs::Files;
use std::io::ErrorKind;
use std::{fs, io};

/// A part of a start.
#[derive(Clone, Copy)]
pub(crate) enum Part {
    Program,
    Folder,
    Input,
    Output,
    Errors,
    Request,
    Reply,
}

/// The part that was refused, and the reason.
#[derive(Clone, Copy)]
pub(crate) struct Failure {
    pub(crate) part: Part,
    pub(crate) error: io::Error,
}

impl Failure {
    /// Whether a spool file is lost: it was removed, or another is at its name, or it may not be opened any more. A run
    /// that needs it can never be started.
    pub(crate) fn is_lost(&self) -> bool {
        let kind = self.error.kind();
        matches!(self.part, Part::Request | Part::Reply)
            && matches!(
                kind,
                ErrorKind::NotFound | ErrorKind::NotADirectory | ErrorKind::PermissionDenied
            )
    }

    /// What could not be done, as a form, with the path that the definition gives the part. A part without a path has the null
    /// device.
    pub(crate) fn said<'a>(&self, def: &'a Def) -> (&'static str, &'a str) {
        let (form, path) = match self.part {
            Part::Program => ("cannot start $: $", Some(def.program())),
            Part::Folder => ("cannot enter the folder $: $", def.working_directory()),
            Part::Input => ("cannot open $ for its input: $", def.standard_in_path()),
            Part::Output => ("cannot open $ for its output: $", def.standard_out_path()),
            Part::Errors => ("cannot open $ for its errors: $", def.standard_error_path()),
            Part::Request => ("cannot open $: $", Some("the spooled request")),
            Part::Reply => ("cannot open $: $", Some("the spooled reply")),
        };
        (form, path.unwrap_or("/dev/null"))
    }
}

/// Whose error a spawn's is: the system does not say whether it is the folder's or the program's. A helper process has
/// tried the folder; if there was none, it is tried here.
pub(crate) fn culprit<R: Files>(
    rt: &R,
    alloc: Global,
    def: &Def,
    held: &Held,
    error: io::Error,
) -> Failure {
    if held.is_asked {
        let part = Part::Program;
        return Failure { part, error };
    }
    if let Some(folder) = def.working_directory() {
        if let Err(error) = enter(rt, alloc, folder) {
            let part = Part::Folder;
            return Failure { part, error };
        }
    }
    let part = Part::Program;
    Failure { part, error }
}

// An error if the folder is none, or may not be entered.
fn enter<R: Files>(rt: &R, alloc: Global, folder: &str) -> io::Result<()> {
    let inside = match format!(in alloc; "{folder}/.") {
        Ok(inside) => inside,
        Err(error) => return Err(io::Error::from(error)),
    };
    let data = fs::metadata(rt, inside.as_str());
    drop(inside);
    match data {
        Ok(_) => Ok(()),
        Err(error) => Err(error),
    }
}
