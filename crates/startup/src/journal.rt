//! The journal's file: opened as it is, and emptied only once all else is known to be ours.

use crate::one_file::{FileMark, taken_for_journal};
use crate::plan::Plan;
use crate::reporting::{refuse, report};
use ctl_protocol::{Header, LINE_LIMIT, header_line};
use exit_status::{JOURNAL, NO_MEMORY};
use files_and_process::own_files::open_appended;
use history_model::Text;
use std::alloc::Global;
use std::fs::{File, Files};
use std::io;
use std::io::{BufWriter, Error, ErrorKind};

/// The journal's file, made or as it is, and held by this launcher, if one is named. Status 8 if it can't be opened, is
/// not a plain file, is held by another launcher, or is another place of this one.
pub fn journal_at<R: AllocGlobal + Files<File = File> + Eprint>(
    rt: &R,
    alloc: Global,
    plan: &Plan,
) -> Result<Option<File>, u8> {
    let Some(path) = &plan.places.journal else {
        return Ok(None);
    };
    let file = match open_appended(rt, path.as_str()) {
        Ok(file) => file,
        Err(error) => return Err(refuse_journal(rt, plan, path, &error)),
    };
    let why = match taken_for(rt, alloc, plan, path, &file) {
        Ok(None) => return Ok(Some(file)),
        Ok(Some(why)) => Error::new(ErrorKind::InvalidInput, why),
        Err(error) => error,
    };
    drop(file);
    Err(refuse_journal(rt, plan, path, &why))
}

fn taken_for<R: AllocGlobal + Files<File = File>>(
    rt: &R,
    alloc: Global,
    plan: &Plan,
    path: &Text,
    file: &File,
) -> io::Result<Option<&'static str>> {
    let own = FileMark::of(&file.metadata()?);
    taken_for_journal(rt, alloc, plan, path.as_str(), own)
}

fn refuse_journal(rt: &impl Eprint, plan: &Plan, path: &Text, error: &io::Error) -> u8 {
    refuse(
        rt,
        plan.requested.level,
        JOURNAL,
        "journal",
        path.as_str(),
        error,
    )
}

/// Empties the journal, whose first line comes next. Status 8 if that is refused.
pub fn begun(
    rt: &impl Eprint,
    alloc: Global,
    plan: &Plan,
    file: Option<File>,
) -> Result<Option<BufWriter<File>>, u8> {
    match (file, &plan.places.journal) {
        (Some(file), Some(path)) => match emptied(alloc, file) {
            Ok(writer) => Ok(Some(writer)),
            Err(error) => Err(refuse_journal(rt, plan, path, &error)),
        },
        _ => Ok(None),
    }
}

fn emptied(alloc: Global, file: File) -> io::Result<BufWriter<File>> {
    file.set_len(0)?;
    BufWriter::new(alloc, file)
}

/// Reports that `jobd replay` can't read the journal, if its first line is too long for that: it holds all settings.
pub fn tell_long_header(
    rt: &impl Eprint,
    alloc: Global,
    plan: &Plan,
    header: &Header,
) -> Result<(), u8> {
    let Some(path) = &plan.places.journal else {
        return Ok(());
    };
    let Ok(line) = header_line(alloc, header) else {
        return Err(NO_MEMORY);
    };
    if line.len() > LINE_LIMIT + 1 {
        let why = "jobd replay can't read it, since the settings make its first line too long";
        report(rt, plan.requested.level, "journal", path.as_str(), &why);
    }
    Ok(())
}
