//! Property lists in XML as definitions in JSON.

ghost use Rattle.std.specs.Prelude.{IfOk};
ghost use Rattle.definition_files.specs.ListStatus.{IsListStatus};

use crate::files::{Contents, DefinitionSource};
use crate::folder::{laid_out_with, put_new};
use crate::services::services_of;
use crate::verdict::{Verdict, Verdicts};
use files_and_process::path_files::{Found, Kind};
use history_model::Text;
use property_lists::{ListFault, json_of};
use run_times::TextWriter;
use run_times::telling::Outcome;
use std::alloc::{AllocError, Global};

/// The JSON of a property list in XML; None if the bytes are not such a list, or are a refused one. `AllocError` if memory ran out.
pub fn json_of_list(alloc: Global, bytes: &[u8]) -> Result<Option<Vec<u8>>, AllocError> {
    match json_of(alloc, bytes) {
        Ok(made) => Ok(Some(made)),
        Err(ListFault::NoMemory) => Err(AllocError),
        Err(ListFault::Refused { .. }) => Ok(None),
    }
}

/// Each of the lists as a definition in JSON, a line for each member and item. It is a file of its own name in the folder, never over what
/// is there; without a folder it is in the text. What is wrong with a list is reported, with its line. The status is 65 if a file can't be
/// read, or can't be written. Otherwise it is 1 if a list was refused or is too long: the others are written all the same. Otherwise it is
/// 0.
pub fn lists_as_json<S: DefinitionSource>(
    host: &HostRuntime,
    alloc: Global,
    source: &mut S,
    paths: &[Text],
    longest: usize,
    into: Option<&str>,
) -> Result<Outcome, AllocError>
    ensures status { IfOk result (λ outcome. IsListStatus outcome.status) }
{
    let mut writer = TextWriter::new(alloc);
    let added = add_each(host, alloc, source, paths, longest, into, &mut writer);
    match (added, writer.into_text()) {
        (Ok(verdicts), Ok(text)) => Ok(Outcome {
            text,
            status: verdicts.check_status(false),
        }),
        (_, text) => {
            drop(text);
            Err(AllocError)
        }
    }
}

fn add_each<S: DefinitionSource>(
    host: &HostRuntime,
    alloc: Global,
    source: &mut S,
    paths: &[Text],
    longest: usize,
    into: Option<&str>,
    writer: &mut TextWriter,
) -> Result<Verdicts, AllocError> {
    let mut verdicts = Verdicts::none();
    for path in paths {
        match add_file(host, alloc, source, path.as_str(), longest, into, writer) {
            Ok(verdict) => verdicts = verdicts.with(verdict),
            Err(error) => return Err(error),
        }
    }
    Ok(verdicts)
}

fn add_file<S: DefinitionSource>(
    host: &HostRuntime,
    alloc: Global,
    source: &mut S,
    path: &str,
    longest: usize,
    into: Option<&str>,
    writer: &mut TextWriter,
) -> Result<Verdict, AllocError> {
    let file = Found {
        path: String::from_str(alloc, path)?,
        kind: Kind::File,
    };
    let contents = source.read(alloc, longest, &file);
    drop(file);
    match contents {
        Ok(Contents::Bytes(bytes)) => {
            let verdict = add_list(host, alloc, path, bytes.as_slice(), into, writer);
            drop(bytes);
            verdict
        }
        Ok(Contents::TooLong) => Ok(Verdict::Refused),
        Ok(_) => Ok(Verdict::Unread),
        Err(error) => Err(error),
    }
}

// Adds the list as JSON, or reports why there is nothing to add.
fn add_list(
    host: &HostRuntime,
    alloc: Global,
    path: &str,
    bytes: &[u8],
    into: Option<&str>,
    writer: &mut TextWriter,
) -> Result<Verdict, AllocError> {
    match json_of(alloc, bytes) {
        Ok(made) if !made.starts_with(b"{") => {
            drop(made);
            let _written = eprintln!(host;
                "{path}: error: its value is not a <dict>, as a job definition is"
            );
            Ok(Verdict::Refused)
        }
        Ok(made) => {
            let kept = keep_list(host, alloc, path, made.as_slice(), into, writer);
            drop(made);
            kept
        }
        Err(ListFault::NoMemory) => Err(AllocError),
        Err(ListFault::Refused { line, why, found }) => {
            let mut told = TextWriter::new(alloc);
            told.fill(why, &[run_times::Piece::Text(found)]);
            let told = told.into_text()?;
            let shown = told.as_str();
            let _written = eprintln!(host; "{path}:{line}: error: {shown}");
            drop(told);
            Ok(Verdict::Refused)
        }
    }
}

fn keep_list(
    host: &HostRuntime,
    alloc: Global,
    path: &str,
    made: &[u8],
    into: Option<&str>,
    writer: &mut TextWriter,
) -> Result<Verdict, AllocError> {
    let services = services_of(host, alloc)?;
    let shown = laid_out_with(
        alloc,
        std::str::from_utf8(made).unwrap_or(""),
        services.as_str(),
    );
    drop(services);
    let shown = shown?;
    let kept = match into {
        Some(folder) => put_new(host, alloc, folder, stem_of(path), shown.as_slice()),
        None => {
            writer.put(std::str::from_utf8(shown.as_slice()).unwrap_or(""));
            Ok(true)
        }
    };
    drop(shown);
    match kept {
        Ok(true) => Ok(Verdict::Well),
        Ok(false) => Ok(Verdict::Unread),
        Err(error) => Err(error),
    }
}

// The name of a file, without the folders before it and without `.plist` at its end.
fn stem_of(path: &str) -> &str {
    let name = match path.rsplit_once('/') {
        Some((_, name)) => name,
        None => path,
    };
    name.strip_suffix(".plist").unwrap_or(name)
}
