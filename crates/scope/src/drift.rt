//! How files of definitions differ from what is loaded.

use crate::journal::reader::OpenJournal;
use crate::objects::drift::put_drift;
use calendar_due::Zone;
use ctl_protocol::LINE_LIMIT;
use definition_files::{Contents, DefinitionSource, HostFiles, changed_keys};
use exit_status::{BAD_FILE, DIFFERS};
use files_and_process::path_files::{Found, files_at};
use history_model::{KeyName, Text};
use job_defs::{DefFault, read_def};
use json_kinds::kinds::is_among;
use json_kinds::{json_value, key_name};
use launchctl_words::ScopeCommand;
use run_times::telling::{Outcome, tell_of};
use run_times::{Page, TextWriter};
use serde_json::Value;
use std::alloc::{AllocError, Global};

/// A definition: of a file, or as it is loaded.
#[derive(Drop)]
struct Placed {
    /// The path of its file; empty, if it is loaded.
    path: String,
    label: String,
    def: Value,
    /// It has `Disabled`.
    is_disabled: bool,
}

/// How a file's definition compares to what is loaded.
#[derive(Clone, Copy)]
enum DriftKind<'a> {
    /// The two are one JSON value.
    Same,
    /// Keys differ.
    Changed,
    /// Nothing of its label is loaded.
    New,
    /// Nothing of its label is loaded, since a setting or its own `Disabled` says so.
    Disabled,
    /// Nothing of its label is loaded, but this label is, which no file has. The two definitions differ only in the label.
    Renamed(&'a str),
    /// A file before it has the same label.
    Twice,
}

/// The report: lines for people, or objects.
#[derive(Drop)]
struct Report<'a> {
    page: Page<'a>,
    is_json: bool,
}

/// Writes a line for each file, in order, and then one for each loaded job that no file has. Tabs part its fields: how the file compares, the label,
/// the file, and the keys that differ or the former label. With `--json` each line is an object. It reports each file that can't be read or is not a
/// definition. The exit status is 65 if there is such a file, else 2 if anything differs, else 0.
pub(crate) fn drift_of(
    host: &HostRuntime,
    alloc: Global,
    journal: &OpenJournal,
    zone: &Zone,
    of: &ScopeCommand,
) -> Result<Outcome, AllocError> {
    let mut filed = Vec::new(alloc);
    let mut loaded = Vec::new(alloc);
    let read = add_filed(host, alloc, of.words.as_slice(), &mut filed);
    let known = add_loaded(alloc, journal, &mut loaded);
    let mut report = Report {
        page: Page::new(alloc, zone, journal.table.reading()),
        is_json: of.is_json,
    };
    let put = put_all(
        alloc,
        journal,
        filed.as_slice(),
        loaded.as_slice(),
        &mut report,
    );
    drop(filed);
    drop(loaded);
    let Report { page, .. } = report;
    match (read, known, put, page.into_text()) {
        (Ok(are_read), Ok(()), Ok(differs), Ok(text)) => Ok(Outcome {
            text,
            status: match (are_read, differs) {
                (false, _) => BAD_FILE,
                (true, true) => DIFFERS,
                (true, false) => 0,
            },
        }),
        (_, _, _, text) => {
            drop(text);
            Err(AllocError)
        }
    }
}

// Adds the definitions of the files. Whether each was read, and is one.
fn add_filed(
    host: &HostRuntime,
    alloc: Global,
    paths: &[Text],
    filed: &mut Vec<Placed>,
) -> Result<bool, AllocError> {
    let files = files_at(host, paths)?;
    let mut are_read = true;
    let mut is_refused = false;
    for file in &files {
        match add_file(host, alloc, file, filed) {
            Ok(is_read) => are_read = are_read && is_read,
            Err(_) => is_refused = true,
        }
    }
    drop(files);
    if is_refused {
        Err(AllocError)
    } else {
        Ok(are_read)
    }
}

fn add_file(
    host: &HostRuntime,
    alloc: Global,
    file: &Found,
    filed: &mut Vec<Placed>,
) -> Result<bool, AllocError> {
    let mut source = HostFiles { host };
    match source.read(alloc, LINE_LIMIT, file) {
        Ok(Contents::Bytes(bytes)) => {
            let path = file.path.as_str();
            let added = add_read(host, alloc, path, bytes.as_slice(), filed);
            drop(bytes);
            added
        }
        Ok(Contents::Unread | Contents::TooLong) => Ok(false),
        Ok(Contents::Nothing) => Ok(true),
        Err(error) => Err(error),
    }
}

fn add_read(
    host: &HostRuntime,
    alloc: Global,
    path: &str,
    bytes: &[u8],
    filed: &mut Vec<Placed>,
) -> Result<bool, AllocError> {
    match placed_of(alloc, path, bytes) {
        Ok(placed) => {
            filed.push(placed)?;
            Ok(true)
        }
        Err(DefFault::NoMemory) => Err(AllocError),
        Err(fault) => {
            tell_of(host, path, &fault);
            Ok(false)
        }
    }
}

// The definition that the bytes are.
fn placed_of(alloc: Global, path: &str, bytes: &[u8]) -> Result<Placed, DefFault> {
    let def = read_def(alloc, bytes)?;
    let label = String::from_str(alloc, def.label());
    let is_disabled = def.disabled();
    drop(def);
    let path = String::from_str(alloc, path);
    let value = json_value(alloc, bytes);
    match (path, label, value) {
        (Ok(path), Ok(label), Ok(Some(def))) => Ok(Placed {
            path,
            label,
            def,
            is_disabled,
        }),
        (path, label, value) => {
            drop(path);
            drop(label);
            drop(value);
            Err(DefFault::NoMemory)
        }
    }
}

// Adds the definitions that are loaded, by their labels.
fn add_loaded(
    alloc: Global,
    journal: &OpenJournal,
    loaded: &mut Vec<Placed>,
) -> Result<(), AllocError> {
    for (_, job) in &journal.past.jobs {
        if let Some(text) = &job.text {
            match placed_of(alloc, "", text.as_bytes()) {
                Ok(placed) => loaded.push(placed)?,
                Err(_) => return Err(AllocError),
            }
        }
    }
    Ok(())
}

// The definition of this label, if there is one.
fn of_label<'a>(among: &'a [Placed], label: &str) -> Option<&'a Placed> {
    for placed in among {
        if placed.label.as_str() == label {
            return Some(placed);
        }
    }
    None
}

// Puts a line for each file, and one for each loaded job that no file has. Whether something differs.
fn put_all(
    alloc: Global,
    journal: &OpenJournal,
    filed: &[Placed],
    loaded: &[Placed],
    report: &mut Report<'_>,
) -> Result<bool, AllocError> {
    let mut renamed = Vec::new(alloc);
    let files = put_files(alloc, journal, filed, loaded, &mut renamed, report);
    let jobs = put_jobs(filed, loaded, renamed.as_slice(), report);
    drop(renamed);
    match files {
        Ok(differs) => Ok(differs || jobs),
        Err(error) => Err(error),
    }
}

// Puts a line for each file, and adds the labels of the jobs that are renamed. Whether one differs.
fn put_files<'a>(
    alloc: Global,
    journal: &OpenJournal,
    filed: &[Placed],
    loaded: &'a [Placed],
    renamed: &mut Vec<&'a str>,
    report: &mut Report<'_>,
) -> Result<bool, AllocError> {
    let mut differs = false;
    for (index, file) in filed.iter().enumerate() {
        let before = filed.get(..index).unwrap_or(&[]);
        let is_twice = of_label(before, file.label.as_str()).is_some();
        let is_other = match of_label(loaded, file.label.as_str()) {
            _ if is_twice => put_standing(file, DriftKind::Twice, &[], report),
            Some(job) => put_compared(alloc, file, job, report)?,
            None => {
                let standing = absent(alloc, journal, file, filed, loaded, renamed)?;
                put_standing(file, standing, &[], report)
            }
        };
        differs = is_other || differs;
    }
    Ok(differs)
}

// Puts the line of a file of whose label this job is loaded. Whether the two differ.
fn put_compared<'x>(
    alloc: Global,
    file: &'x Placed,
    job: &'x Placed,
    report: &mut Report<'_>,
) -> Result<bool, AllocError> {
    let keys = changed_keys(alloc, &file.def, &job.def)?;
    let standing = if keys.is_empty() {
        DriftKind::Same
    } else {
        DriftKind::Changed
    };
    let differs = put_standing(file, standing, keys.as_slice(), report);
    drop(keys);
    Ok(differs)
}

// How a file compares if nothing is loaded under its label. If it renames a loaded job, that job's label is added to `renamed`.
fn absent<'a>(
    alloc: Global,
    journal: &OpenJournal,
    file: &Placed,
    filed: &[Placed],
    loaded: &'a [Placed],
    renamed: &mut Vec<&'a str>,
) -> Result<DriftKind<'a>, AllocError> {
    let label = file.label.as_str();
    if file.is_disabled || journal.past.labels.of(label).disabled.is_some() {
        return Ok(DriftKind::Disabled);
    }
    for job in loaded {
        let old = job.label.as_str();
        let is_free = of_label(filed, old).is_none() && !is_among(renamed.as_slice(), old);
        if is_free && is_renamed(alloc, file, job)? {
            renamed.push(old)?;
            return Ok(DriftKind::Renamed(old));
        }
    }
    Ok(DriftKind::New)
}

// Whether the file's definition differs from the loaded one only in the label.
fn is_renamed(alloc: Global, file: &Placed, job: &Placed) -> Result<bool, AllocError> {
    let keys = changed_keys(alloc, &file.def, &job.def)?;
    let is_label = match keys.as_slice() {
        [only] => *only == key_name(KeyName::Label),
        _ => false,
    };
    drop(keys);
    Ok(is_label)
}

// Puts the line of a file, with the keys that differ. Whether it differs from what is loaded.
fn put_standing(
    file: &Placed,
    standing: DriftKind<'_>,
    keys: &[&str],
    report: &mut Report<'_>,
) -> bool {
    let (word, was) = match standing {
        DriftKind::Same => ("same", ""),
        DriftKind::Changed => ("changed", ""),
        DriftKind::New => ("new", ""),
        DriftKind::Disabled => ("disabled", ""),
        DriftKind::Renamed(label) => ("renamed", label),
        DriftKind::Twice => ("twice", ""),
    };
    put_told(
        word,
        file.label.as_str(),
        file.path.as_str(),
        keys,
        was,
        report,
    );
    !matches!(standing, DriftKind::Same | DriftKind::Disabled)
}

// Puts a line for each loaded job that no file has and that is not renamed. Whether there is one.
fn put_jobs(
    filed: &[Placed],
    loaded: &[Placed],
    renamed: &[&str],
    report: &mut Report<'_>,
) -> bool {
    let mut differs = false;
    for job in loaded {
        let label = job.label.as_str();
        if of_label(filed, label).is_none() && !is_among(renamed, label) {
            put_told("unfiled", label, "", &[], "", report);
            differs = true;
        }
    }
    differs
}

// Puts one result: how the file compares, the label, the file, the keys that differ, and the former label.
fn put_told(
    word: &'static str,
    label: &str,
    path: &str,
    keys: &[&str],
    was: &str,
    report: &mut Report<'_>,
) {
    if report.is_json {
        return put_drift(&mut report.page, word, label, path, keys, was);
    }
    let writer = &mut report.page.writer;
    writer.put(word);
    put_column(writer, label);
    put_column(writer, if path.is_empty() { "-" } else { path });
    if !was.is_empty() {
        put_column(writer, was);
    }
    if let [first, more @ ..] = keys {
        put_column(writer, *first);
        for key in more {
            writer.put(" ");
            writer.put_plain(*key);
        }
    }
    writer.put("\n");
}

fn put_column(writer: &mut TextWriter, text: &str) {
    writer.put("\t");
    writer.put_plain(text);
}
