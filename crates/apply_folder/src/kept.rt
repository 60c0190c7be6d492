//! What is kept of an apply for the next one.

use crate::applied::{Applied, AppliedFile, digest_in, put_definition, put_folder, write_applied};
use crate::gathered::{Filed, Gathered};
use crate::loaded::{ReportedJob, job_of};
use crate::planned::Progress;
use files_and_process::own_process::ProcessState;
use run_times::TextWriter;
use std::alloc::{AllocError, Global};
use std::io;

/// Writes what the folders have loaded now, if that changed. Only the launcher's own user does so: a file in another user's folder may be a link by
/// the time that it is written.
pub(crate) fn keep(
    host: &HostRuntime,
    alloc: Global,
    path: &str,
    user: u32,
    gathered: &Gathered,
    jobs: &[ReportedJob],
    applied: &Applied,
    progress: &Progress,
) -> io::Result<()> {
    let text = text_of(alloc, gathered, jobs, applied, progress)?;
    let kept = if text.as_str() == applied.text.as_str() {
        Ok(())
    } else {
        write_own(host, alloc, path, text.as_str(), user)
    };
    drop(text);
    kept
}

fn write_own(
    host: &HostRuntime,
    alloc: Global,
    path: &str,
    text: &str,
    user: u32,
) -> io::Result<()> {
    if ProcessState::read(host).user != Some(user) {
        return Err(io::Error::new(
            io::ErrorKind::PermissionDenied,
            "only the launcher's own user writes it",
        ));
    }
    write_applied(host, alloc, path, text)
}

fn text_of(
    alloc: Global,
    gathered: &Gathered,
    jobs: &[ReportedJob],
    applied: &Applied,
    progress: &Progress,
) -> Result<String, AllocError> {
    let mut writer = TextWriter::new(alloc);
    put_others(gathered, applied, &mut writer);
    let files = files_of(alloc, gathered, jobs, applied, progress)?;
    for (number, folder) in gathered.folders.iter().enumerate() {
        if is_first(gathered.folders.as_slice(), number) {
            put_folder(&mut writer, folder.as_str(), files.as_slice());
        }
    }
    drop(files);
    put_definitions(alloc, gathered, jobs, applied, progress, &mut writer)?;
    writer.into_text()
}

// Whether no folder before it is the same.
fn is_first(folders: &[String], number: usize) -> bool {
    for (other, folder) in folders.iter().enumerate() {
        if other >= number {
            return true;
        }
        if let Some(own) = folders.get(number) {
            if own.as_str() == folder.as_str() {
                return false;
            }
        }
    }
    true
}

// The lines of folders that were not asked for stay as they are.
fn put_others(gathered: &Gathered, applied: &Applied, writer: &mut TextWriter) {
    let mut last = "";
    for file in &applied.files {
        let folder = file.folder.as_str();
        if folder != last && !is_asked(gathered, folder) {
            put_folder(writer, folder, applied.files.as_slice());
        }
        last = folder;
    }
}

fn is_asked(gathered: &Gathered, folder: &str) -> bool {
    for other in &gathered.folders {
        if other.as_str() == folder {
            return true;
        }
    }
    false
}

// The files of the folders whose definitions are loaded, and those of before whose jobs were left.
fn files_of(
    alloc: Global,
    gathered: &Gathered,
    jobs: &[ReportedJob],
    applied: &Applied,
    progress: &Progress,
) -> Result<Vec<AppliedFile>, AllocError> {
    let mut files = Vec::new(alloc);
    let mut labels = Vec::new(alloc);
    for place in &progress.in_effect {
        if let Some(file) = gathered.files.get(*place) {
            add_file(alloc, gathered, file, &mut files)?;
            labels.push(file.label.as_str())?;
        }
    }
    labels.sort()?;
    for file in &applied.files {
        let is_still = is_asked(gathered, file.folder.as_str())
            && labels.binary_search(&file.label.as_str()).is_err()
            && is_left(jobs, progress, file.label.as_str());
        if is_still {
            files.push(copied(alloc, file)?)?;
        }
    }
    drop(labels);
    Ok(files)
}

fn add_file(
    alloc: Global,
    gathered: &Gathered,
    file: &Filed,
    files: &mut Vec<AppliedFile>,
) -> Result<(), AllocError> {
    let Some(number) = file.folder else {
        return Ok(());
    };
    if let Some(folder) = gathered.folders.get(number) {
        files.push(AppliedFile {
            folder: String::from_str(alloc, folder.as_str())?,
            name: String::from_str(alloc, file.name())?,
            label: String::from_str(alloc, file.label.as_str())?,
        })?;
    }
    Ok(())
}

fn copied(alloc: Global, file: &AppliedFile) -> Result<AppliedFile, AllocError> {
    Ok(AppliedFile {
        folder: String::from_str(alloc, file.folder.as_str())?,
        name: String::from_str(alloc, file.name.as_str())?,
        label: String::from_str(alloc, file.label.as_str())?,
    })
}

// Whether a job was loaded, and not unloaded permanently.
fn is_left(jobs: &[ReportedJob], progress: &Progress, label: &str) -> bool {
    if job_of(jobs, label).is_none() {
        return false;
    }
    for other in &progress.unloaded {
        if other.as_str() == label {
            return false;
        }
    }
    true
}

// The definitions of the files that are loaded, and those of before that are loaded still.
fn put_definitions(
    alloc: Global,
    gathered: &Gathered,
    jobs: &[ReportedJob],
    applied: &Applied,
    progress: &Progress,
    writer: &mut TextWriter,
) -> Result<(), AllocError> {
    let mut put = Vec::new(alloc);
    for place in &progress.in_effect {
        if let Some(file) = gathered.files.get(*place) {
            put_definition(writer, file.digest.as_str(), file.text.as_str());
            put.push(file.digest.as_str())?;
        }
    }
    put.sort()?;
    let mut loaded = Vec::new(alloc);
    for job in jobs {
        loaded.push(job.digest.as_str())?;
    }
    loaded.sort()?;
    for line in applied.text.lines() {
        if let Some(digest) = digest_in(line) {
            if loaded.binary_search(&digest).is_ok() && put.binary_search(&digest).is_err() {
                writer.put(line);
                writer.put("\n");
            }
        }
    }
    drop(loaded);
    drop(put);
    Ok(())
}
