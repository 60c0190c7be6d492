//! The definitions of loaded jobs whose files say something else.

use crate::applied::Applied;
use crate::gathered::{Filed, Gathered};
use crate::loaded::{ReportedJob, index_of_job};
use crate::recorded::add_recorded;
use json_kinds::json_value;
use launcher_places::{Places, check_own_file};
use serde_json::Value;
use std::alloc::{AllocError, Global};
use std::fs::metadata;

/// Says of each job whether an earlier apply of one of the folders loaded it, and of each file under which other label it was loaded.
pub(crate) fn mark_applied(
    host: &HostRuntime,
    alloc: Global,
    gathered: &mut Gathered,
    applied: &Applied,
    jobs: &mut [ReportedJob],
) -> Result<(), AllocError> {
    for file in &applied.files {
        if has_folder(gathered.folders.as_slice(), file.folder.as_str()) {
            mark_job(jobs, file.label.as_str());
        }
    }
    let Gathered { files, folders } = gathered;
    let mut next: usize = 0;
    for file in files.iter_mut() {
        if let Some(place) = place_in(file, folders.as_slice(), applied, next) {
            next = place.saturating_add(1);
            mark_file(host, alloc, file, applied, place, jobs)?;
        }
    }
    Ok(())
}

fn has_folder(folders: &[String], path: &str) -> bool {
    for folder in folders {
        if folder.as_str() == path {
            return true;
        }
    }
    false
}

fn mark_job(jobs: &mut [ReportedJob], label: &str) {
    if let Some(place) = index_of_job(jobs, label) {
        if let Some(job) = jobs.get_mut(place) {
            job.was_applied = true;
        }
    }
}

// The index of the file among those that were applied; it may be the given one.
fn place_in(file: &Filed, folders: &[String], applied: &Applied, next: usize) -> Option<usize> {
    let folder = match (file.folder, &file.parent) {
        (Some(number), _) => folders.get(number)?,
        (None, Some(parent)) => parent,
        (None, None) => return None,
    };
    applied.index_of_file(next, folder.as_str(), file.name())
}

fn mark_file(
    host: &HostRuntime,
    alloc: Global,
    file: &mut Filed,
    applied: &Applied,
    place: usize,
    jobs: &mut [ReportedJob],
) -> Result<(), AllocError> {
    let Some(known) = applied.files.get(place) else {
        return Ok(());
    };
    let (folder, label) = (known.folder.as_str(), known.label.as_str());
    file.former = None;
    if label == file.label.as_str() {
        return Ok(());
    }
    // If a file is named by itself, another one of its folder may have the label now.
    if file.folder.is_none() {
        if has_file(host, alloc, folder, label)? {
            return Ok(());
        }
        mark_job(jobs, label);
    }
    file.former = Some(String::from_str(alloc, label)?);
    Ok(())
}

// Whether a file of the folder is named for the label.
fn has_file(
    host: &HostRuntime,
    alloc: Global,
    folder: &str,
    label: &str,
) -> Result<bool, AllocError> {
    let path = format!(in alloc; "{folder}/{label}.json")?;
    let is_there = metadata(host, path.as_str()).is_ok();
    drop(path);
    Ok(is_there)
}

/// Finds the definitions: among those that applies kept, else in the journal, if it is a plain file of the launcher's user.
pub(crate) fn find_before(
    host: &HostRuntime,
    alloc: Global,
    files: &[Filed],
    applied: &Applied,
    places: &Option<Places>,
    user: u32,
    jobs: &mut [ReportedJob],
) -> Result<(), AllocError> {
    let mut wants_more = false;
    for file in files {
        let wants = want(alloc, file, applied, jobs)?;
        let wants_former = want_former(alloc, file, applied, jobs)?;
        wants_more = wants_more || wants || wants_former;
    }
    if wants_more {
        match places {
            Some(
                Places {
                    journal: Some(journal),
                    ..
                },
            ) if check_own_file(host, journal.as_str(), user).is_ok() => {
                add_recorded(host, alloc, journal.as_str(), jobs)?;
            }
            _ => {}
        }
    }
    note_disabled(alloc, jobs)
}

// Whether the definition of the file's job is wanted, and was not found.
fn want(
    alloc: Global,
    file: &Filed,
    applied: &Applied,
    jobs: &mut [ReportedJob],
) -> Result<bool, AllocError> {
    let Some(place) = index_of_job(jobs, file.label.as_str()) else {
        return Ok(false);
    };
    let Some(job) = jobs.get_mut(place) else {
        return Ok(false);
    };
    let is_same = job.digest.as_str() == file.digest.as_str();
    if is_same || file.digest.is_empty() || job.digest.is_empty() || job.wants_before {
        return Ok(false);
    }
    job.wants_before = true;
    job.before = applied.definition(alloc, job.digest.as_str())?;
    Ok(job.before.is_none())
}

// The same of the job that the file had under another label.
fn want_former(
    alloc: Global,
    file: &Filed,
    applied: &Applied,
    jobs: &mut [ReportedJob],
) -> Result<bool, AllocError> {
    let Some(former) = &file.former else {
        return Ok(false);
    };
    let Some(place) = index_of_job(jobs, former.as_str()) else {
        return Ok(false);
    };
    let Some(job) = jobs.get_mut(place) else {
        return Ok(false);
    };
    if job.digest.is_empty() || job.wants_before {
        return Ok(false);
    }
    job.wants_before = true;
    job.before = applied.definition(alloc, job.digest.as_str())?;
    Ok(job.before.is_none())
}

fn note_disabled(alloc: Global, jobs: &mut [ReportedJob]) -> Result<(), AllocError> {
    for job in jobs.iter_mut() {
        if let Some(text) = &job.before {
            let is_disabled = has_disabled(alloc, text.as_str())?;
            job.was_disabled = is_disabled;
        }
    }
    Ok(())
}

fn has_disabled(alloc: Global, text: &str) -> Result<bool, AllocError> {
    match json_value(alloc, text.as_bytes())? {
        Some(value) => {
            let is_disabled = matches!(value.get("Disabled"), Some(Value::Bool(true)));
            drop(value);
            Ok(is_disabled)
        }
        None => Ok(false),
    }
}
