//! What a load would say of the files that differ from what is loaded, and what is warned of.

use crate::gathered::Filed;
use crate::loaded::{ReportedJob, job_of};
use definition_files::check::{
    Change, Checked, Finding, Position, Severity, check_def, finding_line,
};
use history_model::{KeyName, Reason};
use json_kinds::{key_name, reason_name};
use load_plan::FileState;
use run_times::Piece::{Number, Text};
use run_times::TextWriter;
use std::alloc::{AllocError, Global};

/// Looks at each file that is not JSON, or that differs from what is loaded. It returns whether there is a warning, and reports each if
/// that is asked for.
pub(crate) fn judge_all(
    host: &HostRuntime,
    alloc: Global,
    files: &mut [Filed],
    jobs: &[ReportedJob],
    changes: &[Change],
) -> Result<bool, AllocError> {
    let mut has_warning = false;
    for file in files.iter_mut() {
        let is_warned = judge(host, alloc, file, jobs, changes)?;
        has_warning = has_warning || is_warned;
    }
    Ok(has_warning)
}

/// Whether one of the files is to be looked at.
pub(crate) fn has_open(files: &[Filed], jobs: &[ReportedJob]) -> bool {
    for file in files {
        if is_open(file, jobs) {
            return true;
        }
    }
    false
}

// Whether a file says something else than what is loaded.
fn is_open(file: &Filed, jobs: &[ReportedJob]) -> bool {
    if file.text.is_empty() {
        return false;
    }
    match job_of(jobs, file.label.as_str()) {
        Some(job) => job.digest.as_str() != file.digest.as_str(),
        None => true,
    }
}

fn judge(
    host: &HostRuntime,
    alloc: Global,
    file: &mut Filed,
    jobs: &[ReportedJob],
    changes: &[Change],
) -> Result<bool, AllocError> {
    if !is_open(file, jobs) {
        return Ok(false);
    }
    match check_def(alloc, file.text.as_bytes(), changes)? {
        Checked::Loads {
            def,
            mistakes,
            finding_list,
        } => {
            drop(mistakes);
            let is_disabled = def.disabled();
            drop(def);
            let is_warned = tell_warnings(host, alloc, file.path.as_str(), finding_list.as_slice());
            drop(finding_list);
            heed_setting(alloc, file, jobs, is_disabled)?;
            is_warned
        }
        Checked::Refused {
            reason,
            key,
            place,
            text,
            further,
        } => {
            drop(further);
            let why = if matches!(reason, Reason::NotJson) {
                why_unread(alloc, place, text.as_str())
            } else {
                why_refused(alloc, reason, key)
            };
            drop(text);
            refuse(file, why?);
            Ok(false)
        }
    }
}

// A file that is not JSON stays unread, but gets this better reason.
fn refuse(file: &mut Filed, why: String) {
    if !matches!(file.standing, FileState::Unread) {
        file.standing = FileState::Refused;
    }
    file.why = why;
}

// As the launcher says it.
fn why_refused(alloc: Global, reason: Reason, key: KeyName) -> Result<String, AllocError> {
    let mut writer = TextWriter::new(alloc);
    writer.put_all(&[
        Text("bad definition: "),
        Text(reason_name(reason)),
        Text(" "),
        Text(key_name(key)),
    ]);
    writer.into_text()
}

fn why_unread(alloc: Global, place: Option<Position>, text: &str) -> Result<String, AllocError> {
    let mut writer = TextWriter::new(alloc);
    if let Some(place) = place {
        writer.put_all(&[
            Text("line "),
            Number(place.line as u64),
            Text(", column "),
            Number(place.column as u64),
            Text(": "),
        ]);
    }
    writer.put_plain(text);
    writer.into_text()
}

// The load of a file whose job is loaded would be refused, if its label is disabled by then.
fn heed_setting(
    alloc: Global,
    file: &mut Filed,
    jobs: &[ReportedJob],
    is_disabled: bool,
) -> Result<(), AllocError> {
    let Some(job) = job_of(jobs, file.label.as_str()) else {
        return Ok(());
    };
    if !matches!(file.standing, FileState::Good) {
        return Ok(());
    }
    if job.is_disabled || (is_disabled && !job.was_disabled) {
        file.standing = FileState::Disabled;
        file.why = String::from_str(
            alloc,
            if job.is_disabled {
                "its label is disabled, so a load would be refused"
            } else {
                "it has Disabled, so a load would be refused"
            },
        )?;
    }
    Ok(())
}

// Reports the warnings, and returns whether there is one.
fn tell_warnings(
    host: &HostRuntime,
    alloc: Global,
    path: &str,
    finding_list: &[Finding],
) -> Result<bool, AllocError> {
    let mut is_warned = false;
    for finding in finding_list {
        if let Severity::Warning = finding.severity {
            is_warned = true;
            tell_warning(host, alloc, path, finding)?;
        }
    }
    Ok(is_warned)
}

fn tell_warning(
    host: &HostRuntime,
    alloc: Global,
    path: &str,
    finding: &Finding,
) -> Result<(), AllocError> {
    let line = finding_line(
        alloc,
        path,
        finding.place,
        "",
        Severity::Warning,
        finding.text.as_str(),
    )?;
    let _written = eprint!(host; "{line}");
    drop(line);
    Ok(())
}
