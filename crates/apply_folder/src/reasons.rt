//! Why a step is taken or left out, as text for people.

use crate::carried::Outcome;
use crate::gathered::{Filed, name_in};
use crate::loaded::ReportedJob;
use calendar_due::Zone;
use definition_files::changed_keys;
use history_model::MAX_WALL;
use json_kinds::json_value;
use load_plan::{FileVerdict, Operation, PlannedStep, Reason, reason_text};
use run_times::Piece::{Number, Text};
use run_times::{TextWriter, time_text};
use std::alloc::{AllocError, Global};

/// The key of a label.
const LABEL: &str = "Label";

/// What is known around a step.
#[derive(Clone, Copy)]
pub(crate) struct StepContext<'a> {
    pub(crate) alloc: Global,
    pub(crate) files: &'a [Filed],
    pub(crate) zone: &'a Zone,
    pub(crate) job: Option<&'a ReportedJob>,
    /// The file whose former label this is, for an unload.
    pub(crate) heir: Option<&'a Filed>,
    /// The ends of runs are waited for.
    pub(crate) waits: bool,
}

/// The keys by which the file's definition differs from what is loaded, with a comma and a blank between; empty, if they are not known.
pub(crate) fn keys_of(
    alloc: Global,
    file: Option<&Filed>,
    job: Option<&ReportedJob>,
) -> Result<Vec<String>, AllocError> {
    let mut keys = Vec::new(alloc);
    if let (
        Some(file),
        Some(
            ReportedJob {
                before: Some(before),
                ..
            },
        ),
    ) = (file, job)
    {
        add_keys(alloc, file.text.as_str(), before.as_str(), &mut keys)?;
    }
    Ok(keys)
}

fn add_keys(
    alloc: Global,
    text: &str,
    before: &str,
    keys: &mut Vec<String>,
) -> Result<(), AllocError> {
    let one = json_value(alloc, text.as_bytes())?;
    let other = json_value(alloc, before.as_bytes())?;
    if let (Some(one), Some(other)) = (&one, &other) {
        let changed = changed_keys(alloc, one, other)?;
        for key in &changed {
            keys.push(String::from_str(alloc, *key)?)?;
        }
        drop(changed);
    }
    drop(one);
    drop(other);
    Ok(())
}

/// The file that an operation loads.
pub(crate) fn file_of<'a>(
    files: &'a [Filed],
    operation: &Operation<'_>,
    label: &str,
) -> Option<&'a Filed> {
    match operation {
        Operation::Load(FileVerdict { place, .. })
        | Operation::Replace(FileVerdict { place, .. }) => { files.get(*place) }
        Operation::Unload => None,
        Operation::Leave(_) => decided_file(files, label),
    }
}

// The file that decides a label, or the first that names it.
fn decided_file<'a>(files: &'a [Filed], label: &str) -> Option<&'a Filed> {
    let mut first = None;
    for file in files {
        if file.label.as_str() == label {
            if file.is_named() {
                return Some(file);
            }
            if first.is_none() {
                first = Some(file);
            }
        }
    }
    first
}

/// The text of a step before it is carried out, or after it went as planned.
pub(crate) fn planned_text(
    around: &StepContext<'_>,
    label: &str,
    operation: &Operation<'_>,
    file: Option<&Filed>,
    keys: &[String],
) -> Result<String, AllocError> {
    let mut writer = TextWriter::new(around.alloc);
    match operation {
        Operation::Load(_) => {
            writer.put("load ");
            put_name(file, &mut writer);
        }
        Operation::Replace(_) => {
            put_keys(keys, &mut writer);
            writer.put(": unload, load");
        }
        Operation::Unload => put_unload(around, label, keys, &mut writer),
        Operation::Leave(why) => put_left(around, label, *why, file, keys, &mut writer),
    }
    writer.into_text()
}

fn put_name(file: Option<&Filed>, writer: &mut TextWriter) {
    if let Some(file) = file {
        writer.put_plain(file.name());
    }
}

fn put_keys(keys: &[String], writer: &mut TextWriter) {
    if keys.is_empty() {
        writer.put("its definition differs");
        return;
    }
    let mut between = "";
    for key in keys {
        writer.put(between);
        writer.put_plain(key.as_str());
        between = ", ";
    }
}

// The keys that differ but the label, by which an old definition has another label now.
fn put_other_keys(keys: &[String], writer: &mut TextWriter) {
    let mut between = "";
    for key in keys {
        if key.as_str() != LABEL {
            writer.put(between);
            writer.put_plain(key.as_str());
            between = ", ";
        }
    }
    if between.is_empty() {
        writer.put(if keys.is_empty() {
            "its file has another label now"
        } else {
            "the same definition under another label"
        });
    }
}

fn put_unload(around: &StepContext<'_>, label: &str, keys: &[String], writer: &mut TextWriter) {
    match around.heir {
        Some(heir) => {
            put_other_keys(keys, writer);
            writer.put(": unload ");
            writer.put_plain(label);
            writer.put(", load ");
            writer.put_plain(heir.label.as_str());
        }
        None => writer.put("its file was removed after the last apply of this folder: unload"),
    }
}

fn put_left(
    around: &StepContext<'_>,
    label: &str,
    why: Reason,
    file: Option<&Filed>,
    keys: &[String],
    writer: &mut TextWriter,
) {
    match why {
        Reason::Runs => put_running(around, file, keys, writer),
        Reason::Several => put_several(around.files, label, writer),
        Reason::Orphan => writer.put(
            "its file was removed after the last apply of this folder: left (--prune unloads it)",
        ),
        Reason::LeftAtBoot => put_at_boot(file, writer),
        Reason::Goes if file.is_some() => writer.put("it is still being removed: waits for it"),
        Reason::Unread | Reason::Refused | Reason::Disabled => put_fault(why, file, writer),
        why => writer.put_all(&[Text(reason_text(why)), Text(": left")]),
    }
}

fn put_running(
    around: &StepContext<'_>,
    file: Option<&Filed>,
    keys: &[String],
    writer: &mut TextWriter,
) {
    if file.is_some() {
        put_keys(keys, writer);
        if !keys.is_empty() {
            writer.put(" changed");
        }
    } else {
        writer.put("its file was removed");
    }
    if let Some(job) = around.job {
        writer.put_all(&[Text("; run "), Number(job.run), Text(" has run since ")]);
        put_clock(around, job.since, writer);
    }
    writer.put(if around.waits {
        ": waits until it exits"
    } else {
        ": left (--wait waits until it exits, --now stops it)"
    });
}

// The time of the day of a second, after its date.
fn put_clock(around: &StepContext<'_>, second: u64, writer: &mut TextWriter) {
    match time_text(around.alloc, around.zone, second.min(MAX_WALL)) {
        Ok(text) => {
            writer.put(text.as_str().get(..10).unwrap_or(""));
            writer.put(" ");
            writer.put(text.as_str().get(15..23).unwrap_or(""));
            drop(text);
        }
        Err(_) => writer.refuse(),
    }
}

fn put_several(files: &[Filed], label: &str, writer: &mut TextWriter) {
    let mut count: u64 = 0;
    for file in files {
        if file.label.as_str() == label {
            if count > 0 {
                writer.put(" and ");
            }
            writer.put_plain(name_in(file.path.as_str()));
            count = count.saturating_add(1);
        }
    }
    writer.put(if count == 2 {
        " both name it: left"
    } else {
        " all name it: left"
    });
}

fn put_at_boot(file: Option<&Filed>, writer: &mut TextWriter) {
    writer.put("jobd-run would leave ");
    put_name(file, writer);
    writer.put(" out: ");
    if let Some(file) = file {
        writer.put_plain(file.why.as_str());
    }
}

fn put_fault(why: Reason, file: Option<&Filed>, writer: &mut TextWriter) {
    let is_unread = matches!(why, Reason::Unread);
    let mut is_of_folder = false;
    match file {
        Some(file) if !file.why.is_empty() => {
            is_of_folder = file.folder.is_some();
            if !is_unread {
                writer.put_plain(file.name());
                writer.put(": ");
            }
            writer.put_plain(file.why.as_str());
        }
        _ => writer.put(reason_text(why)),
    }
    writer.put(if is_unread && is_of_folder {
        ": nothing of this folder is pruned"
    } else {
        ": left"
    });
}

/// The text of a step that did not go as planned. None: it did.
pub(crate) fn outcome_text(
    alloc: Global,
    step: &PlannedStep<'_>,
    outcome: &Outcome,
    has_before: bool,
) -> Result<Option<String>, AllocError> {
    let mut writer = TextWriter::new(alloc);
    match outcome {
        Outcome::Done => return Ok(None),
        Outcome::Left(why) => writer.put_all(&[Text(reason_text(*why)), Text(": left")]),
        Outcome::Late => writer.put(
            "it has not exited in time, and is still being removed: apply again",
        ),
        Outcome::Refused(code, text) => {
            let is_load = matches!(step.operation, Operation::Load(_));
            writer.put(if is_load { "load " } else { "unload " });
            put_refused(*code, text.as_str(), &mut writer);
        }
        Outcome::Restored(code, text) => {
            writer.put("load ");
            put_refused(*code, text.as_str(), &mut writer);
            writer.put("; its previous definition is loaded again");
        }
        Outcome::Down(code, text) => {
            writer.put_plain(step.label);
            writer.put(" is DOWN: load ");
            put_refused(*code, text.as_str(), &mut writer);
            writer.put(if has_before {
                "; its previous definition was refused too"
            } else {
                "; its previous definition is not known"
            });
        }
    }
    Ok(Some(writer.into_text()?))
}

fn put_refused(code: u8, text: &str, writer: &mut TextWriter) {
    writer.put_all(&[Text("refused: "), Number(u64::from(code)), Text(" ")]);
    writer.put_plain(text.trim_end());
}
