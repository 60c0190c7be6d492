//! What a load would say of definitions, and what may be wrong with them.

ghost use Rattle.std.specs.Prelude.{◌≡◌, IfOk};
ghost use Rattle.job_defs.specs.Keys.{def_of};
ghost use Rattle.definition_files.specs.Reads.{AreVerdicts, IsCheckStatus, Reads, ReadsOne, load_verdict};

use crate::check::finding_list::FindingList;
use crate::check::lines::{Lines, lines_of};
use crate::check::outline::outline_of;
use crate::check::private::add_private;
use crate::check::sockets::add_sockets;
use crate::check::there::add_missing;
use crate::check::{
    Change, Checked, Finding, Position, Severity, changes_ahead, check_def, summary_of,
};
use crate::files::{Contents, DefinitionQuery, DefinitionSource};
use crate::folder::laid_out;
use crate::lists::json_of_list;
use crate::verdict::{Verdict, Verdicts};
use files_and_process::path_files::Found;
use history_model::{KeyName, Reason};
use job_defs::Def;
use json_kinds::reason_name;
use run_times::Piece::Text;
use run_times::TextWriter;
use run_times::telling::Outcome;
use std::alloc::{AllocError, Global};

/// What was found so far, besides the verdicts.
#[derive(Drop)]
struct Findings {
    writer: TextWriter,
    /// The labels so far, each with the file that has it.
    labels: Vec<(String, String)>,
    has_warnings: bool,
    has_calendars: bool,
    is_json: bool,
}

/// For each of the files a line if all is well with its definition, else a line for each finding. Each file is read once. It looks at the
/// entries of calendars in the zone, twelve months on from the second.
///
/// The status is 0 if a load would read all of them. It is 1 if a load would refuse one, or if one has a warning and the check is strict.
/// It is 65 if a file can't be read.
pub fn check_files<S: DefinitionSource>(
    host: &HostRuntime,
    alloc: Global,
    source: &mut S,
    files: &[Found],
    of: &DefinitionQuery<'_>,
    is_strict: bool,
) -> Result<Outcome, AllocError>
    ensures status { IfOk result (λ outcome. Reads files.now
        (IsCheckStatus is_strict outcome.status) (S.told source.old) (S.told source.new)) }
{
    let changes = changes_ahead(alloc, of.zone, of.from)?;
    let mut findings = Findings {
        writer: TextWriter::new(alloc),
        labels: Vec::new(alloc),
        has_warnings: false,
        has_calendars: false,
        is_json: of.is_json,
    };
    let checked = check_each(
        host,
        alloc,
        source,
        files,
        of.longest,
        changes.as_slice(),
        &mut findings,
    );
    drop(changes);
    match checked {
        Ok(verdicts) => {
            let is_warned = is_strict && findings.has_warnings;
            outcome_of(
                alloc,
                findings,
                of.zone_line,
                verdicts.check_status(is_warned),
            )
        }
        Err(error) => {
            drop(findings);
            Err(error)
        }
    }
}

// What a check came to, with this exit status. The zone is named first, if some definition has a calendar.
fn outcome_of(
    alloc: Global,
    findings: Findings,
    zone_line: &str,
    status: u8,
) -> Result<Outcome, AllocError>
    ensures { IfOk result (λ outcome. outcome.status ≡ status) }
{
    let Findings {
        writer,
        labels,
        has_calendars,
        is_json,
        ..
    } = findings;
    drop(labels);
    let mut all = TextWriter::new(alloc);
    if has_calendars && !is_json {
        all.put(zone_line);
    }
    all.put_made(writer.into_text());
    match all.into_text() {
        Ok(text) => Ok(Outcome { text, status }),
        Err(error) => Err(error),
    }
}

fn check_each<S: DefinitionSource>(
    host: &HostRuntime,
    alloc: Global,
    source: &mut S,
    files: &[Found],
    longest: usize,
    changes: &[Change],
    findings: &mut Findings,
) -> Result<Verdicts, AllocError>
    ensures { IfOk result (λ verdicts. Reads files.now (AreVerdicts verdicts)
        (S.told source.old) (S.told source.new)) }
{
    let mut verdicts = Verdicts::none();
    for file in files {
        match check_file(host, alloc, source, file, longest, changes, findings) {
            Ok(verdict) => verdicts = verdicts.with(verdict),
            Err(error) => return Err(error),
        }
    }
    Ok(verdicts)
}

fn check_file<S: DefinitionSource>(
    host: &HostRuntime,
    alloc: Global,
    source: &mut S,
    file: &Found,
    longest: usize,
    changes: &[Change],
    findings: &mut Findings,
) -> Result<Verdict, AllocError>
    ensures { IfOk result (λ verdict. ReadsOne file.now verdict (S.told source.old)
        (S.told source.new)) }
{
    match source.read(alloc, longest, file) {
        Ok(Contents::Bytes(bytes)) => {
            let path = file.path.as_str();
            let verdict = check_bytes(host, alloc, path, bytes.as_slice(), changes, findings);
            drop(bytes);
            verdict
        }
        Ok(Contents::Unread | Contents::TooLong) => Ok(Verdict::Unread),
        Ok(Contents::Nothing) => Ok(Verdict::Well),
        Err(error) => Err(error),
    }
}

fn check_bytes(
    host: &HostRuntime,
    alloc: Global,
    path: &str,
    bytes: &[u8],
    changes: &[Change],
    findings: &mut Findings,
) -> Result<Verdict, AllocError>
    ensures { IfOk result (λ verdict. verdict ≡ load_verdict (def_of bytes.now)) }
{
    match check_def(alloc, bytes, changes)? {
        Checked::Loads {
            def,
            mistakes,
            finding_list,
        } => {
            drop(mistakes);
            let added = add_definition(host, alloc, path, bytes, &def, &finding_list, findings);
            drop(finding_list);
            drop(def);
            match added {
                Ok(()) => Ok(Verdict::Well),
                Err(error) => Err(error),
            }
        }
        Checked::Refused {
            reason,
            place,
            text,
            further,
            ..
        } => {
            let lines = lines_of(alloc, path, bytes, findings.is_json);
            put_refused(&lines, reason, place, text, further, &mut findings.writer);
            drop(lines);
            let added = match reason {
                Reason::NotJson => add_list(host, alloc, path, bytes, changes, findings),
                _ => Ok(()),
            };
            match added {
                Ok(()) => Ok(Verdict::Refused),
                Err(error) => Err(error),
            }
        }
    }
}

// Adds the lines of a definition that is refused.
fn put_refused(
    lines: &Lines<'_>,
    reason: Reason,
    place: Option<Position>,
    text: String,
    further: Vec<Finding>,
    writer: &mut TextWriter,
) {
    let code = reason_name(reason);
    lines.put(place, Severity::Error, code, text.as_str(), writer);
    lines.put_all(further.as_slice(), writer);
    drop(text);
    drop(further);
}

// If the bytes are a property list in XML: adds what is said of the JSON that `jobscope plist` writes of it, with the places in that.
fn add_list(
    host: &HostRuntime,
    alloc: Global,
    path: &str,
    bytes: &[u8],
    changes: &[Change],
    findings: &mut Findings,
) -> Result<(), AllocError> {
    let Some(made) = json_of_list(alloc, bytes)? else {
        return Ok(());
    };
    let shown = laid_out(alloc, std::str::from_utf8(made.as_slice()).unwrap_or(""));
    drop(made);
    match shown {
        Ok(shown) => {
            let added = add_shown(host, alloc, path, shown.as_slice(), changes, findings);
            drop(shown);
            added
        }
        Err(error) => Err(error),
    }
}

// Adds what is said of the JSON that a property list at the path is.
fn add_shown(
    host: &HostRuntime,
    alloc: Global,
    path: &str,
    shown: &[u8],
    changes: &[Change],
    findings: &mut Findings,
) -> Result<(), AllocError> {
    let mut named = TextWriter::new(alloc);
    named.put_all(&[Text(path), Text(" as JSON")]);
    let named = named.into_text()?;
    let checked = check_def(alloc, shown, changes);
    let verdict = match &checked {
        Ok(Checked::Loads { .. }) => "ok",
        _ => "refused",
    };
    add_note(alloc, path, verdict, findings);
    let added = match checked {
        Ok(
            Checked::Loads {
                def,
                mistakes,
                finding_list,
            },
        ) => {
            drop(mistakes);
            let added = add_definition(
                host,
                alloc,
                named.as_str(),
                shown,
                &def,
                &finding_list,
                findings,
            );
            drop(finding_list);
            drop(def);
            added
        }
        Ok(
            Checked::Refused {
                reason,
                place,
                text,
                further,
                ..
            },
        ) => {
            let lines = lines_of(alloc, named.as_str(), shown, findings.is_json);
            put_refused(&lines, reason, place, text, further, &mut findings.writer);
            drop(lines);
            Ok(())
        }
        Err(error) => Err(error),
    };
    drop(named);
    added
}

// Adds what the JSON of a property list would come to.
fn add_note(alloc: Global, path: &str, verdict: &'static str, findings: &mut Findings) {
    let lines = lines_of(alloc, path, &[], findings.is_json);
    let mut told = TextWriter::new(alloc);
    told.put_all(&[
        Text("it is a property list in XML: as JSON (jobscope plist) it would be "),
        Text(verdict),
    ]);
    match told.into_text() {
        Ok(told) => {
            lines.put(
                None,
                Severity::Note,
                "",
                told.as_str(),
                &mut findings.writer,
            );
            drop(told);
        }
        Err(_) => findings.writer.refuse(),
    }
    drop(lines);
}

// Adds what is found of a definition that loads, after the findings on its text.
fn add_definition(
    host: &HostRuntime,
    alloc: Global,
    path: &str,
    bytes: &[u8],
    def: &Def,
    finding_list: &[Finding],
    findings: &mut Findings,
) -> Result<(), AllocError> {
    let lines = lines_of(alloc, path, bytes, findings.is_json);
    let mut outside = FindingList::new(alloc, lines.text, lines.marks());
    add_missing(host, def, &mut outside);
    add_sockets(host, def, &mut outside);
    add_private(host, path, def, &mut outside);
    add_label(alloc, path, def, findings, &mut outside);
    let told = match outside.into_list() {
        Ok(outside) => {
            add_loading(
                alloc,
                def,
                &lines,
                finding_list,
                outside.as_slice(),
                findings,
            );
            drop(outside);
            Ok(())
        }
        Err(error) => Err(error),
    };
    drop(lines);
    told
}

// Adds a warning if a file before has the same label, and keeps the label.
fn add_label(
    alloc: Global,
    path: &str,
    def: &Def,
    findings: &mut Findings,
    finding_list: &mut FindingList<'_>,
) {
    match path_with(findings.labels.as_slice(), def.label()) {
        Some(other) => finding_list.add(
            Severity::Warning,
            KeyName::Label,
            "Label: $ has this label too; only one of them can be loaded",
            &[Text(other)],
        ),
        None => {
            if keep_label(alloc, path, def.label(), findings).is_err() {
                finding_list.refuse();
            }
        }
    }
}

fn keep_label(
    alloc: Global,
    path: &str,
    label: &str,
    findings: &mut Findings,
) -> Result<(), AllocError> {
    let path = String::from_str(alloc, path)?;
    match String::from_str(alloc, label) {
        Ok(label) => Ok(findings.labels.push((label, path))?),
        Err(error) => {
            drop(path);
            Err(error)
        }
    }
}

fn path_with<'a>(labels: &'a [(String, String)], label: &str) -> Option<&'a str> {
    for (known, path) in labels {
        if known.as_str() == label {
            return Some(path.as_str());
        }
    }
    None
}

// Adds the lines of a definition that loads: its findings, and that all is well if there is no warning.
fn add_loading(
    alloc: Global,
    def: &Def,
    lines: &Lines<'_>,
    finding_list: &[Finding],
    outside: &[Finding],
    findings: &mut Findings,
) {
    findings.has_calendars = findings.has_calendars || !def.calendar().is_empty();
    if has_warning(finding_list) || has_warning(outside) {
        findings.has_warnings = true;
    } else {
        lines.put_well(summary_of(alloc, def), &mut findings.writer);
    }
    lines.put_all(finding_list, &mut findings.writer);
    lines.put_all(outside, &mut findings.writer);
}

fn has_warning(finding_list: &[Finding]) -> bool {
    for finding in finding_list {
        if let Severity::Warning = finding.severity {
            return true;
        }
    }
    false
}
