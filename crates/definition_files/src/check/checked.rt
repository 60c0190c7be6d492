//! The check of a definition's bytes.

ghost use Rattle.std.specs.Prelude.{◌≡◌, Ok, Err, IfOk};
ghost use Rattle.serde_json.specs.View.{view};
ghost use Rattle.history_model.specs.declared.Reason.TheVariants.{NotJson};
ghost use Rattle.history_model.specs.declared.KeyName.TheVariants.{NoKey};
ghost use Rattle.json_kinds.specs.DefFaults.{bad};
ghost use Rattle.job_defs.specs.Keys.{def_at, def_of};
ghost use Rattle.definition_files.specs.Verdict.{IsVerdict};

use crate::check::broken::put_broken;
use crate::check::changes::Change;
use crate::check::conduct::findings_on;
use crate::check::faults::faults_of;
use crate::check::finding::{Finding, Position};
use crate::check::finding_list::FindingList;
use crate::check::further::put_faults;
use crate::check::mistakes::{Mistake, mistakes_in};
use crate::check::outline::{Outline, outline_of};
use history_model::{KeyName, Reason};
use job_defs::{Def, DefFault, read_value};
use json_kinds::json_value;
use run_times::TextWriter;
use serde_json::Value;
use std::alloc::{AllocError, Global};

/// What a load would say of a definition.
#[derive(Drop)]
pub enum Checked {
    /// A load reads it, and it has these mistakes. The findings are on them, and on what else may be wrong.
    Loads {
        def: Def,
        mistakes: Vec<Mistake>,
        finding_list: Vec<Finding>,
    },
    /// A load refuses it for this reason, at this key; the text says so to people. The further findings say what else is wrong.
    Refused {
        reason: Reason,
        key: KeyName,
        place: Option<Position>,
        text: String,
        further: Vec<Finding>,
    },
}

/// Checks the bytes of a definition. The verdict is that of `read_def`, which a load asks: the definition that it reads, or the reason
/// and the key for which it refuses. `changes` are those of the clock by whose time entries of a calendar are looked at. `Err` says only
/// that memory ran out.
#[tactic(auto, unfolding(job_defs::specs::Keys::def_of))]
pub fn check_def(alloc: Global, bytes: &[u8], changes: &[Change]) -> Result<Checked, AllocError>
    ensures { IfOk result (λ checked. IsVerdict (def_of bytes.now) checked) }
{
    let text = std::str::from_utf8(bytes).unwrap_or("");
    let outline = outline_of(alloc, text)?;
    match json_value(alloc, bytes)? {
        Some(value) => value_checked(alloc, text, &outline, &value, changes),
        None => not_json(alloc, bytes, &outline),
    }
}

// The same of bytes that are this value.
fn value_checked(
    alloc: Global,
    text: &str,
    outline: &Outline,
    value: &Value,
    changes: &[Change],
) -> Result<Checked, AllocError>
    ensures { IfOk result (λ checked. IsVerdict (def_at (view value.now)) checked) }
{
    match read_value(alloc, value) {
        Ok(def) => loads(alloc, text, outline, def, value, changes),
        Err(DefFault::Bad { reason, key }) => refused(alloc, text, outline, value, reason, key),
        Err(DefFault::NoMemory) => Err(AllocError),
    }
}

// The definition with its mistakes, and what is said of it.
fn loads(
    alloc: Global,
    text: &str,
    outline: &Outline,
    def: Def,
    value: &Value,
    changes: &[Change],
) -> Result<Checked, AllocError>
    ensures { IfOk result (λ checked. IsVerdict (Ok def) checked) }
{
    let mistakes = match mistakes_in(alloc, &def) {
        Ok(mistakes) => mistakes,
        Err(error) => {
            drop(def);
            return Err(error);
        }
    };
    let finding_list = FindingList::new(alloc, text, outline.marks.as_slice());
    match findings_on(&def, value, mistakes.as_slice(), changes, finding_list) {
        Ok(finding_list) => Ok(Checked::Loads {
            def,
            mistakes,
            finding_list,
        }),
        Err(error) => {
            drop(mistakes);
            drop(def);
            Err(error)
        }
    }
}

// The refusal for this reason at this key, and what is said of it.
fn refused(
    alloc: Global,
    text: &str,
    outline: &Outline,
    value: &Value,
    reason: Reason,
    key: KeyName,
) -> Result<Checked, AllocError>
    ensures { IfOk result (λ checked. IsVerdict (Err (bad reason key)) checked) }
{
    let faults = faults_of(alloc, value)?;
    let mut writer = TextWriter::new(alloc);
    let mut finding_list = FindingList::new(alloc, text, outline.marks.as_slice());
    let place = put_faults(&mut writer, value, faults.as_slice(), &mut finding_list);
    drop(faults);
    refusal_of(reason, key, place, writer, finding_list)
}

// The refusal of bytes that are not JSON.
fn not_json(alloc: Global, bytes: &[u8], outline: &Outline) -> Result<Checked, AllocError>
    ensures { IfOk result (λ checked. IsVerdict (Err (bad NotJson NoKey)) checked) }
{
    let mut writer = TextWriter::new(alloc);
    let place = put_broken(alloc, &mut writer, bytes, outline);
    let finding_list = FindingList::new(alloc, "", &[]);
    refusal_of(Reason::NotJson, KeyName::NoKey, place, writer, finding_list)
}

// The refusal with this text and these findings.
fn refusal_of(
    reason: Reason,
    key: KeyName,
    place: Option<Position>,
    writer: TextWriter,
    finding_list: FindingList<'_>,
) -> Result<Checked, AllocError>
    ensures { IfOk result (λ checked. IsVerdict (Err (bad reason key)) checked) }
{
    match (writer.into_text(), finding_list.into_list()) {
        (Ok(text), Ok(further)) => Ok(Checked::Refused {
            reason,
            key,
            place,
            text,
            further,
        }),
        (text, further) => {
            drop(text);
            drop(further);
            Err(AllocError)
        }
    }
}
