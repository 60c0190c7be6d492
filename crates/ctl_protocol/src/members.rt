//! The members of a line's object, by key and kind.

ghost use Rattle.std.specs.Prelude.{◌≡◌};
ghost use Rattle.json.specs.Value.{members_view};
ghost use Rattle.ctl_protocol.specs.Members.{IsReadAs, Reads, text_key, number_key, flag_key, flag_or, label_key, target_key, has_only, tag_of, is_key};
ghost use Rattle.json_kinds.specs.JsonKinds.{texts_in};
ghost use Rattle.ctl_protocol.specs.Line.{seen};
ghost use Rattle.ctl_protocol.specs.Trees.{keys_pass};
ghost use Rattle.ctl_protocol.specs.declared.members.ReadFault.TheVariants.{NoMemory};

use crate::line::Line;
use crate::target::label_named;
use history_model::{TextRef, is_label};
use json::Value;
use json_kinds::kinds::is_among;
use std::alloc::{AllocError, AllocFailed};
use thiserror::Error;

/// Why a line was not read.
#[derive(Clone, Copy, Debug, PartialEq, Eq, Error)]
pub enum ReadFault {
    /// Memory ran out. The line may be read again.
    #[error("no memory")]
    NoMemory,
    /// The line is none of those that the reader takes.
    #[error("bad request")]
    BadRequest,
}

impl From<AllocError> for ReadFault {
    ghost from_gives = { λ _ e. e ≡ NoMemory };

    fn from(_e: AllocError) -> ReadFault {
        ReadFault::NoMemory
    }
}

impl<T: Drop> From<AllocFailed<T>> for ReadFault {
    ghost from_gives = { λ _ e. e ≡ NoMemory };

    fn from(_e: AllocFailed<T>) -> ReadFault {
        ReadFault::NoMemory
    }
}

/// The two kinds of lines of events: a journal's, which has the outside's answers, and a client's.
#[derive(Clone, Copy, PartialEq, Eq)]
pub enum Form {
    Event,
    Request,
}

impl Form {
    /// The key under which the line has its event's name.
    pub fn tag(&self) -> &'static str
        ensures { result.now ≡ tag_of self.now }
    {
        match self {
            Form::Event => "ev",
            Form::Request => "req",
        }
    }
}

/// The text under a key.
#[tactic(auto, unfolding(crate::specs::Members::text_key))]
pub(crate) fn text_in<'a>(line: &Line<'a>, key: &str) -> Result<&'a str, ReadFault>
    ensures { IsReadAs (λ s. s.now) result (text_key key.now (seen line.now)) }
{
    match line.text(key) {
        Some(text) => Ok(text),
        None => Err(ReadFault::BadRequest),
    }
}

/// The integer under a key, from 0 on.
#[tactic(auto, unfolding(crate::specs::Members::number_key))]
pub(crate) fn number_in(line: &Line<'_>, key: &str) -> Result<u64, ReadFault>
    ensures { Reads result (number_key key.now (seen line.now)) }
{
    match line.number(key) {
        Some(n) => Ok(n),
        None => Err(ReadFault::BadRequest),
    }
}

/// The flag under a key.
#[tactic(auto, unfolding(crate::specs::Members::flag_key))]
pub(crate) fn flag_in(line: &Line<'_>, key: &str) -> Result<bool, ReadFault>
    ensures { Reads result (flag_key key.now (seen line.now)) }
{
    match line.flag(key) {
        Some(set) => Ok(set),
        None => Err(ReadFault::BadRequest),
    }
}

/// The flag under a key that may be absent.
pub(crate) fn flag_or_in(line: &Line<'_>, key: &str, absent: bool) -> Result<bool, ReadFault>
    ensures { Reads result (flag_or key.now absent (seen line.now)) }
{
    match line.flag_or(key, absent) {
        Some(set) => Ok(set),
        None => Err(ReadFault::BadRequest),
    }
}

/// The label under a key.
#[tactic(auto, unfolding(crate::specs::Members::label_key))]
pub(crate) fn label_in<'a>(line: &Line<'a>, key: &str) -> Result<TextRef<'a>, ReadFault>
    ensures { Reads result (label_key key.now (seen line.now)) }
{
    let label = text_in(line, key)?;
    if !is_label(label) {
        return Err(ReadFault::BadRequest);
    }
    Ok(TextRef::new(label))
}

/// The label that the target under a key names.
#[tactic(auto, unfolding(crate::specs::Members::target_key))]
pub(crate) fn target_in<'a>(line: &Line<'a>, key: &str) -> Result<TextRef<'a>, ReadFault>
    ensures { Reads result (target_key key.now (seen line.now)) }
{
    let target = text_in(line, key)?;
    match label_named(target) {
        Some(label) => Ok(TextRef::new(label)),
        None => Err(ReadFault::BadRequest),
    }
}

/// Whether the line is an object with no key but its tag, those of its shape and, in a journal, the answers.
pub(crate) fn has_only_keys(form: Form, line: &Line<'_>, keys: &[&str], answers: &[&str]) -> bool
    ensures { result ≡ has_only form (texts_in keys.now) (texts_in answers.now) (seen line.now) }
{
    match line.members() {
        Some(members) => all_are_keys(form, members, keys, answers),
        None => false,
    }
}

fn all_are_keys(
    form: Form,
    members: &Vec<(&str, Value<'_>)>,
    keys: &[&str],
    answers: &[&str],
) -> bool
    ensures { result ≡ keys_pass (is_key form (texts_in keys.now) (texts_in answers.now))
        (members_view members.now.items) }
{
    for member in members {
        let name = member.0;
        let is_answer = form == Form::Event && is_among(answers, name);
        if name != form.tag() && !is_among(keys, name) && !is_answer {
            return false;
        }
    }
    true
}
