//! A line as a JSON value that lends its texts.

ghost use Rattle.std.specs.Prelude.{◌≡◌, true};
ghost use Rattle.json.specs.Value.{value_view};
ghost use Rattle.ctl_protocol.specs.Trees.{is_readable, integer_of};

use crate::members::ReadFault;
use crate::tree::{is_readable as readable, tree_in};
use json::{Scratch, Value};
use json_kinds::number_in;
use std::alloc::Global;

/// The integer that a value is, from 0 on.
fn integer_in(value: &Value<'_>) -> Option<u64>
    ensures { result ≡ integer_of (value_view value.now) }
{
    match value {
        Value::Number(text) => match number_in(text) {
            Some(number) => number.as_u64(),
            None => None,
        },
        _ => None,
    }
}

/// A line that is a JSON text (RFC 8259). Its texts are lent from the line, and a key that comes twice has its last value.
#[derive(Drop)]
pub(crate) struct Line<'a> {
    tree: Value<'a>,
    ghost readable: { is_readable (value_view tree) ≡ true },
}

impl<'a> Line<'a> {
    ghost use Rattle.std.specs.Prelude.{option_map, option_and_then, is_some};
    ghost use Rattle.json_kinds.specs.Json.{json_in};
    ghost use Rattle.serde_json.specs.Find.{get, as_bool, as_number, as_str, as_u64};
    ghost use Rattle.ctl_protocol.specs.Members.{IsReadAs, flag_or};
    ghost use Rattle.json.specs.Find.{as_object};
    ghost use Rattle.json.specs.Value.{members_view};
    ghost use Rattle.ctl_protocol.specs.Line.{seen};

    /// Reads a line. BadRequest if the bytes are not a JSON text.
    #[tactic(auto, using(crate::proofs::TreesLemmas::line_read, crate::proofs::TreesLemmas::line_refused, crate::proofs::TreesLemmas::line_missing))]
    pub(crate) fn read(
        alloc: Global,
        bytes: &'a [u8],
        scratch: &'a mut Scratch,
    ) -> Result<Line<'a>, ReadFault>
        ensures { IsReadAs seen result (json_in bytes.now) }
    {
        let Some(tree) = tree_in(alloc, bytes, scratch)? else {
            return Err(ReadFault::BadRequest);
        };
        if readable(&tree) {
            Ok(Line { tree })
        } else {
            Err(ReadFault::BadRequest)
        }
    }

    /// The text under a key.
    pub(crate) fn text(&self, key: &str) -> Option<&'a str>
        ensures { option_map (λ s. s.now) result
            ≡ option_and_then as_str (get key.now (seen self.now)) }
    {
        match self.tree.get(key) {
            Some(found) => found.as_str(),
            None => None,
        }
    }

    /// The integer under a key, from 0 on.
    pub(crate) fn number(&self, key: &str) -> Option<u64>
        ensures { result ≡ option_and_then as_u64
            (option_and_then as_number (get key.now (seen self.now))) }
    {
        match self.tree.get(key) {
            Some(found) => integer_in(found),
            None => None,
        }
    }

    /// The flag under a key.
    pub(crate) fn flag(&self, key: &str) -> Option<bool>
        ensures { result ≡ option_and_then as_bool (get key.now (seen self.now)) }
    {
        match self.tree.get(key) {
            Some(found) => found.as_bool(),
            None => None,
        }
    }

    /// The flag under a key that may be absent.
    pub(crate) fn flag_or(&self, key: &str, absent: bool) -> Option<bool>
        ensures { result ≡ flag_or key.now absent (seen self.now) }
    {
        match self.tree.get(key) {
            Some(found) => found.as_bool(),
            None => Some(absent),
        }
    }

    /// The members, in order, of a line that is an object.
    pub(crate) fn members(&self) -> Option<&Vec<(&'a str, Value<'a>)>>
        ensures { option_map (λ m. members_view m.now.items) result
            ≡ as_object (value_view self.now.tree) }
    {
        match &self.tree {
            Value::Object(members) => Some(members),
            _ => None,
        }
    }

    /// Whether the line has the key.
    pub(crate) fn has(&self, key: &str) -> bool
        ensures { result ≡ is_some (get key.now (seen self.now)) }
    {
        match self.tree.get(key) {
            Some(_) => true,
            None => false,
        }
    }
}
