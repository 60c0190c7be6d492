//! The tree of a line.

ghost use Rattle.std.specs.Prelude.{◌≡◌, true, IfOk, option_map};
ghost use Rattle.json.specs.Value.{value_view, items_view, members_view};
ghost use Rattle.ctl_protocol.specs.Trees.{tree_in as tree_of, is_readable as readable, items_are_readable as all_readable, members_are_readable as values_readable};

use json::{Error, Reader, Scratch, Value};
use json_kinds::number_in;
use std::alloc::{AllocError, Global};
use std::str;

/// Arrays and objects may nest so deep.
const MAX_DEPTH: usize = 127;

/// The tree of the JSON text that the bytes are.
pub(crate) fn tree_in<'a>(
    alloc: Global,
    bytes: &'a [u8],
    scratch: &'a mut Scratch,
) -> Result<Option<Value<'a>>, AllocError>
    ensures { IfOk result (λ tree. option_map value_view tree ≡ tree_of bytes.now) }
{
    let Ok(text) = str::from_utf8(bytes) else {
        return Ok(None);
    };
    let mut reader = Reader::new(text, scratch)?;
    match Value::read(alloc, &mut reader, MAX_DEPTH) {
        Ok(tree) => match reader.next() {
            Some(_) => Ok(None),
            None => Ok(Some(tree)),
        },
        Err(Error::OutOfMemory) => Err(AllocError),
        Err(_) => Ok(None),
    }
}

#[cycle(readable)]
pub(crate) fn is_readable(value: &Value<'_>) -> bool
    ensures { result ≡ readable (value_view value.now) }
{
    match value {
        Value::Number(text) => number_in(text).is_some(),
        Value::Array(items) => items_are_readable(items),
        Value::Object(members) => members_are_readable(members),
        _ => true,
    }
}

#[cycle(readable)]
fn items_are_readable(items: &Vec<Value<'_>>) -> bool
    ensures { result ≡ all_readable (items_view items.now.items) }
{
    for item in items {
        if !is_readable(item) {
            return false;
        }
    }
    true
}

#[cycle(readable)]
fn members_are_readable(members: &Vec<(&str, Value<'_>)>) -> bool
    ensures { result ≡ values_readable (members_view members.now.items) }
{
    for member in members {
        if !is_readable(&member.1) {
            return false;
        }
    }
    true
}
