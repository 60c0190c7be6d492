//! JSON objects of plain members, and how a value is written as a line.

ghost use Rattle.std.specs.Prelude.{◌≡◌, ◌≤◌, IfOk, OnOk, Some, false};
ghost use Rattle.serde_json.specs.View.{view, members_view};
ghost use Rattle.json_kinds.specs.Json.{json_in};
ghost use Rattle.serde_json.specs.Data.{depth};
ghost use Rattle.serde_json.specs.Read.{max_depth};
ghost use Rattle.serde_json.specs.Written.{compact_text, has_float};
ghost use Rattle.ctl_protocol.specs.Objects.{flags_of, line_of, with_members, plain_data, plain_of, plains_of, plain_object};

use serde_json::{Map, Value, put};
use std::alloc::{AllocError, Global};

/// A member's value.
#[derive(Clone, Copy)]
pub(crate) enum Cell<'t> {
    Text(&'t str),
    Flag(bool),
    Count(u64),
    Whole(i64),
}

fn cell_value(alloc: Global, cell: Cell<'_>) -> Result<Value, AllocError>
    ensures { IfOk result (λ v. view v ≡ plain_data (plain_of cell.entry)) }
{
    match cell {
        Cell::Text(text) => Ok(Value::String(String::from_str(alloc, text)?)),
        Cell::Flag(set) => Ok(Value::Bool(set)),
        Cell::Count(n) => Ok(Value::from(n)),
        Cell::Whole(n) => Ok(Value::from(n)),
    }
}

/// Puts the members at their places, in byte order of keys.
pub(crate) fn put_all(
    map: &mut Map<String, Value>,
    alloc: Global,
    members: &[(&str, Cell<'_>)],
) -> Result<(), AllocError>
    ensures { OnOk result (members_view map.new.entries
        ≡ with_members (members_view map.old.entries) (plains_of members.now)) }
{
    for (key, cell) in members {
        let value = cell_value(alloc, *cell)?;
        put(map, alloc, key, value)?;
    }
    Ok(())
}

/// Puts flags at their places, in byte order of keys.
pub(crate) fn put_flags(
    map: &mut Map<String, Value>,
    alloc: Global,
    flags: &[(&str, bool)],
) -> Result<(), AllocError>
    ensures { OnOk result (members_view map.new.entries
        ≡ with_members (members_view map.old.entries) (flags_of flags.now)) }
{
    for (key, set) in flags {
        put(map, alloc, key, Value::Bool(*set))?;
    }
    Ok(())
}

/// The object of these members.
pub(crate) fn object_of(alloc: Global, members: &[(&str, Cell<'_>)]) -> Result<Value, AllocError>
    ensures { IfOk result (λ v. view v ≡ plain_object (plains_of members.now)) }
{
    let mut map = Map::new(alloc);
    put_all(&mut map, alloc, members)?;
    Ok(Value::Object(map))
}

/// The compact text of a value, and a newline. The text is read as that value.
pub(crate) fn line_from(alloc: Global, value: &Value) -> Result<Vec<u8>, AllocError>
    requires { has_float (view value.now) ≡ false }
    ensures text { IfOk result (λ line. line.items ≡ line_of (view value.now)) }
    ensures reads_back { OnOk result (depth (view value.now) ≤ max_depth
        → json_in (compact_text (view value.now)) ≡ Some (view value.now)) }
{
    let mut line = value.to_vec(alloc)?;
    line.push(b'\n')?;
    Ok(line)
}
