//! Ways from a definition to a value within it.

use serde_json::Value;

/// A step of the way from a definition to a value within it.
#[derive(Drop)]
pub enum Step {
    /// To the value of this key.
    Key(String),
    /// To the member with this index of an array.
    Member(usize),
}

/// The value to which the way leads.
pub(crate) fn value_at<'v>(def: &'v Value, way: &[Step]) -> Option<&'v Value> {
    let mut here = def;
    for step in way {
        here = step_to(here, step)?;
    }
    Some(here)
}

fn step_to<'v>(value: &'v Value, step: &Step) -> Option<&'v Value> {
    match step {
        Step::Key(name) => value.get(name.as_str()),
        Step::Member(index) => value.get(*index),
    }
}

/// The same, to be changed.
pub(crate) fn place_mut<'v>(def: &'v mut Value, way: &[Step]) -> Option<&'v mut Value> {
    let mut here = def;
    for step in way {
        here = step_to_mut(here, step)?;
    }
    Some(here)
}

fn step_to_mut<'v>(value: &'v mut Value, step: &Step) -> Option<&'v mut Value> {
    match step {
        Step::Key(name) => value.get_mut(name.as_str()),
        Step::Member(index) => value.get_mut(*index),
    }
}

/// How many members an array or an object has; 0 for another value.
pub(crate) fn count_in(value: &Value) -> usize {
    match value {
        Value::Array(items) => items.len(),
        Value::Object(members) => members.len(),
        _ => 0,
    }
}
