//! How one definition differs from another.

use serde_json::{Map, Value};
use std::alloc::{AllocError, Global};

/// The keys by which the one differs from the other, in byte order of those of the first, and then those that only the second has.
pub fn changed_keys<'a>(
    alloc: Global,
    one: &'a Value,
    other: &'a Value,
) -> Result<Vec<&'a str>, AllocError> {
    let mut keys = Vec::new(alloc);
    if let (Some(one), Some(other)) = (one.as_object(), other.as_object()) {
        add_keys(one, other, true, &mut keys)?;
        add_keys(other, one, false, &mut keys)?;
    }
    Ok(keys)
}

// Adds the keys of the one that the other lacks, and with `by_value` those whose values differ.
fn add_keys<'a>(
    one: &'a Map<String, Value>,
    other: &Map<String, Value>,
    by_value: bool,
    keys: &mut Vec<&'a str>,
) -> Result<(), AllocError> {
    for (key, value) in one {
        let is_other = match other.get(key.as_str()) {
            Some(found) => by_value && found != value,
            None => true,
        };
        if is_other {
            keys.push(key.as_str())?;
        }
    }
    Ok(())
}
