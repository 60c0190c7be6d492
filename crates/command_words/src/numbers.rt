//! Numbers among the arguments.

use clap::ArgMatches;
use history_model::MAX_WALL;
use std::alloc::{AllocError, Global};

const SECOND: &str = "a second of Unix time up to 250000000000";

/// The options that take a number: their names, how they are written, the greatest number, and what is wanted.
const NUMBERS: &[(&str, &str, u64, &str)] = &[
    ("count", "-n", 10_000, "a number up to 10000"),
    ("from", "--from", MAX_WALL, SECOND),
    ("now", "--now", MAX_WALL, SECOND),
];

/// What is wrong with the first option whose value is not a number that it takes, if there is one.
pub(crate) fn wrong_number(
    alloc: Global,
    found: &ArgMatches<'_>,
) -> Result<Option<String>, AllocError> {
    for (id, option, most, wanted) in NUMBERS {
        if let Some(value) = found.get_str(*id) {
            if number_at_most(value, *most).is_none() {
                let text = format!(in alloc; "jobscope: {option} {value:?}: expected {wanted}\n")?;
                return Ok(Some(text));
            }
        }
    }
    Ok(None)
}

/// The number that is the option's value.
pub(crate) fn number_of(found: &ArgMatches<'_>, id: &str) -> Option<u64> {
    number_at_most(found.get_str(id)?, u64::MAX)
}

/// The decimal number that the text is, without a sign, and at most `most`.
fn number_at_most(text: &str, most: u64) -> Option<u64> {
    if text.is_empty() {
        return None;
    }
    let mut value: u64 = 0;
    for byte in text.as_bytes() {
        if !byte.is_ascii_digit() {
            return None;
        }
        let digit = u64::from(byte.saturating_sub(b'0'));
        value = value.checked_mul(10)?.checked_add(digit)?;
    }
    if value <= most { Some(value) } else { None }
}
