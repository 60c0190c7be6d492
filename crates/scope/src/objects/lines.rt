//! What the objects of several subcommands have in common.

use history_model::{Ended, Reading};
use json_lines::{Field, Value};

/// Fills the places where an object has no further key.
pub(crate) const NONE: Field<'static> = Field("", Value::Absent);

/// The time of a clock reading, if there is one.
pub(crate) fn moment_of(reading: Option<Reading>) -> Value<'static> {
    match reading {
        Some(at) => Value::Moment(at.wall),
        None => Value::Absent,
    }
}

/// The number, if there is one.
pub(crate) fn number_of(number: Option<u64>) -> Value<'static> {
    match number {
        Some(number) => Value::Number(number),
        None => Value::Absent,
    }
}

/// The exit code of an end, or the signal by which it came.
pub(crate) fn end_of(how: Option<Ended>) -> [Field<'static>; 2] {
    let (code, signal) = match how {
        Some(Ended::Code(code)) => (Value::Number(u64::from(code)), Value::Absent),
        Some(Ended::Signal(signal)) => (Value::Absent, Value::Number(u64::from(signal))),
        None => (Value::Absent, Value::Absent),
    };
    [Field("last_code", code), Field("last_signal", signal)]
}

/// The text, if there is one.
pub(crate) fn text_of<'a>(text: Option<&'a str>) -> Value<'a> {
    match text {
        Some(text) => Value::Text(text),
        None => Value::Absent,
    }
}
