//! Values by kind, length, range and form. `key` is the key that a fault names.

ghost use Rattle.std.specs.Prelude.{◌≡◌, ◌≤◌, IfOk};
ghost use Rattle.std.specs.List.{list_any};
ghost use Rattle.serde_json.specs.View.{view, number_view, items_view, members_view};
ghost use Rattle.json_kinds.specs.DefFaults.{Gives};
ghost use Rattle.json_kinds.specs.JsonKinds as kinds;
ghost use Rattle.json_kinds.specs.JsonKinds.{text_at, bool_at, array_at, object_at, in_range, integer_at, is_zero, plain, filled, plain_at, filled_at, members_or_one, texts_in};

use crate::fault::DefFault;
use history_model::{KeyName, Reason};
use serde_json::{Map, Number, Value};

/// The text that a value is. WrongKind for any other.
pub fn text_of(found: &Value, key: KeyName) -> Result<&str, DefFault>
    ensures { Gives (λ text. text.now) result (text_at key (view found.now)) }
{
    match found.as_str() {
        Some(text) => Ok(text),
        None => Err(DefFault::Bad {
            reason: Reason::WrongKind,
            key,
        }),
    }
}

/// The boolean that a value is. WrongKind for any other.
pub fn bool_of(found: &Value, key: KeyName) -> Result<bool, DefFault>
    ensures { Gives (λ holds. holds) result (bool_at key (view found.now)) }
{
    match found.as_bool() {
        Some(holds) => Ok(holds),
        None => Err(DefFault::Bad {
            reason: Reason::WrongKind,
            key,
        }),
    }
}

/// The members of the array that a value is. WrongKind for any other.
pub fn array_of(found: &Value, key: KeyName) -> Result<&[Value], DefFault>
    ensures { Gives (λ items. items_view items.now) result (array_at key (view found.now)) }
{
    match found.as_array() {
        Some(list) => Ok(list.as_slice()),
        None => Err(DefFault::Bad {
            reason: Reason::WrongKind,
            key,
        }),
    }
}

/// The members of the object that a value is. WrongKind for any other.
pub fn object_of(found: &Value, key: KeyName) -> Result<&Map<String, Value>, DefFault>
    ensures { Gives (λ map. members_view map.now.entries) result (object_at key (view found.now)) }
{
    match found.as_object() {
        Some(map) => Ok(map),
        None => Err(DefFault::Bad {
            reason: Reason::WrongKind,
            key,
        }),
    }
}

/// The array's members, or the one value.
pub fn members_or_one_of(found: &Value) -> &[Value]
    ensures { items_view result.now ≡ members_or_one (view found.now) }
{
    match found.as_array() {
        Some(list) => list.as_slice(),
        None => std::slice::from_ref(found),
    }
}

/// The integer that a value is, of at least `low` and at most `high`. WrongKind for a value that is not a number and for a number
/// with a fraction or an exponent, OutOfRange for other integers.
pub fn integer_of(found: &Value, key: KeyName, low: u32, high: u32) -> Result<u32, DefFault>
    ensures value { Gives (λ n. n) result (integer_at low high key (view found.now)) }
    ensures range { IfOk result (λ n. (low ≤ n) × (n ≤ high)) }
{
    let Some(number) = found.as_number() else {
        return Err(DefFault::Bad {
            reason: Reason::WrongKind,
            key,
        });
    };
    number_of(number, key, low, high)
}

/// The same of a number.
pub fn number_of(number: &Number, key: KeyName, low: u32, high: u32) -> Result<u32, DefFault>
    ensures value { Gives (λ n. n) result (in_range low high key (number_view number.now)) }
    ensures range { IfOk result (λ n. (low ≤ n) × (n ≤ high)) }
{
    match number.as_u64() {
        Some(n) if u64::from(low) <= n && n <= u64::from(high) => Ok(n as u32),
        None if number.is_f64() => Err(DefFault::Bad {
            reason: Reason::WrongKind,
            key,
        }),
        _ => Err(DefFault::Bad {
            reason: Reason::OutOfRange,
            key,
        }),
    }
}

fn has_zero(text: &str) -> bool
    ensures { result ≡ list_any is_zero text.now }
{
    text.as_bytes().contains(&0)
}

/// A text of at most `limit` bytes, none of them 0. TooLong, and then OutOfRange for others.
#[tactic(auto, unfolding(crate::specs::JsonKinds::plain))]
pub fn plain_text(text: &str, key: KeyName, limit: usize) -> Result<&str, DefFault>
    ensures { Gives (λ same. same.now) result (plain limit key text.now) }
{
    if text.len() > limit {
        return Err(DefFault::Bad {
            reason: Reason::TooLong,
            key,
        });
    }
    if has_zero(text) {
        return Err(DefFault::Bad {
            reason: Reason::OutOfRange,
            key,
        });
    }
    Ok(text)
}

/// A string of 1 to `limit` bytes, none of them 0. TooLong, and then OutOfRange for others.
#[tactic(auto, unfolding(crate::specs::JsonKinds::filled))]
pub fn filled_text(text: &str, key: KeyName, limit: usize) -> Result<&str, DefFault>
    ensures { Gives (λ same. same.now) result (filled limit key text.now) }
{
    plain_text(text, key, limit)?;
    if text.is_empty() {
        return Err(DefFault::Bad {
            reason: Reason::OutOfRange,
            key,
        });
    }
    Ok(text)
}

/// The string that a value is, as [`plain_text`] takes it. WrongKind for a value that is not a string.
#[tactic(auto, unfolding(crate::specs::JsonKinds::plain_at))]
pub fn plain_of(found: &Value, key: KeyName, limit: usize) -> Result<&str, DefFault>
    ensures { Gives (λ text. text.now) result (plain_at limit key (view found.now)) }
{
    plain_text(text_of(found, key)?, key, limit)
}

/// The string that a value is, as [`filled_text`] takes it. WrongKind for a value that is not a string.
#[tactic(auto, unfolding(crate::specs::JsonKinds::filled_at))]
pub fn filled_of(found: &Value, key: KeyName, limit: usize) -> Result<&str, DefFault>
    ensures { Gives (λ text. text.now) result (filled_at limit key (view found.now)) }
{
    filled_text(text_of(found, key)?, key, limit)
}

/// Whether the text is one of these.
pub fn is_among(texts: &[&str], text: &str) -> bool
    ensures { result ≡ kinds.is_among (texts_in texts.now) text.now }
{
    for known in texts {
        if *known == text {
            return true;
        }
    }
    false
}
