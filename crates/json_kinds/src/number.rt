//! Numbers of a JSON text.

ghost use Rattle.std.specs.Prelude.{◌≡◌, ◌==◌, ◌<◌, length, slice_index, true, false, Some, option_map, IfSome, IsTrue};
ghost use Rattle.serde_json.specs.Data.{unsigned as whole};
ghost use Rattle.serde_json.specs.View.{number_view};
ghost use Rattle.serde_json.specs.Read.{number_of, number_from, float_of};

use fast_float::{Numeral, parse_u64};
use serde_json::Number;

fn begins_with(bytes: &[u8], sign: u8) -> bool
    requires { 0 < sign }
    ensures value { result ≡ (slice_index bytes.now 0 == sign) }
    ensures len { IsTrue result → 0 < length bytes.now }
{
    !bytes.is_empty() && bytes[0] == sign
}

fn nearest(negative: bool, numeral: &Numeral<'_>) -> Option<Number>
    ensures { option_map number_view result ≡ float_of negative numeral.now }
{
    Number::from_f64(numeral.to_float::<f64>(negative))
}

fn unsigned(numeral: &Numeral<'_>) -> Option<Number>
    ensures { option_map number_view result ≡ number_from false numeral.now }
{
    match numeral.to_u64() {
        Some(n) => Number::from_u128(n as u128),
        None => nearest(false, numeral),
    }
}

fn negative(numeral: &Numeral<'_>) -> Option<Number>
    ensures { option_map number_view result ≡ number_from true numeral.now }
{
    match numeral.to_i64(true) {
        Some(n) if n < 0 => Number::from_i128(n as i128),
        _ => nearest(true, numeral),
    }
}

fn number_from(bytes: &[u8]) -> Option<Number>
    ensures { option_map number_view result ≡ number_of bytes.now }
{
    if begins_with(bytes, b'-') {
        negative(&Numeral::scan(&bytes[1..]))
    } else {
        unsigned(&Numeral::scan(bytes))
    }
}

/// The number that digits alone write, read at one go. None of any other text, and of a number that does not fit.
fn plain_number(bytes: &[u8]) -> Option<u64>
    ensures { IfSome result (λ n. number_of bytes.now ≡ Some (whole n)) }
{
    if begins_with(bytes, b'+') {
        return None;
    }
    match parse_u64(bytes) {
        Ok(n) => Some(n),
        Err(_) => None,
    }
}

/// The number that a text of JSON's grammar writes, or None, if it is too large for a float.
pub fn number_in(text: &str) -> Option<Number>
    ensures { option_map number_view result ≡ number_of text.now }
{
    let bytes = text.as_bytes();
    match plain_number(bytes) {
        Some(n) => Number::from_u128(n as u128),
        None => number_from(bytes),
    }
}
