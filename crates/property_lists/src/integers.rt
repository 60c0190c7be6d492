//! The integer that a text is.

/// An integer from -2^63 to 2^64 - 1.
#[derive(Clone, Copy)]
pub(crate) enum Integer {
    Plain(u64),
    Negative(i64),
}

/// The integer, in decimal digits or in hexadecimal ones after `0x`, with a sign or none; blanks around it don't count. None if the text is
/// not an integer, or is out of range.
pub(crate) fn integer_of(text: &str) -> Option<Integer> {
    let text = text.trim();
    let behind = text.strip_prefix('-');
    let unsigned = behind.unwrap_or(text.strip_prefix('+').unwrap_or(text));
    let hexadecimal = match unsigned.strip_prefix("0x") {
        Some(digits) => Some(digits),
        None => unsigned.strip_prefix("0X"),
    };
    let (digits, radix) = match hexadecimal {
        Some(digits) => (digits, 16),
        None => (unsigned, 10),
    };
    if digits.starts_with('+') || digits.starts_with('-') {
        return None;
    }
    let Ok(amount) = u64::from_str_radix(digits, radix) else {
        return None;
    };
    if behind.is_none() || amount == 0 {
        return Some(Integer::Plain(amount));
    }
    match 0i64.checked_sub_unsigned(amount) {
        Some(number) => Some(Integer::Negative(number)),
        None => None,
    }
}
