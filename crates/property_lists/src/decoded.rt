//! The letters that a text of XML means.

use crate::fault::Wrong;
use std::alloc::AllocError;

const UNKNOWN: &str = "&$; is not an XML entity";

/// Adds the letters of the text: each entity is decoded once, and an end of a line is a newline. Refused: an entity that XML does not know
/// by itself, `&` without an entity, and `]]>`. A refusal leaves what was added before.
pub(crate) fn add_decoded<'a>(text: &'a str, into: &mut String) -> Result<(), Wrong<'a>> {
    if text.contains("]]>") {
        return Err(Wrong::Because("]]> is outside of a CDATA section", ""));
    }
    let mut is_first = true;
    for part in text.split('&') {
        let plain = if is_first {
            part
        } else {
            let Some((name, behind)) = part.split_once(';') else {
                return Err(Wrong::Because("& does not begin an entity; expected &amp;", ""));
            };
            match letter_of(name) {
                Some(letter) => into.push(letter)?,
                None => return Err(Wrong::Because(UNKNOWN, name)),
            }
            behind
        };
        add_plain(plain, into)?;
        is_first = false;
    }
    Ok(())
}

/// How many bytes come before what `add_decoded` refuses first in the text; all of it, if it refuses nothing.
pub(crate) fn front_of_wrong(text: &str) -> usize {
    if let Some(offset) = text.find("]]>") {
        return offset;
    }
    let mut front: usize = 0;
    let mut is_first = true;
    for part in text.split('&') {
        if !is_first && !is_decoded(part) {
            return front.saturating_sub(1);
        }
        front = front.saturating_add(part.len()).saturating_add(1);
        is_first = false;
    }
    text.len()
}

// Whether what follows an `&` begins with an entity.
fn is_decoded(part: &str) -> bool {
    match part.split_once(';') {
        Some((name, _)) => letter_of(name).is_some(),
        None => false,
    }
}

/// Adds the letters as they are; CR LF and CR are a newline each.
pub(crate) fn add_plain(text: &str, into: &mut String) -> Result<(), AllocError> {
    let mut is_behind_return = false;
    for letter in text.chars() {
        let is_second = letter == '\n' && is_behind_return;
        is_behind_return = letter == '\r';
        if !is_second {
            into.push(if is_behind_return { '\n' } else { letter })?;
        }
    }
    Ok(())
}

// The letter that the entity of this name means.
fn letter_of(name: &str) -> Option<char> {
    for (known, letter) in ENTITIES {
        if *known == name {
            return Some(*letter);
        }
    }
    let number = name.strip_prefix('#')?;
    let (digits, radix) = match number.strip_prefix('x') {
        Some(digits) => (digits, 16),
        None => (number, 10),
    };
    if digits.starts_with('+') {
        return None;
    }
    match u32::from_str_radix(digits, radix) {
        Ok(code) => match char::from_u32(code) {
            Some(letter) if is_letter(letter) => Some(letter),
            _ => None,
        },
        Err(_) => None,
    }
}

/// The entities that XML knows by itself.
const ENTITIES: &[(&str, char)] = &[
    ("lt", '<'),
    ("gt", '>'),
    ("amp", '&'),
    ("quot", '"'),
    ("apos", '\''),
];

/// Whether XML 1.0 does not have the letter.
pub(crate) fn is_none(letter: char) -> bool {
    !is_letter(letter)
}

fn is_letter(letter: char) -> bool {
    let is_low = letter < ' ' && letter != '\t' && letter != '\n' && letter != '\r';
    !is_low && letter != '\u{FFFE}' && letter != '\u{FFFF}'
}
