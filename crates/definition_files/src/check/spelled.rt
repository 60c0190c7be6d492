//! Keys as a text of JSON spells them: a key may have escapes (RFC 8259, section 7).

use run_times::TextWriter;

/// The characters that a key's text means so far.
#[derive(Clone, Copy)]
struct Spelling {
    /// Whether a backslash came last.
    is_escaped: bool,
    /// How many digits of `\u` are still to come.
    digits: u32,
    /// What the digits so far are as a number.
    unit: u32,
    /// The first half of a surrogate pair, if its second half is still to come; else 0.
    high: u32,
}

impl Spelling {
    // Of no character yet.
    fn new() -> Spelling {
        Spelling {
            is_escaped: false,
            digits: 0,
            unit: 0,
            high: 0,
        }
    }

    // The character that is whole with this one.
    fn take(&mut self, letter: char) -> Option<char> {
        if self.digits > 0 {
            let digit = letter.to_digit(16).unwrap_or(0);
            self.unit = self.unit.saturating_mul(16).saturating_add(digit);
            self.digits = self.digits.saturating_sub(1);
            return if self.digits == 0 {
                self.end_unit()
            } else {
                None
            };
        }
        if self.is_escaped {
            self.is_escaped = false;
            return self.after_backslash(letter);
        }
        if letter == '\\' {
            self.is_escaped = true;
            return None;
        }
        Some(letter)
    }

    fn after_backslash(&mut self, letter: char) -> Option<char> {
        match letter {
            'u' => {
                self.digits = 4;
                self.unit = 0;
                None
            }
            'b' => Some('\u{8}'),
            'f' => Some('\u{c}'),
            'n' => Some('\n'),
            'r' => Some('\r'),
            't' => Some('\t'),
            other => Some(other),
        }
    }

    // The character of the four digits. Two halves make one.
    fn end_unit(&mut self) -> Option<char> {
        if 0xD800 <= self.unit && self.unit < 0xDC00 {
            self.high = self.unit;
            return None;
        }
        let code = if self.high == 0 {
            self.unit
        } else {
            let upper = self.high.saturating_sub(0xD800).saturating_mul(0x400);
            upper
                .saturating_add(self.unit.saturating_sub(0xDC00))
                .saturating_add(0x10000)
        };
        self.high = 0;
        char::from_u32(code)
    }
}

/// Whether a key means this name, by its text between the quotes.
pub(crate) fn spells(raw: &str, name: &str) -> bool {
    // An escape is longer than what it means.
    if raw.len() <= name.len() || !raw.contains('\\') {
        return raw == name && !raw.contains('\\');
    }
    let mut spelling = Spelling::new();
    let mut wanted = name.chars();
    for letter in raw.chars() {
        if let Some(found) = spelling.take(letter) {
            if wanted.next() != Some(found) {
                return false;
            }
        }
    }
    wanted.next().is_none()
}

/// Adds the name that a key means, by its text between the quotes.
pub(crate) fn put_name(writer: &mut TextWriter, raw: &str) {
    if !raw.contains('\\') {
        return writer.put(raw);
    }
    let mut spelling = Spelling::new();
    for letter in raw.chars() {
        if let Some(found) = spelling.take(letter) {
            writer.put_char(found);
        }
    }
}

/// Whether two keys mean the same name, by their texts between the quotes. Two that have escapes do only if they have the same ones.
pub(crate) fn are_same(one: &str, other: &str) -> bool {
    if one.contains('\\') && other.contains('\\') {
        return one == other;
    }
    if one.contains('\\') {
        spells(one, other)
    } else {
        spells(other, one)
    }
}

/// The quote that ends the string which begins at the quote there.
pub(crate) fn end_of_string(text: &str, at: usize) -> usize {
    let mut end = at.saturating_add(1);
    let mut is_escaped = false;
    for byte in text.as_bytes().get(end..).unwrap_or(&[]) {
        if *byte == b'"' && !is_escaped {
            return end;
        }
        is_escaped = *byte == b'\\' && !is_escaped;
        end = end.saturating_add(1);
    }
    end
}
