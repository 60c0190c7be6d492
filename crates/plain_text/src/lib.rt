//! Texts of others (labels, paths, reasons), as they are written to a terminal, a page or standard error. Nothing in them moves
//! the cursor, begins a line or turns the direction of the text.
#![tactic(auto)]

ghost use Rattle.std.specs.Prelude.{◌≡◌, ◌++◌, false, IfOk, OnOk, string_bytes, chars};
ghost use Rattle.plain_text.specs.Plain.{is_hidden, plain_char, plain_text};

use std::alloc::{AllocError, Global};

/// Adds the text with each hidden character as U+FFFD, and any other as it is. After an error a part of it may have been added.
pub fn add_plain(to: &mut String, text: &str) -> Result<(), AllocError>
    ensures { OnOk result (string_bytes to.new ≡ string_bytes to.old ++ plain_text (chars text.now)) }
{
    for c in text.chars() {
        to.push(plain_char(c))?;
    }
    Ok(())
}

/// The text so, as a text of its own.
pub fn plain(alloc: Global, text: &str) -> Result<String, AllocError>
    ensures { IfOk result (λ written. string_bytes written ≡ plain_text (chars text.now)) }
{
    let mut written = String::new(alloc);
    match add_plain(&mut written, text) {
        Ok(()) => Ok(written),
        Err(error) => {
            drop(written);
            Err(error)
        }
    }
}

/// A character as it is written: U+FFFD for a hidden one. So none that is written is hidden.
pub fn plain_char(c: char) -> char
    ensures plain { result ≡ plain_char c }
    ensures seen { is_hidden result ≡ false }
{
    if is_hidden(c) { '\u{FFFD}' } else { c }
}

/// Whether it is a control character (C0, DEL or C1), or a bidirectional control character (`Bidi_Control` of Unicode).
pub fn is_hidden(c: char) -> bool
    ensures { result ≡ is_hidden c }
{
    let is_control = c < '\u{20}' || (c > '\u{7E}' && c < '\u{A0}');
    let is_mark = c == '\u{61C}' || c == '\u{200E}' || c == '\u{200F}';
    let is_embedding = c > '\u{2029}' && c < '\u{202F}';
    let is_isolate = c > '\u{2065}' && c < '\u{206A}';
    is_control || is_mark || is_embedding || is_isolate
}
