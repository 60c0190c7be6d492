//! Text within XML and HTML.

ghost use Rattle.std.specs.Prelude.{◌≡◌, ◌++◌, ◌↔◌, true, IsTrue, OnOk, IfOk, string_bytes, chars};
ghost use Rattle.run_times.specs.Escape.{is_unwritable, escaped, escaped_text};

use plain_text::is_hidden;
use std::alloc::{AllocError, Global};

/// The text as it is written within XML or HTML, in an attribute or outside: `&`, `<`, `>`, `"` and `'` by their names. Control characters,
/// bidirectional control characters and what XML can't hold become U+FFFD.
pub fn escaped(alloc: Global, text: &str) -> Result<String, AllocError>
    ensures { IfOk result (λ written. string_bytes written ≡ escaped_text (chars text.now)) }
{
    let mut written = String::new(alloc);
    for c in text.chars() {
        add_char(&mut written, c)?;
    }
    Ok(written)
}

fn add_char(written: &mut String, c: char) -> Result<(), AllocError>
    ensures { OnOk result (string_bytes written.new ≡ string_bytes written.old ++ escaped c) }
{
    match c {
        '&' => written.push_str("&amp;"),
        '<' => written.push_str("&lt;"),
        '>' => written.push_str("&gt;"),
        '"' => written.push_str("&quot;"),
        '\'' => written.push_str("&#39;"),
        c if is_unwritable(c) => written.push('\u{FFFD}'),
        c => written.push(c),
    }
}

// Whether the character is hidden in a text of others, or is not allowed in XML.
fn is_unwritable(c: char) -> bool
    ensures { result ≡ is_unwritable c }
{
    is_hidden(c) || c == '\u{FFFE}' || c == '\u{FFFF}'
}
