//! The variable that a line of a crontab sets, as Debian's cron reads it.

/// The name and the value that the line sets; None if it sets no variable. Either may be in quotes, single or double. Blanks are allowed
/// around `=`, and those after a value without quotes don't belong to it. If the value is absent, nothing is set: `NAME=""` sets an empty
/// one.
pub(crate) fn variable_in(text: &str) -> Option<(&str, &str)> {
    let (name, behind) = name_in(text)?;
    let rest = behind.trim_start_matches(is_blank).strip_prefix('=')?;
    let value = value_in(rest.trim_start_matches(is_blank))?;
    if name.is_empty() {
        None
    } else {
        Some((name, value))
    }
}

pub(crate) fn is_blank(letter: char) -> bool {
    letter.is_ascii_whitespace()
}

// The name, and what follows it. A name without quotes ends before a blank or `=`, one in quotes has no `=`.
fn name_in(text: &str) -> Option<(&str, &str)> {
    let Some((quote, inner)) = unquoted(text) else {
        let end = text.find(is_end)?;
        return text.split_at_checked(end);
    };
    let (name, behind) = inner.split_once(quote)?;
    if name.contains('=') {
        None
    } else {
        Some((name, behind))
    }
}

fn is_end(letter: char) -> bool {
    letter == '=' || is_blank(letter)
}

// The value, which only blanks may follow.
fn value_in(text: &str) -> Option<&str> {
    let Some((quote, inner)) = unquoted(text) else {
        let value = text.trim_end_matches(is_blank);
        return if value.is_empty() { None } else { Some(value) };
    };
    let (value, behind) = inner.split_once(quote)?;
    if behind.trim_start_matches(is_blank).is_empty() {
        Some(value)
    } else {
        None
    }
}

// The quote that the text begins with, and what follows it.
fn unquoted(text: &str) -> Option<(char, &str)> {
    if let Some(inner) = text.strip_prefix('"') {
        return Some(('"', inner));
    }
    let inner = text.strip_prefix('\'')?;
    Some(('\'', inner))
}
