//! The line of a shell, as far as its last command and its signs show.

use std::alloc::{AllocError, Global};

/// The last command of a line.
#[derive(Clone, Copy)]
pub(crate) struct Last<'a> {
    pub(crate) text: &'a str,
    /// A single & follows it.
    pub(crate) is_left: bool,
}

/// The last command of the line, and whether it goes on in the background. A sign between quotes or after a backslash does not count, nor
/// does the & of a redirection.
pub(crate) fn last_of(line: &str) -> Last<'_> {
    let line = line.trim_end();
    let bytes = line.as_bytes();
    let mut quote: u8 = 0;
    let mut before: u8 = 0;
    // Where the last command begins, where the one before it ends, and the sign between them.
    let mut begin: usize = 0;
    let mut former: usize = 0;
    let mut sign: usize = 0;
    for index in 0..bytes.len() {
        let byte = byte_at(bytes, index);
        let next = byte_at(bytes, index.saturating_add(1));
        let is_hidden = before == b'\\' && quote != b'\'';
        if quote != 0 {
            if byte == quote && !is_hidden {
                quote = 0;
            }
        } else if is_hidden {} else if byte == b'\'' || byte == b'"' {
            quote = byte;
        } else if is_end(before, byte, next) {
            former = begin;
            sign = index;
            begin = index.saturating_add(1);
        }
        before = if is_hidden { 0 } else { byte };
    }
    if begin == bytes.len() && begin > 0 {
        let is_single = !line.ends_with("&&") && line.ends_with('&');
        return Last {
            text: line.get(former..sign).unwrap_or(""),
            is_left: is_single,
        };
    }
    Last {
        text: line.get(begin..).unwrap_or(""),
        is_left: false,
    }
}

fn byte_at(bytes: &[u8], index: usize) -> u8 {
    match bytes.get(index) {
        Some(byte) => *byte,
        None => 0,
    }
}

// A sign that ends a command, between the bytes before and after it.
fn is_end(before: u8, byte: u8, next: u8) -> bool {
    match byte {
        b';' | b'\n' | b'|' => true,
        b'&' => before != b'>' && before != b'<' && next != b'>',
        _ => false,
    }
}

/// Whether the command takes the place of the shell that reads the line, or leaves no process that goes on when the shell is ended. So it
/// is if it begins with `exec`, is one of the shell's own, or is a part of a loop or of a pipe. So it is too if the line takes signals
/// itself.
pub(crate) fn is_replaced(line: &str, command: &str) -> bool {
    let word = command.split_whitespace().next().unwrap_or("");
    if word.contains('=') || OWN.contains(&word) {
        return true;
    }
    for part in line.split_whitespace() {
        if HANDLED.contains(&part) {
            return true;
        }
    }
    false
}

// What begins a command of the shell's own, or ends one of several lines; and short programs that nothing needs to end.
static OWN: &[&str] = &[
    "", "exec", "exit", "return", "wait", "true", "false", ":", "echo", "printf", "read", "test",
    "[", "[[", "set", "export", "unset", "umask", "ulimit", "cd", ".", "source", "eval", "kill",
    "trap", "done", "fi", "esac", "}", ")", "{", "(", "if", "then", "else", "while", "until",
    "for", "case", "do", "sleep", "date", "touch", "rm", "mkdir", "cat", "env", "\"$@\"",
];

static HANDLED: &[&str] = &["|", "trap", "wait", "while", "until", "for", "case", "if"];

// Signs by which a shell expands, quotes or redirects.
const SPECIAL: &[u8] = b"'\"$`\\<>(){}*?[~#|&";

/// Whether the command is plain: nothing in it is expanded, quoted or redirected.
pub(crate) fn is_plain(command: &str) -> bool {
    for byte in command.as_bytes() {
        if SPECIAL.contains(byte) {
            return false;
        }
    }
    true
}

/// The parts of a command up to the first that is not plain, without `exec` and variables before them.
pub(crate) fn words_of<'a>(alloc: Global, command: &'a str) -> Result<Vec<&'a str>, AllocError> {
    let mut words: Vec<&'a str> = Vec::new(alloc);
    for word in command.split_whitespace() {
        if !is_plain(word) {
            return Ok(words);
        }
        let is_before = word == "exec" || word.contains('=');
        if !words.is_empty() || !is_before {
            words.push(word)?;
        }
    }
    Ok(words)
}

/// The folder into which a line goes first, if it does so.
pub(crate) fn folder_in(line: &str) -> Option<&str> {
    let rest = line.trim_start().strip_prefix("cd ")?;
    let word = rest.split_whitespace().next()?;
    let word = word.trim_end_matches(';');
    if is_plain(word) && word.starts_with('/') {
        Some(word)
    } else {
        None
    }
}
