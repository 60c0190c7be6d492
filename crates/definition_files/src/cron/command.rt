//! The command of a line, as Debian's cron passes it to the shell.

use crate::cron::fault::{LineFault, told};
use job_defs::limits::WORD_LIMIT;
use run_times::Piece::Number;
use run_times::TextWriter;
use std::alloc::Global;

const PERCENT: &str =
    "% ends a command and begins its input, which job definitions do not have; expected \\% for the sign";

const LONG: &str = "the command has more than $ bytes, which no load takes; write it into a script";

const NUL: &str = "the command has a NUL byte, which no program's argument may have";

/// The command that the text means: `\%` is the sign, `\\` is one backslash, and a backslash before any other letter stays. Refused: a `%`
/// that is not escaped, a NUL byte, and more bytes than an argument may have.
pub(crate) fn command_of(alloc: Global, text: &str) -> Result<String, LineFault> {
    let mut writer = TextWriter::new(alloc);
    let wrong = put_command(text, &mut writer);
    let made = writer.into_text();
    match (wrong, made) {
        (None, Ok(command)) => Ok(command),
        (None, Err(_)) => Err(LineFault::NoMemory),
        (Some(wrong), made) => {
            drop(made);
            Err(told(alloc, wrong, &[Number(WORD_LIMIT as u64)]))
        }
    }
}

// Adds the command, or says what is wrong with it.
fn put_command(text: &str, writer: &mut TextWriter) -> Option<&'static str> {
    let mut is_escaped = false;
    for letter in text.chars() {
        if letter == '\0' {
            return Some(NUL);
        }
        let is_sign = letter == '%' || letter == '\\';
        if is_escaped && !is_sign {
            writer.put_char('\\');
        }
        if letter == '%' && !is_escaped {
            return Some(PERCENT);
        }
        let begins = letter == '\\' && !is_escaped;
        if !begins {
            writer.put_char(letter);
        }
        is_escaped = begins;
    }
    if is_escaped {
        writer.put_char('\\');
    }
    if writer.text.len() > WORD_LIMIT {
        Some(LONG)
    } else {
        None
    }
}
