//! The name of a job, by the comment above its line or by its command.

use run_times::TextWriter;
use std::alloc::{AllocError, Global};

/// The longest name in a label, in bytes.
const LONGEST_NAME: usize = 64;

/// A dot and the name of the job: the text of the comment, or else the name of the command's program. Nothing if neither has a letter.
pub(crate) fn name_of(alloc: Global, comment: &str, command: &str) -> Result<String, AllocError> {
    let mut writer = TextWriter::new(alloc);
    put_words(&mut writer, comment);
    if writer.text.is_empty() {
        put_program(&mut writer, command);
    }
    writer.into_text()
}

/// Whether a comment says what the fields of the lines below are, as the first lines of most crontabs do, or is a line that was made one.
pub(crate) fn is_heading(comment: &str) -> bool {
    comment.contains('*') || comment.contains("dow")
}

// The letters and digits of the comment in small letters, with `-` for what is between them, as far as each whole part fits.
fn put_words(writer: &mut TextWriter, comment: &str) {
    let mut length: usize = 0;
    for word in comment.split(is_between) {
        let longer = length.saturating_add(word.len()).saturating_add(1);
        if longer > LONGEST_NAME {
            break;
        }
        if !word.is_empty() {
            let between = if length == 0 { '.' } else { '-' };
            writer.put_char(between);
            put_small(writer, word);
            length = longer;
        }
    }
}

fn put_small(writer: &mut TextWriter, word: &str) {
    for letter in word.chars() {
        writer.put_char(letter.to_ascii_lowercase());
    }
}

fn is_between(letter: char) -> bool {
    !letter.is_ascii_alphanumeric()
}

// What follows the last `/` before the first blank, without letters that don't belong in a plain name.
fn put_program(writer: &mut TextWriter, command: &str) {
    for letter in command.chars() {
        let is_mark = letter == '.' || letter == '_' || letter == '-';
        let is_blank = letter == ' ' || letter == '\t';
        if is_blank || writer.text.len() > LONGEST_NAME {
            break;
        }
        if letter == '/' {
            writer.text.clear();
        } else if letter.is_ascii_alphanumeric() || is_mark {
            if writer.text.is_empty() {
                writer.put_char('.');
            }
            writer.put_char(letter);
        }
    }
}
