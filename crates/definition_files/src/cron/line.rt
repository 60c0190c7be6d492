//! What a line of a crontab says.

use crate::cron::fault::{LineFault, told};
use crate::cron::fields::Fields;
use crate::cron::reading::{Texts, fields_of};
use crate::cron::variable::variable_in;
use run_times::Piece::Text;
use std::alloc::Global;

/// When a line's command is run.
#[derive(Drop)]
pub enum When {
    /// When the machine starts.
    Boot,
    /// At the minutes that the fields match.
    Minutes(Fields),
}

/// What a line says.
#[derive(Drop)]
pub enum CronLine<'a> {
    /// Nothing: it is empty.
    Nothing,
    /// It is a comment, which says this.
    Comment(&'a str),
    /// The variable is set to the value.
    Variable {
        name: &'a str,
        value: &'a str,
    },
    /// The command is run, by this user if the line names one. It is as in the line.
    Command {
        when: When,
        user: Option<&'a str>,
        command: &'a str,
    },
}

/// What the line says, which has no newline; with `has_user` a user's field comes before the command. Refused: a field is invalid, the
/// command or a field is absent, or the name after `@` is unknown. Refused too: the user's field can't be a user's name, or a command
/// without such a field begins with `*`, as after six fields.
pub fn read_line<'a>(
    alloc: Global,
    has_user: bool,
    text: &'a str,
) -> Result<CronLine<'a>, LineFault> {
    let text = text.trim_start_matches(is_blank);
    if text.is_empty() {
        return Ok(CronLine::Nothing);
    }
    if let Some(comment) = text.strip_prefix('#') {
        return Ok(CronLine::Comment(comment));
    }
    if let Some((name, value)) = variable_in(text) {
        return Ok(CronLine::Variable { name, value });
    }
    let (when, rest) = timed(alloc, has_user, text)?;
    if has_user {
        by_user(alloc, when, rest)
    } else {
        by_owner(alloc, when, rest)
    }
}

fn by_owner<'a>(alloc: Global, when: When, command: &'a str) -> Result<CronLine<'a>, LineFault> {
    if command.starts_with('*') {
        drop(when);
        let form =
            "the command begins with *; expected five fields before it, with none for the second";
        return Err(told(alloc, form, &[]));
    }
    Ok(CronLine::Command {
        when,
        user: None,
        command,
    })
}

fn by_user<'a>(alloc: Global, when: When, rest: &'a str) -> Result<CronLine<'a>, LineFault> {
    let (user, command) = word_of(rest);
    let form = if !is_user_name(user) {
        "$ is not a user name, expected one between the fields and the command"
    } else if command.is_empty() {
        "expected a command after the user $"
    } else {
        return Ok(CronLine::Command {
            when,
            user: Some(user),
            command,
        });
    };
    drop(when);
    Err(told(alloc, form, &[Text(user)]))
}

// Whether the text can be a user's name: a letter or `_`, and then letters, digits, `_`, `-`, `.` and `$`.
fn is_user_name(word: &str) -> bool {
    let mut is_first = true;
    for letter in word.chars() {
        let is_letter = letter.is_ascii_alphabetic() || letter == '_';
        let is_other = letter.is_ascii_digit() || letter == '-' || letter == '.' || letter == '$';
        if !is_letter && (is_first || !is_other) {
            return false;
        }
        is_first = false;
    }
    !is_first
}

fn is_blank(letter: char) -> bool {
    letter == ' ' || letter == '\t'
}

/// The text up to the first blank, and what follows the blanks.
pub(crate) fn word_of(text: &str) -> (&str, &str) {
    match text.split_once(is_blank) {
        Some((word, rest)) => (word, rest.trim_start_matches(is_blank)),
        None => (text, ""),
    }
}

// When the command runs, by five fields or by a name for them, and what follows.
fn timed<'a>(alloc: Global, has_user: bool, text: &'a str) -> Result<(When, &'a str), LineFault> {
    let (name, behind) = word_of(text);
    let is_named = name.starts_with('@');
    let (texts, rest) = texts_of(if is_named { fields_named(name) } else { text });
    let command = if is_named { behind } else { rest };
    let is_boot = name == "@reboot";
    let is_none = texts.minute.is_empty() & !is_boot;
    let form = if command.is_empty() {
        wanted_words(has_user, text)
    } else if is_none {
        "$ is not a time name, expected @reboot, @yearly, @annually, @monthly, @weekly, @daily, @midnight or @hourly"
    } else if is_boot {
        return Ok((When::Boot, command));
    } else {
        return match fields_of(alloc, texts) {
            Ok(fields) => Ok((When::Minutes(fields), command)),
            Err(fault) => Err(fault),
        };
    };
    Err(told(alloc, form, &[Text(name)]))
}

// What is expected in place of a line that ends too soon.
fn wanted_words(has_user: bool, text: &str) -> &'static str {
    if text.trim_end_matches(is_blank).ends_with('=') {
        "the variable has no value; expected \"\" for an empty one"
    } else if has_user {
        "expected five fields, a user and a command, or a name as @daily in place of the fields"
    } else {
        "expected five fields and a command, or a name as @daily and a command"
    }
}

fn texts_of(text: &str) -> (Texts<'_>, &str) {
    let (minute, rest) = word_of(text);
    let (hour, rest) = word_of(rest);
    let (day, rest) = word_of(rest);
    let (month, rest) = word_of(rest);
    let (weekday, rest) = word_of(rest);
    let texts = Texts {
        minute,
        hour,
        day,
        month,
        weekday,
    };
    (texts, rest)
}

/// The fields that a name means.
const NAMED: &[(&str, &str)] = &[
    ("@yearly", "0 0 1 1 *"),
    ("@annually", "0 0 1 1 *"),
    ("@monthly", "0 0 1 * *"),
    ("@weekly", "0 0 * * 0"),
    ("@daily", "0 0 * * *"),
    ("@midnight", "0 0 * * *"),
    ("@hourly", "0 * * * *"),
];

// The fields that a name means; empty if it is not a name for minutes.
fn fields_named(name: &str) -> &'static str {
    for (known, fields) in NAMED {
        if *known == name {
            return *fields;
        }
    }
    ""
}
