//! How clap reads arguments, and the text for arguments that it does not take.
ghost use Rattle.std.specs.Prelude.{◌≡◌, ◌≢◌, IfOk, true, false, map, string_bytes, IfErr};
ghost use Rattle.clap.specs.Words.{app_of, fault_of, is_simple_and_free, kind_of};
ghost use Rattle.command_words.specs.Meaning.{IsFound, is_empty_list};

use crate::command::WordFault;
use crate::reason::reason_in;
use crate::version::VERSION_LINE;
use clap::error::ErrorKind;
use clap::{ArgMatches, Error};
use std::alloc::{AllocError, Global};
use std::fmt;
use std::fmt::{Display, Formatter};

/// What clap finds among the arguments.
pub fn parse<'a>(
    command: clap::Command<'a>,
    words: &'a [String],
) -> Result<ArgMatches<'a>, WordFault>
    ensures found { is_simple_and_free (app_of command.entry) ≡ true →
        IfOk result (λ m. IsFound (app_of command.entry) (map string_bytes words.entry.now) m) }
    ensures usage { is_simple_and_free (app_of command.entry) ≡ true
        → IfErr result (λ e. e ≡ WordFault.Usage
        → is_empty_list (fault_of (app_of command.entry) (map string_bytes words.entry.now))
        ≡ false) }
{
    match command.try_get_matches_from(words) {
        Ok(matches) => Ok(matches),
        Err(error) => {
            let fault = fault_in(&error);
            drop(error);
            Err(fault)
        }
    }
}

/// Want of memory, or arguments that clap does not take.
fn fault_in(error: &Error) -> WordFault
    ensures { result ≡ WordFault.Usage → kind_of error.now ≢ ErrorKind.OutOfMemory }
{
    match error.kind() {
        ErrorKind::OutOfMemory => WordFault::NoMemory,
        _ => WordFault::Usage,
    }
}

/// What to print for arguments that do not form a command.
#[derive(Drop)]
pub struct Explanation {
    pub text: String,
    /// Help was asked for: the text belongs to standard output.
    pub is_help: bool,
}

/// The text for arguments that clap does not take: one line that begins with the program's name, or a help, which ends with the
/// version's line. If clap takes them, it is the line that says why they do not form a command all the same. If they form one, it
/// is the whole help.
pub fn explain_by<'a>(
    alloc: Global,
    program: &str,
    command: Result<clap::Command<'a>, AllocError>,
    words: &'a [String],
) -> Result<Explanation, AllocError> {
    match command {
        Ok(mut command) => {
            let said = said_of(alloc, program, command.try_get_matches_from_mut(words));
            let explanation = said_or_help(said, &mut command);
            drop(command);
            explanation
        }
        Err(e) => Err(e),
    }
}

// What is said of the arguments, if it is not the whole help. What clap found goes at one place.
fn said_of(
    alloc: Global,
    program: &str,
    found: Result<ArgMatches<'_>, Error>,
) -> Result<Option<Explanation>, AllocError> {
    let said = match &found {
        Ok(matches) => reason_in(alloc, matches),
        Err(error) => fault_text(alloc, program, error),
    };
    drop(found);
    said
}

fn said_or_help(
    said: Result<Option<Explanation>, AllocError>,
    command: &mut clap::Command<'_>,
) -> Result<Explanation, AllocError> {
    match said {
        Ok(Some(explanation)) => Ok(explanation),
        Ok(None) => match command.render_help() {
            Ok(text) => Ok(Explanation {
                text,
                is_help: false,
            }),
            Err(e) => Err(e),
        },
        Err(e) => Err(e),
    }
}

fn fault_text(
    alloc: Global,
    program: &str,
    error: &Error,
) -> Result<Option<Explanation>, AllocError> {
    let is_help = !error.use_stderr();
    let text = if is_help {
        let version = VERSION_LINE;
        format!(in alloc; "{error}\n{version}\n")?
    } else {
        let said = format!(in alloc; "{error}")?;
        let line = OneLine {
            said: said.as_str(),
        };
        format!(in alloc; "{program}:{line}\n")?
    };
    Ok(Some(Explanation { text, is_help }))
}

/// What clap says of arguments that it does not take, as one line: its rows one after another, without `error:` before them. A
/// control character of an argument is U+FFFD.
#[derive(Drop)]
struct OneLine<'a> {
    said: &'a str,
}

impl Display for OneLine<'_> {
    fn fmt<W: fmt::Write>(&self, f: &mut Formatter<W>) -> fmt::Result {
        let mut is_begun = true;
        for row in self.said.lines() {
            let row = row.trim();
            if !row.is_empty() {
                f.write_str(if is_begun { " " } else { "; " })?;
                write_row(f, row.strip_prefix("error: ").unwrap_or(row))?;
                is_begun = row.ends_with(':');
            }
        }
        Ok(())
    }
}

fn write_row<W: fmt::Write>(f: &mut Formatter<W>, row: &str) -> fmt::Result {
    for c in row.chars() {
        f.write_char(if c.is_control() { '\u{FFFD}' } else { c })?;
    }
    Ok(())
}
