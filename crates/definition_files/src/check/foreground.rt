//! Programs that leave the foreground: their first process ends at once, and with it the run.

use crate::check::command::name_of;
use crate::check::finding_list::FindingList;
use crate::check::leaving::{FIFTH, FIRST, FOURTH, LeavingProgram, SECOND, THIRD};
use crate::check::program::{base_of, is_joined};
use history_model::KeyName;
use run_times::Piece::Text;
use run_times::TextWriter;

/// What the arguments say of the foreground.
#[derive(Clone, Copy)]
struct ForegroundArguments {
    stays: bool,
    /// The argument that leads it away; empty, if none does.
    leaves: &'static str,
}

/// Adds a warning if the program leaves the foreground with this command line, which begins with its name.
pub(crate) fn add_leaving(words: &[&str], finding_list: &mut FindingList<'_>) {
    let Some(path) = words.first() else {
        return;
    };
    let path: &str = *path;
    let rest = words.get(1..).unwrap_or(&[]);
    if let Some((advice, word)) = advice_for(base_of(path), rest) {
        add_told(name_of(path), advice, word, finding_list);
    }
}

// What keeps the program of this name in the foreground, if it leaves it when it is given these arguments: the advice, and the argument. A table of
// all rows is more than the check of one function takes.
fn advice_for(name: &str, arguments: &[&str]) -> Option<(&'static str, &'static str)> {
    in_first(name, arguments)
        .or(in_second(name, arguments))
        .or(in_third(name, arguments))
        .or(in_fourth(name, arguments))
        .or(in_fifth(name, arguments))
}

fn in_first(name: &str, arguments: &[&str]) -> Option<(&'static str, &'static str)> {
    advice_in(FIRST, name, arguments)
}

fn in_second(name: &str, arguments: &[&str]) -> Option<(&'static str, &'static str)> {
    advice_in(SECOND, name, arguments)
}

fn in_third(name: &str, arguments: &[&str]) -> Option<(&'static str, &'static str)> {
    advice_in(THIRD, name, arguments)
}

fn in_fourth(name: &str, arguments: &[&str]) -> Option<(&'static str, &'static str)> {
    advice_in(FOURTH, name, arguments)
}

fn in_fifth(name: &str, arguments: &[&str]) -> Option<(&'static str, &'static str)> {
    advice_in(FIFTH, name, arguments)
}

// The same only by these rows.
fn advice_in(
    rows: &[LeavingProgram],
    name: &str,
    arguments: &[&str],
) -> Option<(&'static str, &'static str)> {
    for row in rows {
        if row.name == name {
            let advice = advice_of(row, arguments);
            if advice.is_some() {
                return advice;
            }
        }
    }
    None
}

fn advice_of(row: &LeavingProgram, arguments: &[&str]) -> Option<(&'static str, &'static str)> {
    let said = said_by(row, arguments);
    let is_led = row.leaves.is_empty() || !said.leaves.is_empty();
    if !is_led || said.stays {
        None
    } else if row.word.is_empty() {
        Some(("; leave out ", said.leaves))
    } else {
        Some(("; give it ", row.word))
    }
}

fn add_told(name: &str, advice: &str, word: &str, finding_list: &mut FindingList<'_>) {
    let mut writer = TextWriter::new(finding_list.alloc);
    writer.fill(
        "the program $ leaves the foreground, and its run ends at once$$",
        &[Text(name), Text(advice), Text(word)],
    );
    finding_list.add_made(KeyName::Program, writer.into_text());
}

// Each argument is read as getopt(3) reads it: letters after one -, up to one that takes a value. The value of an option does not count as an option.
fn said_by(row: &LeavingProgram, arguments: &[&str]) -> ForegroundArguments {
    let mut said = ForegroundArguments {
        stays: false,
        leaves: "",
    };
    let mut is_value = false;
    for index in 0..arguments.len() {
        let given = arguments.get(index).unwrap_or(&"");
        let next = arguments.get(index.saturating_add(1)).unwrap_or(&"");
        if is_value {
            is_value = false;
        } else if is_known(row, given, next, &mut said) {
            is_value = row.takes.contains(given);
        } else if row.takes.contains(given) {
            is_value = true;
        } else {
            is_value = read_letters(row, given, &mut said);
        }
    }
    said
}

// Whether the argument, with the next one, is one that a row names as a whole.
fn is_known(row: &LeavingProgram, given: &str, next: &str, said: &mut ForegroundArguments) -> bool {
    let stays = named_in(row.stays, given, next);
    let leaves = named_in(row.leaves, given, next);
    said.stays = said.stays || stays.is_some();
    if let Some(word) = leaves {
        said.leaves = word;
    }
    stays.is_some() || leaves.is_some()
}

// The one of the forms that this argument is, or is with its value.
fn named_in(forms: &[&'static str], given: &str, next: &str) -> Option<&'static str> {
    for form in forms {
        let form: &'static str = *form;
        let is_it = match form.split_once(' ') {
            Some((option, part)) => {
                (given == option && next.contains(part))
                    || (is_joined(given, option) && given.contains(part))
            }
            None => given == form || (form.starts_with("--") && is_joined(given, form)),
        };
        if is_it {
            return Some(form);
        }
    }
    None
}

// Letters after one -. It returns whether the last of them takes the next argument.
fn read_letters(row: &LeavingProgram, given: &str, said: &mut ForegroundArguments) -> bool {
    let letters = given.as_bytes();
    if letters.first() != Some(&b'-') || letters.get(1) == Some(&b'-') {
        return false;
    }
    let count = letters.len();
    for index in 1..count {
        let letter = match letters.get(index) {
            Some(letter) => *letter,
            None => 0,
        };
        if has_letter(row.takes, letter).is_some() {
            return index.saturating_add(1) == count;
        }
        said.stays = said.stays || has_letter(row.stays, letter).is_some();
        if let Some(word) = has_letter(row.leaves, letter) {
            said.leaves = word;
        }
    }
    false
}

// The one of the forms that is - and this letter.
fn has_letter(forms: &[&'static str], letter: u8) -> Option<&'static str> {
    for form in forms {
        if form.len() == 2 && form.as_bytes().get(1) == Some(&letter) && letter != b'-' {
            return Some(*form);
        }
    }
    None
}
