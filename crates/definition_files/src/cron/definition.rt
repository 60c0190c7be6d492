//! The definition of a line, as JSON.

ghost use Rattle.std.specs.Prelude.{◌≡◌, IfOk, IfNone};
ghost use Rattle.std.specs.String.{string_bytes};
ghost use Rattle.definition_files.specs.LineStatus.{Loads};

use crate::cron::command::command_of;
use crate::cron::entries::{EntriesFault, entries_of};
use crate::cron::fault::{LineFault, told};
use crate::cron::guard::guard_in;
use crate::cron::line::When;
use crate::cron::naming::name_of;
use crate::cron::settings::CronVariables;
use crate::cron::surroundings::Surroundings;
use history_model::Entry;
use job_defs::{DefFault, read_def};
use json_kinds::{key_name, reason_name};
use run_times::Piece::{Number, Text};
use run_times::TextWriter;
use serde_json::Value;
use std::alloc::{AllocError, Global};

/// The shell that runs a command if no line names another.
const SHELL: &str = "/bin/sh";

/// The user whose jobs need nothing before their program, as the launcher is root's.
const ROOT: &str = "root";

/// A job that a line describes.
#[derive(Drop)]
pub struct CronJob<'a> {
    /// The line's number.
    pub number: usize,
    /// The comment above the line; empty if there is none.
    pub comment: &'a str,
    pub when: When,
    pub user: Option<&'a str>,
    /// The command as it is in the line.
    pub command: &'a str,
}

/// What a definition runs.
#[derive(Clone, Copy)]
struct Words<'a> {
    user: Option<&'a str>,
    /// The test before the command; empty if there is none.
    guard: &'a str,
    command: &'a str,
}

/// A definition that was made of a line.
#[derive(Drop)]
pub struct Made {
    pub label: String,
    /// The definition as JSON, in one line with its newline.
    pub text: String,
    /// It starts at more minutes than the line names, and a test before the command ends those runs.
    pub is_guarded: bool,
}

/// The definition that runs the job's command by the shell, with the variables that were set and those that cron sets, in the home folder. A
/// load takes each such definition. A test comes before the command, if no 64 entries say the line's minutes, or if a day and a weekday must
/// both suit. Refused: the command has an input, a NUL byte or more bytes than an argument may have. Refused too: a load would refuse the definition for
/// something else, as for a variable that is too long.
pub fn definition_of(
    alloc: Global,
    job: CronJob<'_>,
    settings: &CronVariables,
    around: &Surroundings,
) -> Result<Made, LineFault>
    ensures loads { IfOk result (λ made. Loads (string_bytes made.text)) }
{
    let CronJob {
        number,
        comment,
        when,
        user,
        command,
    } = job;
    let mut when = when;
    let guard = guard_in(alloc, &mut when);
    let read = match (guard, command_of(alloc, command)) {
        (Ok(guard), Ok(command)) => {
            let words = Words {
                user,
                guard: guard.as_str(),
                command: command.as_str(),
            };
            let label = label_of(alloc, number, comment, command.as_str());
            let text = text_of(alloc, &label, &when, &words, settings, around);
            let is_guarded = !guard.is_empty();
            drop(guard);
            drop(command);
            made_of(alloc, label, text, is_guarded)
        }
        (guard, Err(fault)) => {
            drop(guard);
            Err(fault)
        }
        (Err(_), command) => {
            drop(command);
            Err(LineFault::NoMemory)
        }
    };
    drop(when);
    read
}

fn label_of(
    alloc: Global,
    number: usize,
    comment: &str,
    command: &str,
) -> Result<String, AllocError> {
    let mut writer = TextWriter::new(alloc);
    writer.put("cron.");
    writer.put_number(number as u64);
    writer.put_made(name_of(alloc, comment, command));
    writer.into_text()
}

// The label and the text of a definition, if a load takes the text.
fn made_of(
    alloc: Global,
    label: Result<String, AllocError>,
    text: Result<String, LineFault>,
    is_guarded: bool,
) -> Result<Made, LineFault>
    ensures loads { IfOk result (λ made. Loads (string_bytes made.text)) }
{
    match (label, text) {
        (Ok(label), Ok(text)) => match load_fault(alloc, text.as_str()) {
            None => Ok(Made {
                label,
                text,
                is_guarded,
            }),
            Some(fault) => {
                drop(label);
                drop(text);
                Err(fault)
            }
        },
        (Err(_), text) => {
            drop(text);
            Err(LineFault::NoMemory)
        }
        (label, Err(fault)) => {
            drop(label);
            Err(fault)
        }
    }
}

// Why a load would refuse the text of a definition; none if it takes it.
fn load_fault(alloc: Global, text: &str) -> Option<LineFault>
    ensures { IfNone result (Loads text.now) }
{
    match read_def(alloc, text.as_bytes()) {
        Ok(def) => {
            drop(def);
            None
        }
        Err(DefFault::NoMemory) => Some(LineFault::NoMemory),
        Err(DefFault::Bad { reason, key }) => {
            let pieces = [Text(key_name(key)), Text(reason_name(reason))];
            Some(told(alloc, "no load takes its definition: $: $", &pieces))
        }
    }
}

fn text_of(
    alloc: Global,
    label: &Result<String, AllocError>,
    when: &When,
    words: &Words<'_>,
    settings: &CronVariables,
    around: &Surroundings,
) -> Result<String, LineFault> {
    let Words {
        user,
        guard,
        command,
    } = *words;
    let mut writer = TextWriter::new(alloc);
    writer.put("{\"Label\": ");
    match label {
        Ok(label) => put_json(alloc, &mut writer, label.as_str()),
        Err(_) => writer.refuse(),
    }
    writer.put(", \"ProgramArguments\": [");
    put_user(alloc, &mut writer, user, around);
    put_guard(alloc, &mut writer, guard);
    put_json(
        alloc,
        &mut writer,
        settings.value_of("SHELL").unwrap_or(SHELL),
    );
    put_line(alloc, &mut writer, command);
    writer.put("]");
    put_surroundings(alloc, &mut writer, user, settings, around);
    put_logs(alloc, &mut writer, label, around);
    let fault = put_start(alloc, &mut writer, when);
    match (fault, writer.into_text()) {
        (None, Ok(text)) => Ok(text),
        (None, Err(_)) => Err(LineFault::NoMemory),
        (Some(fault), text) => {
            drop(text);
            Err(fault)
        }
    }
}

// Adds the shell of the test before the command, if there is a test.
fn put_guard(alloc: Global, writer: &mut TextWriter, guard: &str) {
    if !guard.is_empty() {
        put_json(alloc, writer, SHELL);
        put_line(alloc, writer, guard);
        writer.put(", ");
    }
}

// Adds the arguments by which a shell does what this text says.
fn put_line(alloc: Global, writer: &mut TextWriter, text: &str) {
    writer.put(", \"-c\", ");
    put_json(alloc, writer, text);
}

// Adds the file that keeps the output, if there is a folder for it.
fn put_logs(
    alloc: Global,
    writer: &mut TextWriter,
    label: &Result<String, AllocError>,
    around: &Surroundings,
) {
    if let (Ok(label), Some(folder)) = (label, around.logs.as_deref()) {
        put_log(alloc, writer, label.as_str(), folder);
    }
}

fn put_log(alloc: Global, writer: &mut TextWriter, label: &str, folder: &str) {
    let mut path = TextWriter::new(alloc);
    path.fill("$/$.log", &[Text(folder), Text(label)]);
    match path.into_text() {
        Ok(path) => {
            writer.put(", \"StandardOutPath\": ");
            put_json(alloc, writer, path.as_str());
            writer.put(", \"StandardErrorPath\": ");
            put_json(alloc, writer, path.as_str());
            drop(path);
        }
        Err(_) => writer.refuse(),
    }
}

fn put_json(alloc: Global, writer: &mut TextWriter, text: &str) {
    match String::from_str(alloc, text) {
        Ok(text) => {
            let value = Value::String(text);
            writer.put_made(value.to_string(alloc));
            drop(value);
        }
        Err(_) => writer.refuse(),
    }
}

// Adds the wrapper command that makes a program the user's, with the user's groups: setpriv(1). Nothing for root.
fn put_user(alloc: Global, writer: &mut TextWriter, user: Option<&str>, around: &Surroundings) {
    let Some(name) = user else {
        return;
    };
    if name == ROOT {
        return;
    }
    let group = match around.user_named(name) {
        Some(user) => user.group,
        None => name,
    };
    writer.put("\"/usr/bin/setpriv\", ");
    put_option(alloc, writer, "--reuid=", name);
    put_option(alloc, writer, "--regid=", group);
    writer.put("\"--init-groups\", \"--\", ");
}

fn put_option(alloc: Global, writer: &mut TextWriter, option: &str, value: &str) {
    let mut word = TextWriter::new(alloc);
    word.put(option);
    word.put(value);
    match word.into_text() {
        Ok(word) => {
            put_json(alloc, writer, word.as_str());
            drop(word);
        }
        Err(_) => writer.refuse(),
    }
    writer.put(", ");
}

// Adds the variables, those first that cron sets, and the working folder, which is the home folder.
fn put_surroundings(
    alloc: Global,
    writer: &mut TextWriter,
    user: Option<&str>,
    settings: &CronVariables,
    around: &Surroundings,
) {
    let own = match user {
        Some(name) => match around.user_named(name) {
            Some(user) => Some(user.home),
            None => None,
        },
        None => around.home.as_deref(),
    };
    let set = settings.value_of("HOME");
    let mut is_first = true;
    if settings.value_of("SHELL").is_none() {
        put_variable(alloc, writer, &mut is_first, "SHELL", SHELL);
    }
    if let (Some(home), None) = (own, set) {
        put_variable(alloc, writer, &mut is_first, "HOME", home);
    }
    let name = user.or(around.asker());
    if let Some(name) = name {
        put_variable(alloc, writer, &mut is_first, "LOGNAME", name);
    }
    for (name, value) in settings.as_slice() {
        put_variable(alloc, writer, &mut is_first, name.as_str(), value.as_str());
    }
    writer.put(if is_first { "" } else { "}" });
    if let Some(home) = set.or(own) {
        writer.put(", \"WorkingDirectory\": ");
        put_json(alloc, writer, home);
    }
}

fn put_variable(
    alloc: Global,
    writer: &mut TextWriter,
    is_first: &mut bool,
    name: &str,
    value: &str,
) {
    writer.put(if *is_first {
        ", \"EnvironmentVariables\": {"
    } else {
        ", "
    });
    *is_first = false;
    put_json(alloc, writer, name);
    writer.put(": ");
    put_json(alloc, writer, value);
}

// Adds what starts the job, and the definition's end; or says why nothing does.
fn put_start(alloc: Global, writer: &mut TextWriter, when: &When) -> Option<LineFault> {
    let fields = match when {
        When::Boot => {
            writer.put(", \"RunAtLoad\": true}\n");
            return None;
        }
        When::Minutes(fields) => fields,
    };
    match entries_of(alloc, fields) {
        Ok(entries) => {
            put_calendar(writer, entries.as_slice());
            drop(entries);
            None
        }
        Err(fault) => Some(fault_of(alloc, fault)),
    }
}

fn fault_of(alloc: Global, fault: EntriesFault) -> LineFault {
    let (form, count) = match fault {
        EntriesFault::NoMemory => return LineFault::NoMemory,
        EntriesFault::TooMany(count) => (
            "its fields make $ entries, expected at most 64; split the line in several",
            count,
        ),
        EntriesFault::BothDays => (
            "day and weekday must both suit, as one begins with *, and of an entry's either suffices; expected one of them as *",
            0,
        ),
    };
    told(alloc, form, &[Number(count as u64)])
}

fn put_calendar(writer: &mut TextWriter, entries: &[Entry]) {
    let mut is_first = true;
    for entry in entries {
        writer.put(if is_first {
            ", \"StartCalendarInterval\": [{"
        } else {
            "}, {"
        });
        put_entry(writer, entry);
        is_first = false;
    }
    writer.put("}]}\n");
}

fn put_entry(writer: &mut TextWriter, entry: &Entry) {
    let parts = [
        ("\"Minute\": ", entry.minute),
        ("\"Hour\": ", entry.hour),
        ("\"Day\": ", entry.day),
        ("\"Month\": ", entry.month),
        ("\"Weekday\": ", entry.weekday),
    ];
    let mut is_first = true;
    for (key, value) in parts.iter() {
        if let Some(value) = value {
            let before = if is_first { "" } else { ", " };
            writer.put_all(&[Text(before), Text(*key), Number(u64::from(*value))]);
            is_first = false;
        }
    }
}
