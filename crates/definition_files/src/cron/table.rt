//! Lines of a crontab as definitions.

ghost use Rattle.std.specs.Prelude.{◌≡◌, IfOk};
ghost use Rattle.definition_files.specs.LineStatus.{AreLineVerdicts, Judges, crontab_status};

use crate::cron::definition::{CronJob, Made, definition_of};
use crate::cron::fault::LineFault;
use crate::cron::keeper::LineKeeper;
use crate::cron::line::{CronLine, read_line, word_of};
use crate::cron::naming::is_heading;
use crate::cron::settings::CronVariables;
use crate::cron::surroundings::Surroundings;
use crate::cron::verdicts::LineVerdicts;
use history_model::Text;
use run_times::telling::{Outcome, tell_line};
use run_times::{Piece, TextWriter};
use std::alloc::{AllocError, Global};

/// What the lines above a line say.
#[derive(Drop)]
struct Above {
    settings: CronVariables,
    /// The comment right above; empty if there is none.
    comment: String,
    /// Cron would mail what a command writes.
    is_mailed: bool,
    /// It was reported that the output is lost.
    is_loss_told: bool,
}

/// Gives the keeper a definition for each line that runs a command. Each line is judged once, in order. It reports what is wrong with a
/// line, and what of it no definition takes over. The status is 65 if a definition could not be kept. Otherwise it is 1 if a line was
/// refused: the others' definitions are written all the same. Otherwise it is 0.
pub fn definitions_of<K: LineKeeper>(
    host: &HostRuntime,
    alloc: Global,
    keeper: &mut K,
    lines: &[Text],
    around: &Surroundings,
) -> Result<Outcome, AllocError>
    ensures status { IfOk result (λ outcome. Judges lines.now
        (λ found. outcome.status ≡ crontab_status found) (K.told keeper.old) (K.told keeper.new)) }
{
    let mut text = String::new(alloc);
    let mut above = Above {
        settings: CronVariables::new(alloc),
        comment: String::new(alloc),
        is_mailed: true,
        is_loss_told: false,
    };
    let judged = judge_each(host, alloc, keeper, lines, around, &mut above, &mut text);
    drop(above);
    match judged {
        Ok(verdicts) => Ok(Outcome {
            text,
            status: verdicts.status(),
        }),
        Err(error) => {
            drop(text);
            Err(error)
        }
    }
}

fn judge_each<K: LineKeeper>(
    host: &HostRuntime,
    alloc: Global,
    keeper: &mut K,
    lines: &[Text],
    around: &Surroundings,
    above: &mut Above,
    text: &mut String,
) -> Result<LineVerdicts, AllocError>
    ensures { IfOk result (λ verdicts. Judges lines.now (AreLineVerdicts verdicts)
        (K.told keeper.old) (K.told keeper.new)) }
{
    let mut verdicts = LineVerdicts::none();
    let mut number: usize = 0;
    for line in lines {
        number = number.saturating_add(1);
        let made = made_of(host, alloc, number, line.as_str(), around, above);
        match keeper.keep(alloc, number, line, made, text) {
            Ok(verdict) => verdicts = verdicts.with(verdict),
            Err(error) => return Err(error),
        }
    }
    Ok(verdicts)
}

// The definition of the line, if it runs a command. What the line says for the lines below is kept.
fn made_of(
    host: &HostRuntime,
    alloc: Global,
    number: usize,
    line: &str,
    around: &Surroundings,
    above: &mut Above,
) -> Result<Option<Made>, LineFault> {
    match read_line(alloc, around.has_user, line) {
        Ok(CronLine::Nothing) => {
            above.comment.clear();
            Ok(None)
        }
        Ok(CronLine::Comment(comment)) => {
            above.comment.clear();
            if !is_heading(comment) {
                above.comment.push_str(comment)?;
            }
            Ok(None)
        }
        Ok(CronLine::Variable { name, value }) => {
            if is_taken(name) {
                above.settings.set(alloc, name, value)?;
            }
            if name == "MAILTO" {
                above.is_mailed = !value.is_empty();
            }
            tell_variable(host, number, name, value);
            Ok(None)
        }
        Ok(
            CronLine::Command {
                when,
                user,
                command,
            },
        ) => {
            tell_user(host, number, user, command, around);
            let job = CronJob {
                number,
                comment: above.comment.as_str(),
                when,
                user,
                command,
            };
            let made = definition_of(alloc, job, &above.settings, around);
            above.comment.clear();
            match made {
                Ok(made) => {
                    tell_made(host, number, made.is_guarded, around, above);
                    Ok(Some(made))
                }
                Err(fault) => Err(fault),
            }
        }
        Err(fault) => {
            above.comment.clear();
            Err(fault)
        }
    }
}

/// The variables that no definition takes over, and what becomes of them.
const TOLD: &[(&str, &str)] = &[
    (
        "MAILTO",
        "no mail is sent; StandardOutPath keeps what a job writes",
    ),
    (
        "MAILFROM",
        "no mail is sent; StandardOutPath keeps what a job writes",
    ),
    ("LOGNAME", "cron sets it itself, to the user of the crontab"),
    (
        "CRON_TZ",
        "Debian's cron does not know it, others take the fields below in that zone; here all jobs have the launcher's --zone",
    ),
];

fn is_taken(name: &str) -> bool {
    for (known, _) in TOLD {
        if *known == name {
            return false;
        }
    }
    true
}

// Prints what becomes of a variable that no definition takes over. An empty MAILTO asks for no mail, as here.
fn tell_variable(host: &HostRuntime, number: usize, name: &str, value: &str) {
    for (known, instead) in TOLD {
        if *known == name && !value.is_empty() {
            tell_note(host, number, name, instead);
        }
    }
}

// Prints a note on a user: one whom this machine does not know, or one where a command is expected.
fn tell_user(
    host: &HostRuntime,
    number: usize,
    user: Option<&str>,
    command: &str,
    around: &Surroundings,
) {
    let (first, _) = word_of(command);
    let name = user.unwrap_or(first);
    let is_known = around.user_named(name).is_some();
    let told = match user {
        Some(_) if !is_known =>
            "is not a user of this machine: HOME and WorkingDirectory are left out, and the group has the same name",
        None if is_known => "is a user of this machine; if it is a user field, --system is missing",
        _ => return,
    };
    tell_note(host, number, name, told);
}

const GUARDED: &str =
    "64 entries can't express its minutes; it starts more often, and a test before the command ends the other runs with code 0. The test uses the zone of TZ= in it: write the launcher's";

const LOST: &str = "what the jobs write is lost, which cron mailed; --logs FOLDER keeps it";

// Prints what a definition has that the line has not: a test before the command; and once that the output is lost.
fn tell_made(
    host: &HostRuntime,
    number: usize,
    is_guarded: bool,
    around: &Surroundings,
    above: &mut Above,
) {
    if is_guarded {
        tell_note(host, number, "a guard", GUARDED);
    }
    if around.logs.is_none() & above.is_mailed & !above.is_loss_told {
        above.is_loss_told = true;
        tell_note(host, number, "no --logs", LOST);
    }
}

fn tell_note<'a>(host: &HostRuntime, number: usize, name: &'a str, told: &'a str) {
    let mut line = TextWriter::new(host.alloc());
    line.fill(
        "cron:$: note: $: $\n",
        &[
            Piece::Number(number as u64),
            Piece::Text(name),
            Piece::Text(told),
        ],
    );
    tell_line(host, line);
}
