//! A step, carried out.

use crate::client::{Client, PrintedJob};
use crate::left::{EndedJob, note_ended};
use control_client::{Fault, Replied};
use history_model::{Refusal, Text};
use load_plan::{JobSeen, NextRequest, Operation, Reason, next_request};
use plain_text::plain;
use std::alloc::Global;
use std::time::{Duration, Instant};
use std::{io, thread};

/// How many milliseconds are between two looks at a job that ends.
const SOON: u64 = 20;

const LATER: u64 = 100;

/// How many looks are made soon after one another.
const SOON_LOOKS: u64 = 25;

/// For how many seconds more than its ExitTimeOut a job that ends is waited for.
const MORE: u64 = 5;

/// After how many seconds it reports that it waits for a job.
const TOLD: u64 = 2;

/// What became of a step.
#[derive(Drop)]
pub(crate) enum Outcome {
    Done,
    Left(Reason),
    /// The launcher refused it, with this code and text; nothing was unloaded for it.
    Refused(u8, Text),
    /// The load was refused after the unload; what was loaded before is loaded again.
    Restored(u8, Text),
    /// The load was refused after the unload, and nothing of the label is loaded.
    Down(u8, Text),
    /// The job did not end in time.
    Late,
}

/// A step, and what it takes to carry it out.
#[derive(Clone, Copy)]
pub(crate) struct StepTask<'a> {
    pub(crate) label: &'a str,
    pub(crate) operation: Operation<'a>,
    /// The definition that is loaded, and the path of its file.
    pub(crate) text: &'a str,
    pub(crate) path: &'a str,
    /// That which was loaded, if it is known.
    pub(crate) before: Option<&'a str>,
    /// That was loaded under another label, and was unloaded for this step.
    pub(crate) is_moved: bool,
    /// The definition that was loaded disables it, and no setting does.
    pub(crate) has_disabled: bool,
    /// A run of the job may be ended.
    pub(crate) may_end: bool,
    /// In seconds; 0 means no limit.
    pub(crate) exit_time_out: u32,
}

/// How far a job that ends was waited for.
#[derive(Clone, Copy)]
struct Waiting {
    since: Option<Instant>,
    looks: u64,
    is_told: bool,
}

/// Carries out the step, and notes when its job was removed, if it was unloaded. An error: the launcher does not answer.
pub(crate) fn carry_out(
    host: &HostRuntime,
    alloc: Global,
    client: &mut Client,
    task: &StepTask<'_>,
    ended: &mut Vec<EndedJob>,
) -> Result<Outcome, Fault> {
    let mut is_unloaded = false;
    let mut waiting = Waiting {
        since: None,
        looks: 0,
        is_told: false,
    };
    for _ in 0..u64::MAX {
        let printed = printed_for(host, alloc, client, task)?;
        if !is_unloaded && is_disabled_since(task, printed) {
            return Ok(Outcome::Left(Reason::Disabled));
        }
        match next_request(&task.operation, printed.seen, task.may_end, is_unloaded) {
            NextRequest::Unload => match unload(host, alloc, client, task)? {
                None => is_unloaded = true,
                Some(refused) => return Ok(refused),
            },
            NextRequest::Load => {
                note_ended(host, alloc, task.label, is_unloaded, ended)?;
                return load(host, alloc, client, task, is_unloaded);
            }
            NextRequest::Wait => {
                if is_late(host, task, &mut waiting) {
                    return Ok(Outcome::Late);
                }
            }
            NextRequest::Leave(why) => return Ok(Outcome::Left(why)),
            NextRequest::Done => {
                note_ended(host, alloc, task.label, is_unloaded, ended)?;
                return Ok(Outcome::Done);
            }
        }
    }
    Ok(Outcome::Late)
}

// What the launcher prints of its job. If nothing is loaded, it does not ask the launcher.
fn printed_for(
    host: &HostRuntime,
    alloc: Global,
    client: &mut Client,
    task: &StepTask<'_>,
) -> Result<PrintedJob, Fault> {
    match task.operation {
        Operation::Load(_) | Operation::Leave(_) => Ok(PrintedJob {
            seen: JobSeen::Gone,
            is_disabled: false,
        }),
        Operation::Replace(_) | Operation::Unload => client.printed(host, alloc, task.label),
    }
}

// Whether a setting disables its label that the status file did not have yet, so that the load would be refused after the unload. A launcher on a busy machine may write the
// file late.
fn is_disabled_since(task: &StepTask<'_>, printed: PrintedJob) -> bool {
    match task.operation {
        Operation::Replace(_) => printed.is_disabled && !task.has_disabled,
        _ => false,
    }
}

// None: it was accepted, or the job is being removed or is removed already.
fn unload(
    host: &HostRuntime,
    alloc: Global,
    client: &mut Client,
    task: &StepTask<'_>,
) -> Result<Option<Outcome>, Fault> {
    let replied = client.unload(host, alloc, task.label)?;
    let is_ending = replied.code == Refusal::Removing.code()
        || replied.code == Refusal::NoSuchJob.code();
    if replied.code == 0 || is_ending {
        drop(replied);
        return Ok(None);
    }
    let Replied { code, text } = replied;
    Ok(Some(Outcome::Refused(code, text)))
}

// Whether a job that ends was waited for long enough; if not, it is waited for once more.
fn is_late(host: &HostRuntime, task: &StepTask<'_>, waiting: &mut Waiting) -> bool {
    let seconds = waited(host, waiting);
    let most = u64::from(task.exit_time_out).saturating_add(MORE);
    if task.exit_time_out != 0 && seconds > most {
        return true;
    }
    if seconds >= TOLD && !waiting.is_told {
        waiting.is_told = true;
        tell_wait(host, task, most);
    }
    let pause = if waiting.looks < SOON_LOOKS {
        SOON
    } else {
        LATER
    };
    waiting.looks = waiting.looks.saturating_add(1);
    thread::sleep(host, Duration::from_millis(pause));
    false
}

fn waited(host: &HostRuntime, waiting: &mut Waiting) -> u64 {
    let Ok(now) = Instant::now(host) else {
        return 0;
    };
    match waiting.since {
        Some(since) => now.saturating_duration_since(since).as_secs(),
        None => {
            waiting.since = Some(now);
            0
        }
    }
}

fn tell_wait(host: &HostRuntime, task: &StepTask<'_>, most: u64) {
    let label = task.label;
    let _written = if task.exit_time_out == 0 {
        eprintln!(host; "jobctl: apply: waits without limit until {label} exits (ExitTimeOut 0)")
    } else {
        eprintln!(host; "jobctl: apply: waits until {label} exits, at most {most} seconds")
    };
}

// Loads what the step is for. If that is refused after an unload, what was loaded before is loaded again.
fn load(
    host: &HostRuntime,
    alloc: Global,
    client: &mut Client,
    task: &StepTask<'_>,
    is_unloaded: bool,
) -> Result<Outcome, Fault> {
    let replied = client.load(host, alloc, task.text)?;
    if replied.code == 0 {
        tell_notes(host, alloc, task.path, replied.text.as_str())?;
        drop(replied);
        return Ok(Outcome::Done);
    }
    let has_unloaded = is_unloaded || task.is_moved;
    match left_by(replied.code) {
        Some(why) if !has_unloaded || matches!(why, Reason::Meanwhile) => {
            drop(replied);
            Ok(Outcome::Left(why))
        }
        _ if !has_unloaded => {
            let Replied { code, text } = replied;
            Ok(Outcome::Refused(code, text))
        }
        _ => restore(host, alloc, client, task, replied),
    }
}

// By which code of a load a step is left.
fn left_by(code: u8) -> Option<Reason> {
    if code == Refusal::AlreadyLoaded.code() {
        Some(Reason::Meanwhile)
    } else if code == Refusal::Disabled.code() {
        Some(Reason::Disabled)
    } else if code == Refusal::Removing.code() {
        Some(Reason::Goes)
    } else if code == Refusal::ShuttingDown.code() {
        Some(Reason::ShutsDown)
    } else {
        None
    }
}

fn restore(
    host: &HostRuntime,
    alloc: Global,
    client: &mut Client,
    task: &StepTask<'_>,
    replied: Replied,
) -> Result<Outcome, Fault> {
    let Replied { code, text } = replied;
    let Some(before) = task.before else {
        return Ok(Outcome::Down(code, text));
    };
    match client.load(host, alloc, before) {
        Ok(again) => {
            let is_loaded = again.code == 0;
            drop(again);
            if is_loaded {
                Ok(Outcome::Restored(code, text))
            } else {
                Ok(Outcome::Down(code, text))
            }
        }
        Err(fault) => {
            drop(text);
            Err(fault)
        }
    }
}

// What a launcher says of a definition that it took.
fn tell_notes(host: &HostRuntime, alloc: Global, path: &str, notes: &str) -> Result<(), Fault> {
    for note in notes.lines() {
        let path = plain(alloc, path)?;
        let note = plain(alloc, note)?;
        let _written = eprintln!(host; "jobctl: {path}: {note}");
        drop(note);
        drop(path);
    }
    Ok(())
}

/// Waits until one of these jobs is removed, or is idle if its run's end is waited for. False: none was in time. The greatest ExitTimeOut bounds the
/// wait unless runs are waited for.
pub(crate) fn wait_for_one(
    host: &HostRuntime,
    alloc: Global,
    client: &mut Client,
    labels: &[Awaited<'_>],
) -> Result<bool, Fault> {
    let begun: io::Result<Instant> = Instant::now(host);
    for _ in 0..u64::MAX {
        for awaited in labels {
            let seen = client.seen(host, alloc, awaited.label)?;
            if has_come(awaited.is_run, seen) {
                return Ok(true);
            }
        }
        if is_over(host, &begun, labels) {
            return Ok(false);
        }
        thread::sleep(host, Duration::from_millis(LATER));
    }
    Ok(false)
}

/// A job that is waited for: until its run has ended, or until it is removed. `exit_time_out` is in seconds; 0 means for ever.
#[derive(Clone, Copy)]
pub(crate) struct Awaited<'a> {
    pub(crate) label: &'a str,
    pub(crate) is_run: bool,
    pub(crate) exit_time_out: u32,
}

fn has_come(is_run: bool, seen: JobSeen) -> bool {
    match seen {
        JobSeen::Gone => true,
        JobSeen::Idle => is_run,
        JobSeen::Running | JobSeen::Removing => false,
    }
}

fn is_over(host: &HostRuntime, begun: &io::Result<Instant>, labels: &[Awaited<'_>]) -> bool {
    let (Ok(begun), Ok(now)) = (begun, Instant::now(host)) else {
        return false;
    };
    let seconds = now.saturating_duration_since(*begun).as_secs();
    for awaited in labels {
        let is_endless = awaited.is_run || awaited.exit_time_out == 0;
        if is_endless || seconds <= u64::from(awaited.exit_time_out).saturating_add(MORE) {
            return false;
        }
    }
    true
}
