//! The plan, shown and carried out.

use crate::carried::{Awaited, Outcome, StepTask, carry_out};
use crate::client::Client;
use crate::gathered::Filed;
use crate::left::EndedJob;
use crate::loaded::{ReportedJob, job_of};
use crate::reasons::{StepContext, file_of, keys_of, outcome_text, planned_text};
use crate::shown::{StepLine, show};
use crate::status::Ending;
use crate::stop::Stop;
use crate::words::ApplyFlags;
use calendar_due::Zone;
use history_model::Refusal;
use json_lines::put_texts;
use load_plan::{
    FileState, FileVerdict, Flags, LoadedJob, Operation, PlannedStep, Reason, operation_in,
    operation_word, plan,
};
use run_times::TextWriter;
use std::alloc::{AllocError, Global};

/// What a plan is made of, and how it is carried out.
#[derive(Clone, Copy)]
pub(crate) struct Scene<'a> {
    pub(crate) files: &'a [Filed],
    pub(crate) jobs: &'a [ReportedJob],
    pub(crate) zone: &'a Zone,
    pub(crate) flags: ApplyFlags,
    pub(crate) has_warning: bool,
    /// The launcher shuts down.
    pub(crate) shuts_down: bool,
    /// It is the first plan: what is left is shown.
    pub(crate) is_first: bool,
}

/// A job that is waited for.
#[derive(Drop)]
pub(crate) struct AwaitedJob {
    pub(crate) label: String,
    pub(crate) is_run: bool,
    pub(crate) exit_time_out: u32,
}

/// How far it went.
#[derive(Drop)]
pub(crate) struct Progress {
    pub(crate) ending: Ending,
    pub(crate) has_changed: bool,
    /// A file is left out, since another one decides its label.
    pub(crate) has_twice: bool,
    /// A file that differs has a warning.
    pub(crate) has_warning: bool,
    /// The places of the files whose definitions are loaded.
    pub(crate) in_effect: Vec<usize>,
    /// The labels whose step is not tried again.
    pub(crate) tried: Vec<String>,
    /// The labels that were unloaded permanently.
    pub(crate) unloaded: Vec<String>,
    pub(crate) awaited: Vec<AwaitedJob>,
    /// The jobs that were unloaded, permanently or to be loaded again.
    pub(crate) ended: Vec<EndedJob>,
    pub(crate) same: u64,
}

impl Progress {
    /// Nothing was done.
    pub(crate) fn new(alloc: Global) -> Progress {
        Progress {
            ending: Ending::well(),
            has_changed: false,
            has_twice: false,
            has_warning: false,
            in_effect: Vec::new(alloc),
            tried: Vec::new(alloc),
            unloaded: Vec::new(alloc),
            awaited: Vec::new(alloc),
            ended: Vec::new(alloc),
            same: 0,
        }
    }
}

/// Makes the plan, shows it, and carries it out, unless it is only to be shown.
pub(crate) fn apply_once(
    host: &HostRuntime,
    alloc: Global,
    client: &mut Client,
    scene: &Scene<'_>,
    progress: &mut Progress,
) -> Result<(), Stop> {
    progress.ending.has_left = progress.has_twice;
    progress.awaited.clear();
    let verdicts = verdicts_of(alloc, scene.files)?;
    let loaded = loaded_of(alloc, scene.jobs)?;
    let flags = flags_of(scene);
    let steps = plan(alloc, verdicts.as_slice(), loaded.as_slice(), &flags)?;
    note_same(scene, steps.as_slice(), progress)?;
    for step in &steps {
        take_step(host, alloc, client, scene, step, progress)?;
    }
    drop(steps);
    drop(loaded);
    drop(verdicts);
    Ok(())
}

fn flags_of(scene: &Scene<'_>) -> Flags {
    Flags {
        prune: scene.flags.prune,
        at_once: scene.flags.at_once,
        strict: scene.flags.strict,
        has_warning: scene.has_warning,
        shuts_down: scene.shuts_down,
    }
}

fn verdicts_of<'a>(alloc: Global, files: &'a [Filed]) -> Result<Vec<FileVerdict<'a>>, AllocError> {
    let mut verdicts = Vec::new(alloc);
    for (place, file) in files.iter().enumerate() {
        verdicts.push(verdict_of(place, file))?;
    }
    Ok(verdicts)
}

fn verdict_of(place: usize, file: &Filed) -> FileVerdict<'_> {
    let former = match &file.former {
        Some(former) => Some(former.as_str()),
        None => None,
    };
    FileVerdict {
        place,
        label: file.label.as_str(),
        digest: file.digest.as_str(),
        standing: file.standing,
        is_named: file.is_named(),
        is_kept_alive: false,
        former,
    }
}

fn loaded_of<'a>(alloc: Global, jobs: &'a [ReportedJob]) -> Result<Vec<LoadedJob<'a>>, AllocError> {
    let mut loaded = Vec::new(alloc);
    for job in jobs {
        loaded.push(loaded_job(job))?;
    }
    Ok(loaded)
}

fn loaded_job(job: &ReportedJob) -> LoadedJob<'_> {
    LoadedJob {
        label: job.label.as_str(),
        digest: job.digest.as_str(),
        is_running: job.is_running,
        is_kept_alive: job.is_kept_alive,
        was_applied_here: job.was_applied,
        is_going: job.is_going,
    }
}

// The files that are loaded as they are: they have no step.
fn note_same(
    scene: &Scene<'_>,
    steps: &[PlannedStep<'_>],
    progress: &mut Progress,
) -> Result<(), AllocError> {
    progress.same = 0;
    for (place, file) in scene.files.iter().enumerate() {
        if is_same(scene, steps, file) {
            progress.same = progress.same.saturating_add(1);
            progress.in_effect.push(place)?;
        }
    }
    Ok(())
}

fn is_same(scene: &Scene<'_>, steps: &[PlannedStep<'_>], file: &Filed) -> bool {
    let label = file.label.as_str();
    let is_loaded = match job_of(scene.jobs, label) {
        Some(job) => job.digest.as_str() == file.digest.as_str() && !file.digest.is_empty(),
        None => false,
    };
    is_loaded && operation_in(steps, label).is_none()
}

// The job that stays with another label: the file that had this one.
fn heir_of<'a>(files: &'a [Filed], label: &str) -> Option<&'a Filed> {
    for file in files {
        if let (Some(former), FileState::Good) = (&file.former, file.standing) {
            if former.as_str() == label {
                return Some(file);
            }
        }
    }
    None
}

fn is_among(labels: &[String], label: &str) -> bool {
    for other in labels {
        if other.as_str() == label {
            return true;
        }
    }
    false
}

// What ends with the launcher is not waited for.
fn heeded<'a>(scene: &Scene<'_>, operation: Operation<'a>) -> Operation<'a> {
    match operation {
        Operation::Leave(Reason::Goes) if scene.shuts_down => Operation::Leave(Reason::ShutsDown),
        operation => operation,
    }
}

// Whether the line of the job under the former label covers this load too.
fn is_told_before(scene: &Scene<'_>, step: &PlannedStep<'_>, file: Option<&Filed>) -> bool {
    let former = match (step.operation, file) {
        (
            Operation::Load(_),
            Some(
                Filed {
                    former: Some(former),
                    ..
                },
            ),
        ) => former.as_str(),
        _ => return false,
    };
    job_of(scene.jobs, former).is_some() && !is_named_by(scene.files, former)
}

fn is_named_by(files: &[Filed], label: &str) -> bool {
    for file in files {
        if file.label.as_str() == label {
            return true;
        }
    }
    false
}

// The label of a line: of a job that gets another one both; of a file that can't be read its name.
fn shown_label(
    alloc: Global,
    scene: &Scene<'_>,
    step: &PlannedStep<'_>,
    around: &StepContext<'_>,
    file: Option<&Filed>,
) -> Result<String, AllocError> {
    let is_unread = matches!(step.operation, Operation::Leave(Reason::Unread));
    match (around.heir, file) {
        (Some(heir), _) if scene.flags.json => String::from_str(alloc, heir.label.as_str()),
        (Some(heir), _) => format!(in alloc; "{} -> {}", step.label, heir.label.as_str()),
        (None, Some(file)) if is_unread && !scene.flags.json => {
            String::from_str(alloc, file.name())
        }
        _ => String::from_str(alloc, step.label),
    }
}

fn take_step<'x>(
    host: &HostRuntime,
    alloc: Global,
    client: &mut Client,
    scene: &Scene<'x>,
    step: &PlannedStep<'x>,
    progress: &mut Progress,
) -> Result<(), Stop> {
    if is_among(progress.tried.as_slice(), step.label) {
        return Ok(());
    }
    let operation = heeded(scene, step.operation);
    let step = &PlannedStep {
        label: step.label,
        operation,
    };
    let job = job_of(scene.jobs, step.label);
    let file = file_of(scene.files, &step.operation, step.label);
    let heir = match step.operation {
        Operation::Unload => heir_of(scene.files, step.label),
        _ => None,
    };
    let around = StepContext {
        alloc,
        files: scene.files,
        zone: scene.zone,
        job,
        heir,
        waits: scene.flags.wait,
    };
    let keys = keys_of(alloc, file.or(around.heir), job)?;
    let told = planned_text(&around, step.label, &step.operation, file, keys.as_slice())?;
    let taken = match step.operation {
        Operation::Leave(why) => {
            leave(
                host, alloc, scene, step, why, &around, file, &keys, &told, progress,
            )
        }
        _ => act(
            host, alloc, client, scene, step, &around, file, &keys, &told, progress,
        ),
    };
    drop(told);
    drop(keys);
    taken
}

// The name of a step, and its line.
fn show_step(
    host: &HostRuntime,
    alloc: Global,
    scene: &Scene<'_>,
    step: &PlannedStep<'_>,
    around: &StepContext<'_>,
    file: Option<&Filed>,
    keys: &[String],
    reason: &str,
    done: bool,
) -> Result<(), Stop> {
    let names = keys_text(alloc, keys)?;
    let label = shown_label(alloc, scene, step, around, file)?;
    let shown = show(
        host,
        alloc,
        scene.flags.json,
        &StepLine {
            word: operation_word(&step.operation, around.heir.is_some()),
            label: label.as_str(),
            file: match file.or(around.heir) {
                Some(file) => file.path.as_str(),
                None => "",
            },
            keys: names.as_str(),
            reason,
            done,
        },
    );
    drop(label);
    drop(names);
    shown
}

// The keys as a list of JSON.
fn keys_text(alloc: Global, keys: &[String]) -> Result<String, AllocError> {
    let names = lent(alloc, keys)?;
    let mut writer = TextWriter::new(alloc);
    put_texts(&mut writer, names.as_slice());
    drop(names);
    writer.into_text()
}

fn lent<'a>(alloc: Global, keys: &'a [String]) -> Result<Vec<&'a str>, AllocError> {
    let mut names = Vec::new(alloc);
    for key in keys {
        names.push(key.as_str())?;
    }
    Ok(names)
}

// A line for each file of the label, if none of them decides.
fn show_each(
    host: &HostRuntime,
    alloc: Global,
    scene: &Scene<'_>,
    step: &PlannedStep<'_>,
    around: &StepContext<'_>,
    reason: &str,
) -> Result<(), Stop> {
    for file in scene.files {
        if file.label.as_str() == step.label {
            show_step(
                host,
                alloc,
                scene,
                step,
                around,
                Some(file),
                &[],
                reason,
                false,
            )?;
        }
    }
    Ok(())
}

// A step that is left.
fn leave(
    host: &HostRuntime,
    alloc: Global,
    scene: &Scene<'_>,
    step: &PlannedStep<'_>,
    why: Reason,
    around: &StepContext<'_>,
    file: Option<&Filed>,
    keys: &[String],
    told: &String,
    progress: &mut Progress,
) -> Result<(), Stop> {
    progress.ending = progress.ending.and(ending_of(why));
    let is_each = scene.flags.json && matches!(why, Reason::Several);
    if scene.is_first && is_each {
        show_each(host, alloc, scene, step, around, told.as_str())?;
    } else if scene.is_first {
        show_step(
            host,
            alloc,
            scene,
            step,
            around,
            file,
            keys,
            told.as_str(),
            false,
        )?;
    }
    let is_run = matches!(why, Reason::Runs) && scene.flags.wait;
    let is_going = matches!(why, Reason::Goes) && file.is_some();
    if scene.shuts_down {
        return Ok(());
    }
    if is_run || is_going {
        await_job(alloc, step.label, is_run, around.job, progress)?;
    }
    Ok(())
}

// What a step that is left for this reason does to the exit status.
fn ending_of(why: Reason) -> Ending {
    let refused = Refusal::BadDefinition(
        history_model::Reason::NotJson,
        history_model::KeyName::NoKey,
    );
    Ending {
        has_unread: matches!(why, Reason::Unread),
        refusal: if matches!(why, Reason::Refused) {
            refused.code()
        } else {
            0
        },
        has_left: true,
    }
}

fn await_job(
    alloc: Global,
    label: &str,
    is_run: bool,
    job: Option<&ReportedJob>,
    progress: &mut Progress,
) -> Result<(), AllocError> {
    let exit_time_out = match job {
        Some(job) => job.exit_time_out,
        None => 0,
    };
    progress.awaited.push(AwaitedJob {
        label: String::from_str(alloc, label)?,
        is_run,
        exit_time_out,
    })?;
    Ok(())
}

// A step that is carried out, unless it is only to be shown.
fn act<'x>(
    host: &HostRuntime,
    alloc: Global,
    client: &mut Client,
    scene: &Scene<'x>,
    step: &PlannedStep<'x>,
    around: &StepContext<'x>,
    file: Option<&'x Filed>,
    keys: &[String],
    told: &String,
    progress: &mut Progress,
) -> Result<(), Stop> {
    let is_told = is_told_before(scene, step, file);
    if scene.flags.dry_run {
        progress.has_changed = true;
        if is_told {
            return Ok(());
        }
        return show_step(
            host,
            alloc,
            scene,
            step,
            around,
            file,
            keys,
            told.as_str(),
            false,
        );
    }
    let moved = moved_job(scene, step, file, progress);
    let task = task_of(scene, step, around.job, file, moved);
    let outcome = carry_out(host, alloc, client, &task, &mut progress.ended)?;
    note_outcome(alloc, scene, step, &outcome, progress)?;
    note_back(&outcome, moved, progress);
    let other = outcome_text(alloc, step, &outcome, task.before.is_some())?;
    let is_done = matches!(outcome, Outcome::Done);
    if is_done && is_told {
        drop(outcome);
        drop(other);
        return Ok(());
    }
    let operation = became(&step.operation, &outcome);
    let told_as = PlannedStep {
        label: step.label,
        operation,
    };
    drop(outcome);
    let reason = match &other {
        Some(text) => text.as_str(),
        None => told.as_str(),
    };
    let shown = show_step(
        host, alloc, scene, &told_as, around, file, keys, reason, is_done,
    );
    drop(other);
    shown
}

// A job that was unloaded, since its file has another label now, may be loaded again.
fn note_back(outcome: &Outcome, moved: Option<&ReportedJob>, progress: &mut Progress) {
    match (outcome, moved) {
        (Outcome::Restored(_, _), Some(job)) => {
            let label = job.label.as_str();
            progress.unloaded.retain(|other| other.as_str() != label);
        }
        _ => {}
    }
}

// The operation that a step came to: it may have been left.
fn became<'a>(operation: &Operation<'a>, outcome: &Outcome) -> Operation<'a> {
    match outcome {
        Outcome::Left(why) => Operation::Leave(*why),
        Outcome::Late => Operation::Leave(Reason::Goes),
        _ => *operation,
    }
}

// The job that was unloaded for the file, since it has another label now.
fn moved_job<'a>(
    scene: &Scene<'a>,
    step: &PlannedStep<'_>,
    file: Option<&Filed>,
    progress: &Progress,
) -> Option<&'a ReportedJob> {
    let former = match (step.operation, file) {
        (Operation::Load(_), Some(file)) => file.former.as_ref()?.as_str(),
        _ => return None,
    };
    if is_among(progress.unloaded.as_slice(), former) {
        job_of(scene.jobs, former)
    } else {
        None
    }
}

fn task_of<'a>(
    scene: &Scene<'a>,
    step: &PlannedStep<'a>,
    job: Option<&'a ReportedJob>,
    file: Option<&'a Filed>,
    moved: Option<&'a ReportedJob>,
) -> StepTask<'a> {
    let operation = step.operation;
    let before = match moved.or(job) {
        Some(
            ReportedJob {
                before: Some(before),
                ..
            },
        ) => Some(before.as_str()),
        _ => None,
    };
    StepTask {
        label: step.label,
        operation,
        text: match file {
            Some(file) => file.text.as_str(),
            None => "",
        },
        path: match file {
            Some(file) => file.path.as_str(),
            None => step.label,
        },
        is_moved: moved.is_some(),
        before,
        has_disabled: match job {
            Some(job) => job.has_disabled,
            None => false,
        },
        may_end: match job {
            Some(job) => scene.flags.at_once || job.is_kept_alive,
            None => scene.flags.at_once,
        },
        exit_time_out: match job {
            Some(job) => job.exit_time_out,
            None => 0,
        },
    }
}

fn note_outcome(
    alloc: Global,
    scene: &Scene<'_>,
    step: &PlannedStep<'_>,
    outcome: &Outcome,
    progress: &mut Progress,
) -> Result<(), AllocError> {
    match outcome {
        Outcome::Done => note_done(alloc, step, progress),
        Outcome::Left(Reason::Runs) if scene.flags.wait => {
            progress.ending.has_left = true;
            let job = job_of(scene.jobs, step.label);
            await_job(alloc, step.label, true, job, progress)
        }
        Outcome::Left(why) => {
            progress.ending = progress.ending.and(ending_of(*why));
            note_tried(alloc, step.label, progress)
        }
        Outcome::Late => {
            progress.has_changed = true;
            progress.ending.has_left = true;
            note_tried(alloc, step.label, progress)
        }
        Outcome::Refused(code, _) => note_refused(alloc, step.label, *code, progress),
        Outcome::Restored(code, _) | Outcome::Down(code, _) => {
            progress.has_changed = true;
            note_refused(alloc, step.label, *code, progress)
        }
    }
}

fn note_done(
    alloc: Global,
    step: &PlannedStep<'_>,
    progress: &mut Progress,
) -> Result<(), AllocError> {
    progress.has_changed = true;
    match step.operation {
        Operation::Load(file) | Operation::Replace(file) => progress.in_effect.push(file.place)?,
        Operation::Unload => {
            progress
                .unloaded
                .push(String::from_str(alloc, step.label)?)?;
        }
        Operation::Leave(_) => {}
    }
    Ok(())
}

fn note_refused(
    alloc: Global,
    label: &str,
    code: u8,
    progress: &mut Progress,
) -> Result<(), AllocError> {
    progress.ending = progress.ending.and(Ending {
        has_unread: false,
        refusal: code,
        has_left: true,
    });
    note_tried(alloc, label, progress)
}

fn note_tried(alloc: Global, label: &str, progress: &mut Progress) -> Result<(), AllocError> {
    progress.tried.push(String::from_str(alloc, label)?)?;
    Ok(())
}

/// What is waited for, lent.
pub(crate) fn awaited_in<'a>(
    alloc: Global,
    progress: &'a Progress,
) -> Result<Vec<Awaited<'a>>, AllocError> {
    let mut awaited = Vec::new(alloc);
    for job in &progress.awaited {
        awaited.push(Awaited {
            label: job.label.as_str(),
            is_run: job.is_run,
            exit_time_out: job.exit_time_out,
        })?;
    }
    Ok(awaited)
}
