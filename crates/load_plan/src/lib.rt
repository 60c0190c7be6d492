//! What `jobctl apply` does so that the loaded jobs are those of the files. The plan is a function of what the files say, of what
//! is loaded and of the flags. It harms no run.
#![tactic(auto)]

mod requests;
mod texts;

ghost use Rattle.std.specs.Prelude.{◌≡◌, ℕ, ◌==◌, ◌&&◌, ◌||◌, not, ◌∷◌, [], OnOk, IfOk, IsOk, true, false, is_some, find, map, count_by, List};
ghost use Rattle.std.specs.List.{list_any};
ghost use Rattle.load_plan.specs.Laws.{unloads_first, EndsNoRun, LeavesUnclear, LeavesFaulty, KeepsBesideUnread, PrunesOwn, KeepsSame, UnloadsUnnamed, MovesWhole, LoadsRightly, HeedsWarning, WaitsForNoEnd, WaitsForGoing, Settles, PutsInEffect, ClearsOrphans};
ghost use Rattle.load_plan.specs.Plan.{claims, claims_by_name, only, sole, choice_of, decider, is_unread, has_unread, job_at, fault, may_unload, unload_operation, orphan_operation, change_operation, load_operation, file_operation, is_good, is_former, is_decided_by, is_heir, has_heir, going_block, old_block, former_block, block_at, free_operation, bar, held, decided, operation_of, has_step, operation_in, AreOnce, with_operation, unload_only, Covers, CoversUnloads, HasOperations};

pub use requests::{JobSeen, NextRequest, next_request};
use std::alloc::{AllocError, Global};
pub use texts::{operation_word, reason_text};

/// What became of a file that was read.
#[derive(Clone, Copy)]
pub enum FileState {
    /// It is a definition.
    Good,
    /// It is a definition that a launcher refuses.
    Refused,
    /// It can't be read as JSON, or not at all. Its label is the one that its name says.
    Unread,
    /// A boot would leave it out, for its owner or its mode.
    LeftAtBoot,
    /// Its label is disabled, so that a load is refused.
    Disabled,
}

/// What a file says.
#[derive(Clone, Copy)]
pub struct FileVerdict<'a> {
    /// Its place among the files.
    pub place: usize,
    pub label: &'a str,
    /// The SHA-256 of the definition, as 64 hexadecimal digits.
    pub digest: &'a str,
    pub standing: FileState,
    /// Whether it is named LABEL.json.
    pub is_named: bool,
    /// Whether its job is kept alive.
    pub is_kept_alive: bool,
    /// The other label under which an earlier apply of this folder loaded this file, if there is one.
    pub former: Option<&'a str>,
}

/// A job that is loaded.
#[derive(Clone, Copy)]
pub struct LoadedJob<'a> {
    pub label: &'a str,
    /// The SHA-256 of the definition, as 64 hexadecimal digits.
    pub digest: &'a str,
    pub is_running: bool,
    /// Whether it is kept alive, and has neither a calendar nor an interval.
    pub is_kept_alive: bool,
    /// Whether an earlier apply of this folder loaded it.
    pub was_applied_here: bool,
    /// Whether it is being removed.
    pub is_going: bool,
}

#[derive(Clone, Copy)]
pub struct Flags {
    pub prune: bool,
    /// Whether runs are ended for it.
    pub at_once: bool,
    pub strict: bool,
    pub has_warning: bool,
    /// Whether the launcher shuts down, so that each load is refused.
    pub shuts_down: bool,
}

/// Why a job is left as it is.
#[derive(Clone, Copy)]
pub enum Reason {
    /// A run of it would be ended.
    Runs,
    /// It is still being removed.
    Goes,
    /// Several files name it, and none decides.
    Several,
    Refused,
    Unread,
    LeftAtBoot,
    Disabled,
    /// Its file was removed, and nothing is to be pruned.
    Orphan,
    /// Its file was removed, or is one that can't be read.
    UnreadBeside,
    /// There is a warning, and all is to be strict.
    Warned,
    ShutsDown,
    /// It was loaded while the plan was carried out.
    Meanwhile,
}

/// What is done at a label.
#[derive(Clone, Copy)]
pub enum Operation<'a> {
    Load(FileVerdict<'a>),
    /// Unload, then load.
    Replace(FileVerdict<'a>),
    Unload,
    Leave(Reason),
}

#[derive(Clone, Copy)]
pub struct PlannedStep<'a> {
    pub label: &'a str,
    pub operation: Operation<'a>,
}

/// What the files say of a label.
#[derive(Clone, Copy)]
pub enum Choice<'a> {
    Nobody,
    One(FileVerdict<'a>),
    Several,
}

fn fault(standing: FileState) -> Option<Reason>
    ensures { result ≡ fault standing }
{
    match standing {
        FileState::Good => None,
        FileState::Refused => Some(Reason::Refused),
        FileState::Unread => Some(Reason::Unread),
        FileState::LeftAtBoot => Some(Reason::LeftAtBoot),
        FileState::Disabled => Some(Reason::Disabled),
    }
}

/// Whether an unload ends no run that is not to be ended.
pub fn may_unload(flags: &Flags, job: &LoadedJob<'_>) -> bool
    ensures { result ≡ may_unload flags.now job.now }
{
    flags.at_once || job.is_kept_alive || !job.is_running
}

fn unload_operation<'a>(flags: &Flags, job: &LoadedJob<'_>) -> Option<Operation<'a>>
    ensures { result ≡ unload_operation flags.now job.now }
{
    if may_unload(flags, job) {
        Some(Operation::Unload)
    } else {
        Some(Operation::Leave(Reason::Runs))
    }
}

fn orphan_operation<'a>(
    flags: &Flags,
    unread: bool,
    renamed: bool,
    job: &LoadedJob<'_>,
) -> Option<Operation<'a>>
    ensures { result ≡ orphan_operation flags.now unread renamed job.now }
{
    if !job.was_applied_here {
        return None;
    }
    if job.is_going {
        return Some(Operation::Leave(Reason::Goes));
    }
    if renamed {
        return unload_operation(flags, job);
    }
    if !flags.prune {
        return Some(Operation::Leave(Reason::Orphan));
    }
    if unread {
        return Some(Operation::Leave(Reason::UnreadBeside));
    }
    unload_operation(flags, job)
}

fn change_operation<'a>(
    flags: &Flags,
    file: &FileVerdict<'a>,
    job: &LoadedJob<'_>,
) -> Option<Operation<'a>>
    ensures { result ≡ change_operation flags.now file.now job.now }
{
    if job.is_going {
        return Some(Operation::Leave(Reason::Goes));
    }
    if file.digest == job.digest {
        return None;
    }
    if may_unload(flags, job) {
        Some(Operation::Replace(*file))
    } else {
        Some(Operation::Leave(Reason::Runs))
    }
}

fn load_operation<'a>(file: &FileVerdict<'a>, block: Option<Reason>) -> Option<Operation<'a>>
    ensures { result ≡ load_operation file.now block }
{
    match block {
        Some(why) => Some(Operation::Leave(why)),
        None => Some(Operation::Load(*file)),
    }
}

fn file_operation<'a>(
    flags: &Flags,
    file: &FileVerdict<'a>,
    block: Option<Reason>,
    job: Option<LoadedJob<'_>>,
) -> Option<Operation<'a>>
    ensures { result ≡ file_operation flags.now file.now (fault file.now.standing) block job.entry }
{
    match (fault(file.standing), job) {
        (Some(why), _) => Some(Operation::Leave(why)),
        (None, None) => load_operation(file, block),
        (None, Some(job)) => change_operation(flags, file, &job),
    }
}

fn free_operation<'a>(
    flags: &Flags,
    unread: bool,
    renamed: bool,
    block: Option<Reason>,
    choice: Choice<'a>,
    job: Option<LoadedJob<'_>>,
) -> Option<Operation<'a>>
    ensures { result ≡ free_operation flags.now unread renamed block choice.entry job.entry }
{
    match (choice, job) {
        (Choice::Nobody, None) => None,
        (Choice::Nobody, Some(job)) => orphan_operation(flags, unread, renamed, &job),
        (Choice::Several, _) => Some(Operation::Leave(Reason::Several)),
        (Choice::One(file), job) => file_operation(flags, &file, block, job),
    }
}

fn bar(flags: &Flags) -> Option<Reason>
    ensures { result ≡ bar flags.now }
{
    if flags.shuts_down {
        return Some(Reason::ShutsDown);
    }
    if flags.strict && flags.has_warning {
        Some(Reason::Warned)
    } else {
        None
    }
}

fn held<'a>(bar: Option<Reason>, operation: Option<Operation<'a>>) -> Option<Operation<'a>>
    ensures { result ≡ held bar operation.entry }
{
    match (bar, operation) {
        (None, operation) => operation,
        (Some(_), None) => None,
        (Some(_), Some(Operation::Leave(other))) => Some(Operation::Leave(other)),
        (Some(why), Some(_)) => Some(Operation::Leave(why)),
    }
}

fn has_unread(files: &[FileVerdict<'_>]) -> bool
    ensures { result ≡ has_unread files.now }
{
    files
        .iter()
        .any(|file| matches!(&file.standing, FileState::Unread))
}

fn job_at<'a>(loaded: &[LoadedJob<'a>], label: &str) -> Option<LoadedJob<'a>>
    ensures { result ≡ job_at loaded.now label.now }
{
    loaded.iter().copied().find(|job| job.label == label)
}

// The first, if it is the only one.
fn only<'a>(count: usize, first: Option<FileVerdict<'a>>) -> Option<FileVerdict<'a>>
    ensures { result ≡ only count first.entry }
{
    if count == 1 { first } else { None }
}

fn count_by_name(files: &[FileVerdict<'_>], label: &str) -> usize
    ensures { result ≡ count_by (claims_by_name label.now) files.now }
{
    files
        .iter()
        .filter(|file| file.label == label && file.is_named)
        .count()
}

fn first_by_name<'a>(files: &[FileVerdict<'a>], label: &str) -> Option<FileVerdict<'a>>
    ensures { result ≡ find (claims_by_name label.now) files.now }
{
    files
        .iter()
        .copied()
        .find(|file| file.label == label && file.is_named)
}

fn count_of(files: &[FileVerdict<'_>], label: &str) -> usize
    ensures { result ≡ count_by (claims label.now) files.now }
{
    files.iter().filter(|file| file.label == label).count()
}

fn first_of<'a>(files: &[FileVerdict<'a>], label: &str) -> Option<FileVerdict<'a>>
    ensures { result ≡ find (claims label.now) files.now }
{
    files.iter().copied().find(|file| file.label == label)
}

fn is_claimed(files: &[FileVerdict<'_>], label: &str) -> bool
    ensures { result ≡ list_any (claims label.now) files.now }
{
    files.iter().any(|file| file.label == label)
}

fn sole_by_name<'a>(files: &[FileVerdict<'a>], label: &str) -> Option<FileVerdict<'a>>
    ensures { result ≡ sole (claims_by_name label.now) files.now }
{
    only(count_by_name(files, label), first_by_name(files, label))
}

fn sole<'a>(files: &[FileVerdict<'a>], label: &str) -> Option<FileVerdict<'a>>
    ensures { result ≡ sole (claims label.now) files.now }
{
    only(count_of(files, label), first_of(files, label))
}

fn choice_of<'a>(file: Option<FileVerdict<'a>>, claimed: bool) -> Choice<'a>
    ensures { result ≡ choice_of file.entry claimed }
{
    match (file, claimed) {
        (Some(file), _) => Choice::One(file),
        (None, true) => Choice::Several,
        (None, false) => Choice::Nobody,
    }
}

/// What the files say of a label: the only one that is named for it decides, else the only one that names it.
pub fn decider<'a>(files: &[FileVerdict<'a>], label: &str) -> Choice<'a>
    ensures { result ≡ decider files.now label.now }
{
    let named = sole_by_name(files, label);
    choice_of(named.or(sole(files, label)), is_claimed(files, label))
}

fn step_at<'a>(steps: &[PlannedStep<'a>], label: &str) -> Option<PlannedStep<'a>>
    ensures { result ≡ find (has_step label.now) steps.now }
{
    steps.iter().copied().find(|step| step.label == label)
}

/// The operation that the steps have for a label.
pub fn operation_in<'a>(steps: &[PlannedStep<'a>], label: &str) -> Option<Operation<'a>>
    ensures { result ≡ operation_in steps.now label.now }
{
    match step_at(steps, label) {
        Some(step) => Some(step.operation),
        None => None,
    }
}

fn decided<'a>(
    flags: &Flags,
    unread: bool,
    renamed: bool,
    block: Option<Reason>,
    choice: Choice<'a>,
    job: Option<LoadedJob<'_>>,
) -> Option<Operation<'a>>
    ensures { result ≡ decided flags.now unread renamed block choice.entry job.entry }
{
    held(
        bar(flags),
        free_operation(flags, unread, renamed, block, choice, job),
    )
}

fn is_good(standing: FileState) -> bool
    ensures { result ≡ is_good standing }
{
    matches!(standing, FileState::Good)
}

fn is_former(label: &str, former: Option<&str>) -> bool
    ensures { result ≡ is_former label.now former.entry }
{
    match former {
        Some(former) => former == label,
        None => false,
    }
}

fn is_decided_by(place: usize, choice: Choice<'_>) -> bool
    ensures { result ≡ is_decided_by place choice.entry }
{
    match choice {
        Choice::One(other) => other.place == place,
        _ => false,
    }
}

fn is_heir(files: &[FileVerdict<'_>], label: &str, file: &FileVerdict<'_>) -> bool
    ensures { result ≡ is_heir files.now label.now file.now }
{
    is_former(label, file.former)
        && is_good(file.standing)
        && is_decided_by(file.place, decider(files, file.label))
}

// Whether a file of another label had this label before.
fn has_heir(files: &[FileVerdict<'_>], label: &str) -> bool
    ensures { result ≡ has_heir files.now label.now }
{
    files.iter().any(|file| is_heir(files, label, file))
}

fn old_block(flags: &Flags, choice: Choice<'_>, job: Option<LoadedJob<'_>>) -> Option<Reason>
    ensures { result ≡ old_block flags.now choice.entry job.entry }
{
    match (choice, job) {
        (Choice::Nobody, Some(old)) => going_block(flags, &old),
        _ => None,
    }
}

fn going_block(flags: &Flags, old: &LoadedJob<'_>) -> Option<Reason>
    ensures { result ≡ going_block flags.now old.now }
{
    if !old.was_applied_here {
        return None;
    }
    if old.is_going {
        return Some(Reason::Goes);
    }
    if may_unload(flags, old) {
        None
    } else {
        Some(Reason::Runs)
    }
}

// Why the job under a file's former label is in the way, if it is.
fn former_block(
    files: &[FileVerdict<'_>],
    loaded: &[LoadedJob<'_>],
    flags: &Flags,
    former: Option<&str>,
) -> Option<Reason>
    ensures { result ≡ former_block files.now loaded.now flags.now former.entry }
{
    match former {
        Some(former) => old_block(flags, decider(files, former), job_at(loaded, former)),
        None => None,
    }
}

fn block_at(
    files: &[FileVerdict<'_>],
    loaded: &[LoadedJob<'_>],
    flags: &Flags,
    choice: Choice<'_>,
) -> Option<Reason>
    ensures { result ≡ block_at files.now loaded.now flags.now choice.entry }
{
    match choice {
        Choice::One(file) => former_block(files, loaded, flags, file.former),
        _ => None,
    }
}

/// The operation at a label. None: what is loaded is as the files say.
pub fn operation_of<'a>(
    files: &[FileVerdict<'a>],
    loaded: &[LoadedJob<'_>],
    flags: &Flags,
    label: &str,
) -> Option<Operation<'a>>
    ensures { result ≡ operation_of files.now loaded.now flags.now label.now }
{
    let choice = decider(files, label);
    let block = block_at(files, loaded, flags, choice);
    decided(
        flags,
        has_unread(files),
        has_heir(files, label),
        block,
        choice,
        job_at(loaded, label),
    )
}

// Writes a step for a label, if it has a operation and no step yet.
fn add_operation<'a>(
    steps: &mut Vec<PlannedStep<'a>>,
    label: &'a str,
    operation: Option<Operation<'a>>,
) -> Result<(), AllocError>
    ensures { OnOk result (steps.new.items ≡ with_operation steps.old.items label.entry operation.entry) }
{
    let Some(operation) = operation else {
        return Ok(());
    };
    let known = operation_in(steps, label);
    if known.is_none() {
        steps.push(PlannedStep { label, operation })?;
    }
    Ok(())
}

// The operation, if it unloads for good.
fn unload_only(operation: Option<Operation<'_>>) -> Option<Operation<'_>>
    ensures { result ≡ unload_only operation.entry }
{
    match operation {
        Some(Operation::Unload) => Some(Operation::Unload),
        _ => None,
    }
}

// What is unloaded for good comes first: what it held, as a port, is free for what is loaded after it.
fn add_unloads<'a>(
    steps: &mut Vec<PlannedStep<'a>>,
    files: &[FileVerdict<'a>],
    loaded: &[LoadedJob<'a>],
    flags: &Flags,
) -> Result<(), AllocError>
    ensures { OnOk result (CoversUnloads (map (λ job. job.label) loaded.now) files.now loaded.now flags.now steps.old.items steps.new.items) }
{
    for job in loaded {
        let found = operation_of(files, loaded, flags, job.label);
        let operation = unload_only(found);
        add_operation(steps, job.label, operation)?;
    }
    Ok(())
}

fn add_loaded<'a>(
    steps: &mut Vec<PlannedStep<'a>>,
    files: &[FileVerdict<'a>],
    loaded: &[LoadedJob<'a>],
    flags: &Flags,
) -> Result<(), AllocError>
    ensures { OnOk result (Covers (map (λ job. job.label) loaded.now) files.now loaded.now flags.now steps.old.items steps.new.items) }
{
    for job in loaded {
        let operation = operation_of(files, loaded, flags, job.label);
        add_operation(steps, job.label, operation)?;
    }
    Ok(())
}

fn add_files<'a>(
    steps: &mut Vec<PlannedStep<'a>>,
    files: &[FileVerdict<'a>],
    loaded: &[LoadedJob<'a>],
    flags: &Flags,
) -> Result<(), AllocError>
    ensures { OnOk result (Covers (map (λ file. file.label) files.now) files.now loaded.now flags.now steps.old.items steps.new.items) }
{
    for file in files {
        let operation = operation_of(files, loaded, flags, file.label);
        add_operation(steps, file.label, operation)?;
    }
    Ok(())
}

fn steps_of<'a>(
    alloc: Global,
    files: &[FileVerdict<'a>],
    loaded: &[LoadedJob<'a>],
    flags: &Flags,
) -> Result<Vec<PlannedStep<'a>>, AllocError>
    ensures operations { IfOk result (λ steps. HasOperations files.now loaded.now flags.now steps.items) }
    ensures once { IfOk result (λ steps. AreOnce steps.items) }
    ensures in_order { IfOk result (λ steps. unloads_first steps.items ≡ true) }
{
    let mut steps = Vec::new(alloc);
    add_unloads(&mut steps, files, loaded, flags)?;
    add_loaded(&mut steps, files, loaded, flags)?;
    add_files(&mut steps, files, loaded, flags)?;
    Ok(steps)
}

/// The steps that bring the files into effect, each label once. The caller says which runs may be ended, and the plan ends no
/// other.
pub fn plan<'a>(
    alloc: Global,
    files: &[FileVerdict<'a>],
    loaded: &[LoadedJob<'a>],
    flags: &Flags,
) -> Result<Vec<PlannedStep<'a>>, AllocError>
    ensures operations { IfOk result (λ steps. HasOperations files.now loaded.now flags.now steps.items) }
    ensures once { IfOk result (λ steps. AreOnce steps.items) }
    ensures in_order { IfOk result (λ steps. unloads_first steps.items ≡ true) }
    ensures ends_no_run { IfOk result (λ steps. EndsNoRun loaded.now flags.now steps.items) }
    ensures leaves_unclear { IfOk result (λ steps. LeavesUnclear files.now steps.items) }
    ensures leaves_faulty { IfOk result (λ steps. LeavesFaulty files.now steps.items) }
    ensures keeps_beside_unread { IfOk result (λ steps. KeepsBesideUnread files.now steps.items) }
    ensures prunes_own { IfOk result (λ steps. PrunesOwn files.now loaded.now flags.now steps.items) }
    ensures keeps_same { IfOk result (λ steps. KeepsSame files.now loaded.now steps.items) }
    ensures unloads_unnamed { IfOk result (λ steps. UnloadsUnnamed files.now steps.items) }
    ensures moves_whole { IfOk result (λ steps. MovesWhole files.now loaded.now steps.items) }
    ensures loads_rightly { IfOk result (λ steps. LoadsRightly files.now steps.items) }
    ensures heeds_warning { IfOk result (λ steps. HeedsWarning flags.now steps.items) }
    ensures waits_for_no_end { IfOk result (λ steps. WaitsForNoEnd flags.now steps.items) }
    ensures waits_for_going { IfOk result (λ steps. WaitsForGoing files.now loaded.now steps.items) }
    ensures settles { IfOk result (λ steps. Settles files.now loaded.now flags.now steps.items) }
    ensures puts_in_effect { IfOk result (λ steps. PutsInEffect files.now loaded.now steps.items) }
    ensures clears_orphans { IfOk result (λ steps. ClearsOrphans files.now loaded.now steps.items) }
{
    let steps = steps_of(alloc, files, loaded, flags)?;
    Ok(steps)
}
