//! What a journal says of a job, as a view.

ghost use Rattle.std.specs.Prelude.{◌≡◌};
ghost use Rattle.calendar_due.specs.ZoneRules.{minute_at};
ghost use Rattle.scope.specs.Told.{IsCalendarNext, asked_in, facts_then, is_refusal_told, known_told};

use crate::joined::{LabelNow, disabled_joined, label_past, runs_joined};
use crate::journal::job::{KeptJob, Record};
use crate::journal::labels::KnownLabel;
use crate::journal::reader::OpenJournal;
use crate::known_runs::KnownRuns;
use crate::texts::causes::throttle_of;
use crate::texts::coming::calendar_next;
use crate::texts::failing::fault_or_missed;
use crate::texts::since::reasons_then;
use crate::texts::told::ToldJob;
use crate::view::{JobPast, JobView, LabelView, LauncherView, Schedule, UnloadedView};
use history_model::{Reading, Refusal};
use job_defs::Def;
use status_file::{BindStatus, JobFacts, JobKeys};
use status_page::{StatusRead, ThrottleEnd, passed_minute, start_when, within_limits};

/// What is known of a label of the journal, of which the status file says this.
pub(crate) fn label_by_journal<'a>(
    of: &LauncherView<'a>,
    journal: &'a OpenJournal,
    label: &'a str,
    file: Option<LabelNow<'a>>,
) -> LabelView<'a> {
    let Some(job) = journal.past.jobs.get(label) else {
        return unloaded(of, journal, label, None, file.is_some());
    };
    match (&job.def, journal.facts(label)) {
        (Some(def), Some(facts)) => {
            LabelView::Loaded(job_by_journal(of, journal, label, job, def, facts, file))
        }
        _ => unloaded(of, journal, label, Some(job.record.gone), file.is_some()),
    }
}

fn unloaded<'a>(
    of: &LauncherView<'a>,
    journal: &'a OpenJournal,
    label: &'a str,
    gone: Option<Reading>,
    is_in_file: bool,
) -> LabelView<'a> {
    let known = journal.past.labels.of(label);
    LabelView::Unloaded(UnloadedView {
        label,
        gone,
        known,
        unbound: unbound_by(of.standing(), label, known),
        is_in_file,
    })
}

// Why a socket could not be bound, if the last load of the label was refused for that, and if the status file tells of the same load.
fn unbound_by<'a>(
    standing: Option<&'a StatusRead>,
    label: &str,
    known: KnownLabel,
) -> Option<&'a str> {
    let (refusal, at) = known.refused?;
    let bind = standing?.refused_bind(label)?;
    match refusal {
        Refusal::SocketRefused if bind.at.up == at.up => Some(bind.reason),
        _ => None,
    }
}

/// The view of a label of which the status file alone has that its sockets could not be bound.
pub(crate) fn unbound<'a>(bind: BindStatus<'a>) -> LabelView<'a> {
    LabelView::Unloaded(UnloadedView {
        label: bind.label,
        gone: None,
        known: KnownLabel {
            disabled: None,
            refused: Some((Refusal::SocketRefused, bind.at)),
            is_same: false,
        },
        unbound: Some(bind.reason),
        is_in_file: false,
    })
}

// The view of a loaded job. The system's reason for a refused start is the status file's, and by what its label is disabled both say.
fn job_by_journal<'a>(
    of: &LauncherView<'a>,
    journal: &'a OpenJournal,
    label: &'a str,
    job: &'a KeptJob,
    def: &'a Def,
    facts: JobFacts<'a>,
    file: Option<LabelNow<'a>>,
) -> JobView<'a>
    ensures { result.told.facts ≡ facts_then facts.entry of.entry.now.now.up }
{
    let runs = runs_joined(job.record.known(), file);
    let throttle = def.throttle_interval();
    let missed = missed_by(journal, job);
    let last = within_limits(journal.table.reading());
    let reasons = &facts.reasons;
    JobView {
        label,
        told: told_job(journal, job, def, &facts, of.now, runs),
        last,
        start: start_when(
            reasons,
            facts.spawns_from,
            def.calendar(),
            &journal.zone,
            last,
            of.clock.wall,
        ),
        throttle: throttle_at(&facts, &runs, throttle, last),
        failures: failures_of(&job.record),
        fault: fault_or_missed(&facts, &runs, throttle, missed, of.launcher_now()),
        missed,
        disabled: disabled_joined(label_past(Some(journal), label), file),
        past: past_of(journal, label, Some(job)),
        schedule: Schedule::Definition(def),
        is_in_file: file.is_some(),
    }
}

/// What the report on a loaded job needs, as of a clock reading.
pub(crate) fn told_job<'a>(
    journal: &'a OpenJournal,
    job: &'a KeptJob,
    def: &'a Def,
    facts: &JobFacts<'a>,
    at: Reading,
    runs: KnownRuns<'a>,
) -> ToldJob<'a>
    ensures at { result.at ≡ at }
    ensures facts { result.facts ≡ facts_then facts.now at.up }
    ensures asked { result.asked ≡ asked_in journal.now.past job.now.record }
    ensures runs { result.runs ≡ runs.entry }
    ensures calendar { IsCalendarNext (minute_at journal.now.zone) def.now.calendar at.wall result.calendar }
{
    ToldJob {
        at,
        facts: facts_then(facts, at.up),
        asked: journal.past.asked_of(&job.record),
        runs,
        keys: JobKeys::of(def, facts.path),
        calendar: calendar_next(def.calendar(), &journal.zone, at.wall),
    }
}

/// The facts, but that a throttle which is over by then is left out.
pub(crate) fn facts_then<'a>(facts: &JobFacts<'a>, up: u64) -> JobFacts<'a>
    ensures { result ≡ facts_then facts.now up }
{
    let mut then = *facts;
    then.reasons = reasons_then(&facts.reasons, up);
    then
}

/// The end of the throttle, as of the last clock reading.
pub(crate) fn throttle_at(
    facts: &JobFacts<'_>,
    runs: &KnownRuns<'_>,
    throttle: u32,
    last: Reading,
) -> Option<ThrottleEnd> {
    let up = facts.reasons.throttled_until?;
    Some(throttle_of(runs, throttle, up, last))
}

// How many of its starts since its load were refused, or failed, as the status file counts them.
fn failures_of(of: &Record) -> u64 {
    let facts = of.log.facts();
    facts.refusals.saturating_add(facts.failures)
}

/// The minute of its calendar that passed while no launcher ran, if this is the job's first load under the launcher, and it was not started since.
pub(crate) fn missed_by(journal: &OpenJournal, job: &KeptJob) -> Option<u64> {
    let def = job.def.as_ref()?;
    let has_started = !job.record.is_first || job.record.known().starts > 0;
    passed_minute(
        def.calendar(),
        &journal.zone,
        has_started,
        journal.past.down,
    )
}

/// What the journal has of the label of a loaded job besides its facts.
pub(crate) fn past_of<'a>(
    journal: &'a OpenJournal,
    label: &str,
    job: Option<&'a KeptJob>,
) -> JobPast<'a> {
    let known = journal.past.labels.of(label);
    let Some(job) = job else {
        return JobPast {
            known,
            is_in_background: false,
            ignored: &[],
        };
    };
    JobPast {
        known: known_told(known, job.record.newest()),
        is_in_background: job.record.is_in_background(),
        ignored: match &job.def {
            Some(def) => def.not_acted_on(),
            None => &[],
        },
    }
}

// What is reported of the label of a loaded job to which something happened last at this `up`: its last refused load only if that still matters.
fn known_told(known: KnownLabel, newest: u64) -> KnownLabel
    ensures { result ≡ known_told known newest }
{
    match known.refused {
        Some((refusal, at)) if !is_refusal_told(refusal, known.is_same, at.up, newest) => {
            KnownLabel {
                disabled: known.disabled,
                refused: None,
                is_same: known.is_same,
            }
        }
        _ => known,
    }
}

// Whether a refused load of a loaded job is reported. A load of a job that was loaded already is reported only if it had another definition, or if
// nothing happened to the job since.
fn is_refusal_told(refusal: Refusal, is_same: bool, at: u64, newest: u64) -> bool
    ensures { result ≡ is_refusal_told refusal is_same at newest }
{
    match refusal {
        Refusal::AlreadyLoaded => !is_same || newest <= at,
        _ => true,
    }
}
