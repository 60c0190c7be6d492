//! What a status file says of a job, as a view.

ghost use Rattle.std.specs.Prelude.{◌≡◌};
ghost use Rattle.calendar_due.specs.ZoneRules.{minute_at};
ghost use Rattle.scope.specs.Told.{IsCalendarNext, facts_then};

use crate::joined::{LabelNow, disabled_joined, label_past};
use crate::journal::job::JobRequest;
use crate::journal::labels::{KnownLabel, KnownLabels};
use crate::journal::reader::OpenJournal;
use crate::known_runs::KnownRuns;
use crate::texts::coming::calendar_next;
use crate::texts::failing::fault_or_missed;
use crate::texts::told::ToldJob;
use crate::view::by_journal::{facts_then, past_of, throttle_at};
use crate::view::{JobPast, JobView, LauncherView, Schedule};
use calendar_due::Zone;
use history_model::{Entry, Reading};
use status_file::{DisabledBy, JobNote, JobStatus, StatusLine};
use status_page::{Down, StatusRead, passed_minute, reading_of, start_when};

/// How many seconds after its load a job is in the file at the latest.
const WRITTEN: u64 = 2;

/// The view of a job of the file, with the entries of its calendar. Who asked for its end, refused loads, who disabled its label, and ignored keys are the
/// journal's.
pub(crate) fn job_by_file<'a>(
    of: &LauncherView<'a>,
    standing: &'a StatusRead,
    line: &'a StatusLine,
    job: &JobStatus<'a>,
    entries: &[Entry],
) -> JobView<'a>
    ensures { result.told.facts ≡ facts_then job.now.facts of.entry.now.now.up }
{
    let runs = KnownRuns::noted(&job.note, job.facts.reasons.child);
    let throttle = job.keys.throttle_interval;
    let missed = missed_in(&job.note, entries, of.zone, standing.boot.down);
    let last = reading_of(standing);
    let journal = of.journal();
    let setting = label_past(journal, job.label);
    let facts = &job.facts;
    JobView {
        label: job.label,
        told: told_of(
            of.now,
            of.zone,
            job,
            runs,
            asked_beside(journal, job.label),
            entries,
        ),
        last,
        start: start_when(
            &facts.reasons,
            facts.spawns_from,
            entries,
            of.zone,
            last,
            of.clock.wall,
        ),
        throttle: throttle_at(facts, &runs, throttle, last),
        failures: job.note.unsuccessful,
        fault: fault_or_missed(facts, &runs, throttle, missed, of.launcher_now()),
        missed,
        disabled: disabled_joined(setting, Some(LabelNow::of(job, last))),
        past: past_beside(journal, job.label),
        schedule: Schedule::Line(line),
        is_in_file: true,
    }
}

/// What the report on a job needs, if its launcher may be running and has this zone.
pub(crate) fn told_of<'a>(
    at: Reading,
    zone: &Zone,
    job: &JobStatus<'a>,
    runs: KnownRuns<'a>,
    asked: Option<(JobRequest, Reading)>,
    entries: &[Entry],
) -> ToldJob<'a>
    ensures at { result.at ≡ at }
    ensures facts { result.facts ≡ facts_then job.now.facts at.up }
    ensures asked { result.asked ≡ asked }
    ensures runs { result.runs ≡ runs.entry }
    ensures keys { result.keys ≡ job.now.keys }
    ensures calendar { IsCalendarNext (minute_at zone.now) entries.now at.wall result.calendar }
{
    ToldJob {
        at,
        facts: facts_then(&job.facts, at.up),
        asked,
        runs,
        keys: job.keys,
        calendar: calendar_next(entries, zone, at.wall),
    }
}

// What was asked of the job last, by the journal. Without one it is not known.
fn asked_beside(journal: Option<&OpenJournal>, label: &str) -> Option<(JobRequest, Reading)> {
    let journal = journal?;
    let job = journal.past.jobs.get(label)?;
    journal.past.asked_of(&job.record)
}

// What the journal has of it. Without one nothing is known.
fn past_beside<'a>(journal: Option<&'a OpenJournal>, label: &str) -> JobPast<'a> {
    match journal {
        Some(journal) => past_of(journal, label, journal.past.jobs.get(label)),
        None => JobPast {
            known: NOTHING,
            is_in_background: false,
            ignored: &[],
        },
    }
}

/// Nothing but what its job has is known of a label.
const NOTHING: KnownLabel = KnownLabel {
    disabled: None,
    refused: None,
    is_same: false,
};

/// When a setting disabled its label, by the file, or else by what journals say of settings. None: no setting does, or it is not known.
pub(crate) fn disabled_at(job: &JobStatus<'_>, settings: &KnownLabels) -> Option<Reading> {
    match job.disabled {
        Some(DisabledBy::Override) => job.note.disabled_at.or(settings.of(job.label).since()),
        Some(DisabledBy::Definition) | None => None,
    }
}

// The minute of its calendar that passed while no launcher ran, if the job was loaded at the boot, and not started since.
fn missed_in(
    note: &JobNote<'_>,
    entries: &[Entry],
    zone: &Zone,
    down: Option<Down>,
) -> Option<u64> {
    let down = down?;
    let has_started = note.starts > 0 || note.since.wall > down.loaded.saturating_add(WRITTEN);
    passed_minute(entries, zone, has_started, Some(down))
}
