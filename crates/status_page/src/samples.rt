//! What a monitor reads of a launcher and its jobs: the facts of the rows of `status`, as samples.

ghost use Rattle.std.specs.Prelude.{◌≡◌, ◌≤◌, is_some};
ghost use Rattle.history_model.specs.declared.TheConstants.{MAX_UP, MAX_WALL};
ghost use Rattle.status_page.specs.Samples.{end_second, exit_told, journal_flag, next_told, success_second, up_flag, with_count};

use crate::clocks::StartWhen;
use crate::counts::{RunCount, RunCounts};
use crate::rows::{Next, StatusRow};
use crate::standing::StatusRead;
use crate::table::{reading_of, row_in, told_row};
use crate::throttles::{ThrottleEnd, second_told};
use crate::usage::{Usage, usage_of};
use calendar_due::Zone;
use history_model::{Ended, Reading, Text};
use job_metrics::{JobSample, LauncherSample, metrics};
use launcher_life::Life;
use status_file::{JobNote, JournalStatus, RunEnd, StatusLine};
use std::alloc::{AllocError, Global};

/// The samples of a status file as of a second: of the named jobs, or of all if none is named. With `counts` their counts are these.
pub fn samples_text(
    host: &HostRuntime,
    alloc: Global,
    standing: &StatusRead,
    labels: &[Text],
    second: u64,
    counts: Option<&RunCounts>,
) -> Result<String, AllocError> {
    let zone = standing.zone(alloc, false)?;
    let samples = samples_of(host, alloc, standing, labels, &zone, second, counts);
    drop(zone);
    let samples = samples?;
    let text = match standing.launcher() {
        Some(launcher) => {
            let sample = LauncherSample {
                is_up: up_flag(standing.seen.life),
                journal_is_open: journal_flag(launcher.journal),
                told: standing.renewed.unwrap_or(launcher.at.wall),
                left_out: standing.count_left_out(),
                counted_since: match counts {
                    Some(counts) => Some(counts.since),
                    None => None,
                },
                failed_calls: launcher.failed_calls,
            };
            metrics(alloc, &sample, samples.as_slice())
        }
        None => Ok(String::new(alloc)),
    };
    drop(samples);
    text
}

/// Whether a launcher is up, if that is known: it runs, is stopped by a signal, or hangs.
pub fn up_flag(life: Life) -> Option<bool>
    ensures { result ≡ up_flag life }
{
    match life {
        Life::Runs | Life::Stopped | Life::Silent(_) => Some(true),
        Life::Exited | Life::Killed => Some(false),
        Life::NotSeen | Life::Unknown => None,
    }
}

/// Whether a journal is open, if one is written.
pub fn journal_flag(journal: JournalStatus<'_>) -> Option<bool>
    ensures { result ≡ journal_flag journal.entry }
{
    match journal {
        JournalStatus::None => None,
        JournalStatus::Open => Some(true),
        JournalStatus::Closed(_) => Some(false),
    }
}

/// The sample of a job, by its row, what was heard of its runs, and whether its label is disabled.
pub fn sample_of<'a>(row: &StatusRow<'a>, note: &JobNote<'_>, is_disabled: bool) -> JobSample<'a>
    ensures label { result.label ≡ row.now.label }
    ensures running { result.is_running ≡ is_some row.now.process }
    ensures starts { result.starts ≡ row.now.starts }
    ensures failures { result.failures ≡ row.now.failures }
    ensures refusals { result.refusals ≡ row.now.refusals }
    ensures last_end { result.last_end ≡ end_second note.now.last_end }
    ensures next { result.next_start ≡ next_told row.now.throttle row.now.next }
    ensures success { result.last_success ≡ success_second note.now.succeeded }
    ensures exit { result.last_exit ≡ exit_told note.now.last_end }
    ensures disabled { result.is_disabled ≡ is_disabled }
{
    let (resident, processor) = taken_by(row.usage);
    JobSample {
        label: row.label,
        is_running: row.process.is_some(),
        starts: row.starts,
        failures: row.failures,
        refusals: row.refusals,
        last_end: end_second(note.last_end),
        next_start: next_told(row.throttle, row.next),
        last_success: success_second(note.succeeded),
        last_exit: exit_told(note.last_end),
        resident,
        processor,
        is_disabled,
    }
}

// The count of a label, if labels are counted.
fn count_in(counts: Option<&RunCounts>, label: &str) -> Option<RunCount> {
    match counts {
        Some(counts) => counts.of(label),
        None => None,
    }
}

/// The sample with this count in place of that of the job's load, and with the last success before the load, if there was none since. None: it
/// stays.
pub fn with_count<'a>(sample: JobSample<'a>, count: Option<RunCount>) -> JobSample<'a>
    ensures { result ≡ with_count sample.entry count }
{
    match count {
        Some(count) => {
            let mut counted = sample;
            counted.starts = count.starts;
            counted.failures = count.failures;
            counted.refusals = count.refusals;
            counted.last_success = sample.last_success.or(count.succeeded);
            counted
        }
        None => sample,
    }
}

// The bytes in memory, and the whole seconds of processor time.
fn taken_by(usage: Option<Usage>) -> (Option<u64>, Option<u64>) {
    match usage {
        Some(usage) => (Some(usage.resident), Some(usage.processor / 1_000)),
        None => (None, None),
    }
}

fn success_second(at: Option<Reading>) -> Option<u64>
    ensures { result ≡ success_second at }
{
    match at {
        Some(at) => Some(at.wall),
        None => None,
    }
}

// The exit code; for an exit by a signal 128 and its number, as a shell reports it.
fn exit_told(end: Option<RunEnd>) -> Option<u64>
    ensures { result ≡ exit_told end }
{
    match end {
        Some(end) => match end.how {
            Ended::Code(code) => Some(u64::from(code)),
            Ended::Signal(signal) => Some(128 + u64::from(signal)),
        },
        None => None,
    }
}

fn end_second(end: Option<RunEnd>) -> Option<u64>
    ensures { result ≡ end_second end }
{
    match end {
        Some(end) => Some(end.ended.wall),
        None => None,
    }
}

// The second to show for a start by time alone, also for one that is overdue.
fn next_told(throttle: Option<ThrottleEnd>, next: Next) -> Option<u64>
    ensures { result ≡ next_told throttle next }
{
    match next {
        Next::Clock(StartWhen::Since(second)) => Some(second_told(throttle, second)),
        Next::Clock(StartWhen::At(second)) => Some(second_told(throttle, second)),
        _ => None,
    }
}

fn samples_of<'a>(
    host: &HostRuntime,
    alloc: Global,
    standing: &'a StatusRead,
    labels: &[Text],
    zone: &Zone,
    second: u64,
    counts: Option<&RunCounts>,
) -> Result<Vec<JobSample<'a>>, AllocError> {
    let at = reading_of(standing);
    let mut samples = Vec::new(alloc);
    for line in standing.jobs() {
        let sample = sample_in(
            host,
            alloc,
            standing,
            line,
            labels,
            zone,
            standing.may_live(),
            at,
            second,
        )?;
        if let Some(sample) = sample {
            samples.push(with_count(sample, count_in(counts, sample.label)))?;
        }
    }
    Ok(samples)
}

// The sample of a line, if its job is asked for.
fn sample_in<'a>(
    host: &HostRuntime,
    alloc: Global,
    standing: &StatusRead,
    line: &'a StatusLine,
    labels: &[Text],
    zone: &Zone,
    may_live: bool,
    at: Reading,
    second: u64,
) -> Result<Option<JobSample<'a>>, AllocError>
    requires up { at.up ≤ MAX_UP }
    requires wall { at.wall ≤ MAX_WALL }
{
    let row = row_in(alloc, line, labels, zone, may_live, at, second)?;
    Ok(match (row, line.job()) {
        (Some(row), Ok(job)) => {
            let mut row = told_row(row, standing.foretells());
            if let (Some(_), Some(launcher)) = (row.process, standing.launcher()) {
                row.usage = usage_of(host, alloc, &launcher, &job);
            }
            Some(sample_of(&row, &job.note, job.disabled.is_some()))
        }
        _ => None,
    })
}
