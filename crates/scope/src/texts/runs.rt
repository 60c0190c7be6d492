//! What the runs of each job came to, in columns with a tab between them.

use crate::joined::reason_beside;
use crate::journal::job::{KeptJob, Totals};
use crate::journal::past::Past;
use crate::journal::run::RunEnd;
use crate::texts::log::is_named;
use history_model::{Reading, Text};
use run_times::{Piece, TextWriter};
use status_page::StatusRead;
use std::alloc::{AllocError, Global};

const HEAD: &str =
    "label\tstarts\trefused\tcode\tsignal\tcrashes\tshortest\tmedian\tlongest\tup\tgap\tnonzero\tfailed\treason\n";

/// A head, and a line for each job, or for each of the named ones that the journal has. Its first columns are starts, refused starts, exits
/// with a code and by a signal, and crashes. Then come the shortest, median and longest run in seconds. The median is that of the completed
/// runs that are kept; of an even number it is the lower of the two in the middle. Then come the share of the time that the job was up
/// while it was loaded, and the longest time without a run in seconds. Then come the exits with a code above 0, and the runs that failed. The last
/// column is why the last start of a load was refused that was, by the status file of the journal's launcher, if that was read. `-` means that there is no
/// value.
pub(crate) fn runs_table(
    alloc: Global,
    past: &Past,
    standing: Option<&StatusRead>,
    now: Reading,
    labels: &[Text],
) -> Result<String, AllocError> {
    let lengths = lengths(alloc, past, now)?;
    let mut writer = TextWriter::new(alloc);
    writer.put(HEAD);
    match asked_jobs(alloc, past, labels) {
        Ok(jobs) => {
            for (label, job) in &jobs {
                let reason = refusal_of(*job, *label, standing);
                add_row(&mut writer, now, lengths.as_slice(), *label, *job, reason);
            }
            drop(jobs);
        }
        Err(_) => writer.refuse(),
    }
    drop(lengths);
    writer.into_text()
}

/// Why the last refused start of the job's last load was refused, as far as the status file has it.
pub(crate) fn refusal_of<'a>(
    job: &KeptJob,
    label: &str,
    standing: Option<&'a StatusRead>,
) -> Option<&'a str> {
    let start = job.record.log.facts().refused?;
    reason_beside(standing, label, start.run, start.at)
}

/// Whether a start of one of the jobs of the rows was refused.
pub(crate) fn has_refused(past: &Past, labels: &[Text]) -> bool {
    for (label, job) in &past.jobs {
        if is_named(labels, label.as_str()) && job.record.log.facts().refused.is_some() {
            return true;
        }
    }
    false
}

/// The jobs of the rows: all, or those named, in the order of the arguments.
pub(crate) fn asked_jobs<'a>(
    alloc: Global,
    past: &'a Past,
    labels: &'a [Text],
) -> Result<Vec<(&'a str, &'a KeptJob)>, AllocError> {
    let mut jobs = Vec::new(alloc);
    if labels.is_empty() {
        for (label, job) in &past.jobs {
            jobs.push((label.as_str(), job))?;
        }
    }
    for label in labels {
        let label = label.as_str();
        if let Some(job) = past.jobs.get(label) {
            jobs.push((label, job))?;
        }
    }
    Ok(jobs)
}

/// The job of each run that is kept, and how long it ran, in rising order.
pub(crate) fn lengths(
    alloc: Global,
    past: &Past,
    now: Reading,
) -> Result<Vec<(u64, u64)>, AllocError> {
    let mut lengths = Vec::new(alloc);
    for run in &past.runs {
        match run.end {
            RunEnd::Refused => {}
            _ => lengths.push((run.job, run.lived(now)))?,
        }
    }
    lengths.sort_unstable();
    Ok(lengths)
}

fn add_row(
    writer: &mut TextWriter,
    now: Reading,
    lengths: &[(u64, u64)],
    label: &str,
    job: &KeptJob,
    reason: Option<&str>,
) {
    let totals = job.record.totals_at(job.def.is_some(), now);
    writer.put_plain(label);
    add_counts(writer, &totals);
    add_lengths(writer, lengths, job.record.serial, &totals);
    add_share(writer, totals.lived, totals.loaded);
    add_seconds(writer, totals.gap);
    writer.put_all(&[
        Piece::Text("\t"),
        Piece::Number(totals.nonzero),
        Piece::Text("\t"),
        Piece::Number(totals.failed),
        Piece::Text("\t"),
        Piece::Text(reason.unwrap_or("-")),
        Piece::Text("\n"),
    ]);
}

fn add_counts(writer: &mut TextWriter, totals: &Totals) {
    let counts = [
        totals.starts,
        totals.refused,
        totals.codes,
        totals.signals,
        totals.crashes,
    ];
    for count in counts.iter() {
        writer.put("\t");
        writer.put_number(*count);
    }
}

// The shortest of the job, the median of those that are kept, and the longest.
fn add_lengths(writer: &mut TextWriter, lengths: &[(u64, u64)], job: u64, totals: &Totals) {
    let has_ended = totals.shortest <= totals.longest;
    add_known(writer, has_ended, totals.shortest);
    match median_of(lengths, job) {
        Some(length) => add_seconds(writer, length),
        None => writer.put("\t-"),
    }
    add_known(writer, has_ended, totals.longest);
}

/// The median of those of the job that are kept.
pub(crate) fn median_of(lengths: &[(u64, u64)], job: u64) -> Option<u64> {
    let from = first_from(lengths, job);
    let to = first_from(lengths, job.saturating_add(1));
    let own = lengths.get(from..to).unwrap_or(&[]);
    match own.get(own.len().saturating_sub(1) / 2) {
        Some((_, length)) => Some(*length),
        None => None,
    }
}

// The span, if there is one.
fn add_known(writer: &mut TextWriter, is_known: bool, milliseconds: u64) {
    if is_known {
        add_seconds(writer, milliseconds);
    } else {
        writer.put("\t-");
    }
}

// Where the lengths of the job begin, or the lengths of the next job that has some.
fn first_from(lengths: &[(u64, u64)], job: u64) -> usize {
    lengths.partition_point(|of| of.0 < job)
}

// Seconds with three digits after the point.
fn add_seconds(writer: &mut TextWriter, milliseconds: u64) {
    let rest = milliseconds % 1000;
    writer.put_all(&[
        Piece::Text("\t"),
        Piece::Number(milliseconds / 1000),
        Piece::Text("."),
        Piece::Number(rest / 100),
        Piece::Number(rest / 10 % 10),
        Piece::Number(rest % 10),
    ]);
}

fn add_share(writer: &mut TextWriter, lived: u64, loaded: u64) {
    if loaded == 0 {
        return writer.put("\t-");
    }
    let share = lived.saturating_mul(1000) / loaded;
    writer.put_all(&[
        Piece::Text("\t"),
        Piece::Number(share / 10),
        Piece::Text("."),
        Piece::Number(share % 10),
        Piece::Text("%"),
    ]);
}
