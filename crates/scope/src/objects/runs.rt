//! What the runs of each job came to, an object a job.

use crate::journal::job::KeptJob;
use crate::journal::past::Past;
use crate::objects::lines::{number_of, text_of};
use crate::texts::runs::{asked_jobs, lengths, median_of, refusal_of};
use calendar_due::Zone;
use history_model::{Reading, Text};
use json_lines::Value::Number;
use json_lines::{Field, put_line};
use run_times::Page;
use status_page::StatusRead;
use std::alloc::{AllocError, Global};

/// An object for each row of `runs_table`, in order, with the same counts; spans are in milliseconds.
pub(crate) fn runs_objects(
    alloc: Global,
    past: &Past,
    standing: Option<&StatusRead>,
    zone: &Zone,
    now: Reading,
    labels: &[Text],
) -> Result<String, AllocError> {
    let lengths = lengths(alloc, past, now)?;
    let mut page = Page::new(alloc, zone, now);
    match asked_jobs(alloc, past, labels) {
        Ok(jobs) => {
            for (label, job) in &jobs {
                let reason = refusal_of(*job, *label, standing);
                put_job(&mut page, lengths.as_slice(), *label, *job, reason);
            }
            drop(jobs);
        }
        Err(_) => page.writer.refuse(),
    }
    drop(lengths);
    page.into_text()
}

fn put_job(
    page: &mut Page<'_>,
    lengths: &[(u64, u64)],
    label: &str,
    job: &KeptJob,
    reason: Option<&str>,
) {
    let totals = job.record.totals_at(job.def.is_some(), page.now);
    let has_ended = totals.shortest <= totals.longest;
    let (shortest, longest) = if has_ended {
        (Some(totals.shortest), Some(totals.longest))
    } else {
        (None, None)
    };
    let fields = [
        Field("starts", Number(totals.starts)),
        Field("refused", Number(totals.refused)),
        Field("codes", Number(totals.codes)),
        Field("signals", Number(totals.signals)),
        Field("crashes", Number(totals.crashes)),
        Field("nonzero", Number(totals.nonzero)),
        Field("shortest_ms", number_of(shortest)),
        Field(
            "median_ms",
            number_of(median_of(lengths, job.record.serial)),
        ),
        Field("longest_ms", number_of(longest)),
        Field("up_ms", Number(totals.lived)),
        Field("loaded_ms", Number(totals.loaded)),
        Field("gap_ms", Number(totals.gap)),
        Field("failed", Number(totals.failed)),
        Field("reason", text_of(reason)),
    ];
    put_line(page, "label", label, &fields);
}
