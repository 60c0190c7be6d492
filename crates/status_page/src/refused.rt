//! The starts that the system refused, as lines below the table of `status`.

ghost use Rattle.std.specs.Prelude.{◌≡◌, ◌==◌, ◌&&◌, nat_lt};

use crate::failing::is_start_refused;
use crate::standing::StatusRead;
use crate::table::is_asked;
use history_model::Text;
use run_times::Filling::{Number, Text as Words, Time};
use run_times::Page;
use status_file::{JobNote, JobStatus, RefusedStart};

/// Adds a line for each job of the file, or for each of those named, whose last start was refused: when, and why.
pub(crate) fn add_refused_starts(page: &mut Page<'_>, standing: &StatusRead, labels: &[Text]) {
    for line in standing.jobs() {
        match line.job() {
            Ok(job) if is_asked(labels, job.label) => add_if_refused(page, &job),
            _ => {}
        }
    }
}

fn add_if_refused(page: &mut Page<'_>, job: &JobStatus<'_>) {
    let is_running = job.facts.reasons.child.is_some();
    match (job.note.refused, is_start_refused(&job.note, is_running)) {
        (Some(start), true) => add_start(page, job, start),
        _ => {}
    }
}

fn add_start<'a>(page: &mut Page<'_>, job: &JobStatus<'a>, start: RefusedStart<'a>) {
    let label = Words(job.label);
    let at = Time(start.at.wall);
    let reason = Words(start.reason.unwrap_or("the reason is not known"));
    if never_began(&job.note) {
        let form = "$: each of its $ starts was refused, the last at $: $\n";
        page.add(form, &[label, Number(job.note.starts), at, reason]);
    } else {
        page.add(
            "$: its last start was refused, at $: $\n",
            &[label, at, reason],
        );
    }
}

// Whether each of several starts was refused.
fn never_began(note: &JobNote<'_>) -> bool
    ensures { result ≡ (nat_lt 1 note.now.starts && note.now.starts == note.now.refusals) }
{
    note.starts > 1 && note.starts == note.refusals
}
