//! The coming starts on a page.

use crate::journal::reader::OpenJournal;
use definition_files::calendar_after;
use history_model::Reading;
use job_table::JobTable;
use run_times::coming_second;
use run_times::picture::{Chart, Coming};
use status_page::can_start_again;
use std::alloc::{AllocError, Global};

/// The next start by the calendar and the next by the interval of each job of the chart that is loaded and can start again, in the order
/// of time.
pub(crate) fn coming_of(
    alloc: Global,
    journal: &OpenJournal,
    chart: &Chart,
) -> Result<Vec<Coming>, AllocError> {
    let now = journal.table.reading();
    let mut coming = Vec::new(alloc);
    for row in &chart.rows {
        let label = row.label.as_str();
        if let (Some(job), Some(reasons)) = (
            journal.past.jobs.get(label),
            journal.table.reasons(label),
        ) {
            if let (Some(def), true) = (&job.def, can_start_again(&reasons)) {
                let calendar = calendar_after(def.calendar(), &journal.zone, now.wall);
                add(alloc, label, "StartCalendarInterval", calendar, &mut coming)?;
                let interval = interval_end(&journal.table, label, now);
                add(alloc, label, "StartInterval", interval, &mut coming)?;
            }
        }
    }
    coming.sort_by_key(|start| start.at)?;
    Ok(coming)
}

fn add(
    alloc: Global,
    label: &str,
    key: &'static str,
    at: Option<u64>,
    coming: &mut Vec<Coming>,
) -> Result<(), AllocError> {
    if let Some(at) = at {
        let label = String::from_str(alloc, label)?;
        coming.push(Coming { label, at, key })?;
    }
    Ok(())
}

/// The second at which the present interval is over, if there is one.
pub(crate) fn interval_end(table: &JobTable, label: &str, now: Reading) -> Option<u64> {
    let up = table.moments(label)?.interval?;
    Some(coming_second(now, up))
}
