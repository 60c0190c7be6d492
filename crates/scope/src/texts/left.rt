//! The processes that runs left running.

use crate::joined::line_with;
use leftovers::RunProcess;
use run_times::Filling::{Number, Text};
use run_times::Page;
use status_page::StatusRead;

/// A line for each process that runs of the job left running.
pub(crate) fn add_left(page: &mut Page<'_>, label: &str, left: &[RunProcess]) {
    for process in left {
        if process.label.as_str() == label {
            add_process(page, process);
        }
    }
}

/// The same of labels of which the file has no job.
pub(crate) fn add_left_of_others(page: &mut Page<'_>, standing: &StatusRead, left: &[RunProcess]) {
    for process in left {
        let label = process.label.as_str();
        if line_with(standing.jobs(), label).is_none() {
            page.add(
                "\nProcess $ ($) of run $ of $, which is not loaded, still runs.\n",
                &[
                    Number(u64::from(process.pid)),
                    Text(process.name.as_str()),
                    Number(process.run),
                    Text(label),
                ],
            );
        }
    }
}

fn add_process(page: &mut Page<'_>, process: &RunProcess) {
    page.add(
        "  Process $ ($) of its run $ still runs.\n",
        &[
            Number(u64::from(process.pid)),
            Text(process.name.as_str()),
            Number(process.run),
        ],
    );
}
