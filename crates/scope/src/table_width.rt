//! How wide the table of `status` is.

ghost use Rattle.std.specs.Prelude.{◌≡◌, ◌≤◌};
ghost use Rattle.scope.specs.TableWidths.{label_room};

use history_model::Text;
use run_times::picture::columns_of;
use status_page::{StatusRead, is_asked, width_of};
use std::alloc::Global;
use std::env;
use std::io::IsTerminal;

/// How many columns the table has after its labels.
const OTHERS: u16 = 65;

/// From this number of columns on it has those of memory and processor time too.
const WIDE: u16 = 90;

/// How many columns these take.
const TAKEN: u16 = 13;

/// How many columns a label has at most: one of 255 bytes has fewer.
const LONGEST: u16 = 1_000;

/// How many columns the table has: those of `COLUMNS` or of the terminal. If it is written elsewhere and the variable is absent, 80, or more if a label
/// would be cut.
pub(crate) fn table_columns(
    host: &HostRuntime,
    alloc: Global,
    standing: &StatusRead,
    labels: &[Text],
) -> u16 {
    let columns = width_of(host, alloc);
    if host.stdout().is_terminal() || names_columns(host) {
        return columns;
    }
    let widest = widest_label(standing, labels);
    if widest <= LONGEST {
        columns_for(widest).max(columns)
    } else {
        columns
    }
}

fn names_columns(host: &HostRuntime) -> bool {
    match env::var(host, "COLUMNS") {
        Ok(text) => match text.as_str().parse::<u16>() {
            Ok(columns) => columns > 0,
            Err(_) => false,
        },
        Err(_) => false,
    }
}

// How many columns the widest label has that is asked for.
fn widest_label(standing: &StatusRead, labels: &[Text]) -> u16 {
    let mut widest: usize = 0;
    for line in standing.jobs() {
        if let Ok(job) = line.job() {
            if is_asked(labels, job.label) {
                widest = columns_of(job.label).max(widest);
            }
        }
    }
    u16::try_from(widest).unwrap_or(LONGEST)
}

// The least width in which a label of this width is not cut.
fn columns_for(label: u16) -> u16
    requires { label ≤ 1_000 }
    ensures { label ≤ label_room result }
{
    let columns = label + OTHERS;
    if columns < WIDE {
        columns
    } else {
        columns + TAKEN
    }
}
