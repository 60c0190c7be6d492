//! The head of a report on a launcher: as of when it is, whether the launcher runs, and which sources were read.

use crate::age::{AsOf, add_head as add_journal};
use crate::journal::reader::OpenJournal;
use crate::view::{LauncherView, Present};
use run_times::Page;
use status_page::{ENDING, StatusRead, add_head as add_file};

/// Adds the head. If the report is of now, `said` is which sources were read.
pub(crate) fn add_launcher(page: &mut Page<'_>, of: &LauncherView<'_>, said: &'static str) {
    match of.present {
        Present::Journal(journal, as_of, _) => {
            add_journal(page, as_of, journal.table.reading());
            page.writer.put(if is_of_now(as_of) { said } else { "" });
        }
        Present::File(standing, second, journal) => {
            add_file(page, standing, second);
            page.writer.put(if is_ending(standing, journal) {
                ENDING
            } else {
                ""
            });
            page.writer.put(said);
        }
    }
}

fn is_of_now(as_of: AsOf) -> bool {
    match as_of {
        AsOf::Seen(_, _, _) => true,
        AsOf::End(_) | AsOf::Moment { .. } => false,
    }
}

// Whether the launcher accepted a shutdown by the journal alone, and may be running. The file says it up to a second later.
fn is_ending(standing: &StatusRead, journal: Option<&OpenJournal>) -> bool {
    match journal {
        Some(journal) => {
            !standing.is_ending() && standing.may_live() && journal.table.is_shutting_down()
        }
        None => false,
    }
}
