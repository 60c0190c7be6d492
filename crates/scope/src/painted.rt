//! The picture of a journal, alone or on a page with what is failing, the table of runs and why each job runs or not.

use crate::age::AsOf;
use crate::charted::chart_of;
use crate::errors::{FailedRun, add_errors};
use crate::journal::reader::OpenJournal;
use crate::journal_end::reasons_beside;
use crate::listener::JournalListener;
use crate::page::coming_of;
use crate::texts::failing::failing_text;
use crate::texts::runs::runs_table;
use crate::texts::why::why_text;
use crate::view::LauncherView;
use calendar_due::Zone;
use history_model::Text;
use launchctl_words::PictureWords;
use run_times::TextWriter;
use run_times::picture::{Beside, Chart, blocks_text, picture_piece};
use run_times::telling::put_made;
use status_page::width_of;
use std::alloc::{AllocError, Global};
use std::io;
use std::io::IsTerminal;

/// Writes the picture that the arguments ask for.
pub(crate) fn paint(
    host: &HostRuntime,
    alloc: Global,
    journal: &OpenJournal,
    zone: &Zone,
    listener: &JournalListener<'_>,
    picture: &PictureWords,
    as_of: AsOf,
) -> io::Result<()> {
    let labels = listener.of.words.as_slice();
    let chart = chart_of(alloc, &journal.past, &listener.received)?;
    let painted = if picture.is_page {
        paint_page(host, alloc, journal, zone, &chart, labels, as_of)
    } else if host.stdout().is_terminal() {
        put_made(
            host,
            blocks_text(alloc, zone, &chart, width_of(host, alloc)),
        )
    } else {
        put_pieces(host, alloc, zone, &chart, None)
    };
    drop(chart);
    painted
}

fn paint_page<'x>(
    host: &HostRuntime,
    alloc: Global,
    journal: &'x OpenJournal,
    zone: &'x Zone,
    chart: &Chart,
    labels: &'x [Text],
    as_of: AsOf,
) -> io::Result<()> {
    let standing = reasons_beside(host, alloc, journal, labels)?;
    let last = journal.table.reading();
    let made = runs_table(alloc, &journal.past, standing.as_ref(), last, labels);
    drop(standing);
    let table = made?;
    let view = LauncherView::by_journal(journal, as_of, None, &[], zone);
    let why = why_of(alloc, &view, labels)?;
    let coming = if as_of.foretells() {
        coming_of(alloc, journal, chart)?
    } else {
        Vec::new(alloc)
    };
    let failing = failing_front(alloc, &view, labels)?;
    let beside = Some(Beside {
        failing: failing.as_str(),
        table: table.as_str(),
        why: why.as_str(),
        coming: coming.as_slice(),
    });
    put_pieces(host, alloc, zone, chart, beside.as_ref())
}

// Why each job runs or not, for a page.
fn why_of<'x>(
    alloc: Global,
    view: &LauncherView<'x>,
    labels: &'x [Text],
) -> Result<String, AllocError> {
    let mut failed = Vec::new(alloc);
    let text = why_text(alloc, view, labels, &mut failed);
    drop(failed);
    text
}

// The jobs that fail, and where their errors went; nothing if none does.
fn failing_front(
    alloc: Global,
    view: &LauncherView<'_>,
    labels: &[Text],
) -> Result<String, AllocError> {
    let mut failed = Vec::new(alloc);
    let made = failing_text(alloc, view, labels, &mut failed);
    let front = front_with(alloc, made, failed.as_slice());
    drop(failed);
    front
}

fn front_with(
    alloc: Global,
    made: Result<(String, u64), AllocError>,
    failed: &[FailedRun<'_>],
) -> Result<String, AllocError> {
    let (text, count) = made?;
    let mut writer = TextWriter::new(alloc);
    if count > 0 {
        writer.put(text.as_str());
        for run in failed {
            add_errors(&mut writer, run);
            writer.put("\n");
        }
    }
    drop(text);
    writer.into_text()
}

// Writes the page with the text around the picture, or the picture alone: piece by piece, so that its whole text is never held.
fn put_pieces(
    host: &HostRuntime,
    alloc: Global,
    zone: &Zone,
    chart: &Chart,
    beside: Option<&Beside<'_>>,
) -> io::Result<()> {
    for index in 0..chart.rows.len().saturating_add(2) {
        put_made(host, picture_piece(alloc, zone, chart, beside, index))?;
    }
    Ok(())
}
