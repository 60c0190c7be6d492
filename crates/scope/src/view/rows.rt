//! Which labels of a launcher a report has, and in which order.

use crate::joined::{LabelNow, line_with};
use crate::journal::reader::OpenJournal;
use crate::view::by_file::job_by_file;
use crate::view::by_journal::{label_by_journal, unbound};
use crate::view::{JobView, LabelView, LauncherView, Present};
use history_model::Text;
use status_file::{BindStatus, MOST_BINDS, StatusLine};
use status_page::{StatusRead, is_asked, reading_of};
use std::alloc::{AllocError, Global};

/// One of them.
#[derive(Clone, Copy)]
pub(crate) enum Row<'a> {
    /// A job of the status file.
    Line(&'a StatusLine),
    /// A label of the journal, with the line of its job in the status file, if there is one.
    Label(&'a str, Option<&'a StatusLine>),
    /// A label of which the status file says that its sockets could not be bound.
    Unbound(BindStatus<'a>),
}

/// The labels of which something is known, or those that are named. By a status file they are its jobs, and then what the journal alone has. By a journal
/// they are the loaded jobs, and then the others; or the named ones in the order of the arguments.
pub(crate) fn rows_of<'a>(
    alloc: Global,
    of: &LauncherView<'a>,
    labels: &'a [Text],
) -> Result<Vec<Row<'a>>, AllocError> {
    let mut rows = Vec::new(alloc);
    let added = match of.present {
        Present::Journal(journal, _, standing) => {
            add_known(alloc, journal, labels, standing, true, &mut rows)
        }
        Present::File(standing, _, beside) => {
            let lines = add_lines(standing, labels, &mut rows);
            let others = match beside {
                Some(journal) => add_known(
                    alloc,
                    journal,
                    labels,
                    Some(standing),
                    false,
                    &mut rows,
                ),
                None => add_unbound(standing, labels, &mut rows),
            };
            lines.and(others)
        }
    };
    given(rows, added)
}

// The labels whose sockets could not be bound, and that have no job.
fn add_unbound<'a>(
    standing: &'a StatusRead,
    labels: &[Text],
    rows: &mut Vec<Row<'a>>,
) -> Result<(), AllocError> {
    for place in 0..MOST_BINDS {
        if let Some(bind) = standing.bind_at(place) {
            if is_asked(labels, bind.label) && !is_loaded(standing, bind.label) {
                rows.push(Row::Unbound(bind))?;
            }
        }
    }
    Ok(())
}

// Whether the file has a job of this label, which was asked for.
fn is_loaded(standing: &StatusRead, label: &str) -> bool {
    line_with(standing.jobs(), label).is_some()
}

/// The loaded jobs, or those that are named, by rising bytes of their labels. Those follow that the journal alone has: they were loaded since the status
/// file was written.
pub(crate) fn loaded_rows<'a>(
    alloc: Global,
    of: &LauncherView<'a>,
    labels: &[Text],
) -> Result<Vec<Row<'a>>, AllocError> {
    let mut rows = Vec::new(alloc);
    let added = match of.present {
        Present::Journal(journal, _, standing) => {
            add_loaded(alloc, journal, labels, standing, true, &mut rows)
        }
        Present::File(standing, _, beside) => {
            let lines = add_lines(standing, labels, &mut rows);
            let others = match beside {
                Some(journal) => add_loaded(
                    alloc,
                    journal,
                    labels,
                    Some(standing),
                    false,
                    &mut rows,
                ),
                None => Ok(()),
            };
            lines.and(others)
        }
    };
    given(rows, added)
}

fn given<'a>(
    rows: Vec<Row<'a>>,
    added: Result<(), AllocError>,
) -> Result<Vec<Row<'a>>, AllocError> {
    match added {
        Ok(()) => Ok(rows),
        Err(error) => {
            drop(rows);
            Err(error)
        }
    }
}

// The jobs of the file.
fn add_lines<'a>(
    standing: &'a StatusRead,
    labels: &[Text],
    rows: &mut Vec<Row<'a>>,
) -> Result<(), AllocError> {
    for line in standing.jobs() {
        if let Ok(job) = line.job() {
            if is_asked(labels, job.label) {
                rows.push(Row::Line(line))?;
            }
        }
    }
    Ok(())
}

// The labels of which the journal has something; if not `is_both`, only those of which the status file has no job.
fn add_known<'a>(
    alloc: Global,
    journal: &'a OpenJournal,
    labels: &'a [Text],
    standing: Option<&'a StatusRead>,
    is_both: bool,
    rows: &mut Vec<Row<'a>>,
) -> Result<(), AllocError> {
    let asked = asked_labels(alloc, journal, labels)?;
    let added = add_all(alloc, asked.as_slice(), standing, is_both, rows);
    drop(asked);
    added
}

// The same of its loaded jobs.
fn add_loaded<'a>(
    alloc: Global,
    journal: &'a OpenJournal,
    labels: &[Text],
    standing: Option<&'a StatusRead>,
    is_both: bool,
    rows: &mut Vec<Row<'a>>,
) -> Result<(), AllocError> {
    let loaded = loaded_labels(alloc, journal, labels)?;
    let added = add_all(alloc, loaded.as_slice(), standing, is_both, rows);
    drop(loaded);
    added
}

fn add_all<'a>(
    alloc: Global,
    labels: &[&'a str],
    standing: Option<&'a StatusRead>,
    is_both: bool,
    rows: &mut Vec<Row<'a>>,
) -> Result<(), AllocError> {
    let in_file = labels_in(alloc, standing)?;
    let added = add_each(labels, standing, in_file.as_slice(), is_both, rows);
    drop(in_file);
    added
}

fn add_each<'a>(
    labels: &[&'a str],
    standing: Option<&'a StatusRead>,
    in_file: &[&str],
    is_both: bool,
    rows: &mut Vec<Row<'a>>,
) -> Result<(), AllocError> {
    for label in labels {
        let line = line_of(standing, in_file, *label);
        if is_both || line.is_none() {
            rows.push(Row::Label(*label, line))?;
        }
    }
    Ok(())
}

// The line of the job with this label, by the labels of all lines, which rise.
fn line_of<'a>(
    standing: Option<&'a StatusRead>,
    in_file: &[&str],
    label: &str,
) -> Option<&'a StatusLine> {
    let place = in_file.partition_point(|other| is_less(*other, label));
    match (standing, in_file.get(place)) {
        (Some(standing), Some(found)) if *found == label => standing.jobs().get(place),
        _ => None,
    }
}

fn is_less(one: &str, other: &str) -> bool {
    one < other
}

// The labels of the lines of the file's jobs, each of which was read whole before.
fn labels_in<'a>(
    alloc: Global,
    standing: Option<&'a StatusRead>,
) -> Result<Vec<&'a str>, AllocError> {
    let mut labels = Vec::new(alloc);
    let lines = match standing {
        Some(standing) => standing.jobs(),
        None => &[],
    };
    for line in lines {
        labels.push(label_of(line))?;
    }
    Ok(labels)
}

fn label_of<'a>(line: &'a StatusLine) -> &'a str {
    match line.job() {
        Ok(job) => job.label,
        Err(_) => "",
    }
}

// The loaded jobs of the journal, or those that are named.
fn loaded_labels<'a>(
    alloc: Global,
    journal: &'a OpenJournal,
    labels: &[Text],
) -> Result<Vec<&'a str>, AllocError> {
    let mut loaded = Vec::new(alloc);
    for (label, job) in &journal.past.jobs {
        let label = label.as_str();
        if job.def.is_some() && is_asked(labels, label) {
            loaded.push(label)?;
        }
    }
    Ok(loaded)
}

// The labels to report: the known ones of those named. If none is named, each that is loaded, and then each other of which something is known.
fn asked_labels<'a>(
    alloc: Global,
    journal: &'a OpenJournal,
    labels: &'a [Text],
) -> Result<Vec<&'a str>, AllocError> {
    let mut asked = Vec::new(alloc);
    for label in labels {
        if is_known(journal, label.as_str()) {
            asked.push(label.as_str())?;
        }
    }
    if labels.is_empty() {
        add_labels(journal, &mut asked)?;
    }
    Ok(asked)
}

fn add_labels<'a>(journal: &'a OpenJournal, asked: &mut Vec<&'a str>) -> Result<(), AllocError> {
    for (label, job) in &journal.past.jobs {
        if job.def.is_some() {
            asked.push(label.as_str())?;
        }
    }
    for (label, _) in &journal.past.labels.items {
        if journal.facts(label.as_str()).is_none() {
            asked.push(label.as_str())?;
        }
    }
    Ok(())
}

/// Whether something is reported of the label: it is or was loaded, a setting disables it, or its last load was refused.
pub(crate) fn is_known(journal: &OpenJournal, label: &str) -> bool {
    journal.past.jobs.get(label).is_some() || journal.past.labels.items.get(label).is_some()
}

/// What is known of the label of a row.
pub(crate) fn view_of<'a>(
    alloc: Global,
    of: &LauncherView<'a>,
    row: Row<'a>,
) -> Result<Option<LabelView<'a>>, AllocError> {
    match (row, of.journal(), of.standing()) {
        (Row::Label(label, line), Some(journal), standing) => {
            let file = now_in(standing, line);
            Ok(Some(label_by_journal(of, journal, label, file)))
        }
        (Row::Unbound(bind), _, _) => Ok(Some(unbound(bind))),
        (Row::Line(line), _, Some(standing)) => match job_of(alloc, of, standing, line)? {
            Some(job) => Ok(Some(LabelView::Loaded(job))),
            None => Ok(None),
        },
        _ => Ok(None),
    }
}

/// The same of a job that is loaded; None of a label without one.
pub(crate) fn loaded_of<'a>(
    alloc: Global,
    of: &LauncherView<'a>,
    row: Row<'a>,
) -> Result<Option<JobView<'a>>, AllocError> {
    match view_of(alloc, of, row)? {
        Some(LabelView::Loaded(job)) => Ok(Some(job)),
        Some(LabelView::Unloaded(_)) | None => Ok(None),
    }
}

// Of a line that was read whole before.
fn job_of<'a>(
    alloc: Global,
    of: &LauncherView<'a>,
    standing: &'a StatusRead,
    line: &'a StatusLine,
) -> Result<Option<JobView<'a>>, AllocError> {
    let Ok(job) = line.job() else {
        return Ok(None);
    };
    match line.calendar(alloc) {
        Ok(entries) => {
            let view = job_by_file(of, standing, line, &job, entries.as_slice());
            drop(entries);
            Ok(Some(view))
        }
        Err(_) => Err(AllocError),
    }
}

// What the status file says of the label of a line.
fn now_in<'a>(
    standing: Option<&'a StatusRead>,
    line: Option<&'a StatusLine>,
) -> Option<LabelNow<'a>> {
    let at = reading_of(standing?);
    match line?.job() {
        Ok(job) => Some(LabelNow::of(&job, at)),
        Err(_) => None,
    }
}
