//! A label that nothing has, and those near it.

use crate::journal::reader::OpenJournal;
use near_labels::Near;
use run_times::TextWriter;
use status_page::StatusRead;
use std::alloc::{AllocError, Global};

/// That nothing has the label, and which are near it.
pub(crate) fn unknown_text(
    alloc: Global,
    journal: &OpenJournal,
    label: &str,
) -> Result<String, AllocError> {
    let mut near = Near::to(alloc, label);
    let found = find(alloc, journal, label, &mut near);
    unknown_beside(alloc, label, near, found)
}

/// The same of a launcher's file.
pub(crate) fn unknown_in(
    alloc: Global,
    standing: &StatusRead,
    label: &str,
) -> Result<String, AllocError> {
    let mut near = Near::to(alloc, label);
    let found = find_in(alloc, standing, label, &mut near);
    unknown_beside(alloc, label, near, found)
}

fn unknown_beside(
    alloc: Global,
    label: &str,
    near: Near<'_>,
    found: Result<(), AllocError>,
) -> Result<String, AllocError> {
    let mut writer = TextWriter::new(alloc);
    if found.is_err() {
        writer.refuse();
    }
    writer.put("nothing here names ");
    writer.put_plain(label);
    let mut between = "; near it: ";
    for other in near.labels() {
        writer.put(between);
        writer.put_plain(*other);
        between = ", ";
    }
    drop(near);
    writer.into_text()
}

fn find<'a>(
    alloc: Global,
    journal: &'a OpenJournal,
    label: &str,
    near: &mut Near<'a>,
) -> Result<(), AllocError> {
    for (other, _) in &journal.past.jobs {
        near.compare(alloc, label, other.as_str())?;
    }
    for (other, _) in &journal.past.labels.items {
        if journal.past.jobs.get(other.as_str()).is_none() {
            near.compare(alloc, label, other.as_str())?;
        }
    }
    Ok(())
}

fn find_in<'a>(
    alloc: Global,
    standing: &'a StatusRead,
    label: &str,
    near: &mut Near<'a>,
) -> Result<(), AllocError> {
    for other in standing.labels() {
        near.compare(alloc, label, other.as_str())?;
    }
    Ok(())
}
