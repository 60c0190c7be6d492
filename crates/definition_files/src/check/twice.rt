//! Keys that are there twice in one object.

use crate::check::finding::Severity;
use crate::check::finding_list::FindingList;
use crate::check::outline::{MarkKind, OutlineMark};
use crate::check::place::{key_at, place_at};
use crate::check::spelled::are_same;
use run_times::Piece::{Number, Text};
use run_times::TextWriter;

/// How many keys after a key are compared with it: more than an object of a definition may have.
const MOST: usize = 256;

/// Adds a warning for each key that comes again later in its object: the last of them counts.
pub(crate) fn add_twice(finding_list: &mut FindingList<'_>) {
    let marks = finding_list.marks;
    let mut next: usize = 0;
    for mark in marks {
        next = next.saturating_add(1);
        if let MarkKind::Key = mark.kind {
            let behind = marks.get(next..).unwrap_or(&[]);
            if let Some(again) = again_in(finding_list.text, mark, behind) {
                add_again(mark, again, finding_list);
            }
        }
    }
}

// The next key of this name in the same object.
fn again_in(text: &str, key: &OutlineMark, behind: &[OutlineMark]) -> Option<OutlineMark> {
    let name = key_at(text, key);
    let mut compared: usize = 0;
    for mark in behind {
        if mark.depth < key.depth || compared >= MOST {
            return None;
        }
        if let MarkKind::Key = mark.kind {
            compared = compared.saturating_add(1);
            if mark.depth == key.depth && are_same(key_at(text, mark), name) {
                return Some(*mark);
            }
        }
    }
    None
}

fn add_again(key: &OutlineMark, again: OutlineMark, finding_list: &mut FindingList<'_>) {
    let first = place_at(finding_list.text, key.at);
    let last = place_at(finding_list.text, again.at);
    let mut writer = TextWriter::new(finding_list.alloc);
    writer.fill(
        "$ is repeated at $:$, and the last one counts",
        &[
            Text(key_at(finding_list.text, key)),
            Number(last.line as u64),
            Number(last.column as u64),
        ],
    );
    finding_list.push(Some(first), Severity::Warning, writer.into_text());
}
