//! The places of keys and values in a text of JSON.

use crate::check::finding::Position;
use crate::check::outline::{MarkKind, OutlineMark};
use crate::check::spelled::spells;

/// A step of the way to a value, which begins at the whole definition.
#[derive(Clone, Copy)]
pub(crate) enum WayStep<'a> {
    /// To the value of this key. If a key is there twice, to the value that counts, which is the last.
    Key(&'a str),
    /// To the member with this index; no step, if the value is not an array.
    Member(usize),
}

/// Where a way led: how many of its steps could be taken, and the marks of the last key and value to which one led.
#[derive(Clone, Copy)]
pub(crate) struct Reached {
    pub(crate) gone: usize,
    pub(crate) key: usize,
    pub(crate) value: usize,
}

/// The line and the character in it of a byte.
pub(crate) fn place_at(text: &str, offset: usize) -> Position {
    let mut line: usize = 1;
    let mut column: usize = 1;
    let bytes = text.as_bytes();
    for byte in bytes.get(..offset).unwrap_or(bytes) {
        if *byte == b'\n' {
            line = line.saturating_add(1);
            column = 1;
        } else if *byte & 0xC0 != 0x80 {
            column = column.saturating_add(1);
        }
    }
    Position { line, column }
}

/// Where the value begins to which the way leads, as far as its steps can be taken; or the value's key, with `is_of_key`. None if the text
/// is not an object or has no such key.
pub(crate) fn place_by(
    text: &str,
    marks: &[OutlineMark],
    way: &[WayStep<'_>],
    is_of_key: bool,
) -> Option<Position> {
    let reached = reached_by(text, marks, way);
    if reached.gone == 0 {
        return None;
    }
    let index = if is_of_key {
        reached.key
    } else {
        reached.value
    };
    match marks.get(index) {
        Some(mark) => Some(place_at(text, mark.at)),
        None => None,
    }
}

/// Where the way leads, as far as its steps can be taken.
pub(crate) fn reached_by(text: &str, marks: &[OutlineMark], way: &[WayStep<'_>]) -> Reached {
    let mut reached = Reached {
        gone: 0,
        key: 0,
        value: 0,
    };
    for step in way {
        let found = match step {
            WayStep::Key(name) => key_in(text, marks, reached, name),
            WayStep::Member(index) => member_in(marks, reached, *index),
        };
        match found {
            Some(next) => reached = next,
            None => return reached,
        }
    }
    reached
}

/// The text of the key at the mark, as it is between its quotes.
pub(crate) fn key_at<'a>(text: &'a str, mark: &OutlineMark) -> &'a str {
    let begin = mark.at.saturating_add(1);
    let end = mark.end.saturating_sub(1);
    text.get(begin..end).unwrap_or("")
}

// The last key of this name in the object there.
fn key_in(text: &str, marks: &[OutlineMark], from: Reached, name: &str) -> Option<Reached> {
    let depth = depth_of(marks, from.value);
    let mut found = None;
    let mut index = from.value.saturating_add(1);
    for mark in marks.get(index..)? {
        if mark.depth <= depth {
            break;
        }
        let is_here = mark.depth == depth.saturating_add(1);
        match mark.kind {
            MarkKind::Key if is_here && spells(key_at(text, mark), name) => found = Some(index),
            _ => {}
        }
        index = index.saturating_add(1);
    }
    let key = found?;
    Some(Reached {
        gone: from.gone.saturating_add(1),
        key,
        value: key.saturating_add(1),
    })
}

// The member of this index in the array there; what is there, if it is not an array.
fn member_in(marks: &[OutlineMark], from: Reached, wanted: usize) -> Option<Reached> {
    let there = marks.get(from.value)?;
    let MarkKind::Array = there.kind else {
        return Some(Reached {
            gone: from.gone.saturating_add(1),
            ..from
        });
    };
    let mut passed: usize = 0;
    let mut index = from.value.saturating_add(1);
    for mark in marks.get(index..)? {
        if mark.depth <= there.depth {
            break;
        }
        let is_here = mark.depth == there.depth.saturating_add(1);
        match mark.kind {
            MarkKind::End => {}
            _ if is_here && passed == wanted => {
                return Some(Reached {
                    gone: from.gone.saturating_add(1),
                    key: from.key,
                    value: index,
                });
            }
            _ if is_here => passed = passed.saturating_add(1),
            _ => {}
        }
        index = index.saturating_add(1);
    }
    None
}

fn depth_of(marks: &[OutlineMark], index: usize) -> usize {
    match marks.get(index) {
        Some(mark) => mark.depth,
        None => 0,
    }
}

/// The byte at the place.
pub(crate) fn offset_at(text: &str, place: &Position) -> usize {
    let mut line: usize = 1;
    let mut column: usize = 0;
    let mut offset: usize = 0;
    for byte in text.as_bytes() {
        if *byte & 0xC0 != 0x80 {
            column = column.saturating_add(1);
        }
        if line >= place.line && column >= place.column {
            return offset;
        }
        if *byte == b'\n' {
            line = line.saturating_add(1);
            column = 0;
        }
        offset = offset.saturating_add(1);
    }
    offset
}
