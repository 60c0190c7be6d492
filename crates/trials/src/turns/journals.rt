//! A journal over writers that take few bytes or refuse: what it then holds, and how often it reports its closing. The expected lines are those of
//! the line protocol, and off no run of this code.

use crate::cases::Case;
use crate::memory_stage::{Sink, header, new_sink};
use ctl_protocol::Header;
use history_model::{Answer, Event, JobItem, TextRef};
use launcher::Journal;
use std::alloc::Global;

/// The header's line, and those of two events.
const LINES: &[u8] = b"{\"overrides\":{},\"up\":0,\"wall\":1700000000,\"zone\":\"UTC0\"}\n\
{\"ev\":\"list\"}\n\
{\"ev\":\"spawned\",\"job\":\"a\",\"pid\":812,\"run\":1}\n";

/// A writer, and what becomes of the journal.
pub struct Row {
    /// The most bytes that one write takes.
    piece: usize,
    /// How many writes succeed: each number from the first to the second.
    writes: (usize, usize),
    /// Whether the write after them takes no byte; if not, it is an error.
    is_full: bool,
    /// Whether a flush is refused.
    refuses_flush: bool,
    /// Whether the journal stays open.
    is_open: bool,
    /// Whether it holds all lines; otherwise a front of them.
    is_whole: bool,
}

/// Whatever the pieces, all is written; the journal stays open, and nothing is reported.
const OPEN: Row = Row {
    piece: 7,
    writes: (1000, 1000),
    is_full: false,
    refuses_flush: false,
    is_open: true,
    is_whole: true,
};

/// Without a refusal the journal holds all lines.
pub const LINES_ARE_HELD: &[Case] = &[
    Case::Journal(&Row { piece: 1, ..OPEN }),
    Case::Journal(&OPEN),
    Case::Journal(&Row {
        piece: 4096,
        ..OPEN
    }),
    // A writer that refuses to give on the header's line closes the journal at once.
    Case::Journal(&Row {
        refuses_flush: true,
        is_open: false,
        is_whole: false,
        ..OPEN
    }),
];

/// Whichever write fails, or takes no byte, the journal is closed. In pieces of seven bytes the header needs 8 of them, the events 2
/// and 7.
pub const FRONT: Row = Row {
    writes: (0, 16),
    is_open: false,
    is_whole: false,
    ..OPEN
};

pub const FULL: Row = Row {
    is_full: true,
    ..FRONT
};

/// What a journal reports: twice whether it was closed, and whether its writer is given back.
type Told = (bool, bool, bool);

/// The second of the two events.
fn event() -> Event<'static> {
    Event::OfJob {
        job: TextRef::new("a"),
        item: JobItem::Answered(Answer::Spawned { run: 1, pid: 812 }),
    }
}

/// Notes a list and the event, ends the turn, and returns what the journal reports.
fn turned(alloc: Global, journal: Journal<&mut Sink>) -> Told {
    let mut journal = journal;
    journal.note(alloc, &Event::List);
    journal.note(alloc, &event());
    journal.flush();
    let first = journal.report_closing();
    let second = journal.report_closing();
    let given = journal.into_open().is_some();
    (first, second, given)
}

/// Returns whether the journal over a writer for which this many writes go well becomes what the row says. Its closing is reported once. A writer
/// that fails at nothing is flushed twice: after the header's line, and at the turn's end.
fn becomes(alloc: Global, row: &Row, writes: usize, header: &Header) -> bool {
    let mut writer = Sink {
        piece: row.piece,
        is_full: row.is_full,
        refuses_flush: row.refuses_flush,
        ..new_sink(alloc, writes)
    };
    let told = turned(alloc, Journal::begin(alloc, &mut writer, header));
    let is_told = told == (!row.is_open, false, row.is_open);
    let written = writer.taken.as_slice();
    let holds = if row.is_whole {
        written == LINES && writer.flushes == 2
    } else {
        LINES.starts_with(written)
    };
    is_told && holds
}

/// Says whether the journals of the row hold their lines, or a front of them.
pub fn become_so(alloc: Global, row: &Row) -> Option<bool> {
    let header = header(alloc, "UTC0", 0)?;
    let (first, last) = row.writes;
    let mut are_so = true;
    for writes in first..=last {
        are_so &= becomes(alloc, row, writes, &header);
    }
    drop(header);
    Some(are_so)
}
