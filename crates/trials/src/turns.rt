//! A launcher over an edge, a store and a journal in memory: its turns, and what its journal holds.

pub mod journals;
pub mod launchers;

use crate::cases::{Case, Line};

/// The cases of `journals`.
pub fn journal_lines() -> &'static [Line] {
    JOURNALS
}

static JOURNALS: &[Line] = &[
    ("a_journal_holds_its_lines", journals::LINES_ARE_HELD),
    (
        "a_journal_holds_a_front",
        &[Case::Journal(&journals::FRONT)],
    ),
    (
        "a_journal_over_a_full_writer_holds_a_front",
        &[Case::Journal(&journals::FULL)],
    ),
];
