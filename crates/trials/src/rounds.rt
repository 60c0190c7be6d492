//! Passes of the event loop over an edge: refusals, and the exits of real children.

pub mod ends;
pub mod refusals;

use crate::cases::{Case, Line};

/// The cases of this folder. Nothing else names them: a function is proved over all of a list that it names.
pub fn list() -> &'static [Line] {
    LINES
}

/// The cases of this folder.
static LINES: &[Line] = &[
    ("refusals_are_taken_as_they_are", &[Case::RefusedRounds]),
    ("two_jobs_run_at_once", &[Case::Ends(ends::AT_ONCE)]),
    (
        "children_end_by_a_code_by_term_and_by_kill",
        &[
            Case::Ends(ends::BY_CODE),
            Case::Ends(ends::BY_TERM),
            Case::Ends(ends::BY_KILL),
        ],
    ),
];
