//! The table of jobs by its calls: what no line of a journal shows.

pub mod rows;
pub mod visits;

use crate::cases::{Case, Line};

/// The cases of this folder. Nothing else names them: a function is proved over all of a list that it names.
pub fn list() -> &'static [Line] {
    LINES
}

/// The cases of this folder: rows over a table with the hundred jobs or with none, and how often they come.
static LINES: &[Line] = &[
    (
        "numbers_are_given_back",
        &[Case::Table(false, 101, rows::GIVEN_BACK)],
    ),
    (
        "children_and_paths_come_in_order",
        &[
            Case::Table(false, 1, rows::CHILDREN),
            Case::Table(false, 1, rows::LISTED),
        ],
    ),
    (
        "the_jobs_that_are_touched_are_asked",
        &[
            Case::Table(true, 1, rows::MANY),
            Case::Table(true, 1, rows::ALL),
            Case::Table(true, 1, rows::WATCHED),
            Case::Table(false, 1, rows::MINUTES),
        ],
    ),
];
