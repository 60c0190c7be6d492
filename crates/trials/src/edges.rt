//! The edges and the control socket: their calls over the real system, and over one that refuses.

mod calls;
pub mod control_rows;
pub mod control_stage;
mod echo;
pub mod places;
pub mod refused;
pub mod refusing;
pub mod system;
mod system_cases;

use crate::cases::{Case, Line};

/// The cases of this folder. Nothing else names them: a function is proved over all of a list that it names.
pub fn list() -> &'static [Line] {
    LINES
}

/// The cases of this folder.
static LINES: &[Line] = &[
    ("each_round_serves_each_client", control_rows::CASES),
    (
        "what_a_system_refuses_is_answered_kept_and_told",
        &[
            Case::Refusing(refused::NO_MEMORY),
            Case::Refusing(refused::NO_RIGHT),
            Case::Refusing(refused::A_LOST_CHILD),
            Case::Refusing(refused::CHILD_0),
        ],
    ),
    ("the_edge_answers_as_its_system_does", system_cases::CASES),
];
