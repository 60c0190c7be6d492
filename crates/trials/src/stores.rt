//! The store of settings: over files that are closed and opened again, and on disks that stop.

mod asked;
pub mod calls;
mod disks;
pub mod files;
mod over_disks;
mod stopped_turns;
pub mod stops;

use crate::cases::{Case, Line};
use crate::stores::stops::Run;

/// The cases of this folder. Nothing else names them: a function is proved over all of a list that it names.
pub fn list() -> &'static [Line] {
    LINES
}

/// The cases of this folder.
static LINES: &[Line] = &[
    (
        "settings_last_over_closed_files",
        &[Case::Lasting("", files::NEW)],
    ),
    (
        "the_first_versions_files_are_moved_once",
        &[Case::Lasting(calls::FIRST_VERSION, files::OLD)],
    ),
    (
        "an_old_row_beside_a_new_one",
        &[Case::Lasting(files::BOTH_TABLES, files::OLD_BESIDE_NEW)],
    ),
    (
        "settings_last_where_the_disks_stop",
        &[Case::Stopping(Run::Store, false)],
    ),
    (
        "settings_last_where_a_mend_stops",
        &[Case::Stopping(Run::Store, true)],
    ),
    (
        "a_launchers_settings_last_where_the_disks_stop",
        &[Case::Stopping(Run::Launcher, false)],
    ),
    (
        "a_launchers_settings_last_where_a_mend_stops",
        &[Case::Stopping(Run::Launcher, true)],
    ),
];
