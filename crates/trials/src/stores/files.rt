//! A launcher's store over files that are closed and opened again, on disks in memory: each acknowledged setting is there.

use crate::stores::calls::{Row, SECOND};
use crate::stores::disks::Machine;
use crate::stores::over_disks::{Task, done};
use std::alloc::Global;

/// What is set between an opening and the closing, and what the store then has by rising bytes of the labels.
#[derive(Clone, Copy)]
pub struct Listed {
    sets: &'static [Row<'static>],
    want: &'static [Row<'static>],
}

/// Over files that hold nothing yet.
pub const NEW: &[Listed] = &[
    Listed {
        sets: &[],
        want: &[],
    },
    Listed {
        sets: &[
            ("b", true, SECOND),
            ("a", false, SECOND),
            ("a", true, SECOND),
        ],
        want: &[("a", true, SECOND), ("b", true, SECOND)],
    },
    Listed {
        sets: &[("a", false, SECOND + 60), ("z", true, SECOND + 61)],
        want: &[
            ("a", false, SECOND + 60),
            ("b", true, SECOND),
            ("z", true, SECOND + 61),
        ],
    },
    Listed {
        sets: &[],
        want: &[
            ("a", false, SECOND + 60),
            ("b", true, SECOND),
            ("z", true, SECOND + 61),
        ],
    },
];

/// Over files of the first version.
pub const OLD: &[Listed] = &[
    Listed {
        sets: &[],
        want: &[("a", true, 0), ("b", false, 0)],
    },
    Listed {
        sets: &[("a", false, SECOND + 60)],
        want: &[("a", false, SECOND + 60), ("b", false, 0)],
    },
    Listed {
        sets: &[("b", true, SECOND)],
        want: &[("a", false, SECOND + 60), ("b", true, SECOND)],
    },
];

/// Both tables, where a program of the first version wrote next to the new one.
pub const BOTH_TABLES: &str =
    "CREATE TABLE overrides (label TEXT NOT NULL PRIMARY KEY, disabled INTEGER NOT NULL CHECK (disabled IN (0, 1))) STRICT; CREATE TABLE settings (label TEXT NOT NULL PRIMARY KEY, disabled INTEGER NOT NULL CHECK (disabled IN (0, 1)), changed INTEGER NOT NULL CHECK (changed >= 0)) STRICT; INSERT INTO settings VALUES ('a', 0, 5); INSERT INTO overrides VALUES ('a', 1)";

/// The row of the first version is there.
pub const OLD_BESIDE_NEW: &[Listed] = &[Listed {
    sets: &[],
    want: &[("a", true, 0)],
}];

/// A machine whose disks have the database that this text makes.
pub fn made_by(alloc: Global, made: &'static str) -> Option<Machine> {
    let machine = Machine::new(alloc);
    if done(alloc, &machine, Task::Execute(made), &mut []) {
        Some(machine)
    } else {
        drop(machine);
        None
    }
}

/// Whether each list of settings is made, and the store that is opened after it has them.
fn all_last(alloc: Global, machine: &Machine, lists: &[Listed]) -> bool {
    let mut are_so = true;
    for list in lists {
        are_so &= done(alloc, machine, Task::Set(list.sets), &mut []);
        are_so &= done(alloc, machine, Task::Have(list.want), &mut []);
    }
    are_so
}

/// The same, over the database that this text makes.
pub fn do_last(alloc: Global, made: &'static str, lists: &[Listed]) -> bool {
    match made_by(alloc, made) {
        Some(machine) => {
            let are_so = all_last(alloc, &machine, lists);
            drop(machine);
            are_so
        }
        None => false,
    }
}
