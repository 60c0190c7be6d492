//! A launcher's store on a machine whose disks refuse a call, or two, or which stops, for each new call. The store that is opened then has of each label
//! the last setting that was acknowledged, or the one that was being made. So it is with all that was written, and with only what was synced.

use crate::stores::asked::{Asked, refused_of};
use crate::stores::calls::{FIRST_VERSION, SECOND};
use crate::stores::disks::{Machine, NEVER, NONE, Plan};
use crate::stores::files::made_by;
use crate::stores::over_disks::{Task, done};
use std::alloc::Global;

/// More new calls than a run makes.
const MOST: u64 = 1_000;

/// How often the disks are opened without a mend, if a setting is refused: at the start, for the next setting, and at the end.
const WITHOUT_MEND: u64 = 3;

/// The settings of the first version, and those that are asked for.
const SETTINGS: [Asked; 5] = [
    Asked {
        row: ("a", true, 0),
        answer: Some(true),
    },
    Asked {
        row: ("b", false, 0),
        answer: Some(true),
    },
    Asked {
        row: ("a", false, SECOND),
        answer: None,
    },
    Asked {
        row: ("c", true, SECOND),
        answer: None,
    },
    Asked {
        row: ("c", false, SECOND),
        answer: None,
    },
];

/// Who asks for the settings.
#[derive(Clone, Copy)]
pub enum Run {
    Store,
    Launcher,
}

fn plan_of(first: u64, second: u64, stops: bool) -> Plan {
    Plan {
        first,
        second,
        stops,
    }
}

/// How a run went.
#[derive(Clone, Copy)]
struct Went {
    /// How many calls were refused, and how often the disks were opened.
    refused: u64,
    opens: u64,
}

/// Whether a store on a machine with the same disks has what it may have.
fn is_followed(alloc: Global, machine: &mut Machine, asked: &mut [Asked], is_exact: bool) -> bool {
    match machine.copy(alloc, NONE) {
        Some(machine) => {
            let is_so = done(alloc, &machine, Task::MayHave { is_exact }, asked);
            drop(machine);
            is_so
        }
        None => false,
    }
}

/// The run over copies of the disks, which refuse what the plan says; None if what is found after it does not follow. As long as the machine does not
/// stop, a call that is refused fails one setting at most, and at its end the store writes what it should have.
fn run_by(alloc: Global, from: &mut Machine, run: Run, plan: Plan) -> Option<Went> {
    let mut machine = from.copy(alloc, plan)?;
    let mut asked = SETTINGS;
    let is_run = match run {
        Run::Store => done(alloc, &machine, Task::Ask, &mut asked),
        Run::Launcher => done(alloc, &machine, Task::Turn, &mut asked),
    };
    let counts = machine.counts();
    let refused = refused_of(&asked);
    let is_exact = !plan.stops && refused == counts.refused;
    let is_kept = is_followed(alloc, &mut machine, &mut asked, is_exact);
    machine.crash();
    let is_synced = is_followed(alloc, &mut machine, &mut asked, is_exact);
    drop(machine);
    let is_unopened = asked[4].answer.is_none() && counts.refused > 0;
    let is_answered = plan.stops || refused <= counts.refused;
    if (is_run || is_unopened) && is_answered && is_kept && is_synced {
        Some(Went {
            refused: counts.refused,
            opens: counts.opens,
        })
    } else {
        None
    }
}

/// Whether each new call from `start` on may be refused, and the machine may stop at each. Before them the call `first` is refused, if it is one.
fn each_follows(alloc: Global, from: &mut Machine, run: Run, first: u64, start: u64) -> bool {
    let before = if first == NEVER { 0 } else { 1 };
    for second in start..MOST {
        let refused = run_by(alloc, from, run, plan_of(first, second, false));
        let stopped = run_by(alloc, from, run, plan_of(first, second, true));
        match (refused, stopped) {
            (Some(one), Some(_)) => {
                if one.refused == before {
                    return second > start;
                }
            }
            _ => return false,
        }
    }
    false
}

/// Whether it is so after the first call whose refusal makes the store write its settings again.
fn mend_follows(alloc: Global, from: &mut Machine, run: Run) -> bool {
    for first in 1..MOST {
        match run_by(alloc, from, run, plan_of(first, NEVER, false)) {
            Some(one) => {
                if one.opens > WITHOUT_MEND {
                    return each_follows(alloc, from, run, first, first + 1);
                }
                if one.refused == 0 {
                    return false;
                }
            }
            None => return false,
        }
    }
    false
}

/// Over the settings of the first version: whether each new call may be refused; or, if `is_mended`, each one within and after a mend.
pub fn are_followed(alloc: Global, run: Run, is_mended: bool) -> bool {
    match made_by(alloc, FIRST_VERSION) {
        Some(machine) => {
            let mut machine = machine;
            let is_so = if is_mended {
                mend_follows(alloc, &mut machine, run)
            } else {
                each_follows(alloc, &mut machine, run, NEVER, 1)
            };
            drop(machine);
            is_so
        }
        None => false,
    }
}
