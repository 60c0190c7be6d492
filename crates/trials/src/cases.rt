//! All cases of calls, and the one function that tries each. A line of what is shown is for one case or more.

use crate::edges::{control_stage, refused, system};
use crate::memory_stage::Stage;
use crate::parts::{exchange, feed, heap, lines, zones};
use crate::rounds::{ends, refusals};
use crate::stores::{files, stops};
use crate::tables::{rows, visits};
use crate::turns::{journals, launchers};
use anyhow::Result;

/// One case, by what tries it.
pub enum Case {
    Exchange(&'static [exchange::Step]),
    Heap(&'static [heap::Step]),
    Feed(&'static feed::FeedCase),
    Offset(&'static zones::Offset),
    NoOffsets(&'static [i32]),
    Lines(lines::Kind, &'static str),
    Outcomes(&'static [lines::outcomes::Told]),
    Table(bool, u32, &'static [rows::Row]),
    Control(&'static str, &'static [control_stage::Step]),
    Refusing(&'static refused::Refused),
    System(&'static system::Scene),
    RefusedRounds,
    Ends(&'static ends::Ends),
    Lasting(&'static str, &'static [files::Listed]),
    Stopping(stops::Run, bool),
    Launched(&'static launchers::Turns),
    Journal(&'static journals::Row),
}

/// What is shown, and the cases that it is for.
pub type Line = (&'static str, &'static [Case]);

/// Whether the case goes as it says.
fn goes(rt: &HostRuntime, case: &Case) -> bool {
    let alloc = rt.alloc();
    match *case {
        Case::Exchange(steps) => matches!(exchange::all_go(alloc, steps), Some(true)),
        Case::Heap(steps) => matches!(heap::all_go(alloc, steps), Some(true)),
        Case::Feed(fed) => feed::all_go(alloc, fed),
        Case::Offset(offset) => zones::is_so(alloc, offset),
        Case::NoOffsets(offsets) => zones::are_none(offsets),
        Case::Lines(kind, lines) => lines::are_kept(alloc, kind, lines),
        Case::Outcomes(told) => lines::outcomes::are_told(alloc, told),
        Case::Table(is_full, times, rows) => {
            matches!(visits::all_happen(alloc, is_full, times, rows), Some(true))
        }
        Case::Control(name, steps) => matches!(control_stage::all_go(rt, name, steps), Some(true)),
        Case::Refusing(refused) => matches!(refused::is_so(rt, refused), Some(true)),
        Case::System(scene) => matches!(system::is_played(rt, scene), Some(true)),
        Case::RefusedRounds => matches!(refusals::are_taken(rt), Some(true)),
        Case::Ends(ends) => matches!(ends::is_so(rt, ends), Some(true)),
        Case::Lasting(made, lists) => files::do_last(alloc, made, lists),
        Case::Stopping(run, is_mended) => stops::are_followed(alloc, run, is_mended),
        Case::Launched(turns) => matches!(launchers::is_so::<Stage>(alloc, turns), Some(true)),
        Case::Journal(row) => matches!(journals::become_so(alloc, row), Some(true)),
    }
}

/// The number of the first case that goes otherwise.
fn first_other(rt: &HostRuntime, cases: &[Case]) -> Option<usize> {
    for (number, case) in cases.iter().enumerate() {
        if !goes(rt, case) {
            return Some(number);
        }
    }
    None
}

/// Tries all cases, and shows their lines, each with its first case that goes another way than it should.
pub fn try_all(rt: &HostRuntime, lines: &[Line]) -> Result<()> {
    for (name, cases) in lines {
        match first_other(rt, cases) {
            Some(number) => println!(rt; "{name}: other than wanted: case {number}")?,
            None => println!(rt; "{name}")?,
        }
    }
    Ok(())
}
