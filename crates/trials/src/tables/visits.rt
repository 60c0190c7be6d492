//! The table of jobs as its caller uses it, by the rows of `rows.rt`.

use crate::tables::rows::{Event, Row};
use calendar_due::Zone;
use history_model::{JobNo, Obs, Reading, Refusal};
use job_table::{JobTable, Step};
use std::alloc::Global;

/// The clock reading at this `up`.
fn at(up: u64) -> Reading {
    Reading {
        up,
        wall: 1_700_000_000 + up / 1_000,
    }
}

/// Loads a definition, and gives the job's number.
fn load(alloc: Global, table: &mut JobTable, definition: &str) -> Option<JobNo> {
    let ready = table
        .prepare_load(alloc, definition.as_bytes(), false, false)
        .ok()?;
    let job = ready.job();
    table.commit_load(ready);
    Some(job)
}

fn told(given: Result<Step<'_>, Refusal>) -> Option<(u32, usize)> {
    match given {
        Ok(given) => Some((given.visited, given.orders.len())),
        Err(_) => None,
    }
}

const SEEN: Obs = Obs {
    present: true,
    nonempty_dir: false,
    stamp: 5,
};

fn happens(alloc: Global, table: &mut JobTable, event: &Event) -> Option<(u32, usize)> {
    match *event {
        Event::Load(definition) => {
            load(alloc, table, definition)?;
            let given = table.last_step();
            Some((given.visited, given.orders.len()))
        }
        Event::Clock(up) => told(table.clock(alloc, at(up))),
        Event::Saw(path) => told(table.saw(path, SEEN)),
        Event::Spawned(label, run) => told(table.spawned(label, run, 812)),
        Event::Unload(label) => told(table.unload(label)),
    }
}

/// Whether the row goes as it says.
fn goes(alloc: Global, table: &mut JobTable, row: &Row) -> bool {
    match *row {
        Row::Asks(ref event, wanted) => happens(alloc, table, event) == wanted,
        Row::Numbered(definition, number) => load(alloc, table, definition) == Some(number),
        Row::Child(behind, wanted) => table.child_after(behind) == wanted,
        Row::Path(behind, wanted) => table.path_after(behind) == wanted,
        Row::Empty => table.is_empty(),
    }
}

/// Loads the hundred jobs, and says whether each load asks one job.
fn are_loaded(alloc: Global, table: &mut JobTable) -> Option<bool> {
    let mut are_asked = true;
    for number in 0..99u32 {
        let text = format!(in alloc;
            "{{\"Label\":\"a{number:03}\",\"Program\":\"/bin/x\",\"StartInterval\":3600}}"
        ).ok()?;
        load(alloc, table, text.as_str())?;
        are_asked &= table.last_step().visited == 1;
    }
    load(
        alloc,
        table,
        r#"{"Label":"x","Program":"/bin/x","StartInterval":30}"#,
    )?;
    Some(are_asked && table.last_step().visited == 1)
}

/// Whether the rows go as they say, one after another.
fn all_go(alloc: Global, table: &mut JobTable, rows: &[Row]) -> bool {
    for row in rows {
        if !goes(alloc, table, row) {
            return false;
        }
    }
    true
}

/// Whether the rows go as they say over a new table, `times` times, with the hundred jobs or with none. The table is dropped in one place, since each
/// place that drops it is proved for its whole type.
pub fn all_happen(alloc: Global, is_full: bool, times: u32, rows: &[Row]) -> Option<bool> {
    let zone = Zone::fixed(0).ok()?;
    let mut table = JobTable::new(alloc, at(0), zone, Vec::new(alloc)).ok()?;
    let mut are_so = !is_full || are_loaded(alloc, &mut table) == Some(true);
    for _ in 0..times {
        are_so = are_so && all_go(alloc, &mut table, rows);
    }
    drop(table);
    Some(are_so)
}
