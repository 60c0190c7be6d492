//! The coming starts of a launcher's jobs by time alone: the one text of `next`, and its objects, whichever sources were read.

use crate::asked::NextAsked;
use crate::joined::sources_of_next;
use crate::texts::heads::add_launcher;
use crate::texts::starts::{ComingLines, Start, Telling, minute_after, put_starts};
use crate::view::rows::{Row, loaded_of, loaded_rows};
use crate::view::{JobView, LauncherView};
use run_times::{Page, coming_second};
use status_page::{Next, add_left_out, can_start_again, start_told};
use std::alloc::{AllocError, Global};

/// How many starts are shown if all are asked for and the arguments do not say it.
const COUNT: u64 = 10;

/// How many jobs there are, and how many of them the clocks never start.
#[derive(Clone, Copy)]
struct Counts {
    jobs: u64,
    clockless: u64,
}

/// The coming starts of each loaded job, and in a text what the boot left out. If no launcher is known to run, there are none, and no job is reported to
/// have no schedule.
pub(crate) fn next_lines(
    alloc: Global,
    of: &LauncherView<'_>,
    asked: NextAsked,
) -> Result<ComingLines, AllocError> {
    let mut starts = Vec::new(alloc);
    let lines = match add_all(alloc, of, asked.is_all, &mut starts) {
        Ok(counts) => lines_of(alloc, of, asked, counts, &mut starts),
        Err(error) => Err(error),
    };
    drop(starts);
    lines
}

fn lines_of(
    alloc: Global,
    of: &LauncherView<'_>,
    asked: NextAsked,
    counts: Counts,
    starts: &mut Vec<Start<'_>>,
) -> Result<ComingLines, AllocError> {
    let mut page = Page::new(alloc, of.shown, of.now);
    if !asked.is_json {
        add_launcher(&mut page, of, sources_of_next(of.sources));
    }
    let count = if asked.is_all { COUNT } else { u64::MAX };
    let telling = Telling {
        now: of.clock.wall,
        count: asked.count.unwrap_or(count),
        is_json: asked.is_json,
        around: of.around,
    };
    put_starts(&mut page, of.zone, telling, starts);
    if let (Some(standing), false) = (of.standing(), asked.is_json) {
        let _count = add_left_out(&mut page, standing, &[]);
    }
    match page.into_text() {
        Ok(text) => Ok(ComingLines {
            text,
            jobs: counts.jobs,
            clockless: counts.clockless,
        }),
        Err(error) => Err(error),
    }
}

fn add_all<'a>(
    alloc: Global,
    of: &LauncherView<'a>,
    is_all: bool,
    starts: &mut Vec<Start<'a>>,
) -> Result<Counts, AllocError> {
    let mut counts = Counts {
        jobs: 0,
        clockless: 0,
    };
    if !of.around.foretells {
        return Ok(counts);
    }
    let rows = loaded_rows(alloc, of, &[])?;
    let added = add_rows(alloc, of, is_all, rows.as_slice(), starts, &mut counts);
    drop(rows);
    match added {
        Ok(()) => Ok(counts),
        Err(error) => Err(error),
    }
}

fn add_rows<'a>(
    alloc: Global,
    of: &LauncherView<'a>,
    is_all: bool,
    rows: &[Row<'a>],
    starts: &mut Vec<Start<'a>>,
    counts: &mut Counts,
) -> Result<(), AllocError> {
    for row in rows {
        if let Some(job) = loaded_of(alloc, of, *row)? {
            let before = starts.len();
            add_starts(alloc, of, &job, is_all, starts)?;
            counts.jobs = counts.jobs.saturating_add(1);
            let is_clockless = starts.len() == before;
            counts.clockless = counts.clockless.saturating_add(u64::from(is_clockless));
        }
    }
    Ok(())
}

// Adds the next start of the job, or the next by its calendar and the next by its interval if all are asked for.
fn add_starts<'a>(
    alloc: Global,
    of: &LauncherView<'a>,
    job: &JobView<'a>,
    is_all: bool,
    starts: &mut Vec<Start<'a>>,
) -> Result<(), AllocError> {
    let calendar = minute_after(alloc, job.schedule, of.zone, of.clock.wall)?;
    let facts = &job.told.facts;
    let interval = match facts.moments.interval {
        Some(up) => Some(coming_second(job.last, up)),
        None => None,
    };
    let can_start = can_start_again(&facts.reasons);
    if is_all {
        if !can_start {
            return Ok(());
        }
        push(job, true, calendar, false, starts)?;
        return push(job, true, interval, true, starts);
    }
    match start_told(
        can_start,
        Next::Clock(job.start),
        job.throttle,
        calendar,
        interval,
    ) {
        Some(told) => push(job, false, Some(told.at), told.is_interval, starts),
        None => Ok(()),
    }
}

fn push<'a>(
    job: &JobView<'a>,
    is_all: bool,
    at: Option<u64>,
    is_interval: bool,
    starts: &mut Vec<Start<'a>>,
) -> Result<(), AllocError> {
    let Some(at) = at else {
        return Ok(());
    };
    Ok(starts.push(Start {
        label: job.label,
        at,
        every: if is_interval {
            job.told.keys.start_interval
        } else {
            None
        },
        schedule: if is_all { Some(job.schedule) } else { None },
    })?)
}
