//! Coming starts by time alone, in the order of time: a line each, or an object.

ghost use Rattle.std.specs.Prelude.{◌≡◌, ◌==◌, ◌||◌};

use crate::objects::job::ReportContext;
use crate::objects::lines::number_of;
use crate::view::Schedule;
use calendar_due::Zone;
use definition_files::calendar_after;
use history_model::MAX_WALL;
use json_lines::Value::{Moment as Second, Number as Count};
use json_lines::{Field, put_line};
use run_times::Filling::{Moment, Number, Text};
use run_times::Page;
use std::alloc::{AllocError, Global};

/// The starts, a line each, and how many jobs are loaded and how many of them the clocks never start.
#[derive(Drop)]
pub(crate) struct ComingLines {
    pub(crate) text: String,
    pub(crate) jobs: u64,
    pub(crate) clockless: u64,
}

/// When the clocks start a job next.
#[derive(Clone, Copy)]
pub(crate) struct Start<'a> {
    pub(crate) label: &'a str,
    pub(crate) at: u64,
    /// How many seconds its interval has, which is over then. None: an entry of its calendar matches, or interval and calendar together start it.
    pub(crate) every: Option<u32>,
    /// Its calendar, if its starts after this one are asked for.
    pub(crate) schedule: Option<Schedule<'a>>,
}

/// How starts are listed.
#[derive(Clone, Copy)]
pub(crate) struct Telling {
    /// They come after this second.
    pub(crate) now: u64,
    /// How many are listed at most.
    pub(crate) count: u64,
    /// Each as an object of JSON.
    pub(crate) is_json: bool,
    /// As of when, and what is known of the launcher.
    pub(crate) around: ReportContext,
}

/// Whether it is reported how many of the jobs have no schedule: if all starts are asked for, or if there is none to show.
pub(crate) fn tells_clockless(is_all: bool, clockless: u64, jobs: u64) -> bool
    ensures { result ≡ (is_all || clockless == jobs) }
{
    is_all || clockless == jobs
}

/// Adds the starts, the soonest first, each followed by the next of the same clock, if its definition is there. The zone is that of the calendars.
pub(crate) fn put_starts(
    page: &mut Page<'_>,
    zone: &Zone,
    of: Telling,
    starts: &mut Vec<Start<'_>>,
) {
    for _ in 0..of.count {
        let place = soonest(starts.as_slice());
        let Some(start) = starts.get_mut(place) else {
            break;
        };
        if of.is_json {
            put_object(page, start, of);
        } else {
            add_start(page, start, of.now);
        }
        match after(page.alloc, start, zone) {
            Ok(at) => start.at = at.unwrap_or(u64::MAX),
            Err(_) => {
                page.writer.refuse();
                return;
            }
        }
    }
}

// The index of the start that comes first, of several the first; the length of the slice if none comes.
fn soonest(starts: &[Start<'_>]) -> usize {
    let mut found = starts.len();
    let mut least = u64::MAX;
    let mut index: usize = 0;
    for start in starts {
        if start.at < least {
            least = start.at;
            found = index;
        }
        index = index.saturating_add(1);
    }
    found
}

// The object of a start, with the keys that those of `next` over definitions have, and what is known of the launcher.
fn put_object(page: &mut Page<'_>, start: &Start<'_>, of: Telling) {
    let left = start.at.saturating_sub(of.now).saturating_mul(1000);
    let every = match start.every {
        Some(every) => Some(u64::from(every)),
        None => None,
    };
    let fields = [
        Field("start", Second(start.at)),
        Field("left_ms", Count(left)),
        Field("interval_seconds", number_of(every)),
        Field("as_of", Second(of.around.as_of)),
        Field("launcher", of.around.launcher),
    ];
    put_line(page, "label", start.label, &fields);
}

fn add_start(page: &mut Page<'_>, start: &Start<'_>, now: u64) {
    page.add("$  $  in ", &[Moment(start.at), Text(start.label)]);
    let left = start.at.saturating_sub(now).saturating_mul(1000);
    page.writer.put_span(left, false);
    if let Some(every) = start.every {
        page.add(" (each $ s)", &[Number(u64::from(every))]);
    }
    page.writer.put("\n");
}

// When the same clock starts the job after this start, if the interval begins then.
fn after(alloc: Global, start: &Start<'_>, zone: &Zone) -> Result<Option<u64>, AllocError> {
    let Some(schedule) = start.schedule else {
        return Ok(None);
    };
    let Some(every) = start.every else {
        return minute_after(alloc, schedule, zone, start.at);
    };
    let at = start.at.saturating_add(u64::from(every));
    Ok(if at <= MAX_WALL { Some(at) } else { None })
}

/// The next minute of its calendar after a second.
pub(crate) fn minute_after(
    alloc: Global,
    schedule: Schedule<'_>,
    zone: &Zone,
    now: u64,
) -> Result<Option<u64>, AllocError> {
    match schedule {
        Schedule::Definition(def) => Ok(calendar_after(def.calendar(), zone, now)),
        Schedule::Line(line) => match line.calendar(alloc) {
            Ok(entries) => {
                let minute = calendar_after(entries.as_slice(), zone, now);
                drop(entries);
                Ok(minute)
            }
            Err(_) => Err(AllocError),
        },
    }
}
