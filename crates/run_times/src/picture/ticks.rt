//! The ticks of an axis: whole times of a civil clock.

use crate::moment::time_text;
use crate::page::Page;
use crate::picture::axis::Axis;
use history_model::CivilMinute;
use std::alloc::AllocError;

const HOUR: u64 = 3600;

const DAY: u64 = 86_400;

/// A quarter of an hour: clocks are set forward and back at whole ones.
const QUARTER: u64 = 900;

/// After this many looks at the clock it looks for no further tick.
const MOST_LOOKS: u32 = 100_000;

/// A whole time, as an hour or a day.
#[derive(Drop)]
pub(crate) struct Tick {
    pub(crate) at: u64,
    /// The date and time in full.
    moment: String,
    /// Where in it the text at the tick begins and ends, and where the text below ends.
    from: usize,
    until: usize,
    below: usize,
}

/// What is between two ticks.
#[derive(Clone, Copy)]
enum TickStep {
    /// How many seconds: a part of a day.
    Seconds(u64),
    Day,
    /// A week, from a Monday.
    Week,
    /// How many months, from the first of one.
    Months(u64),
}

/// The steps, and how many seconds each has at least.
const STEPS: [(u64, TickStep); 27] = [
    (1, TickStep::Seconds(1)),
    (2, TickStep::Seconds(2)),
    (5, TickStep::Seconds(5)),
    (10, TickStep::Seconds(10)),
    (15, TickStep::Seconds(15)),
    (30, TickStep::Seconds(30)),
    (60, TickStep::Seconds(60)),
    (120, TickStep::Seconds(120)),
    (300, TickStep::Seconds(300)),
    (600, TickStep::Seconds(600)),
    (900, TickStep::Seconds(900)),
    (1800, TickStep::Seconds(1800)),
    (HOUR, TickStep::Seconds(HOUR)),
    (7200, TickStep::Seconds(7200)),
    (10_800, TickStep::Seconds(10_800)),
    (21_600, TickStep::Seconds(21_600)),
    (43_200, TickStep::Seconds(43_200)),
    (82_800, TickStep::Day),
    (601_200, TickStep::Week),
    (2_419_200, TickStep::Months(1)),
    (7_776_000, TickStep::Months(3)),
    (15_638_400, TickStep::Months(6)),
    (31_536_000, TickStep::Months(12)),
    (157_766_400, TickStep::Months(60)),
    (315_532_800, TickStep::Months(120)),
    (3_155_673_600, TickStep::Months(1200)),
    (31_556_908_800, TickStep::Months(12_000)),
];

// The least step of which not more than `most` are in the span.
fn step_for(span: u64, most: u64) -> TickStep {
    for of in STEPS.iter() {
        let (length, step) = *of;
        if span / length.max(1) < most {
            return step;
        }
    }
    TickStep::Months(12_000)
}

fn second_of_day(at: &CivilMinute, second: u64) -> u64 {
    u64::from(at.hour) * HOUR + u64::from(at.minute) * 60 + second % 60
}

// Whether the step has a tick at the second, at which the clock shows this.
fn is_round(step: TickStep, at: &CivilMinute, second: u64) -> bool {
    let of_day = second_of_day(at, second);
    match step {
        TickStep::Seconds(length) => of_day % length.max(1) == 0,
        TickStep::Day => of_day == 0,
        TickStep::Week => of_day == 0 && at.weekday == 1,
        TickStep::Months(count) => {
            let month = i64::from(at.year) * 12 + i64::from(at.month) - 1;
            of_day == 0 && at.day == 1 && month.unsigned_abs() % count.max(1) == 0
        }
    }
}

// How far the next look is ahead. The last three hours before a tick are looked at by quarters, since the clock may be set meanwhile.
fn ahead(step: TickStep, at: &CivilMinute, second: u64) -> u64 {
    let of_day = second_of_day(at, second);
    let rest = match step {
        TickStep::Seconds(length) => length.saturating_sub(of_day % length.max(1)),
        TickStep::Months(_) if at.day < 28 => (28 - u64::from(at.day)) * DAY,
        _ => DAY.saturating_sub(of_day),
    };
    if rest > 3 * HOUR {
        rest - 3 * HOUR
    } else {
        rest.min(QUARTER - of_day % QUARTER).max(1)
    }
}

/// The whole times of the axis, so that not more than about `most` are written over it. If memory was refused for one, the page is refused.
pub(crate) fn ticks(page: &mut Page<'_>, axis: &Axis, most: u64) -> Vec<Tick> {
    let step = step_for(axis.until - axis.from, most);
    let mut ticks = Vec::new(page.alloc);
    let mut at = axis.from;
    for _ in 0..MOST_LOOKS {
        if at > axis.until {
            break;
        }
        let shown = page.zone.civil_minute(at);
        if is_round(step, &shown, at) {
            let moment = time_text(page.alloc, page.zone, at);
            if add_tick(&mut ticks, step, at, moment).is_err() {
                page.writer.refuse();
            }
        }
        at = at.saturating_add(ahead(step, &shown, at));
    }
    ticks
}

// Adds the tick. It does not repeat the text below the tick before it.
fn add_tick(
    ticks: &mut Vec<Tick>,
    step: TickStep,
    at: u64,
    moment: Result<String, AllocError>,
) -> Result<(), AllocError> {
    match moment {
        Ok(moment) => {
            let (from, until, end) = written_of(step);
            let below = end_below(ticks.as_slice(), moment.as_str(), end);
            Ok(ticks.push(Tick {
                at,
                moment,
                from,
                until,
                below,
            })?)
        }
        Err(error) => Err(error),
    }
}

// Where in a time the text at a tick of the step begins and ends, and where the text below ends.
fn written_of(step: TickStep) -> (usize, usize, usize) {
    match step {
        TickStep::Seconds(length) => (15, if length < 60 { 23 } else { 20 }, 10),
        TickStep::Day | TickStep::Week => (5, 14, 4),
        TickStep::Months(count) => (0, if count < 12 { 7 } else { 4 }, 0),
    }
}

// Where the text below the next tick ends: at its beginning, if the last one has the same text below it.
fn end_below(ticks: &[Tick], moment: &str, end: usize) -> usize {
    match ticks.last() {
        Some(last) if last.moment.as_str().get(..end) == moment.get(..end) => 0,
        _ => end,
    }
}

impl Tick {
    /// What is written at the tick, and what below.
    pub(crate) fn parts(&self) -> (&str, &str) {
        let moment = self.moment.as_str();
        let text = moment.get(self.from..self.until).unwrap_or(moment);
        (text, moment.get(..self.below).unwrap_or(""))
    }
}
