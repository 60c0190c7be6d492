//! One job's parts, and lines: an exchange, the heap of deadlines, a feed of lines, a zone, and lines.

pub mod exchange;
pub mod feed;
pub mod heap;
pub mod lines;
pub mod zones;

use crate::cases::{Case, Line};
use crate::parts::lines::Kind::{Event, Request};
use crate::parts::lines::cases as texts;

/// The cases of one job's parts: the bytes of an exchange, its deadlines. Nothing else names the list: a function is proved over all of a list that
/// it names.
pub fn job_list() -> &'static [Line] {
    JOBS
}

/// The cases of lines.
pub fn lines_list() -> &'static [Line] {
    LINES
}

static JOBS: &[Line] = &[
    (
        "each_exchange_goes_as_it_says",
        &[Case::Exchange(exchange::SERVED)],
    ),
    (
        "each_list_of_steps_goes_as_it_says",
        &[Case::Heap(heap::BY_MOMENTS)],
    ),
    ("each_feed_gives_its_lines", &[Case::Feed(feed::CUT)]),
    (
        "a_clock_of_an_offset_shows_its_minutes",
        &[Case::Offset(zones::HOUR), Case::NoOffsets(zones::NONE)],
    ),
];

/// Lines of each kind: those that are taken, and those that are refused.
static LINES: &[Line] = &[
    (
        "lines_are_read_and_written",
        &[
            Case::Lines(Event, texts::EVENTS),
            Case::Lines(Request, texts::REQUESTS),
        ],
    ),
    (
        "replies_are_written",
        &[Case::Outcomes(lines::outcomes::TOLD)],
    ),
];
