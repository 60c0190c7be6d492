//! The chart as SVG.

use crate::page::Filling::{Escaped, Moment, Number, Text};
use crate::page::Page;
use crate::picture::axis::Axis;
use crate::picture::chart::{Bar, Chart, ChartMark, ChartRow, grade};
use crate::picture::ticks::{Tick, ticks};
use crate::picture::words::{cut, missing};

/// How many places the axis of a chart has that is painted as SVG.
pub const PLACES: u16 = 980;

/// Where the axis begins.
const LEFT: u64 = 10;

/// The heights of what is above the rows, of a row, of one without a bar and a mark, and of what is below.
const HEAD: u64 = 64;

const ROW: u64 = 50;

const IDLE: u64 = 20;

const FOOT: u64 = 62;

/// After how many rows the texts of the axis come again, and their height.
const AGAIN: usize = 25;

const BAND: u64 = 34;

/// So much lower than at the head they are written there, since a row is above them.
const LOWER: u64 = 4;

/// In a bar that is narrower, an end that is not a failure is not marked: the mark would hide the bar.
const NARROW: u64 = 4;

/// The height of a bar.
const BAR_HEIGHT: u64 = 12;

/// The height of a line of text.
const LINE: u64 = 16;

/// How many columns of a label are shown: they fill the width.
const LABEL: usize = 130;

/// How many ticks are written at most.
const MOST_TICKS: u64 = 9;

/// The head: how large it is, its title, its colours, and the span. The colours are literal ones, since viewers other than browsers don't know
/// variables. Its holes are for the height, and the span. If the image is a document of its own and has fewer than 700 pixels, it is scaled to fit.
/// Its labels are then of twice the size, so that they can be read; those of rows without a bar are as large as there is room.
const OPENING: &str =
    r#"<svg xmlns="http://www.w3.org/2000/svg" class="runs" viewBox="0 0 1000 $0" width="1000" height="$0" role="img">
<title>Runs from $1 to $2</title>
<style>
.runs { color-scheme: light dark; }
.runs text { font: 12px ui-monospace, 'DejaVu Sans Mono', Menlo, Consolas, monospace; fill: #1c2733; }
.runs .ground { fill: #ffffff; }
.runs .faint { fill: #5b6875; }
.runs .label { font-weight: bold; }
.runs .tick, .runs .base { stroke: #d9dfe5; fill: none; }
.runs .run { fill: #93a3b4; }
.runs .well { fill: #2e7d5b; }
.runs .code { fill: #c25e00; }
.runs .signal { fill: #7b4fb5; }
.runs .crash { fill: #c62828; }
.runs .stopped { fill: #4a6a8a; }
.runs .lives { fill: #1b76c4; }
.runs .demand { fill: #1b76c4; }
.runs .throttle { fill: #ffffff; stroke: #b86200; stroke-width: 1.5; }
.runs .refusal { fill: none; stroke: #c62828; stroke-width: 2; }
@media (prefers-color-scheme: dark) { .runs text { fill: #e6ebf0; } .runs .ground { fill: #11171d; } .runs .faint { fill: #9aa7b4; } .runs .tick, .runs .base { stroke: #2c3742; } .runs .run { fill: #445464; } .runs .well { fill: #56b88c; } .runs .code { fill: #f0a040; } .runs .signal { fill: #b794f0; } .runs .crash { fill: #ff6b6b; } .runs .stopped { fill: #8fb0d0; } .runs .lives { fill: #5fb0f5; } .runs .demand { fill: #5fb0f5; } .runs .throttle { fill: #11171d; stroke: #f0a040; } .runs .refusal { stroke: #ff6b6b; } }
@media (max-width: 700px) { svg:root { width: 100%; height: auto; } svg:root .label { font-size: 24px; } svg:root .thin { font-size: 18px; } }
</style>
<rect class="ground" width="1000" height="$0"/>
<text x="10" y="18">$1 to $2</text>
"#;

/// Its holes are for the place and the bottom of the rows.
const TICK: &str = r#"<path class="tick" d="M$0 58V$1"/>
"#;

/// What is written at it. The holes are for the place, how the texts are aligned to it, and each text's height and itself.
const TICK_TEXT: &str =
    r#"<text class="faint" x="$0" y="$2" text-anchor="$1">$3</text><text class="faint" x="$0" y="$4" text-anchor="$1">$5</text>
"#;

/// A label: its classes, its height, and itself, cut if it is too wide and whole in its title, and the line on which the bars are.
const TOP: &str =
    r#"<g><text class="$" x="10" y="$">$$<title>$</title></text><path class="base" d="M10 $h980"/>
"#;

/// The beginning of a bar that stands for one run, and of one that stands for several, up to how they ended. The holes are for the number of runs,
/// that of the first, and how many failed.
const RUN: &str = r#"<g class="run" data-runs="$0"><title>run $1 "#;

const RUNS: &str =
    r#"<g class="run" data-runs="$0"><title>$0 runs from run $1 on, $2 failed; the gravest "#;

const BAR: &str = r#": $ to $</title><rect x="$" y="$" width="$" height="12"/>"#;

/// Of a bar that stands for several runs, the share of those that failed: from its lower left corner, as high as the share, as wide as the bar.
const SHARE: &str = r#"<path class="$0" d="M$1 $2v-$3h$4v$3z"/>"#;

/// How an end looks.
struct Look {
    /// The class of what marks it.
    class: &'static str,
    /// The text on the end, with a hole for its code or signal.
    words: &'static str,
    /// What marks it, from the upper corner of the end of its bar. An end that is not a failure is marked within the bar.
    mark: &'static str,
}

/// The ends, by how grave they are.
static LOOKS: [Look; 6] = [
    Look {
        class: "lives",
        words: "is running",
        mark: r#"<path class="lives" d="M$ $v12l6 -6z"/>
"#,
    },
    Look {
        class: "well",
        words: "exited with code $",
        mark: r#"<path class="well" d="M$ $m-2 0h2v12h-2z"/>
"#,
    },
    Look {
        class: "stopped",
        words: "was stopped",
        mark: r#"<path class="stopped" d="M$ $m-2 0h2v12h-2z"/>
"#,
    },
    Look {
        class: "code",
        words: "exited with code $",
        mark: r#"<path class="code" d="M$ $m-2 -4h4v20h-4z"/>
"#,
    },
    Look {
        class: "signal",
        words: "was killed by signal $",
        mark: r#"<path class="signal" d="M$ $m-2 -4l7 10l-7 10z"/>
"#,
    },
    Look {
        class: "crash",
        words: "crashed by signal $",
        mark: r#"<path class="crash" d="M$ $m0 -4l6 10l-6 10l-6 -10z"/>
"#,
    },
];

/// The marks of each kind, from the middle of their upper edge; the holes are for their number, their place, and the time of the first one.
const DEMAND: &str =
    r#"<path class="demand" data-count="$" d="M$ $m-5 0h10l-5 9z"><title>a start request: $"#;

const THROTTLE: &str =
    r#"<path class="throttle" data-count="$" d="M$ $m0 0l4.5 4.5l-4.5 4.5l-4.5 -4.5z"><title>a throttle: $"#;

const REFUSAL: &str =
    r#"<path class="refusal" data-count="$" d="M$ $m-4 0.5l8 8m0 -8l-8 8"><title>a refusal: $"#;

/// What each colour and shape means, below the rows. The holes are for the heights of the bars, of their names, of the marks, and of theirs.
const LEGEND: &str =
    r#"<rect class="run" x="10" y="$0" width="22" height="12"/><path class="well" d="M32 $0m-2 0h2v12h-2z"/><text class="faint" x="44" y="$1">code 0</text>
<rect class="run" x="160" y="$0" width="22" height="12"/><path class="code" d="M182 $0m-2 -4h4v20h-4z"/>
<text class="faint" x="194" y="$1">another code</text>
<rect class="run" x="310" y="$0" width="22" height="12"/><path class="signal" d="M332 $0m-2 -4l7 10l-7 10z"/>
<text class="faint" x="344" y="$1">a signal</text>
<rect class="run" x="460" y="$0" width="22" height="12"/><path class="crash" d="M482 $0m0 -4l6 10l-6 10l-6 -10z"/>
<text class="faint" x="494" y="$1">a crash</text>
<rect class="run" x="610" y="$0" width="22" height="12"/><path class="stopped" d="M632 $0m-2 0h2v12h-2z"/><text class="faint" x="644" y="$1">stopped</text>
<rect class="run" x="760" y="$0" width="22" height="12"/><path class="lives" d="M782 $0v12l6 -6z"/>
<text class="faint" x="794" y="$1">running</text>
<path class="demand" d="M25 $2m-5 0h10l-5 9z"/><text class="faint" x="44" y="$3">a request</text>
<path class="throttle" d="M175 $2m0 0l4.5 4.5l-4.5 4.5l-4.5 -4.5z"/><text class="faint" x="194" y="$3">a throttle</text>
<path class="refusal" d="M325 $2m-4 0.5l8 8m0 -8l-8 8"/><text class="faint" x="344" y="$3">a refusal</text>
<rect class="run" x="460" y="$2" width="22" height="12"/><path class="code" d="M460 $2m0 12v-4h22v4z"/>
<text class="faint" x="494" y="$3">several runs, and the share that failed</text>
"#;

/// The beginning of the text on what is not in the chart.
const LEFT_OUT: &str = r#"<text class="faint" x="10" y="$">"#;

/// Adds a piece of the chart as an element `svg`, from 0: its head, one for each row, its foot.
pub(crate) fn put_figure(page: &mut Page<'_>, chart: &Chart, index: usize) {
    let rows = chart.rows.len();
    let above = index.saturating_sub(1);
    if index == 0 {
        put_head(page, chart, below_rows(chart, rows));
    } else if let Some(row) = chart.rows.get(above) {
        let mut top = below_rows(chart, above);
        if has_band(above) {
            put_texts(page, &chart.axis, top.saturating_add(LOWER));
            top = top.saturating_add(BAND);
        }
        put_row(page, &chart.axis, row, top);
    } else if above == rows {
        put_foot(page, chart, below_rows(chart, rows));
    }
}

/// Whether the texts of the axis come again above this row.
pub(crate) fn has_band(row: usize) -> bool {
    row > 0 && row % AGAIN == 0
}

// Where this number of rows ends.
fn below_rows(chart: &Chart, rows: usize) -> u64 {
    let mut bottom = HEAD;
    for (at, row) in chart.rows.iter().enumerate() {
        if at < rows {
            let band = if has_band(at) { BAND } else { 0 };
            let height = if row.is_idle() { IDLE } else { ROW };
            bottom = bottom.saturating_add(band).saturating_add(height);
        }
    }
    bottom
}

// The head, and the ticks from above the rows to their bottom.
fn put_head(page: &mut Page<'_>, chart: &Chart, bottom: u64) {
    let axis = &chart.axis;
    let mut height = bottom.saturating_add(FOOT);
    for (_, one, other) in missing(chart).iter() {
        if (*one | *other) > 0 {
            height = height.saturating_add(LINE);
        }
    }
    let holes = [Number(height), Moment(axis.from), Moment(axis.until)];
    page.add(OPENING, &holes);
    let ticks = ticks(page, axis, MOST_TICKS);
    put_ticks(page, axis, ticks.as_slice(), bottom);
    drop(ticks);
    put_texts(page, axis, HEAD - BAND);
}

// The lines of the ticks, from above the rows to their bottom.
fn put_ticks(page: &mut Page<'_>, axis: &Axis, ticks: &[Tick], bottom: u64) {
    for tick in ticks {
        let place = u64::from(axis.place(tick.at));
        page.add(TICK, &[Number(LEFT + place), Number(bottom)]);
    }
}

// What is written at the ticks, from this height on. Near the edges it stays within the chart.
fn put_texts(page: &mut Page<'_>, axis: &Axis, top: u64) {
    let ticks = ticks(page, axis, MOST_TICKS);
    for tick in &ticks {
        let place = u64::from(axis.place(tick.at));
        let anchor = if place < 50 {
            "start"
        } else if place > 930 {
            "end"
        } else {
            "middle"
        };
        let (text, below) = tick.parts();
        let holes = [
            Number(LEFT + place),
            Text(anchor),
            Number(top.saturating_add(8)),
            Text(text),
            Number(top.saturating_add(22)),
            Text(below),
        ];
        page.add(TICK_TEXT, &holes);
    }
    drop(ticks);
}

fn put_row(page: &mut Page<'_>, axis: &Axis, row: &ChartRow, top: u64) {
    let label = row.label.as_str();
    let (front, rest) = cut(label, LABEL);
    let base = if row.is_idle() { IDLE } else { ROW };
    let holes = [
        Text(if row.is_idle() { "label thin" } else { "label" }),
        Number(top.saturating_add(14)),
        Escaped(front),
        Text(rest),
        Escaped(label),
        Number(top.saturating_add(base).saturating_sub(3)),
    ];
    page.add(TOP, &holes);
    put_bars(page, axis, row.bars.as_slice(), top.saturating_add(31));
    let above = top.saturating_add(18);
    put_marks(page, axis, DEMAND, row.demands.as_slice(), above);
    put_marks(page, axis, THROTTLE, row.throttles.as_slice(), above);
    put_marks(page, axis, REFUSAL, row.refusals.as_slice(), above);
    page.writer.put("</g>\n");
}

// The bars whose upper edge is there, and over them what marks the ends of single runs, so that a bar which follows at once does not hide an end.
fn put_bars(page: &mut Page<'_>, axis: &Axis, bars: &[Bar], top: u64) {
    for bar in bars {
        put_bar(page, axis, bar, top);
    }
    for bar in bars {
        let (grave, _) = grade(bar.end);
        let (begin, end) = axis.edges(bar.from, bar.until);
        let is_wide = u64::from(end.saturating_sub(begin)) >= NARROW;
        if bar.runs == 1 && (is_wide || grave == 0 || bar.failed > 0) {
            let end = u64::from(end).max(u64::from(begin) + 1);
            page.add(LOOKS[grave].mark, &[Number(LEFT + end), Number(top)]);
        }
    }
}

// A bar. Its title says how its runs ended: of one its end, of several their number and the gravest end.
fn put_bar(page: &mut Page<'_>, axis: &Axis, bar: &Bar, top: u64) {
    let (grave, number) = grade(bar.end);
    let look = &LOOKS[grave];
    let (begin, end) = axis.edges(bar.from, bar.until);
    let holes = [
        Number(u64::from(bar.runs)),
        Number(bar.run),
        Number(u64::from(bar.failed)),
    ];
    page.add(if bar.runs == 1 { RUN } else { RUNS }, &holes);
    page.add(look.words, &[Number(number)]);
    let left = LEFT + u64::from(begin);
    let width = u64::from(end - begin).max(1);
    let holes = [
        Moment(bar.from),
        Moment(bar.until),
        Number(left),
        Number(top),
        Number(width),
    ];
    page.add(BAR, &holes);
    if bar.runs > 1 && bar.failed > 0 {
        let holes = [
            Text(look.class),
            Number(left),
            Number(top.saturating_add(BAR_HEIGHT)),
            Number(share_of(bar)),
            Number(width),
        ];
        page.add(SHARE, &holes);
    }
    page.writer.put("</g>\n");
}

// How high the share of the failed runs is, rounded up.
fn share_of(bar: &Bar) -> u64 {
    let runs = u64::from(bar.runs).max(1);
    let failed = u64::from(bar.failed).saturating_mul(BAR_HEIGHT);
    let share = failed / runs + u64::from(failed % runs > 0);
    share.min(BAR_HEIGHT)
}

// The marks of a kind whose upper edge is there.
fn put_marks(page: &mut Page<'_>, axis: &Axis, form: &str, marks: &[ChartMark], top: u64) {
    for mark in marks {
        let count = u64::from(mark.count);
        let holes = [
            Number(count),
            Number(LEFT + u64::from(axis.place(mark.at))),
            Number(top),
            Moment(mark.at),
        ];
        page.add(form, &holes);
        let end = if count > 1 {
            ", and $ more next to it</title></path>\n"
        } else {
            "</title></path>\n"
        };
        page.add(end, &[Number(count.saturating_sub(1))]);
    }
}

// What each colour and shape means, and what is not in the chart.
fn put_foot(page: &mut Page<'_>, chart: &Chart, bottom: u64) {
    let holes = [
        Number(bottom.saturating_add(10)),
        Number(bottom.saturating_add(21)),
        Number(bottom.saturating_add(32)),
        Number(bottom.saturating_add(41)),
    ];
    page.add(LEGEND, &holes);
    let mut line = bottom.saturating_add(64);
    for (sentence, one, other) in missing(chart).iter() {
        if (*one | *other) > 0 {
            page.add(LEFT_OUT, &[Number(line)]);
            page.add(*sentence, &[Number(*one), Number(*other)]);
            page.writer.put("</text>\n");
            line = line.saturating_add(LINE);
        }
    }
    page.writer.put("</svg>\n");
}
