//! The chart in lines of a terminal: bars of block characters, and a line of marks under a row that has some.

use crate::page::Filling::Moment;
use crate::page::Page;
use crate::picture::axis::Axis;
use crate::picture::chart::{Bar, Chart, ChartMark, ChartRow, grade};
use crate::picture::piece::NO_READING;
use crate::picture::svg::has_band;
use crate::picture::ticks::{Tick, ticks};
use crate::picture::words::{columns_of, cut, missing};
use crate::writer::Piece::{Number, Text};
use crate::writer::TextWriter;
use calendar_due::Zone;
use std::alloc::{AllocError, Global};

/// The block of a bar by how grave its end is.
const BLOCKS: [char; 6] = ['▀', '█', '▄', '▓', '▒', '▚'];

/// How many columns a line may have at least: a time fits in them.
const NARROWEST: u16 = 32;

/// What the blocks and the marks mean.
const LEGEND: &str =
    "█ code 0\t▓ another code\t▒ a signal\t▚ a crash\t▄ stopped\t▀ running\tv request\t~ throttle\tx refusal\n";

/// How the chart is laid out: the columns of its labels, and after a space the axis.
#[derive(Clone, Copy)]
struct Layout {
    column: usize,
    axis: Axis,
}

/// The chart in lines of at most `width` columns, or of `NARROWEST` if those are more. Times are shown in the zone.
pub fn blocks_text(
    alloc: Global,
    zone: &Zone,
    chart: &Chart,
    width: u16,
) -> Result<String, AllocError> {
    let width = width.max(NARROWEST);
    let layout = layout_of(chart, width);
    let axis = &layout.axis;
    let mut page = Page::new(alloc, zone, NO_READING);
    page.add("$\tto $\n", &[Moment(axis.from), Moment(axis.until)]);
    let ticks = ticks(&mut page, axis, u64::from(axis.places / 11).max(1));
    put_lines(alloc, &mut page.writer, &layout, chart, ticks.as_slice());
    drop(ticks);
    match page.into_text() {
        Ok(text) => {
            let fitted = fitted(alloc, text.as_str(), usize::from(width));
            drop(text);
            fitted
        }
        Err(error) => Err(error),
    }
}

// The labels have a third of the width at most.
fn layout_of(chart: &Chart, width: u16) -> Layout {
    let width = usize::from(width);
    let mut column: usize = 0;
    for row in &chart.rows {
        column = columns_of(row.label.as_str()).max(column);
    }
    let column = column.min(width / 3);
    let room = width.saturating_sub(column).saturating_sub(1);
    Layout {
        column,
        axis: Axis::new(chart.axis.from, chart.axis.until, room as u16),
    }
}

// The lines without the spaces at their ends; those that are too wide, in several.
fn fitted(alloc: Global, text: &str, width: usize) -> Result<String, AllocError> {
    let mut writer = TextWriter::new(alloc);
    for line in text.lines() {
        put_fitted(&mut writer, line.trim_end_matches(' '), width);
    }
    writer.into_text()
}

// Adds a line. If it has tabs, they part it, and the parts get two spaces between them; else blanks part it. A part that does not fit in
// the width begins a new line.
fn put_fitted(writer: &mut TextWriter, line: &str, width: usize) {
    let (between, gap) = if line.contains('\t') {
        ('\t', "  ")
    } else {
        (' ', " ")
    };
    // Before the first part there is no line, and so no room in it.
    let mut used: usize = usize::MAX;
    for part in line.split(between) {
        let wide = columns_of(part);
        let behind = used.saturating_add(gap.len()).saturating_add(wide);
        let has_room = behind <= width;
        let before = if has_room {
            gap
        } else if used < usize::MAX {
            "\n"
        } else {
            ""
        };
        writer.put_all(&[Text(before), Text(part)]);
        used = if has_room { behind } else { wide };
    }
    writer.put("\n");
}

fn put_lines(
    alloc: Global,
    writer: &mut TextWriter,
    layout: &Layout,
    chart: &Chart,
    ticks: &[Tick],
) {
    let mut cells = Vec::new(alloc);
    if cells.resize(usize::from(layout.axis.places), ' ').is_err() {
        writer.refuse();
    }
    for (at, row) in chart.rows.iter().enumerate() {
        if has_band(at) {
            put_axis(writer, layout, cells.as_mut_slice(), ticks);
        }
        put_row(writer, layout, cells.as_mut_slice(), row);
    }
    put_axis(writer, layout, cells.as_mut_slice(), ticks);
    drop(cells);
    writer.put(LEGEND);
    for (sentence, one, other) in missing(chart).iter() {
        if (*one | *other) > 0 {
            writer.fill(*sentence, &[Number(*one), Number(*other)]);
            writer.put("\n");
        }
    }
}

// Adds a line: the label in its column, cut if it is longer and as `TextWriter::put_plain` writes it, a space, and the cells. The axis has a cell
// for each place. They are empty then.
fn put_line(writer: &mut TextWriter, column: usize, cells: &mut [char], label: &str) {
    let (front, rest) = cut(label, column);
    writer.put_plain(front);
    writer.put(rest);
    let used = columns_of(front).saturating_add(columns_of(rest));
    for _ in used..column.saturating_add(1) {
        writer.put(" ");
    }
    for c in cells.iter() {
        writer.put_char(*c);
    }
    writer.put("\n");
    cells.fill(' ');
}

// A row's bars, and below them its marks, if it has some. In one place a graver one is shown instead of the others.
fn put_row(writer: &mut TextWriter, layout: &Layout, cells: &mut [char], row: &ChartRow) {
    let axis = &layout.axis;
    for (grave, block) in BLOCKS.iter().enumerate() {
        set_bars(cells, axis, row.bars.as_slice(), grave, *block);
    }
    put_line(writer, layout.column, cells, row.label.as_str());
    set_marks(cells, axis, row.demands.as_slice(), 'v');
    set_marks(cells, axis, row.throttles.as_slice(), '~');
    set_marks(cells, axis, row.refusals.as_slice(), 'x');
    let marks = row.demands.len() | row.throttles.len() | row.refusals.len();
    if marks > 0 {
        put_line(writer, layout.column, cells, "");
    }
}

// Sets the bars whose end is so grave.
fn set_bars(cells: &mut [char], axis: &Axis, bars: &[Bar], grave: usize, block: char) {
    for bar in bars {
        if grade(bar.end).0 == grave {
            let (first, past) = axis.filled(bar.from, bar.until);
            if let Some(filled) = cells.get_mut(usize::from(first)..usize::from(past)) {
                filled.fill(block);
            }
        }
    }
}

fn set_marks(cells: &mut [char], axis: &Axis, marks: &[ChartMark], sign: char) {
    for mark in marks {
        let (place, _) = axis.filled(mark.at, mark.at);
        set(cells, usize::from(place), sign);
    }
}

// The ticks: a line with their texts, and one with the texts below them. They come below the rows, and again above each 25th.
fn put_axis(writer: &mut TextWriter, layout: &Layout, cells: &mut [char], ticks: &[Tick]) {
    set_ticks(cells, &layout.axis, ticks, false);
    put_line(writer, layout.column, cells, "");
    set_ticks(cells, &layout.axis, ticks, true);
    put_line(writer, layout.column, cells, "");
}

fn set_ticks(cells: &mut [char], axis: &Axis, ticks: &[Tick], is_below: bool) {
    for tick in ticks {
        let (place, _) = axis.filled(tick.at, tick.at);
        let (text, below) = tick.parts();
        if is_below {
            set_text(cells, usize::from(place), ' ', below);
        } else {
            set_text(cells, usize::from(place), '|', text);
        }
    }
}

// Sets the sign at the place, and the text after it, if it fits there.
fn set_text(cells: &mut [char], place: usize, sign: char, text: &str) {
    let mut at = place;
    set(cells, at, sign);
    let end = at.saturating_add(1).saturating_add(text.len());
    if end <= cells.len() {
        for c in text.chars() {
            at = at.saturating_add(1);
            set(cells, at, c);
        }
    }
}

fn set(cells: &mut [char], place: usize, c: char) {
    if let Some(cell) = cells.get_mut(place) {
        *cell = c;
    }
}
