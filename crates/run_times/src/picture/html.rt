//! A self-contained page: what is failing, the coming starts, the chart, the table of the runs, and why each job runs or not. It has no script.

use crate::page::Filling::{Escaped, Moment, Text};
use crate::page::Page;
use crate::picture::chart::Chart;
use crate::picture::svg::has_band;

/// A start that the clock will want.
#[derive(Drop)]
pub struct Coming {
    pub label: String,
    /// When, in seconds of Unix time.
    pub at: u64,
    /// The key that wants it.
    pub key: &'static str,
}

/// What a page has besides the chart.
#[derive(Clone, Copy)]
pub struct Beside<'a> {
    /// Which jobs fail, and why; empty if none does.
    pub failing: &'a str,
    /// Lines of cells with tabs between them, the first being the head.
    pub table: &'a str,
    /// Why each job is in its state.
    pub why: &'a str,
    /// In the order of time.
    pub coming: &'a [Coming],
}

/// What is above the chart. In a window that is narrower than the chart, the chart scrolls, and the names of its rows stay at the left. They are a
/// list over it, by the heights that `svg` gives. These are 64 for what is above the rows, 50 for a row, 20 for one without a run and a mark, and 34
/// for the axis between rows. The colours are literal ones, as in the chart.
pub(crate) const HEAD: &str = "<!DOCTYPE html>
<html lang=\"en\">
<head>
<meta charset=\"utf-8\">
<meta name=\"viewport\" content=\"width=device-width, initial-scale=1\">
<title>Runs of jobs</title>
<style>
:root { color-scheme: light dark; }
body { margin: 0; background: #ffffff; color: #1c2733; font: 16px/1.45 system-ui, 'DejaVu Sans', sans-serif; }
main { max-width: 75rem; margin: 0 auto; padding: 1rem; }
h1 { font-size: 1.5rem; margin: 0 0 0.75rem; }
h2 { font-size: 1.15rem; margin: 1.75rem 0 0.5rem; }
p { margin: 0 0 0.5rem; }
figure, .wide { margin: 0; overflow-x: auto; border: 1px solid #d9dfe5; border-radius: 6px; }
figure .runs { display: block; width: 100%; height: auto; }
.names { display: none; }
@media (max-width: 1060px) {
  figure { display: grid; }
  figure .runs { grid-area: 1 / 1; width: 1000px; }
  .runs .label { visibility: hidden; }
  .names { display: block; grid-area: 1 / 1; position: sticky; left: 0; justify-self: start; max-width: calc(100vw - 4rem); margin: 0; padding: 64px 0 0 10px; box-sizing: border-box; list-style: none; pointer-events: none; }
  .names li { height: 50px; overflow: hidden; text-overflow: ellipsis; white-space: nowrap; font: bold 12px/18px ui-monospace, 'DejaVu Sans Mono', Menlo, Consolas, monospace; }
  .names .idle { height: 20px; }
  .names .band { height: 34px; }
}
table { border-collapse: collapse; width: 100%; font-variant-numeric: tabular-nums; }
th, td { padding: 0.3rem 0.7rem; text-align: right; white-space: nowrap; border-bottom: 1px solid #d9dfe5; }
th:first-child, td:first-child, .left td, .left th { text-align: left; }
td:first-child, .left td:nth-child(2) { white-space: normal; overflow-wrap: anywhere; min-width: 12rem; }
.left td:first-child { white-space: nowrap; }
tr:last-child td { border-bottom: 0; }
th { background: #f4f6f8; font-weight: 600; }
pre { margin: 0; padding: 0.75rem; background: #f4f6f8; border-radius: 6px; white-space: pre-wrap; overflow-wrap: anywhere; font: 0.85rem/1.45 ui-monospace, 'DejaVu Sans Mono', Menlo, Consolas, monospace; }
@media (max-width: 40rem) { th, td { padding: 0.3rem 0.45rem; } td:first-child, .left td:nth-child(2) { min-width: 10rem; } .left td:first-child { white-space: normal; min-width: 8.5rem; } }
@media (prefers-color-scheme: dark) { body { background: #11171d; color: #e6ebf0; } figure, .wide { border-color: #2c3742; } th, td { border-bottom-color: #2c3742; } th, pre { background: #1a222b; } }
</style>
</head>
<body>
<main>
<h1>Runs of jobs</h1>
";

/// Adds what is between the heading and the chart: what is failing, and the coming starts.
pub(crate) fn put_front(page: &mut Page<'_>, beside: &Beside<'_>) {
    page.writer.put("<h2>What is failing</h2>\n");
    if beside.failing.is_empty() {
        page.writer.put("<p>Nothing.</p>\n");
    } else {
        page.writer.put("<pre>");
        for line in beside.failing.lines() {
            put_failing(page, line);
        }
        page.writer.put("</pre>\n");
    }
    put_coming(page, beside.coming);
    page.writer.put("<h2>The runs</h2>\n<figure>\n");
}

// A line of what is failing. The label that it begins with is isolated.
fn put_failing(page: &mut Page<'_>, line: &str) {
    match line.split_once(": it") {
        Some((label, rest)) => {
            page.add("<bdi>$</bdi>: it$\n", &[Escaped(label), Escaped(rest)]);
        }
        None => page.add("$\n", &[Escaped(line)]),
    }
}

/// Adds the names of the chart's rows, and what is below the chart. The last text is escaped line by line, so that its newlines stay.
pub(crate) fn put_rest(page: &mut Page<'_>, chart: &Chart, beside: &Beside<'_>) {
    put_names(page, chart);
    page.writer.put(
        "</figure>\n<h2>What the runs came to</h2>\n<p>Times are in seconds.</p>\n<div class=\"wide\"><table>\n",
    );
    put_table(page, beside.table);
    page.writer
        .put("</table></div>\n<h2>Why each job runs or not</h2>\n<pre>");
    for line in beside.why.split('\n') {
        put_why(page, line);
    }
    page.writer.put("</pre>\n</main>\n</body>\n</html>\n");
}

// The labels of the rows, in order, which a narrow window shows in the place of those in the chart. A reader of the page aloud passes them over.
fn put_names(page: &mut Page<'_>, chart: &Chart) {
    page.writer
        .put("<ol class=\"names\" aria-hidden=\"true\">\n");
    for (at, row) in chart.rows.iter().enumerate() {
        if has_band(at) {
            page.writer.put("<li class=\"band\"></li>\n");
        }
        let form = if row.is_idle() {
            "<li class=\"idle\"><bdi>$</bdi></li>\n"
        } else {
            "<li><bdi>$</bdi></li>\n"
        };
        page.add(form, &[Escaped(row.label.as_str())]);
    }
    page.writer.put("</ol>\n");
}

// A line on why the jobs are in their states. If a label begins it, the label is isolated.
fn put_why(page: &mut Page<'_>, line: &str) {
    match line.rsplit_once(" is ") {
        Some((label, state)) if !line.starts_with(' ') => {
            page.add("<bdi>$</bdi> is $\n", &[Escaped(label), Escaped(state)]);
        }
        _ => page.add("$\n", &[Escaped(line)]),
    }
}

fn put_table(page: &mut Page<'_>, table: &str) {
    let mut is_head = true;
    for line in table.lines() {
        put_cells(page, line, is_head);
        is_head = false;
    }
}

// The first cell of a row is a label, and is isolated.
fn put_cells(page: &mut Page<'_>, line: &str, is_head: bool) {
    let mut is_label = !is_head;
    page.writer.put("<tr>");
    for part in line.split('\t') {
        let cell = match (is_head, is_label) {
            (true, _) => "<th>$</th>",
            (false, true) => "<td><bdi>$</bdi></td>",
            (false, false) => "<td>$</td>",
        };
        page.add(cell, &[Escaped(part)]);
        is_label = false;
    }
    page.writer.put("</tr>\n");
}

// The coming starts, below their heading.
fn put_coming(page: &mut Page<'_>, coming: &[Coming]) {
    page.writer.put("<h2>Coming starts by the clock</h2>\n");
    let (before, behind) = if coming.is_empty() {
        ("<p>None.</p>\n", "")
    } else {
        (
            "<div class=\"wide\"><table class=\"left\">\n<tr><th>time</th><th>label</th><th>by</th></tr>\n",
            "</table></div>\n",
        )
    };
    page.writer.put(before);
    for start in coming {
        let holes = [
            Moment(start.at),
            Escaped(start.label.as_str()),
            Text(start.key),
        ];
        page.add(
            "<tr><td>$</td><td><bdi>$</bdi></td><td>$</td></tr>\n",
            &holes,
        );
    }
    page.writer.put(behind);
}
