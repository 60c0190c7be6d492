//! How wide a text is, and what is said of what is left out.

use crate::picture::chart::Chart;
use plain_text::plain_char;
use unicode_width::UnicodeWidthChar;

/// How many columns the character takes as it is written; one that can't be shown takes one.
pub fn columns_of_char(c: char) -> usize {
    UnicodeWidthChar::width(plain_char(c)).unwrap_or(1)
}

/// How many columns the text takes.
pub fn columns_of(text: &str) -> usize {
    let mut columns: usize = 0;
    for c in text.chars() {
        columns = columns.saturating_add(columns_of_char(c));
    }
    columns
}

/// The text in at most this many columns: if it is wider, as much of its beginning as fits, and `…`.
pub(crate) fn cut(text: &str, columns: usize) -> (&str, &'static str) {
    let mut used: usize = 0;
    // Where a column is left for the `…`.
    let mut end: usize = 0;
    for c in text.chars() {
        used = used.saturating_add(columns_of_char(c));
        if used < columns {
            end = end.saturating_add(c.len_utf8());
        }
    }
    if used <= columns {
        return (text, "");
    }
    (text.get(..end).unwrap_or(""), "…")
}

/// What may be missing in the chart: a sentence for each kind of it, with holes for the numbers after it. A sentence is shown if one is not
/// 0.
pub(crate) fn missing(chart: &Chart) -> [(&'static str, u64, u64); 2] {
    [
        (
            "Not drawn, being older than what is kept: runs $, marks $.",
            chart.missing_runs,
            chart.missing_marks,
        ),
        (
            "Not drawn, being of jobs that were not loaded before: refusals $.",
            chart.rowless_refusals,
            0,
        ),
    ]
}
