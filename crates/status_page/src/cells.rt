//! The cells of a row, as texts: how wide each is, and a label cut in its middle.

use run_times::picture::{columns_of, columns_of_char};

/// The beginning and the end of the text, with `…` between them, in at most this many columns; the whole text, if it fits.
pub(crate) fn cut_in_the_middle(text: &str, columns: usize) -> (&str, &'static str, &str) {
    let wide = columns_of(text);
    if wide <= columns {
        return (text, "", "");
    }
    // The end has the odd column: labels differ there.
    let room = columns.saturating_sub(1);
    let front = front_of(text, room / 2);
    let rest = text.get(front..).unwrap_or("");
    let left = room.saturating_sub(room / 2);
    (text.get(..front).unwrap_or(""), "…", end_of(rest, left))
}

// How many bytes of the text fit in this many columns.
fn front_of(text: &str, columns: usize) -> usize {
    let mut used: usize = 0;
    let mut end: usize = 0;
    for c in text.chars() {
        used = used.saturating_add(columns_of_char(c));
        if used <= columns {
            end = end.saturating_add(c.len_utf8());
        }
    }
    end
}

// The longest end of the text that fits in this many columns.
fn end_of(text: &str, columns: usize) -> &str {
    let mut wide = columns_of(text);
    let mut from: usize = 0;
    for c in text.chars() {
        if wide > columns {
            wide = wide.saturating_sub(columns_of_char(c));
            from = from.saturating_add(c.len_utf8());
        }
    }
    text.get(from..).unwrap_or("")
}
