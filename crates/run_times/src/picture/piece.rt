//! The chart in pieces, as SVG or as a page of HTML.

use crate::page::Page;
use crate::picture::chart::Chart;
use crate::picture::html::{Beside, HEAD, put_front, put_rest};
use crate::picture::svg::put_figure;
use calendar_due::Zone;
use history_model::Reading;
use std::alloc::{AllocError, Global};

/// Pictures do not speak as of a clock reading: each of their times is shown whole.
pub(crate) const NO_READING: Reading = Reading { up: 0, wall: 0 };

/// A piece of the chart as an SVG document, or with what is next to it as a page of HTML. Pieces begin with 0: the head, one for each row of
/// the chart, and the rest; no piece comes after these. Times are shown in the zone. So no more than a row's text is held at once.
pub fn picture_piece(
    alloc: Global,
    zone: &Zone,
    chart: &Chart,
    beside: Option<&Beside<'_>>,
    index: usize,
) -> Result<String, AllocError> {
    let mut page = Page::new(alloc, zone, NO_READING);
    match beside {
        Some(beside) if index == 0 => {
            page.writer.put(HEAD);
            put_front(&mut page, beside);
        }
        None if index == 0 => page
            .writer
            .put("<?xml version=\"1.0\" encoding=\"UTF-8\"?>\n"),
        _ => {}
    }
    put_figure(&mut page, chart, index);
    if index > chart.rows.len() {
        if let Some(beside) = beside {
            put_rest(&mut page, chart, beside);
        }
    }
    page.into_text()
}
