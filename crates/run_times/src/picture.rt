//! A chart of jobs' runs over time, and its three pictures: SVG, a page in one file, and blocks of a terminal. It knows nothing of
//! journals: the caller gives it what to draw.

mod axis;
mod blocks;
mod chart;
mod gathering;
mod html;
mod piece;
mod svg;
mod ticks;
mod words;

pub use axis::Axis;
pub use blocks::blocks_text;
pub use chart::{Bar, Chart, ChartMark, ChartRow, End, MarkKind};
pub use gathering::{Gathered, Gathering};
pub use html::{Beside, Coming};
pub use piece::picture_piece;
pub use svg::PLACES;
pub use words::{columns_of, columns_of_char};
