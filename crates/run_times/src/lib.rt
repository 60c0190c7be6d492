//! The times of jobs' runs: when time alone starts a job next, and times and durations as texts for people. It has what such texts are
//! written by too, and pictures of runs over time.
#![tactic(auto)]

mod escape;
mod moment;
mod next;
mod page;
pub mod picture;
mod span;
pub mod telling;
mod writer;

pub use escape::escaped;
pub use moment::{put_clock, time_text, utc};
pub use next::{coming_second, needs_event, next_run};
pub use page::{Filling, Page};
pub use writer::{Piece, TextWriter};
