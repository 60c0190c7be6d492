//! The files that the paths of a command line name, and how one is read within a bound.

mod files;
mod reading;

pub use files::{Found, Kind, files_at};
pub use reading::{read_file, read_front};
