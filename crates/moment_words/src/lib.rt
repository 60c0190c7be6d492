//! Times as people write them, and the second of Unix time that each means by a clock.
#![tactic(auto)]

mod meaning;
mod reading;

pub use meaning::{Moment, Time, second_of};
pub use reading::{WANTED, read_moment};
