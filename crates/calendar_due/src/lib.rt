//! Civil time for calendar jobs: what a clock shows in a zone that the caller gives, which civil minutes a step of the clock
//! crosses, and which calendar entries match. This crate looks up no zone and reads the time from nowhere.
#![tactic(auto)]

mod calendar;
pub mod laws;
mod zone;

pub use calendar::Calendar;
pub use zone::{LONGEST_FILE, Zone, ZoneFault};
