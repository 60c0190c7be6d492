//! Opens the table of jobs for a journal's header.
#![tactic(auto)]

mod opening;

pub use opening::{OpeningFault, table_of, zone_of};
