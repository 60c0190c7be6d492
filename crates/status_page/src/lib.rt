//! The state of a launcher's jobs by its status file (`status_file`). The file is read whole, and `launcher_life` says whether its launcher is running.
//! This crate makes a table with a line a job, and says which jobs are failing. What follows from the facts of a job as the clocks go on is here too, for the
//! texts of `jobscope why`.
#![tactic(auto)]

mod boot;
mod cells;
mod clocks;
mod counts;
mod failing;
mod head;
mod left_out;
mod passed;
mod refused;
mod rows;
mod samples;
mod standing;
mod starts;
mod table;
mod throttles;
mod usage;
mod width;

pub use boot::{Boot, LeftOut};
pub use clocks::{
    FARTHEST, StartWhen, can_start_again, gone_on, is_wanted, start_when, within_limits,
};
pub use counts::{RunCount, RunCounts};
pub use failing::{
    Failing, Fault, LastEnd, PastRuns, add_failing, fault_of, is_crash, is_refused_last,
    is_start_refused, last_end_of,
};
pub use head::{ENDING, add_head};
pub use left_out::{add_left_out, is_told};
pub use passed::{Down, passed_minute};
pub use rows::{Next, ShownState, StatusRow, last_refused, row_of};
pub use samples::{journal_flag, sample_of, samples_text, up_flag, with_count};
pub use standing::{
    Diagnostic, StatusRead, named_path, packages_file, print_diagnostic, read_standing,
};
pub use starts::{ToldStart, start_told};
pub use table::{Look, is_asked, reading_of, table_text, told_as_of, told_row};
pub use throttles::{ThrottleBy, ThrottleEnd, second_told, throttle_by, throttle_end};
pub use usage::{Usage, usage_of};
pub use width::{has_colour, width_of};
