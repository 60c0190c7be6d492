//! What comes to a launcher.

use history_model::{Ended, Obs, Reading};

/// What comes to the launcher between its turns. A job is named by its label.
#[derive(Clone, Copy)]
pub enum Input<'a> {
    /// A control client's line, the newline left out.
    Line(&'a [u8]),
    /// The clocks were read.
    Clock(Reading),
    /// An observation of a path.
    Saw(&'a str, Obs),
    /// A connection came to one of the job's sockets, under this number.
    Came(&'a str, u64),
    /// A waiting connection was given up.
    Left(&'a str, u64),
    /// This run of the job exited so.
    Ended(&'a str, u64, Ended),
    /// The system refused to wait for the child of this run.
    WaitRefused(&'a str, u64),
}
