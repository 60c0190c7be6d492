//! What is done with a table of jobs, and what is to come of it: how many jobs one event asks for their order. It also has what no line of a journal
//! shows. A clock reading asks those whose next deadline it reaches and those with a calendar entry of a crossed minute. An observation asks those
//! that list its path, a load the loaded job, and an answer its job. An unload asks none if the job leaves.

use crate::tables::rows::Event::*;
use crate::tables::rows::Row::*;
use history_model::JobNo;

/// What happens.
pub enum Event {
    Load(&'static str),
    Clock(u64),
    Saw(&'static str),
    Spawned(&'static str, u64),
    Unload(&'static str),
}

/// What happens, or is so then.
pub enum Row {
    /// An event, with how many jobs are asked and how many orders come; none if the event is refused.
    Asks(Event, Option<(u32, usize)>),
    /// A load. The job has this number.
    Numbered(&'static str, JobNo),
    /// After this label the next child is of this label, number and run; or there is none.
    Child(&'static str, Option<(&'static str, JobNo, u64)>),
    /// After this path this one is listed next; or none is.
    Path(&'static str, Option<&'static str>),
    /// No job is there.
    Empty,
}

const RUNS_A: &str = r#"{"Label":"a","ProgramArguments":["/bin/x"],"RunAtLoad":true}"#;

const RUNS_B: &str = r#"{"Label":"b","ProgramArguments":["/bin/x"],"RunAtLoad":true}"#;

const RUNS_C: &str = r#"{"Label":"c","ProgramArguments":["/bin/x"],"RunAtLoad":true}"#;

const RESTS_A: &str = r#"{"Label":"a","ProgramArguments":["/bin/x"]}"#;

const WATCHING: &str =
    r#"{"Label":"w","ProgramArguments":["/bin/x"],"WatchPaths":["/v","/t"],"QueueDirectories":["/u"]}"#;

/// A job that leaves gives its number back: the next load has it again, however often that happens.
pub const GIVEN_BACK: &[Row] = &[Numbered(RESTS_A, 0), Asks(Unload("a"), Some((0, 1))), Empty];

/// Children come in the order of labels.
pub const CHILDREN: &[Row] = &[
    Numbered(RUNS_B, 0),
    Numbered(RUNS_A, 1),
    Asks(Load(RUNS_C), Some((1, 1))),
    Asks(Spawned("a", 1), Some((1, 0))),
    Asks(Spawned("b", 1), Some((1, 0))),
    Child("", Some(("a", 1, 1))),
    Child("a", Some(("b", 0, 1))),
    Child("b", None),
];

/// The paths that are listed come in order.
pub const LISTED: &[Row] = &[
    Asks(Load(WATCHING), Some((1, 0))),
    Path("", Some("/t")),
    Path("/t", Some("/u")),
    Path("/u", Some("/v")),
    Path("/v", None),
];

/// Each label is one of `a000` to `a098`, of jobs that start each hour, or `x`, that starts each 30 seconds.
pub const MANY: &[Row] = &[
    Asks(Clock(29_999), Some((0, 0))),
    Asks(Clock(30_000), Some((1, 1))),
    Asks(Spawned("x", 1), Some((1, 0))),
    Asks(Clock(30_001), Some((0, 0))),
    Asks(Saw("/w"), Some((0, 0))),
];

/// After an hour the interval of each of these jobs is over; a millisecond later none is.
pub const ALL: &[Row] = &[
    Asks(Clock(3_600_000), Some((100, 100))),
    Asks(Clock(3_600_001), Some((0, 0))),
];

/// The first clock reading is at 22:13:20.
const HALF_PAST: &str = r#"{"Label":"m","Program":"/bin/x","StartCalendarInterval":{"Minute":30}}"#;

const FIRST_TO_WATCH: &str = r#"{"Label":"a0005","Program":"/bin/x","WatchPaths":["/w"]}"#;

const LAST_TO_WATCH: &str = r#"{"Label":"y","Program":"/bin/x","WatchPaths":["/u","/w"]}"#;

/// Two of the many jobs list the path, and one of them another too.
pub const WATCHED: &[Row] = &[
    Asks(Load(FIRST_TO_WATCH), Some((1, 0))),
    Asks(Load(LAST_TO_WATCH), Some((1, 0))),
    Asks(Saw("/v"), Some((0, 0))),
    Asks(Saw("/w"), Some((2, 0))),
    Asks(Saw("/u"), Some((1, 0))),
];

/// No job has the minute 22:14, and one has 22:30.
pub const MINUTES: &[Row] = &[
    Asks(Load(HALF_PAST), Some((1, 0))),
    Asks(Clock(40_000), Some((0, 0))),
    Asks(Clock(1_000_000), Some((1, 1))),
];
