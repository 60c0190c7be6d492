//! The types that every layer uses: clock readings, orders, answers, exits, refusals and events. What they mean is said by the
//! definitions in specs/, which are read in the order of docs/DEFINITIONS.md; module `laws` states what follows from them.
#![tactic(auto)]

ghost use Rattle.std.specs.Prelude.{◌≡◌};
ghost use Rattle.history_model.specs.RefusalTexts.{refusal_code};

pub mod definition;
mod event;
mod label;
pub mod laws;
mod reasons;
mod text;

pub use event::{Event, JobItem, Setting};
pub use label::is_label;
pub use reasons::{DemandKind, Reasons, StandingChild, Wants};
pub use text::{Text, TextRef};

/// A clock reading. `up` counts milliseconds and never falls (at most `MAX_UP`); `wall` counts seconds of Unix time and may be
/// set back (at most `MAX_WALL`).
#[derive(Clone, Copy, PartialEq, Eq)]
pub struct Reading {
    pub up: u64,
    pub wall: u64,
}

/// An entry of StartCalendarInterval (launchd.plist(5)): minute 0 to 59, hour 0 to 23, day 1 to 31, weekday 0 to 7 (0 and 7 are
/// Sunday), month 1 to 12. A key that is absent matches everything. If both a day and a weekday are set, one suffices
/// (crontab(5)).
#[derive(Clone, Copy, PartialEq, Eq)]
pub struct Entry {
    pub minute: Option<u8>,
    pub hour: Option<u8>,
    pub day: Option<u8>,
    pub weekday: Option<u8>,
    pub month: Option<u8>,
}

/// A minute of civil time, its seconds dropped. Months and days count from 1, weekdays from Sunday as 0.
#[derive(Clone, Copy, PartialEq, Eq)]
pub struct CivilMinute {
    pub year: i16,
    pub month: u8,
    pub day: u8,
    pub hour: u8,
    pub minute: u8,
    pub weekday: u8,
}

/// What is wrong with a definition. Texts write the variant's name.
#[derive(Clone, Copy, Debug, PartialEq, Eq)]
pub enum Reason {
    /// The bytes are not a JSON text (RFC 8259).
    NotJson,
    /// The text is not an object.
    NotObject,
    /// A required key is missing.
    Missing,
    /// The value is of another kind than the key's.
    WrongKind,
    /// The value is past its bounds, or has not the form of the key's values.
    OutOfRange,
    /// The text, or the list, is too long.
    TooLong,
    /// The text is not a label.
    BadLabel,
    /// The key, or the value, is one that this launcher refuses, since to ignore it would change who or where the job is.
    Unsupported,
}

/// The keys of a definition that a fault names (launchd.plist(5)). Texts write them as the manual page does, `NoKey` as `-`.
#[derive(Clone, Copy, Debug, PartialEq, Eq)]
pub enum KeyName {
    NoKey,
    Label,
    Program,
    ProgramArguments,
    RunAtLoad,
    LaunchOnlyOnce,
    DisabledKey,
    OnDemand,
    KeepAlive,
    WatchPaths,
    QueueDirectories,
    StartInterval,
    StartCalendarInterval,
    ThrottleInterval,
    ExitTimeOut,
    EnvironmentVariables,
    WorkingDirectory,
    StandardInPath,
    StandardOutPath,
    StandardErrorPath,
    Sockets,
    InetdCompatibility,
    UserName,
    GroupName,
    RootDirectory,
}

/// What was seen at a path: whether it exists, whether it is a directory that is not empty, and its stamp. The stamp differs if
/// the path was changed (its time of modification in nanoseconds). Follows launchd.plist(5), WatchPaths, QueueDirectories and
/// PathState.
#[derive(Clone, Copy, PartialEq, Eq)]
pub struct Obs {
    pub present: bool,
    pub nonempty_dir: bool,
    pub stamp: u64,
}

/// How a run ended: with an exit code, or by a signal. `Signal(0)` is a signal whose number is unknown.
#[derive(Clone, Copy, PartialEq, Eq)]
pub enum Ended {
    Code(u8),
    Signal(u8),
}

/// The child of a job: the run that is running, and its PID.
#[derive(Clone, Copy)]
pub struct Child {
    pub run: u64,
    pub pid: u32,
}

/// The last end of a job: the run, and how it ended.
#[derive(Clone, Copy)]
pub struct LastEnd {
    pub run: u64,
    pub how: Ended,
}

/// What a job orders: the spawn of its next run, with the connection that it carries if one waits; TERM or KILL for its child's
/// run. A job that leaves orders the close of each waiting connection. Its last order says that it is removed.
#[derive(Clone, Copy, PartialEq, Eq)]
pub enum Act {
    Spawn { run: u64, conn: Option<u64> },
    Term { run: u64 },
    Kill { run: u64 },
    Close { conn: u64 },
    Gone,
}

/// The number under which a table holds a loaded job. It stands for the job's label.
pub type JobNo = u32;

/// An order, and the number of the job that gives it.
#[derive(Clone, Copy, PartialEq, Eq)]
pub struct Order {
    pub job: JobNo,
    pub act: Act,
}

/// What a control client asks of a job (launchctl(1): start, stop, unload, kickstart; shutdown is this project's own).
#[derive(Clone, Copy, PartialEq, Eq)]
pub enum Ask {
    Start,
    Stop,
    Unload,
    Shutdown,
    /// A start; with the flag (-k) also an end of the present run, by KILL at once.
    Kickstart(bool),
}

/// The answer to an order: a spawn succeeded, with the PID of the child (at least 1), or was refused; TERM or KILL was sent
/// (`ok`), or could not be.
#[derive(Clone, Copy, PartialEq, Eq)]
pub enum Answer {
    Spawned { run: u64, pid: u32 },
    SpawnRefused { run: u64 },
    Termed { run: u64, ok: bool },
    Killed { run: u64, ok: bool },
}

/// Why an event is refused. After each of them jobs, settings, the clock reading and timers are as they were. The codes and their
/// order are this project's own.
#[derive(Clone, Copy, PartialEq, Eq)]
pub enum Refusal {
    /// A growth was refused.
    NoMemory,
    /// The line is not an event, a name is not a label, or a PID is 0.
    BadRequest,
    /// No job of this label is loaded.
    NoSuchJob,
    /// A job of this label is loaded.
    AlreadyLoaded,
    /// The label is disabled, and neither -w nor -F is set.
    Disabled,
    /// The job is being removed.
    Removing,
    /// There is neither a child nor an awaited spawn to stop.
    NotRunning,
    /// The definition is refused: what is wrong, and with which key.
    BadDefinition(Reason, KeyName),
    /// The setting could not be stored.
    StoreRefused,
    /// `MAX_JOBS` jobs are loaded.
    TooManyJobs,
    /// A socket of the job could not be bound.
    SocketRefused,
    /// `MAX_CONNECTIONS` connections of the job wait.
    TooManyConnections,
    /// The event comes out of turn: an answer that is not awaited, an exit of a run that is not the child, or a connection that
    /// does not wait. Or the number of a new connection was used.
    Stale,
    /// `up` has fallen, or the clock reading is past its bounds.
    ClockRefused,
    /// A shutdown was accepted.
    ShuttingDown,
}

impl Refusal {
    /// The code by which outcomes, replies and exit statuses name this refusal, from 1 to 15; 0 is for none.
    /// Takes no memory.
    pub fn code(&self) -> u8
        ensures { result ≡ refusal_code self.now }
    {
        match self {
            Refusal::NoMemory => 1,
            Refusal::BadRequest => 2,
            Refusal::NoSuchJob => 3,
            Refusal::AlreadyLoaded => 4,
            Refusal::Disabled => 5,
            Refusal::Removing => 6,
            Refusal::NotRunning => 7,
            Refusal::BadDefinition(_, _) => 8,
            Refusal::StoreRefused => 9,
            Refusal::TooManyJobs => 10,
            Refusal::SocketRefused => 11,
            Refusal::TooManyConnections => 12,
            Refusal::Stale => 13,
            Refusal::ClockRefused => 14,
            Refusal::ShuttingDown => 15,
        }
    }
}

/// What a job is doing, the first that applies.
#[derive(Clone, Copy)]
pub enum JobState {
    /// An unload or a shutdown was asked.
    Removing,
    /// The answer to a spawn is awaited.
    Spawning,
    /// A child runs that is being stopped, or that a kickstart asked to end.
    Stopping,
    /// A child runs.
    Running,
    /// There is no child, and none is awaited.
    Idle,
}

/// What `print` and `list` of launchctl(1) show of a job.
#[derive(Clone, Copy)]
pub struct ShownJob {
    pub state: JobState,
    /// The child's.
    pub pid: Option<u32>,
    /// How many spawns were ordered since the load, refused ones too.
    pub runs: u64,
    /// How the last run ended, if one did since the load.
    pub last_end: Option<Ended>,
    /// Whether a one-shot start request is pending.
    pub demand: bool,
    /// How many connections wait.
    pub connections: usize,
}

/// What an event is answered: a refusal, or none and a text. The text is empty at a refusal; the writers of lines put the
/// refusal's own text there.
#[derive(Drop)]
pub struct Reply {
    pub refusal: Option<Refusal>,
    pub text: Text,
}

/// The greatest `up` of a clock reading, in milliseconds.
pub const MAX_UP: u64 = 9_000_000_000_000_000;

/// The greatest `wall` of a clock reading, in seconds of Unix time.
pub const MAX_WALL: u64 = 250_000_000_000;

/// A second, in milliseconds of `up`.
pub const SECOND: u64 = 1_000;

/// How far back a clock reading looks for minutes of the calendar, in seconds of `wall`: 400 days.
pub const CALENDAR_REACH: u64 = 34_560_000;

/// How many jobs may be loaded.
pub const MAX_JOBS: usize = 1024;

/// How many connections of one job may wait.
pub const MAX_CONNECTIONS: usize = 64;
