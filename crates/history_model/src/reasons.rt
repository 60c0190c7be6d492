//! Why a job has no spawn due: what keeps it back, and what wants it.

use crate::Act;

/// Which kind of event made a one-shot start request.
#[derive(Clone, Copy)]
pub enum DemandKind {
    /// The load: `RunAtLoad`, or the condition `SuccessfulExit`, which implies it (launchd.plist(5)).
    Load,
    /// `start` of launchctl(1).
    Start,
    /// `kickstart` of launchctl(1), with `-k` or without.
    Kickstart,
    /// A clock reading that crossed `StartInterval`, and at which no calendar entry fired.
    Interval,
    /// A clock reading at which an entry of `StartCalendarInterval` fired.
    Calendar,
    /// A look at a path of `WatchPaths` that had changed.
    Path,
}

/// What wants a job, each way for itself (launchd.plist(5)). A job that nothing wants has no spawn due.
#[derive(Clone, Copy)]
pub struct Wants {
    /// A one-shot start request is pending.
    pub demand: bool,
    /// How many connections wait.
    pub connections: usize,
    /// `KeepAlive` is true.
    pub keep_alive: bool,
    /// The last end is as the condition `SuccessfulExit` says.
    pub successful_exit: bool,
    /// The last end is as the condition `Crashed` says.
    pub crashed: bool,
    /// A path of `PathState` was last seen as its condition says.
    pub path_state: bool,
    /// A directory of `QueueDirectories` was last seen with something in it.
    pub queue_directories: bool,
}

/// The child of a job, and whether its end was asked for.
#[derive(Clone, Copy)]
pub struct StandingChild {
    pub run: u64,
    pub pid: u32,
    /// A stop, an unload or a shutdown was asked.
    pub is_stopped: bool,
    /// A `kickstart -k` was asked.
    pub is_struck: bool,
}

/// What keeps the next spawn of a job from being due: all that holds, not the first alone.
#[derive(Clone, Copy)]
pub struct Reasons {
    /// An unload or a shutdown was asked.
    pub is_removing: bool,
    /// A run is running.
    pub child: Option<StandingChild>,
    /// The order whose answer is awaited.
    pub awaited: Option<Act>,
    /// What wants the job; it is a reason if nothing does.
    pub wants: Wants,
    /// If the job is throttled, the least `up` from which it is not.
    pub throttled_until: Option<u64>,
    /// `LaunchOnlyOnce` is set, and a spawn succeeded.
    pub is_launch_spent: bool,
    /// 2^63 spawns were ordered.
    pub are_runs_spent: bool,
}
