//! What the arguments ask of `why` and `next`, as their reports take it.

use history_model::Text;
use launchctl_words::{NextWords, ScopeCommand, ScopeTask, WhyWords};

/// Of which jobs it is said why they run or not, and in which form.
#[derive(Clone, Copy)]
pub(crate) struct WhyAsked<'a> {
    /// Of none, all jobs.
    pub(crate) labels: &'a [Text],
    /// Only failing jobs.
    pub(crate) is_failing: bool,
    /// As objects.
    pub(crate) is_json: bool,
    /// With times in UTC.
    pub(crate) is_utc: bool,
}

/// Which coming starts are shown, and in which form.
#[derive(Clone, Copy)]
pub(crate) struct NextAsked {
    /// Each of them, and not the next of each job alone.
    pub(crate) is_all: bool,
    /// How many.
    pub(crate) count: Option<u64>,
    /// As objects.
    pub(crate) is_json: bool,
    /// With times in UTC.
    pub(crate) is_utc: bool,
}

impl<'a> WhyAsked<'a> {
    pub(crate) fn of(command: &'a ScopeCommand, why: &WhyWords) -> WhyAsked<'a> {
        WhyAsked {
            labels: command.words.as_slice(),
            is_failing: why.is_failing,
            is_json: command.is_json,
            is_utc: command.is_utc,
        }
    }
}

impl NextAsked {
    pub(crate) fn of(command: &ScopeCommand, next: &NextWords) -> NextAsked {
        NextAsked {
            is_all: next.is_all,
            count: next.count,
            is_json: command.is_json,
            is_utc: command.is_utc,
        }
    }
}

/// Whether failing jobs alone are asked for.
pub(crate) fn asks_for_failing(command: &ScopeCommand) -> bool {
    match &command.task {
        ScopeTask::Why(why) => why.is_failing,
        ScopeTask::Check(_)
        | ScopeTask::Next(_)
        | ScopeTask::Status
        | ScopeTask::Metrics
        | ScopeTask::Log(_)
        | ScopeTask::Runs(_)
        | ScopeTask::Picture(_)
        | ScopeTask::Cron(_)
        | ScopeTask::Plist(_)
        | ScopeTask::Show
        | ScopeTask::Drift => false,
    }
}
