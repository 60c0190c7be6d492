//! One run of a job, from its order to its end.

use history_model::{DemandKind, Reading};

/// The state of a run, or how it ended.
#[derive(Clone, Copy)]
pub(crate) enum RunEnd {
    /// The answer to its order is awaited.
    Awaited,
    /// Its child is running.
    Lives,
    /// Its order was refused.
    Refused,
    /// It ended with this exit code.
    Code(u8),
    /// It ended by this signal; 0 is an unknown one.
    Signal(u8),
}

/// A run, and the clock readings at which it was ordered, began and ended.
#[derive(Clone, Copy)]
pub(crate) struct JobRun {
    /// The serial number of its job.
    pub(crate) job: u64,
    /// Its number among the runs of its job's load, from 1.
    pub(crate) run: u64,
    /// What made the start request that was pending when it was ordered, if one was.
    pub(crate) demand: Option<DemandKind>,
    pub(crate) ordered: Reading,
    /// When the order was answered; until then as `ordered`.
    pub(crate) begun: Reading,
    /// When it ended, or was refused; until then as `begun`.
    pub(crate) ended: Reading,
    pub(crate) end: RunEnd,
    /// Whether TERM or KILL was ordered for it.
    pub(crate) is_ordered_to_end: bool,
    /// Whether its end was a crash.
    pub(crate) is_crash: bool,
}

impl JobRun {
    /// A run that is just ordered.
    pub(crate) fn ordered(job: u64, run: u64, demand: Option<DemandKind>, at: Reading) -> JobRun {
        JobRun {
            job,
            run,
            demand,
            ordered: at,
            begun: at,
            ended: at,
            end: RunEnd::Awaited,
            is_ordered_to_end: false,
            is_crash: false,
        }
    }

    /// When it began, if it is running.
    pub(crate) fn running_since(&self) -> Option<Reading> {
        match self.end {
            RunEnd::Lives => Some(self.begun),
            _ => None,
        }
    }

    /// How many milliseconds it ran, or has run up to this clock reading.
    pub(crate) fn lived(&self, at: Reading) -> u64 {
        match self.end {
            RunEnd::Awaited | RunEnd::Refused => 0,
            RunEnd::Lives => at.up.saturating_sub(self.begun.up),
            RunEnd::Code(_) | RunEnd::Signal(_) => self.ended.up.saturating_sub(self.begun.up),
        }
    }
}
