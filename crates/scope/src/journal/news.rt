//! What an event of a journal was, or gave.

use crate::journal::job::JobRequest;
use crate::journal::run::JobRun;
use crate::journal::waiting::Wait;
use history_model::{DemandKind, Refusal, Wants};
use pace::Signal;

/// What an event of a journal was, or gave.
#[derive(Clone, Copy)]
pub(crate) enum What {
    Loaded,
    LoadRefused(Refusal),
    Asked(JobRequest),
    /// It was asked, and refused.
    Declined(JobRequest, Refusal),
    /// A connection came.
    Came(u64),
    /// A connection was given up by its client.
    Left(u64),
    /// A start was ordered, since this wanted it.
    Ordered {
        run: u64,
        connection: Option<u64>,
        demand: Option<DemandKind>,
        wants: Wants,
    },
    Began {
        run: u64,
        pid: u32,
    },
    NotBegun {
        run: u64,
        wait: Wait,
    },
    /// A signal was ordered for the run.
    Told {
        run: u64,
        signal: Signal,
    },
    /// It could not be sent.
    Untold {
        run: u64,
        signal: Signal,
    },
    Ended {
        run: JobRun,
        wait: Wait,
        /// It was the third one after another that makes one ask whether the program puts itself in the background.
        is_odd: bool,
    },
    /// The system refused to wait for the run.
    Lost {
        run: u64,
    },
    Gone,
}

/// What a line gave, and the label of the job; the label is empty if it is not known, or if it is every job's.
#[derive(Drop)]
pub(crate) struct News {
    pub(crate) label: String,
    /// The serial number of the job, if it is or was loaded.
    pub(crate) serial: Option<u64>,
    pub(crate) what: What,
}
