//! The calls that are made of the outside, and what it answers, as plain data.

use history_model::{Ended, JobNo, Obs, Reading};

/// Why the outside did not do what a call asked.
#[derive(Clone, Copy)]
pub enum EdgeFault {
    /// There was no memory for the call.
    NoMemory,
    /// The system, or the script of a [`MemoryEdge`](crate::MemoryEdge), refused the call.
    Refused,
}

/// A call of the outside: which one, and for whose run. It does not have the path or the definition that the call was
/// given.
#[derive(Clone, Copy, PartialEq, Eq)]
pub enum EdgeCall {
    /// A start of the job's run, with the connection that it serves if there is one.
    Start {
        job: JobNo,
        run: u64,
        conn: Option<u64>,
    },
    /// TERM for the run's child.
    Term {
        job: JobNo,
        run: u64,
    },
    /// KILL for the run's child.
    Kill {
        job: JobNo,
        run: u64,
    },
    /// It is asked whether the run's child has exited.
    Poll {
        job: JobNo,
        run: u64,
    },
    /// A bind of the job's sockets.
    Bind {
        job: JobNo,
    },
    /// The end of a connection that waits.
    Close {
        job: JobNo,
        conn: u64,
    },
    /// The job's sockets are given up.
    Release {
        job: JobNo,
    },
    /// A path is checked.
    Look,
    /// The clocks are read.
    Clock,
}

/// An answer of the outside to one call.
#[derive(Clone, Copy, PartialEq, Eq)]
pub enum Scripted {
    /// A start: the PID of the child, at least 1.
    Started(u32),
    /// TERM, KILL, bind, close or release: it was done.
    Done,
    /// A poll: the child has not exited.
    Running,
    /// A poll: how the child exited.
    Over(Ended),
    /// A path check: what was seen at the path.
    Seen(Obs),
    /// A clock reading.
    At(Reading),
    /// Any call but close and release: it was refused.
    Refused,
    /// Any call but close and release: there was no memory for it.
    NoMemory,
}
