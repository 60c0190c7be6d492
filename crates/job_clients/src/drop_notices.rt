//! The clients of jobs' sockets that were disconnected, and why. The launcher logs each reason once, until a client of
//! its job comes through a minute later or more.

use crate::caller::Origin;
use history_model::{JobNo, Refusal, Text};
use socket_demand::MAX_REQUEST;
use std::alloc::{AllocError, Global};
use std::collections::{BTreeMap, VecDeque};
use std::io::{Error, ErrorKind};

/// Why a client was disconnected.
#[derive(Clone, Copy)]
pub enum Loss {
    /// The request is longer than a request may be.
    TooLong,
    /// Nothing came for a minute.
    Silent,
    /// It came first, 5 seconds ago or more, and there was no room for another client.
    Displaced,
    /// Its request was whole, it waited first, for 5 seconds or more, and one of another job came.
    Outwaited,
    /// There is no room for it.
    Crowded,
    NoMemory,
    /// No further connection of the job may wait: its queue is full.
    QueueFull,
    /// The system refused a read, or to have the poll wait for it.
    System(Error),
}

impl Loss {
    /// Of a client that could not be read. `None`: it only went away, and this is not logged.
    pub fn of_read(error: Error) -> Option<Loss> {
        match error.kind() {
            ErrorKind::BrokenPipe | ErrorKind::ConnectionReset | ErrorKind::ConnectionAborted => {
                None
            }
            _ => Some(Loss::System(error)),
        }
    }

    /// Of a connection that the launcher refused. `None` for a job that is leaving: this is not logged.
    pub fn of_refusal(refusal: Refusal) -> Option<Loss> {
        match refusal {
            Refusal::TooManyConnections => Some(Loss::QueueFull),
            Refusal::NoMemory => Some(Loss::NoMemory),
            _ => None,
        }
    }

    fn words(self, alloc: Global) -> Result<String, AllocError> {
        let words = match self {
            Loss::TooLong => return format!(in alloc;
                "a request of more than {} bytes",
                MAX_REQUEST
            ),
            Loss::System(error) => return format!(in alloc; "{error}"),
            Loss::Silent => "it sent nothing for a minute",
            Loss::Displaced => "its request took 5 seconds, and another one came",
            Loss::Outwaited => "it waited 5 seconds for a place, and one of another job came",
            Loss::Crowded => "too many clients send at a time",
            Loss::NoMemory => "no memory",
            Loss::QueueFull => "too many connections wait",
        };
        String::from_str(alloc, words)
    }
}

/// How many lines wait to be logged. Where there is no room for one, the next loss of its kind is logged.
const ROOM: usize = 64;

/// For how many milliseconds a logged reason is not logged again, whoever comes through meanwhile.
const QUIET: u64 = 60_000;

/// The reasons that were logged of a job's clients, by the bind that gave it its sockets, and the `up` of the first of
/// them.
#[derive(Drop)]
struct LoggedReasons {
    bind: u64,
    since: u64,
    reasons: Vec<String>,
}

/// What waits to be logged, and what was logged of each job.
#[derive(Drop)]
pub struct DropNotices {
    alloc: Global,
    waiting: VecDeque<Text>,
    told: BTreeMap<JobNo, LoggedReasons>,
}

impl DropNotices {
    pub fn new(alloc: Global) -> DropNotices {
        DropNotices {
            alloc,
            waiting: VecDeque::new(alloc),
            told: BTreeMap::new(alloc),
        }
    }

    /// The oldest line, taken out.
    pub fn next(&mut self) -> Option<Text> {
        self.waiting.pop_front()
    }

    /// A client that came to these sockets, of the job of this label, was disconnected at this `up`. Want of memory
    /// drops the line.
    pub fn note(&mut self, origin: Origin, label: &str, loss: Loss, up: u64) {
        let Ok(reason) = loss.words(self.alloc) else {
            return;
        };
        if self.is_told(origin, reason.as_str()) || !self.add(label, reason.as_str()) {
            drop(reason);
            return;
        }
        self.remember(origin, reason, up);
    }

    fn is_told(&self, origin: Origin, reason: &str) -> bool {
        if let Some(told) = self.told.get(&origin.job) {
            for known in told.reasons.iter() {
                if told.bind == origin.bind && known.as_str() == reason {
                    return true;
                }
            }
        }
        false
    }

    // Whether the line has room, and memory.
    fn add(&mut self, label: &str, reason: &str) -> bool {
        if self.waiting.len() >= ROOM {
            return false;
        }
        match format!(in self.alloc; "{label}: a client was disconnected: {reason}") {
            Ok(line) => self.waiting.push_back(Text::new(line)).is_ok(),
            Err(_) => false,
        }
    }

    // Want of memory forgets it.
    fn remember(&mut self, origin: Origin, reason: String, up: u64) {
        let Origin { job, bind } = origin;
        if let Some(told) = self.told.get_mut(&job) {
            if told.bind == bind {
                let _kept = told.reasons.push(reason);
                return;
            }
        }
        let mut reasons = Vec::new(self.alloc);
        if reasons.push(reason).is_ok() {
            let told = LoggedReasons {
                bind,
                since: up,
                reasons,
            };
            let _last = self.told.insert(job, told);
        }
    }

    /// A client of the job came through at this `up`: each loss is logged again, if the first that was logged is a
    /// minute old.
    pub fn came_through(&mut self, job: JobNo, up: u64) {
        if self.told.is_empty() {
            return;
        }
        if let Some(told) = self.told.get(&job) {
            if told.since.saturating_add(QUIET) <= up {
                let _last = self.told.remove(&job);
            }
        }
    }
}
