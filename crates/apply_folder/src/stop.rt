//! What ends an apply before its end.

use control_client::Fault;
use std::alloc::{AllocError, AllocFailed};

/// What ends it.
#[derive(Drop)]
pub(crate) enum Stop {
    NoMemory,
    /// The launcher does not answer, or the standard output fails.
    Ask(Fault),
    /// An error that was reported, with this status.
    Told(u8),
}

impl From<AllocError> for Stop {
    fn from(_error: AllocError) -> Stop {
        Stop::NoMemory
    }
}

impl<T: Drop> From<AllocFailed<T>> for Stop {
    fn from(_failed: AllocFailed<T>) -> Stop {
        Stop::NoMemory
    }
}

impl From<Fault> for Stop {
    fn from(fault: Fault) -> Stop {
        match fault {
            Fault::NoMemory => Stop::NoMemory,
            fault => Stop::Ask(fault),
        }
    }
}
