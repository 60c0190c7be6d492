//! What an error of the system is to the launcher.

use crate::EdgeFault;
use std::io;

/// Want of memory is a fault of its own, apart from every other error.
pub(crate) fn fault_of(error: io::Error) -> EdgeFault {
    if error.kind() == io::ErrorKind::OutOfMemory {
        EdgeFault::NoMemory
    } else {
        EdgeFault::Refused
    }
}
