//! Why bytes are not a definition.

ghost use Rattle.std.specs.Prelude.{◌≡◌};
ghost use Rattle.json_kinds.specs.declared.fault.DefFault.TheVariants.{NoMemory};

use crate::names::{key_name, reason_name};
use history_model::{KeyName, Reason};
use std::alloc::{AllocError, AllocFailed};
use thiserror::Error;

/// Why bytes were not read as a definition.
#[derive(Clone, Copy, Debug, PartialEq, Eq, Error)]
pub enum DefFault {
    /// The first fault of the definition, and the key that has it.
    #[error("bad definition: {} {}", reason_name(*.reason), key_name(*.key))]
    Bad { reason: Reason, key: KeyName },
    /// Memory ran out. This says nothing about the definition.
    #[error("no memory")]
    NoMemory,
}

impl From<AllocError> for DefFault {
    ghost from_gives = { λ _ fault. fault ≡ NoMemory };

    fn from(_error: AllocError) -> DefFault {
        DefFault::NoMemory
    }
}

impl<T: Drop> From<AllocFailed<T>> for DefFault {
    ghost from_gives = { λ _ fault. fault ≡ NoMemory };

    fn from(_failed: AllocFailed<T>) -> DefFault {
        DefFault::NoMemory
    }
}
