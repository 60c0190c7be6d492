//! Reads the definitions of jobs, a profile of launchd.plist(5) in JSON, and says which of their keys are not supported.
#![tactic(auto)]

/// What went well; or else the function ends here with the fault. As `?`, which is two calls more for the proof.
macro_rules! given {
    ($answer:expr) => {
        match $answer {
            Ok(value) => value,
            Err(fault) => return Err(fault),
        }
    };
}

mod calendars;
mod conditions;
mod demand;
mod host;
mod ignored;
mod launch;
pub mod laws;
pub mod limits;
mod load_text;
mod read;
mod socket;
mod sockets;
mod surroundings;

pub use history_model::definition::{Address, Def, PathState, Socket, Variable};
pub use history_model::is_label;
pub use json_kinds::{DefFault, JsonRoom, json_value, key_name, reason_name};
pub use load_text::loaded;
pub use read::{read_def, read_def_in, read_value};
