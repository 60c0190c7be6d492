//! Whether a launcher is running, by the lock that it holds and by its process, as the system shows both to others. Nothing here takes the lock.
#![tactic(auto)]

mod age;
mod asking;
mod life;
mod locks;
mod seen;

pub use age::{mark_of, silence_of};
pub use asking::{JournalAsked, LauncherSeen, StatusFileAsked, file_life, journal_life};
pub use life::{LATEST, Life, LifeFacts, LockSeen, ProcessSeen, foretells, life_of, may_live};
