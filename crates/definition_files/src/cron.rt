//! Lines of a crontab as definitions (crontab(5), launchd.plist(5)).

mod command;
mod definition;
mod entries;
mod fault;
mod fields;
mod guard;
mod input;
mod items;
mod keeper;
mod kinds;
mod line;
mod naming;
mod reading;
mod settings;
mod surroundings;
mod table;
mod variable;
mod verdicts;

pub use definition::{CronJob, Made, definition_of};
pub use entries::{EntriesFault, entries_of};
pub use fault::LineFault;
pub use fields::{Field, Fields};
pub use input::lines_of;
pub use keeper::{HostLines, LineKeeper, LineVerdict};
pub use line::{CronLine, When, read_line};
pub use settings::CronVariables;
pub use surroundings::{Surroundings, surroundings_of};
pub use table::definitions_of;
