//! Files that define jobs: what a load would say of them, when the clock starts their jobs, and lines of a crontab as definitions.
#![tactic(auto)]

pub mod check;
mod coming;
pub mod cron;
mod differing;
mod files;
mod folder;
pub mod lists;
mod services;
mod starts;
mod verdict;

pub use coming::calendar_after;
pub use differing::changed_keys;
pub use files::{Contents, DefinitionQuery, DefinitionSource, HostFiles};
pub use folder::laid_out;
pub use starts::{coming_starts, put_start, tell_clockless};
pub use verdict::Verdict;
