//! The loaded jobs, with all that finds them and asks them: one step of all jobs for each event. The crate `job_table` has the calls.
#![tactic(auto)]

mod all_job_slots;
mod byte_order;
mod events;
mod gone_jobs;
mod held_slot;
mod index;
mod job_slot;
mod jobs;
mod loading;
mod marks;
mod next_in_order;
mod opening;
mod places;
mod questions;
mod reading;
mod reasons;
mod setting_order;
mod settings;
mod settings_change;
mod texts;
mod trigger;
mod triggers;
mod visits;

pub use jobs::Jobs;
pub use loading::Ready;
pub use settings_change::NewSetting;
