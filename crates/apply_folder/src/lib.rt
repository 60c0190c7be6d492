//! `jobctl apply`: files and folders of definitions are brought into effect. What they say and what is loaded is gathered, the plan of `load_plan` is
//! shown, and carried out.
#![tactic(auto)]

mod applied;
mod before;
mod boot;
mod carried;
mod client;
mod gathered;
mod judged;
mod kept;
mod left;
mod loaded;
mod locked;
mod planned;
mod program;
mod reasons;
mod recorded;
mod shown;
mod status;
mod stop;
mod words;

pub use boot::is_left_at_boot;
pub use program::jobctl_apply;
pub use status::Ending;
pub use words::{ApplyFlag, ApplyFlags};
