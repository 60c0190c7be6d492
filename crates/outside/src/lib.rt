//! What a launcher asks of the outside. Each order of a job is one call. Before a load is made, the launcher asks for
//! the job's sockets. With `-w` (launchctl(1), load) it then asks the store to keep the setting of the label.
#![tactic(auto)]

mod asking;
mod order;
mod pending_answer;
mod store;

pub use asking::ask_outside;
pub use order::execute;
pub use pending_answer::PendingAnswer;
pub use store::{SettingStore, StoreFault};
