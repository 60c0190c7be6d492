//! The clients of jobs' sockets whose request still comes. It holds their bytes, within the room that there is. It says
//! which of them is disconnected for a further one, and why one was disconnected. Whoever serves them says when a
//! request is whole.
#![tactic(auto)]

mod caller;
mod callers;
mod drop_notices;
mod places;
mod sender;

pub use caller::{Caller, Gathered, Origin};
pub use callers::{CALLERS, Callers};
pub use drop_notices::{DropNotices, Loss};
pub use places::{CallerPlace, CallerRoom, Received, jobs_among, place_for, share_of};
pub use sender::Sender;
