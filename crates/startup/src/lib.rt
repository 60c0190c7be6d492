//! What `jobd serve` needs, checked and opened step by step before it serves. This is the process itself, the zone, the
//! system with its clock, the control socket, the journal, the store and the spool. Each fault is printed in one line
//! on standard error, and the call gives its exit status. The list of the stored settings is here too, since it opens
//! the same store.
#![tactic(auto)]

mod connections;
mod journal;
mod looking;
mod medium;
mod one_file;
mod overrides;
mod places;
mod plan;
mod refusal;
mod reporting;
mod spool;
mod standing;
mod status_file;
mod store;
mod zone;

pub use journal::{begun, journal_at, tell_long_header};
pub use overrides::list_store;
pub use places::{bound, no_clock, system_of};
pub use plan::{Places, Plan, plan_of};
pub use reporting::report;
pub use spool::hold_spool;
pub use standing::tell_standing;
pub use status_file::real_of;
pub use store::{StoreUser, with_store};
pub use zone::zone_of;
