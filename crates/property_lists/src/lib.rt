//! Property lists in XML as JSON (Apple's DTD "PLIST 1.0", the subset that a definition can have).
#![tactic(auto)]

mod decoded;
mod elements;
mod fault;
mod integers;
mod lines;
mod list;
mod marks;
mod reals;

pub use fault::ListFault;
pub use list::json_of;
