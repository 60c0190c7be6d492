//! What holds of a launcher over any list of passes of the event loop, by the contract of `live_loop::round` and the
//! laws of `launcher_laws`.
#![tactic(auto)]

pub mod laws;
pub mod tied;
