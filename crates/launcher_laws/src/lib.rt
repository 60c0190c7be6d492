//! What holds of a launcher over any list of turns, by the contracts of `launcher::Host::new` and `launcher::Host::turn` alone.
#![tactic(auto)]

pub mod laws;
