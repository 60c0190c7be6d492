//! A launcher for trials: its edge answers by a script, its store of settings and its journal are in memory. A case can have
//! each of the three refuse.
mod memory_store;
mod sink;
mod stage;

pub use memory_store::MemoryStore;
pub use sink::{Sink, new_sink};
pub use stage::{LINES, Launched, Left, Parts, Stage, asked, edge, header, parts_of};
