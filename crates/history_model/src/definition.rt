//! What a job's definition says, key by key: a `Def`, as the reader of definitions makes it, with a getter for each key that is
//! supported.

mod def;
mod parts;

pub use def::Def;
pub use parts::{
    Address, Command, Demand, Keep, Launch, Pace, PathState, Socket, Surroundings, Variable,
};
