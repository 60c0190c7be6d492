//! Runs a machine over an input: reads it in whatever pieces it comes, hands each line to the machine, and writes
//! what the machine answers. The first line is the header, which opens the machine.
#![tactic(auto)]

mod fault;
mod lines;
mod machine;
mod reading;

pub use ctl_protocol::LINE_LIMIT;
pub use fault::ReplayFault;
pub use machine::LineMachine;
pub use reading::run_within;
