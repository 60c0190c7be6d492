//! The live loop: passes of waiting, reading the clock, polling children, checking paths, and serving the clients of
//! the control socket and of jobs' sockets. A pass decides nothing. It delivers what it finds to its launcher, one by
//! one. The loop is over any launcher that answers as `LoopHost` says; that of `jobd` is `jobd::RoundLauncher`.
#![tactic(auto)]

mod children;
mod fault;
mod job_sockets;
mod label_room;
pub mod laws;
mod live;
mod loop_host;
mod paths;
mod round_poll;
mod round_time;
mod rounds;
mod standard_error;
mod telling;
mod waiting;

pub use child_edge::System;
pub use fault::ServeFault;
pub use job_clients::{Caller, Origin};
pub use label_room::LabelRoom;
pub use live::Live;
pub use loop_host::{Delivered, LauncherState, LoopHost, PathHost};
pub use paths::Observations;
pub use rounds::{round, serve};
pub use waiting::{next_pause, quick_rounds, round_wait};
