//! What the arguments of the three programs mean: launchctl's for the control program, the daemon's own, and those of `jobscope`.
#![tactic(auto)]

mod arguments;
mod clashes;
mod command;
mod control_words;
mod forms;
mod jobctl;
mod jobd;
mod jobscope;
mod numbers;
mod parse;
mod reason;
mod scope_command;
mod scope_words;
mod version;

pub use command::{Command, DaemonCommand, Paths, WordFault, Words, ZoneWords};
pub use jobctl::{control_command, explain};
pub use jobd::{daemon_command, explain_daemon};
pub use jobscope::{explain_scope, read_scope_words};
pub use parse::Explanation;
pub use scope_command::{
    CheckWords, CronWords, ListWords, LogWords, Meaning, NextWords, PictureWords, ScopeCommand,
    ScopeTask, SpanWords, WhyWords,
};
