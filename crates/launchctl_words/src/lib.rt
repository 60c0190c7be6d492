//! What the arguments of the three programs mean: launchctl's for the control program, the daemon's own, and those of `jobscope`.
#![tactic(auto)]

mod foreign;
mod reading;

pub use command_words::{
    CheckWords, Command, CronWords, DaemonCommand, Explanation, ListWords, LogWords, Meaning,
    NextWords, Paths, PictureWords, ScopeCommand, ScopeTask, SpanWords, WhyWords, WordFault, Words,
    ZoneWords, explain_daemon, read_scope_words,
};
pub use foreign::{explain, explain_scope};
pub use reading::{read_daemon_words, read_words, read_words_beside};
