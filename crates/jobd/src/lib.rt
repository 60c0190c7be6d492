//! The program `jobd` by its arguments: the launcher, the replay of a journal, and the list of the stored settings. The
//! parts of the launcher come from here too: the host of its turns, its inputs, the live loop, and the replay.
//! `RoundLauncher` delivers to the turns what a pass of the loop finds.
#![tactic(auto)]

mod journal_watch;
mod keeper;
mod kill_waits;
mod loaded_definition;
mod memory_want;
mod news;
mod own_process;
mod places_file;
mod round_edge;
mod round_launcher;
mod serving;
mod sleep;
mod standing_file;
mod status_edge;
mod whole_file;
mod words;

use child_edge::OsEdge;
use exit_status::NO_MEMORY;
pub use keeper::Keeper;
pub use kill_waits::is_kill_awaited;
use launchctl_words::{DaemonCommand, WordFault, read_daemon_words};
pub use launcher::{Host, HostFault, Input};
pub use live_loop::{ServeFault, round, serve};
pub use news::is_news;
use replay::replay_input;
pub use replay::{ReplayFault, replay, replay_within};
pub use round_edge::{RoundEdge, SleepEdge};
pub use round_launcher::RoundLauncher;
use startup::{Places, list_store};
pub use status_edge::StatusEdge;
use std::alloc::Global;
use std::sync::Wait;

/// A live loop over the real system, whose settings last in a `T`, and whose journal is a `W`.
pub type Live<R, T, W> = live_loop::Live<RoundLauncher<T, OsEdge<R>, W>>;

/// Does what the arguments ask for, the program's own name being the first, and gives the exit status. Both `host` and
/// `waits` are the runtime of `main`: only what takes it as `waits` may wait.
///
/// `replay`: the statuses of `replay::status_of`. `overrides`: 0, 1 for want of memory, 3 if the output is refused, 5
/// if the store can't be read. `serve`: 0 once a shutdown was accepted and no job is left; 1 for want of memory at the
/// start. Further statuses of `serve`: 5 the store, 6 the control socket, 7 the zone, 8 the journal, 9 the clock or
/// waiting, 10 the spool. Any of them: 64 for invalid arguments. It prints each fault on standard error, but for want
/// of memory. The faults of `replay` show in the status alone. A call for help prints it, with 0.
pub fn jobd<L: Wait>(host: &HostRuntime, waits: &L, alloc: Global, words: &[String]) -> u8 {
    match read_daemon_words(alloc, words) {
        Ok(DaemonCommand::Replay) => replay_input(host),
        Ok(DaemonCommand::Overrides { store }) => { list_store(host, alloc, store.as_str()) }
        Ok(
            DaemonCommand::Serve {
                socket,
                store,
                spool,
                journal,
                zone,
            },
        ) => {
            let places = Places {
                socket,
                store,
                spool,
                journal,
            };
            serving::serve_at(host, waits, alloc, places, zone)
        }
        Err(WordFault::Usage) => words::explain(host, alloc, words),
        Err(WordFault::NoMemory) => NO_MEMORY,
    }
}
