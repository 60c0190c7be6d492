//! The parts of a definition, each for some keys of the table.

use crate::{Entry, Text};

/// A condition of `KeepAlive.PathState`: the job is wanted while something is at the path (`present`), or while nothing
/// is.
#[derive(Drop)]
pub struct PathState {
    pub path: Text,
    pub present: bool,
}

/// A variable of the child's environment.
#[derive(Drop)]
pub struct Variable {
    pub name: Text,
    pub value: Text,
}

/// A stream socket that waits for connections.
#[derive(Drop)]
pub struct Socket {
    pub address: Address,
}

/// Where a socket waits.
#[derive(Drop)]
pub enum Address {
    /// The path of a Unix socket.
    Unix(Text),
    /// An IPv4 address, first byte first, and a TCP port of at least 1.
    Inet { host: [u8; 4], port: u16 },
}

/// What is run: the executable, and the arguments after argv[0].
#[derive(Drop)]
pub struct Command {
    pub program: Text,
    pub arguments: Vec<Text>,
}

/// What is run, under which label, and how it is loaded.
pub struct Launch {
    pub label: Text,
    pub command: Command,
    pub run_at_load: bool,
    pub launch_only_once: bool,
    pub disabled: bool,
}

// for the proof: the owner that drops it calls this, in place of a drop of each part
impl Drop for Launch {
    fn drop(self) {
        let Launch {
            label: _,
            command: _,
            run_at_load: _,
            launch_only_once: _,
            disabled: _,
        } = self;
    }
}

/// What `KeepAlive` and `OnDemand` say.
#[derive(Drop)]
pub struct Keep {
    pub always: bool,
    pub successful_exit: Option<bool>,
    pub crashed: Option<bool>,
    pub path_state: Vec<PathState>,
}

/// What makes the job run.
pub struct Demand {
    pub keep: Keep,
    pub watch_paths: Vec<Text>,
    pub queue_directories: Vec<Text>,
    pub start_interval: Option<u32>,
    pub calendar: Vec<Entry>,
}

// for the proof: the owner that drops it calls this, in place of a drop of each part
impl Drop for Demand {
    fn drop(self) {
        let Demand {
            keep: _,
            watch_paths: _,
            queue_directories: _,
            start_interval: _,
            calendar: _,
        } = self;
    }
}

/// How often the job is started, and how long it may take to end, in seconds.
#[derive(Clone, Copy)]
pub struct Pace {
    pub throttle_interval: u32,
    pub exit_time_out: u32,
}

/// What is around its child.
pub struct Surroundings {
    pub environment: Vec<Variable>,
    pub working_directory: Option<Text>,
    pub standard_in_path: Option<Text>,
    pub standard_out_path: Option<Text>,
    pub standard_error_path: Option<Text>,
}

// for the proof: the owner that drops it calls this, in place of a drop of each part
impl Drop for Surroundings {
    fn drop(self) {
        let Surroundings {
            environment: _,
            working_directory: _,
            standard_in_path: _,
            standard_out_path: _,
            standard_error_path: _,
        } = self;
    }
}
