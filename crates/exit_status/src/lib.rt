//! The exit statuses of the three programs. Those from 64 on are of sysexits.h. `replay::status_of` says by a contract how
//! `jobd replay` ended. A `jobctl` that was refused exits with the code of the first refusal (`history_model::Refusal::code`) in place of these.
#![tactic(auto)]

/// Memory was refused: all three programs.
pub const NO_MEMORY: u8 = 1;

/// `jobd overrides`, and a help of `jobd`: the standard output failed.
pub const STREAMS: u8 = 3;

/// `jobd`: the store.
pub const STORE: u8 = 5;

/// `jobd serve`: the control socket.
pub const CONTROL_SOCKET: u8 = 6;

/// `jobd serve`: the zone.
pub const ZONE: u8 = 7;

/// `jobd serve`: the journal.
pub const JOURNAL: u8 = 8;

/// `jobd serve`: the clock was refused, or waiting, or the process can't serve as it was started.
pub const CLOCK_OR_WAITING: u8 = 9;

/// `jobd serve`: the folder of the spool.
pub const SPOOL: u8 = 10;

/// `jobscope check`: a file would not be loaded. `jobscope cron`: a line is refused.
pub const REFUSED: u8 = 1;

/// `jobscope drift`: a file differs from what is loaded, or a loaded job has no file.
pub const DIFFERS: u8 = 2;

/// Invalid usage: the arguments do not form a command (`EX_USAGE`). All three programs.
pub const USAGE: u8 = 64;

/// A file can't be read or used (`EX_DATAERR`): `jobctl`, `jobscope`.
pub const BAD_FILE: u8 = 65;

/// The launcher does not answer (`EX_UNAVAILABLE`): `jobctl`.
pub const NO_ANSWER: u8 = 69;

/// The clock can't be read (`EX_OSERR`): `jobscope`.
pub const BAD_CLOCK: u8 = 71;

/// The standard output failed (`EX_IOERR`): `jobctl`, `jobscope`.
pub const BAD_OUTPUT: u8 = 74;

/// The standard output's reader has closed it: the status of a program which a shell's pipe ended by SIGPIPE. `jobctl`,
/// `jobscope`.
pub const READER_GONE: u8 = 141;
