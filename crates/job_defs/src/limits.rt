//! The limits of what a definition's values may be. The reader asks these, and so does what says of a definition why it is refused.

/// The longest executable, argument, or value of a variable, in bytes.
pub const WORD_LIMIT: usize = 4096;

/// The most members of `ProgramArguments`.
pub const ARGUMENTS_LIMIT: usize = 256;

/// The most paths of a definition, paths of `KeepAlive`, and calendar entries.
pub const LIST_LIMIT: usize = 64;

/// The shortest `StartInterval`, in seconds.
pub const INTERVAL_LEAST: u32 = 1;

/// The longest `StartInterval`, in seconds.
pub const INTERVAL_MOST: u32 = 31_536_000;

/// The shortest `ThrottleInterval` and `ExitTimeOut`, in seconds.
pub const PACE_LEAST: u32 = 0;

/// The longest `ThrottleInterval` and `ExitTimeOut`, in seconds.
pub const PACE_MOST: u32 = 86_400;

/// The first `Day` of an entry of the calendar.
pub const DAY_LEAST: u8 = 1;

/// The last `Day` of an entry of the calendar.
pub const DAY_MOST: u8 = 31;

/// The first `Hour` of an entry of the calendar.
pub const HOUR_LEAST: u8 = 0;

/// The last `Hour` of an entry of the calendar.
pub const HOUR_MOST: u8 = 23;

/// The first `Minute` of an entry of the calendar.
pub const MINUTE_LEAST: u8 = 0;

/// The last `Minute` of an entry of the calendar.
pub const MINUTE_MOST: u8 = 59;

/// The first `Month` of an entry of the calendar.
pub const MONTH_LEAST: u8 = 1;

/// The last `Month` of an entry of the calendar.
pub const MONTH_MOST: u8 = 12;

/// The first `Weekday` of an entry of the calendar, a Sunday.
pub const WEEKDAY_LEAST: u8 = 0;

/// The last `Weekday` of an entry of the calendar, a Sunday too.
pub const WEEKDAY_MOST: u8 = 7;

/// The most variables of `EnvironmentVariables`.
pub const VARIABLES_LIMIT: usize = 128;

/// The longest name of a variable, in bytes.
pub const VARIABLE_NAME_LIMIT: usize = 255;

/// The most sockets, under all names.
pub const SOCKETS_LIMIT: usize = 8;

/// The longest path of a Unix socket, in bytes.
pub const SOCKET_PATH_LIMIT: usize = 107;

/// The first port.
pub const PORT_LEAST: u32 = 1;

/// The last port.
pub const PORT_MOST: u32 = 65_535;
