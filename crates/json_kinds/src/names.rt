//! The names of keys and of reasons. Each is here once.

ghost use Rattle.std.specs.Prelude.{◌≡◌};
ghost use Rattle.history_model.specs.RefusalTexts.{key_text, reason_text};

use history_model::{KeyName, Reason};

/// The key as a definition writes it; `-` if a fault has none.
pub fn key_name(key: KeyName) -> &'static str
    ensures { result.now ≡ key_text key }
{
    match key {
        KeyName::NoKey => "-",
        KeyName::Label => "Label",
        KeyName::Program => "Program",
        KeyName::ProgramArguments => "ProgramArguments",
        KeyName::RunAtLoad => "RunAtLoad",
        KeyName::LaunchOnlyOnce => "LaunchOnlyOnce",
        KeyName::DisabledKey => "Disabled",
        KeyName::OnDemand => "OnDemand",
        KeyName::KeepAlive => "KeepAlive",
        KeyName::WatchPaths => "WatchPaths",
        KeyName::QueueDirectories => "QueueDirectories",
        KeyName::StartInterval => "StartInterval",
        KeyName::StartCalendarInterval => "StartCalendarInterval",
        KeyName::ThrottleInterval => "ThrottleInterval",
        KeyName::ExitTimeOut => "ExitTimeOut",
        KeyName::EnvironmentVariables => "EnvironmentVariables",
        KeyName::WorkingDirectory => "WorkingDirectory",
        KeyName::StandardInPath => "StandardInPath",
        KeyName::StandardOutPath => "StandardOutPath",
        KeyName::StandardErrorPath => "StandardErrorPath",
        KeyName::Sockets => "Sockets",
        KeyName::InetdCompatibility => "inetdCompatibility",
        KeyName::UserName => "UserName",
        KeyName::GroupName => "GroupName",
        KeyName::RootDirectory => "RootDirectory",
    }
}

/// The reason as replies name it.
pub fn reason_name(reason: Reason) -> &'static str
    ensures { result.now ≡ reason_text reason }
{
    match reason {
        Reason::NotJson => "NotJson",
        Reason::NotObject => "NotObject",
        Reason::Missing => "Missing",
        Reason::WrongKind => "WrongKind",
        Reason::OutOfRange => "OutOfRange",
        Reason::TooLong => "TooLong",
        Reason::BadLabel => "BadLabel",
        Reason::Unsupported => "Unsupported",
    }
}

/// The keys that are read.
pub const ALL: [KeyName; 24] = [
    KeyName::Label,
    KeyName::Program,
    KeyName::ProgramArguments,
    KeyName::RunAtLoad,
    KeyName::LaunchOnlyOnce,
    KeyName::DisabledKey,
    KeyName::OnDemand,
    KeyName::KeepAlive,
    KeyName::WatchPaths,
    KeyName::QueueDirectories,
    KeyName::StartInterval,
    KeyName::StartCalendarInterval,
    KeyName::ThrottleInterval,
    KeyName::ExitTimeOut,
    KeyName::EnvironmentVariables,
    KeyName::WorkingDirectory,
    KeyName::StandardInPath,
    KeyName::StandardOutPath,
    KeyName::StandardErrorPath,
    KeyName::Sockets,
    KeyName::InetdCompatibility,
    KeyName::UserName,
    KeyName::GroupName,
    KeyName::RootDirectory,
];

/// A key of `KeepAlive`.
pub const CRASHED: &str = "Crashed";

/// A key of `KeepAlive`.
pub const PATH_STATE: &str = "PathState";

/// A key of `KeepAlive`.
pub const SUCCESSFUL_EXIT: &str = "SuccessfulExit";

/// A key of an entry of `StartCalendarInterval`.
pub const DAY: &str = "Day";

/// A key of an entry of `StartCalendarInterval`.
pub const HOUR: &str = "Hour";

/// A key of an entry of `StartCalendarInterval`.
pub const MINUTE: &str = "Minute";

/// A key of an entry of `StartCalendarInterval`.
pub const MONTH: &str = "Month";

/// A key of an entry of `StartCalendarInterval`.
pub const WEEKDAY: &str = "Weekday";

/// A key of a socket.
pub const SECURE_KEY: &str = "SecureSocketWithKey";

/// A key of a socket.
pub const SOCKET_TYPE: &str = "SockType";

/// A key of a socket.
pub const PASSIVE: &str = "SockPassive";

/// A key of a socket.
pub const FAMILY: &str = "SockFamily";

/// A key of a socket.
pub const PROTOCOL: &str = "SockProtocol";

/// A key of a socket.
pub const PATH_NAME: &str = "SockPathName";

/// A key of a socket.
pub const NODE_NAME: &str = "SockNodeName";

/// A key of a socket.
pub const SERVICE_NAME: &str = "SockServiceName";

/// The key of `inetdCompatibility`.
pub const WAIT: &str = "Wait";
