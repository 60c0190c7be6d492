//! Keys that other launchers have, and what to write in their place here.

/// A key of another launcher.
pub(crate) struct Foreign {
    pub(crate) name: &'static str,
    /// What to write here.
    pub(crate) hint: &'static str,
}

/// Keys of systemd.exec(5), systemd.service(5), systemd.timer(5), supervisord's configuration, cron and other launchers.
pub(crate) static KEYS: &[Foreign] = &[
    Foreign {
        name: "Restart",
        hint: "KeepAlive true, or {\"SuccessfulExit\": false} to start it again after a failure",
    },
    Foreign {
        name: "restart",
        hint: "KeepAlive true, or {\"SuccessfulExit\": false} to start it again after a failure",
    },
    Foreign {
        name: "RestartSec",
        hint: "ThrottleInterval",
    },
    Foreign {
        name: "StartLimitIntervalSec",
        hint: "ThrottleInterval",
    },
    Foreign {
        name: "After",
        hint: "jobs start in no order; have the program wait for what it needs, or WatchPaths and KeepAlive.PathState",
    },
    Foreign {
        name: "Before",
        hint: "jobs start in no order; have the program wait for what it needs, or WatchPaths and KeepAlive.PathState",
    },
    Foreign {
        name: "Requires",
        hint: "jobs start in no order; have the program wait for what it needs, or WatchPaths and KeepAlive.PathState",
    },
    Foreign {
        name: "Wants",
        hint: "jobs start in no order; have the program wait for what it needs, or WatchPaths and KeepAlive.PathState",
    },
    Foreign {
        name: "DependsOn",
        hint: "jobs start in no order; have the program wait for what it needs, or WatchPaths and KeepAlive.PathState",
    },
    Foreign {
        name: "depends_on",
        hint: "jobs start in no order; have the program wait for what it needs, or WatchPaths and KeepAlive.PathState",
    },
    Foreign {
        name: "Command",
        hint: "ProgramArguments, each argument a member",
    },
    Foreign {
        name: "command",
        hint: "ProgramArguments, each argument a member",
    },
    Foreign {
        name: "Cmd",
        hint: "ProgramArguments, each argument a member",
    },
    Foreign {
        name: "Exec",
        hint: "ProgramArguments, each argument a member",
    },
    Foreign {
        name: "ExecStart",
        hint: "ProgramArguments, each argument a member",
    },
    Foreign {
        name: "Args",
        hint: "ProgramArguments, each argument a member",
    },
    Foreign {
        name: "Arguments",
        hint: "ProgramArguments, each argument a member",
    },
    Foreign {
        name: "Description",
        hint: "the Label names the job",
    },
    Foreign {
        name: "Comment",
        hint: "the Label names the job",
    },
    Foreign {
        name: "Name",
        hint: "Label",
    },
    Foreign {
        name: "Type",
        hint: "the program stays in the foreground",
    },
    Foreign {
        name: "Schedule",
        hint: "StartCalendarInterval",
    },
    Foreign {
        name: "Cron",
        hint: "StartCalendarInterval, as jobscope cron writes it",
    },
    Foreign {
        name: "schedule",
        hint: "StartCalendarInterval, as jobscope cron writes it",
    },
    Foreign {
        name: "OnCalendar",
        hint: "StartCalendarInterval",
    },
    Foreign {
        name: "OnBootSec",
        hint: "RunAtLoad",
    },
    Foreign {
        name: "OnUnitActiveSec",
        hint: "StartInterval",
    },
    Foreign {
        name: "Interval",
        hint: "StartInterval",
    },
    Foreign {
        name: "Timer",
        hint: "StartInterval or StartCalendarInterval",
    },
    Foreign {
        name: "Hour",
        hint: "StartCalendarInterval, as a key of its object",
    },
    Foreign {
        name: "Minute",
        hint: "StartCalendarInterval, as a key of its object",
    },
    Foreign {
        name: "Weekday",
        hint: "StartCalendarInterval, as a key of its object",
    },
    Foreign {
        name: "Day",
        hint: "StartCalendarInterval, as a key of its object",
    },
    Foreign {
        name: "Month",
        hint: "StartCalendarInterval, as a key of its object",
    },
    Foreign {
        name: "SuccessfulExit",
        hint: "KeepAlive, as a key of its object",
    },
    Foreign {
        name: "Crashed",
        hint: "KeepAlive, as a key of its object",
    },
    Foreign {
        name: "PathState",
        hint: "KeepAlive, as a key of its object",
    },
    Foreign {
        name: "Environment",
        hint: "EnvironmentVariables, an object of strings",
    },
    Foreign {
        name: "environment",
        hint: "EnvironmentVariables, an object of strings",
    },
    Foreign {
        name: "Env",
        hint: "EnvironmentVariables, an object of strings",
    },
    Foreign {
        name: "EnvironmentFile",
        hint: "/bin/sh with -c and \". FILE && exec PROGRAM\"",
    },
    Foreign {
        name: "EnvFile",
        hint: "/bin/sh with -c and \". FILE && exec PROGRAM\"",
    },
    Foreign {
        name: "Nice",
        hint: "/usr/bin/nice with -n before the program",
    },
    Foreign {
        name: "priority",
        hint: "jobs start in no order",
    },
    Foreign {
        name: "IOSchedulingClass",
        hint: "/usr/bin/ionice with -c before the program",
    },
    Foreign {
        name: "CPUAffinity",
        hint: "/usr/bin/taskset before the program",
    },
    Foreign {
        name: "OOMScoreAdjust",
        hint: "/usr/bin/choom with -n before the program",
    },
    Foreign {
        name: "Umask",
        hint: "/bin/sh with -c and \"umask 022 && exec PROGRAM\"",
    },
    Foreign {
        name: "UMask",
        hint: "/bin/sh with -c and \"umask 022 && exec PROGRAM\"",
    },
    Foreign {
        name: "umask",
        hint: "/bin/sh with -c and \"umask 022 && exec PROGRAM\"",
    },
    Foreign {
        name: "User",
        hint: "/usr/bin/setpriv with --reuid before the program, or a launcher of that user",
    },
    Foreign {
        name: "user",
        hint: "/usr/bin/setpriv with --reuid before the program, or a launcher of that user",
    },
    Foreign {
        name: "Group",
        hint: "/usr/bin/setpriv with --regid before the program",
    },
    Foreign {
        name: "Limits",
        hint: "/usr/bin/prlimit before the program",
    },
    Foreign {
        name: "LimitNOFILE",
        hint: "/usr/bin/prlimit with --nofile= before the program",
    },
    Foreign {
        name: "LimitNPROC",
        hint: "/usr/bin/prlimit with --nproc= before the program",
    },
    Foreign {
        name: "LimitCORE",
        hint: "/usr/bin/prlimit with --core= before the program",
    },
    Foreign {
        name: "SoftResourceLimits",
        hint: "/usr/bin/prlimit before the program",
    },
    Foreign {
        name: "HardResourceLimits",
        hint: "/usr/bin/prlimit before the program",
    },
    Foreign {
        name: "StandardOutput",
        hint: "StandardOutPath",
    },
    Foreign {
        name: "StandardError",
        hint: "StandardErrorPath",
    },
    Foreign {
        name: "StandardInput",
        hint: "StandardInPath",
    },
    Foreign {
        name: "StandardOutputPath",
        hint: "StandardOutPath",
    },
    Foreign {
        name: "StandardInputPath",
        hint: "StandardInPath",
    },
    Foreign {
        name: "stdout_logfile",
        hint: "StandardOutPath",
    },
    Foreign {
        name: "stderr_logfile",
        hint: "StandardErrorPath",
    },
    Foreign {
        name: "redirect_stderr",
        hint: "StandardErrorPath, with the path of StandardOutPath",
    },
    Foreign {
        name: "LogFile",
        hint: "StandardOutPath",
    },
    Foreign {
        name: "Log",
        hint: "StandardOutPath",
    },
    Foreign {
        name: "WorkingDir",
        hint: "WorkingDirectory",
    },
    Foreign {
        name: "workingDirectory",
        hint: "WorkingDirectory",
    },
    Foreign {
        name: "Cwd",
        hint: "WorkingDirectory",
    },
    Foreign {
        name: "directory",
        hint: "WorkingDirectory",
    },
    Foreign {
        name: "QueueDirectory",
        hint: "QueueDirectories, an array of paths",
    },
    Foreign {
        name: "DirectoryNotEmpty",
        hint: "QueueDirectories, an array of paths",
    },
    Foreign {
        name: "PathExists",
        hint: "KeepAlive, as {\"PathState\": {PATH: true}}",
    },
    Foreign {
        name: "PathChanged",
        hint: "WatchPaths, an array of paths",
    },
    Foreign {
        name: "PathModified",
        hint: "WatchPaths, an array of paths",
    },
    Foreign {
        name: "RunAtBoot",
        hint: "RunAtLoad",
    },
    Foreign {
        name: "RunAtStart",
        hint: "RunAtLoad",
    },
    Foreign {
        name: "autostart",
        hint: "RunAtLoad",
    },
    Foreign {
        name: "autorestart",
        hint: "KeepAlive",
    },
    Foreign {
        name: "startsecs",
        hint: "a start is throttled by ThrottleInterval",
    },
    Foreign {
        name: "startretries",
        hint: "a start is throttled by ThrottleInterval",
    },
    Foreign {
        name: "stopwaitsecs",
        hint: "ExitTimeOut",
    },
    Foreign {
        name: "stopsignal",
        hint: "a job gets TERM, and KILL after ExitTimeOut",
    },
    Foreign {
        name: "KillSignal",
        hint: "a job gets TERM, and KILL after ExitTimeOut",
    },
    Foreign {
        name: "numprocs",
        hint: "a definition for each process",
    },
    Foreign {
        name: "Enabled",
        hint: "Disabled, which is its opposite",
    },
    Foreign {
        name: "WantedBy",
        hint: "RunAtLoad",
    },
    Foreign {
        name: "Also",
        hint: "each definition is loaded by itself",
    },
    Foreign {
        name: "TimeoutStopSec",
        hint: "ExitTimeOut",
    },
    Foreign {
        name: "RuntimeMaxSec",
        hint: "/usr/bin/timeout before the program",
    },
    Foreign {
        name: "ExecStartPre",
        hint: "/bin/sh with -c and \"FIRST && exec PROGRAM\"",
    },
    Foreign {
        name: "ExecStop",
        hint: "a job gets TERM, and KILL after ExitTimeOut",
    },
    Foreign {
        name: "ExecReload",
        hint: "send the signal by kill(1)",
    },
    Foreign {
        name: "ListenStream",
        hint: "Sockets",
    },
    Foreign {
        name: "Always",
        hint: "KeepAlive, which is true in place of the object",
    },
    Foreign {
        name: "always",
        hint: "KeepAlive, which is true in place of the object",
    },
    Foreign {
        name: "AfterInitialDemand",
        hint: "RunAtLoad absent: the job first starts when it is asked to",
    },
    Foreign {
        name: "OtherJobEnabled",
        hint: "no job waits for another",
    },
    Foreign {
        name: "NetworkState",
        hint: "the launcher does not check the network; have the program wait for it",
    },
    Foreign {
        name: "StartOnMount",
        hint: "WatchPaths, with the path of the mount",
    },
    Foreign {
        name: "LaunchEvents",
        hint: "WatchPaths, if it is a path that changes",
    },
    Foreign {
        name: "MachServices",
        hint: "Sockets, if its clients can connect to one",
    },
    Foreign {
        name: "InitGroups",
        hint: "/usr/bin/setpriv with --init-groups before the program",
    },
    Foreign {
        name: "BundleProgram",
        hint: "Program, the absolute path",
    },
];

/// Keys of launchd.plist(5) without which a job does what it says all the same: how macOS weighs it against others, and where it shows it.
pub(crate) static IDLE: &[&str] = &[
    "AbandonProcessGroup",
    "AssociatedBundleIdentifiers",
    "Debug",
    "EnableGlobbing",
    "EnablePressuredExit",
    "EnableTransactions",
    "HopefullyExitsFirst",
    "HopefullyExitsLast",
    "LegacyTimers",
    "LimitLoadFromHosts",
    "LimitLoadToHosts",
    "LimitLoadToSessionType",
    "LowPriorityBackgroundIO",
    "LowPriorityIO",
    "MaterializeDatalessFiles",
    "POSIXSpawnType",
    "ProcessType",
    "ServiceDescription",
    "ServiceIPC",
    "SessionCreate",
    "TimeOut",
];
