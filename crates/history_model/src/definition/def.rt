//! A definition that was read, and what it says of each key.

ghost use Rattle.std.specs.Prelude.{◌≡◌, ◌≤◌, IfOk, IfSome, option_map};
ghost use Rattle.history_model.specs.Definitions.{has_sockets};
ghost use Rattle.history_model.specs.KeyGroups.{described};
ghost use Rattle.history_model.specs.DefinitionParts.{launch_of, demand_of, pace_of, surroundings_of};

use super::parts::{Demand, Launch, Pace, PathState, Socket, Surroundings, Variable};
use crate::{Entry, Text};
use std::alloc::{AllocError, Global};
use std::marker::Model;

/// What a definition keeps, part by part.
struct Parts {
    launch: Launch,
    demand: Demand,
    pace: Pace,
    surroundings: Surroundings,
    sockets: Vec<Socket>,
    not_acted_on: Vec<Text>,
}

// for the proof: the owner that drops it calls this, in place of a drop of each part
impl Drop for Parts {
    fn drop(self) {
        let Parts {
            launch: _,
            demand: _,
            pace: _,
            surroundings: _,
            sockets: _,
            not_acted_on: _,
        } = self;
    }
}

/// A job's definition, as `job_defs::read_def` reads it from JSON. The keys and their meaning are those of launchd.plist(5), but
/// for what is said here. It holds a pointer to its parts, so a definition is small, and quick to move.
#[derive(Drop)]
pub struct Def {
    parts: Box<Parts>,
}

impl Model for Def {
    ghost use Rattle.std.specs.Prelude.{◌≤◌, IfSome};
    ghost use Rattle.history_model.specs.Described.{Described};

    ghost Value = { Described };

    ghost view = { λ d. record {
      label = d.parts.value.launch.label;
      program = d.parts.value.launch.command.program;
      arguments = d.parts.value.launch.command.arguments.items;
      run_at_load = d.parts.value.launch.run_at_load;
      launch_only_once = d.parts.value.launch.launch_only_once;
      disabled = d.parts.value.launch.disabled;
      keep_alive = d.parts.value.demand.keep.always;
      successful_exit = d.parts.value.demand.keep.successful_exit;
      crashed = d.parts.value.demand.keep.crashed;
      path_state = d.parts.value.demand.keep.path_state.items;
      watch_paths = d.parts.value.demand.watch_paths.items;
      queue_directories = d.parts.value.demand.queue_directories.items;
      start_interval = d.parts.value.demand.start_interval;
      calendar = d.parts.value.demand.calendar.items;
      throttle_interval = d.parts.value.pace.throttle_interval;
      exit_time_out = d.parts.value.pace.exit_time_out;
      environment = d.parts.value.surroundings.environment.items;
      working_directory = d.parts.value.surroundings.working_directory;
      standard_in_path = d.parts.value.surroundings.standard_in_path;
      standard_out_path = d.parts.value.surroundings.standard_out_path;
      standard_error_path = d.parts.value.surroundings.standard_error_path;
      sockets = d.parts.value.sockets.items;
      not_acted_on = d.parts.value.not_acted_on.items;
    } };

    ghost invariant = { λ d. IfSome d.parts.value.demand.start_interval (λ seconds. (1 ≤ seconds)
        × (seconds ≤ 31536000))
        × (d.parts.value.pace.throttle_interval ≤ 86400) × (d.parts.value.pace.exit_time_out ≤ 86400) };
}

impl Def {
    /// The definition with these parts. The intervals are within their ranges: `StartInterval` 1 to 31,536,000,
    /// `ThrottleInterval` and `ExitTimeOut` at most 86,400, all in seconds. `not_acted_on` are the keys that are not supported.
    /// `AllocError` if memory for the pointer to them was refused.
    pub fn of(
        alloc: Global,
        launch: Launch,
        demand: Demand,
        pace: Pace,
        surroundings: Surroundings,
        sockets: Vec<Socket>,
        not_acted_on: Vec<Text>,
    ) -> Result<Def, AllocError>
        requires interval { IfSome demand.start_interval (λ seconds. (1 ≤ seconds)
            × (seconds ≤ 31536000)) }
        requires bounds { (pace.throttle_interval ≤ 86400) × (pace.exit_time_out ≤ 86400) }
        ensures { IfOk result (λ def. def ≡ described (launch_of launch) (demand_of demand)
            (pace_of pace) (surroundings_of surroundings) sockets.items not_acted_on.items) }
    {
        let parts = Parts {
            launch,
            demand,
            pace,
            surroundings,
            sockets,
            not_acted_on,
        };
        match Box::new(alloc, parts) {
            Ok(parts) => Ok(Def { parts }),
            Err(_) => Err(AllocError),
        }
    }

    /// `Label`: the job's name, which no other loaded job has. 1 to 255 bytes; `is_label` says which.
    pub fn label(&self) -> &str
        ensures { result.now ≡ self.now.label }
    {
        self.parts.launch.label.as_str()
    }

    /// `Program`: the executable, also the child's argv[0]. If the key is absent, the first of `ProgramArguments`.
    pub fn program(&self) -> &str
        ensures { result.now ≡ self.now.program }
    {
        self.parts.launch.command.program.as_str()
    }

    /// `ProgramArguments` after its first element: the child's arguments after argv[0]. At most 255; none if the key
    /// is absent.
    pub fn arguments(&self) -> &[Text]
        ensures { result.now ≡ self.now.arguments }
    {
        self.parts.launch.command.arguments.as_slice()
    }

    /// `RunAtLoad`: the job is started once when it is loaded. Absent: no.
    pub fn run_at_load(&self) -> bool
        ensures { result ≡ self.now.run_at_load }
    {
        self.parts.launch.run_at_load
    }

    /// `LaunchOnlyOnce`: one spawn that succeeds is the last of a load. Absent: no.
    pub fn launch_only_once(&self) -> bool
        ensures { result ≡ self.now.launch_only_once }
    {
        self.parts.launch.launch_only_once
    }

    /// `Disabled`: a hint not to load the job, over which `enable` and `disable` of launchctl(1) decide. Absent: no.
    pub fn disabled(&self) -> bool
        ensures { result ≡ self.now.disabled }
    {
        self.parts.launch.disabled
    }

    /// `KeepAlive` is `true`: the job is to run at all times. So does an `OnDemand` of `false` without `KeepAlive`.
    /// Absent: no.
    pub fn keep_alive(&self) -> bool
        ensures { result ≡ self.now.keep_alive }
    {
        self.parts.demand.keep.always
    }

    /// `KeepAlive.SuccessfulExit`: the job is wanted after an exit with status 0 (`true`), or after any other exit (`false`). It
    /// implies `RunAtLoad`. If it is absent, it makes no condition.
    pub fn successful_exit(&self) -> Option<bool>
        ensures { result ≡ self.now.successful_exit }
    {
        self.parts.demand.keep.successful_exit
    }

    /// `KeepAlive.Crashed`: the job is wanted after an exit by a signal of a crash (`true`), or after any other exit (`false`).
    /// If it is absent, it makes no condition.
    pub fn crashed(&self) -> Option<bool>
        ensures { result ≡ self.now.crashed }
    {
        self.parts.demand.keep.crashed
    }

    /// `KeepAlive.PathState`, in byte order of the paths: the job is wanted while one of them was last seen as it says.
    /// Together with `WatchPaths` and `QueueDirectories` at most 64. Absent: none.
    pub fn path_state(&self) -> &[PathState]
        ensures { result.now ≡ self.now.path_state }
    {
        self.parts.demand.keep.path_state.as_slice()
    }

    /// `WatchPaths`: the job is started once when one of them changes. Absent: none.
    pub fn watch_paths(&self) -> &[Text]
        ensures { result.now ≡ self.now.watch_paths }
    {
        self.parts.demand.watch_paths.as_slice()
    }

    /// `QueueDirectories`: the job is wanted while one of them holds a file. Absent: none.
    pub fn queue_directories(&self) -> &[Text]
        ensures { result.now ≡ self.now.queue_directories }
    {
        self.parts.demand.queue_directories.as_slice()
    }

    /// `StartInterval`, in seconds: the job is started each time that this interval has passed, counted from the load. 1 to
    /// 31,536,000. Absent: never.
    pub fn start_interval(&self) -> Option<u32>
        ensures value { result ≡ self.now.start_interval }
        ensures range { IfSome self.now.start_interval (λ seconds. (1 ≤ seconds)
            × (seconds ≤ 31536000)) }
    {
        self.parts.demand.start_interval
    }

    /// `StartCalendarInterval`: the job is started in each civil minute that an entry matches, as crontab(5) says it.
    /// At most 64. Absent: never.
    pub fn calendar(&self) -> &[Entry]
        ensures { result.now ≡ self.now.calendar }
    {
        self.parts.demand.calendar.as_slice()
    }

    /// `ThrottleInterval`, in seconds: two spawns are at least so far apart. 0 to 86,400; 0 means no throttle. Absent:
    /// 10.
    pub fn throttle_interval(&self) -> u32
        ensures value { result ≡ self.now.throttle_interval }
        ensures range { self.now.throttle_interval ≤ 86400 }
    {
        self.parts.pace.throttle_interval
    }

    /// `ExitTimeOut`, in seconds: how long after TERM a child that is being stopped gets KILL. 0 to 86,400; 0 means
    /// never. Absent: 20.
    pub fn exit_time_out(&self) -> u32
        ensures value { result ≡ self.now.exit_time_out }
        ensures range { self.now.exit_time_out ≤ 86400 }
    {
        self.parts.pace.exit_time_out
    }

    /// `EnvironmentVariables`, in byte order of the names: what the child's environment has besides the launcher's. A value that
    /// is not a string is left out. At most 128. Absent: none.
    pub fn environment(&self) -> &[Variable]
        ensures { result.now ≡ self.now.environment }
    {
        self.parts.surroundings.environment.as_slice()
    }

    /// `WorkingDirectory`: the child's. Absent: the launcher's.
    pub fn working_directory(&self) -> Option<&str>
        ensures { option_map (λ path. path.now) result ≡ self.now.working_directory }
    {
        text_in(&self.parts.surroundings.working_directory)
    }

    /// `StandardInPath`: what the child reads. Absent: the null device.
    pub fn standard_in_path(&self) -> Option<&str>
        ensures { option_map (λ path. path.now) result ≡ self.now.standard_in_path }
    {
        text_in(&self.parts.surroundings.standard_in_path)
    }

    /// `StandardOutPath`: where the child's output is appended. Absent: the null device.
    pub fn standard_out_path(&self) -> Option<&str>
        ensures { option_map (λ path. path.now) result ≡ self.now.standard_out_path }
    {
        text_in(&self.parts.surroundings.standard_out_path)
    }

    /// `StandardErrorPath`: where the child's errors are appended. Absent: the null device.
    pub fn standard_error_path(&self) -> Option<&str>
        ensures { option_map (λ path. path.now) result ≡ self.now.standard_error_path }
    {
        text_in(&self.parts.surroundings.standard_error_path)
    }

    /// `Sockets`: where connections are waited for, in byte order of the sockets' names. At most 8. Absent: none.
    pub fn sockets(&self) -> &[Socket]
        ensures { result.now ≡ self.now.sockets }
    {
        self.parts.sockets.as_slice()
    }

    /// Whether there is a socket.
    pub fn has_sockets(&self) -> bool
        ensures { result ≡ has_sockets self.now }
    {
        !self.parts.sockets.is_empty()
    }

    /// The keys of the definition that are not supported, in byte order and each once. A key of an object is written after the
    /// key that holds the object and a dot, as in `KeepAlive.NetworkState`. For a key of a socket, the socket's name comes
    /// between them.
    pub fn not_acted_on(&self) -> &[Text]
        ensures { result.now ≡ self.now.not_acted_on }
    {
        self.parts.not_acted_on.as_slice()
    }
}

fn text_in(text: &Option<Text>) -> Option<&str>
    ensures { option_map (λ found. found.now) result ≡ text.now }
{
    match text {
        Some(text) => Some(text.as_str()),
        None => None,
    }
}
