//! What happens to the launcher: the events of a journal, with what the outside answered.
use crate::text::{Text, TextRef};
use crate::{Answer, Ask, Ended, Obs, Reading};

/// A label's setting, made by `enable` and `disable` and by `-w` of load and unload (launchctl(1)): it decides over the
/// definition's `Disabled`, and needs no loaded job.
#[derive(Drop)]
pub struct Setting {
    pub label: Text,
    pub disabled: bool,
}

/// What happens to one job, apart from clock readings and path checks. A client asks something of it, or a connection comes to
/// its sockets. The outside answers its orders, or its run ends. To a contract, the item that its past grows by.
#[derive(Clone, Copy)]
pub enum JobItem {
    /// A client asks (launchctl(1)).
    Asked(Ask),
    /// A connection came to one of the job's sockets, under this number; numbers rise within a load.
    Came(u64),
    /// A waiting connection was given up by its client.
    Left(u64),
    /// The answer to an order. It names the order's run.
    Answered(Answer),
    /// The run's child was waited for.
    Ended { run: u64, how: Ended },
    /// The system refused to wait for the run's child, which keeps its PID.
    WaitRefused { run: u64 },
}

/// An event of the launcher, as a line of a journal says it (launchctl(1) for what a control client asks). Its texts are borrowed, so it is
/// made, read and written without a copy. `bind` and `store` are the outside's answers; they count only if a load has sockets, and if
/// a setting is written.
#[derive(Drop)]
pub enum Event<'a> {
    /// A client loads a definition's JSON text. `writes_setting` also enables the label; with `force` a disabled one is loaded
    /// too.
    Load {
        def: TextRef<'a>,
        writes_setting: bool,
        force: bool,
        bind: bool,
        store: bool,
    },
    /// The job is to be removed; with `writes_setting` its label is also disabled.
    Unload {
        job: TextRef<'a>,
        writes_setting: bool,
        store: bool,
    },
    /// From now on the label is to be loaded whatever its definition says (`enable`), or is not to be loaded (`disable`).
    Set {
        job: TextRef<'a>,
        disabled: bool,
        store: bool,
    },
    /// A line for each loaded job is asked for.
    List,
    /// What is known of one job is asked for.
    Print {
        job: TextRef<'a>,
    },
    /// Every job is to be removed, and no further one loaded.
    Shutdown,
    /// The clocks were read.
    Clock(Reading),
    /// A look at a path.
    Saw {
        path: TextRef<'a>,
        obs: Obs,
    },
    /// What happens to the job of this label: each of its items but an unload and a shutdown, which are events of their own.
    OfJob {
        job: TextRef<'a>,
        item: JobItem,
    },
}
