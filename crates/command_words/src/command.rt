//! The commands that arguments can mean.
use history_model::Text;
use std::marker::Model;

/// The paths of a command line, in their order. To a contract, a list of their bytes.
#[derive(Drop)]
pub struct Paths {
    items: Vec<Text>,
}

impl Model for Paths {
    ghost use Rattle.std.specs.Prelude.{ℕ, List};

    ghost Value = { List (List ℕ) };

    ghost view = { λ p. p.items.items };
}

impl Paths {
    ghost use Rattle.std.specs.Prelude.{◌≡◌};

    /// These paths.
    pub fn new(items: Vec<Text>) -> Paths
        ensures { result ≡ items.items }
    {
        Paths { items }
    }

    /// The paths in their order.
    pub fn as_slice(&self) -> &[Text]
        ensures { result.now ≡ self.now }
    {
        self.items.as_slice()
    }
}

/// What the control program is asked to do. A label is that of launchctl(1)'s `label`; a target names one too.
#[derive(Drop)]
pub enum Command {
    /// Load each definition; `writes_setting` also enables its label, `force` loads a disabled one too.
    Load {
        writes_setting: bool,
        force: bool,
        paths: Paths,
    },
    /// Remove the job of each definition; `writes_setting` also disables its label.
    Unload {
        writes_setting: bool,
        paths: Paths,
    },
    Start {
        label: Text,
    },
    Stop {
        label: Text,
    },
    Enable {
        label: Text,
    },
    Disable {
        label: Text,
    },
    /// Start the job now; with `kills_first` its running child is ended by KILL first.
    Kickstart {
        kills_first: bool,
        label: Text,
    },
    List,
    Print {
        label: Text,
    },
    Shutdown,
}

/// A whole command line of the control program: the path of the daemon's control socket, and the command.
#[derive(Drop)]
pub struct Words {
    pub socket: Text,
    pub command: Command,
}

/// The zone in which calendar entries are read.
#[derive(Drop)]
pub enum ZoneWords {
    /// Nothing was said: Universal Time.
    Default,
    /// A POSIX rule, as in the environment variable TZ.
    Rule(Text),
    /// The path of a zone file, as below /usr/share/zoneinfo.
    File(Text),
}

/// What the daemon's program is asked to do.
#[derive(Drop)]
pub enum DaemonCommand {
    /// Run a journal from standard input through the launcher's machine.
    Replay,
    /// Run the launcher.
    Serve {
        socket: Text,
        store: Text,
        spool: Text,
        journal: Option<Text>,
        zone: ZoneWords,
    },
    /// Print the stored settings.
    Overrides {
        store: Text,
    },
}

/// Why arguments mean nothing.
#[derive(Clone, Copy, PartialEq, Eq)]
pub enum WordFault {
    /// There was no memory to read them.
    NoMemory,
    /// They do not form a command; `explain` gives the text to print.
    Usage,
}
