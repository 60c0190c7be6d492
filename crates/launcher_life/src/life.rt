//! What follows from what the system shows of a launcher.

ghost use Rattle.std.specs.Prelude.{◌≡◌, Bool, true, false};
ghost use Rattle.launcher_life.specs.Life.{foretells, is_killed, is_over, is_running, is_there, life_by, life_gone, life_there, may_live};

/// For how many seconds a launcher that runs renews its status file at the latest: it does so each ten seconds.
pub const LATEST: u64 = 40;

/// Whether a launcher is running.
#[derive(Clone, Copy)]
pub enum Life {
    /// Its process runs.
    Runs,
    /// A signal stopped its process (state `T`), and it does nothing until it gets CONT.
    Stopped,
    /// Its process is there, and has renewed nothing for this many seconds.
    Silent(u64),
    /// Neither its process nor its lock is seen, and the system does not show all processes here.
    NotSeen,
    /// It exited in order.
    Exited,
    /// It is not there, and did not exit in order. Or it let its lock go, as of a journal that closed.
    Killed,
    /// The system does not say it.
    Unknown,
}

/// What is seen of the lock that a launcher holds while it runs.
#[derive(Clone, Copy)]
pub enum LockSeen {
    /// The launcher holds it.
    Held,
    /// Another process holds it.
    Others,
    /// No process that is shown holds it.
    Free,
    /// Its file is not there.
    Absent,
    /// The locks are not shown, or not who holds this one.
    Unknown,
}

/// What is seen of the process of a launcher.
#[derive(Clone, Copy)]
pub enum ProcessSeen {
    Running,
    /// A signal stopped it.
    Stopped,
    /// There is none: no process has its number, or another one has, or it has exited and is a zombie.
    None,
    /// The system hides it, or its number is not known.
    Hidden,
}

/// What is known of a launcher.
#[derive(Clone, Copy)]
pub struct LifeFacts {
    pub lock: LockSeen,
    pub process: ProcessSeen,
    /// Whether the locks and the processes of the whole machine are shown here: this process is in the first PID namespace.
    pub sees_all: bool,
    /// Whether the last that it wrote is that of an end in order.
    pub has_ended: bool,
    /// For how many seconds it has renewed nothing. None if it renews nothing, or if that is not known.
    pub silent: Option<u64>,
}

/// Whether the launcher is running, by what is known of it. It calls a launcher killed only where its process would be seen.
pub fn life_of(facts: &LifeFacts) -> Life
    ensures exactly { result ≡ life_by facts.now.process facts.now.lock facts.now.sees_all facts.now.has_ended facts.now.silent }
    ensures there { is_running result ≡ true → is_there facts.now.process facts.now.lock ≡ true }
    ensures over { is_there facts.now.process facts.now.lock ≡ true → is_over result ≡ false }
    ensures unseen { facts.now.sees_all ≡ false → is_killed result ≡ false }
{
    match facts.process {
        ProcessSeen::Running => by_silence(facts.silent),
        ProcessSeen::Stopped => Life::Stopped,
        ProcessSeen::None => match facts.lock {
            // The process that was seen to hold it exits just now.
            LockSeen::Held => Life::Unknown,
            _ => not_there(facts.sees_all, facts.has_ended),
        },
        ProcessSeen::Hidden => match facts.lock {
            LockSeen::Held => by_silence(facts.silent),
            LockSeen::Free => not_there(facts.sees_all, facts.has_ended),
            LockSeen::Absent if facts.has_ended => Life::Exited,
            _ => Life::Unknown,
        },
    }
}

// The life of a launcher that is there.
fn by_silence(silent: Option<u64>) -> Life
    ensures { result ≡ life_there silent }
{
    match silent {
        Some(seconds) if seconds > LATEST => Life::Silent(seconds),
        _ => Life::Runs,
    }
}

// The life of one of which nothing is seen.
fn not_there(sees_all: bool, has_ended: bool) -> Life
    ensures { result ≡ life_gone sees_all has_ended }
{
    if has_ended {
        Life::Exited
    } else if sees_all {
        Life::Killed
    } else {
        Life::NotSeen
    }
}

/// Whether something may be foretold of a launcher's jobs: only of one that runs.
pub fn foretells(life: Life) -> bool
    ensures { result ≡ foretells life }
{
    match life {
        Life::Runs => true,
        _ => false,
    }
}

/// Whether what its launcher wrote of a job may hold now.
pub fn may_live(life: Life) -> bool
    ensures { result ≡ may_live life }
{
    match life {
        Life::Exited | Life::Killed => false,
        _ => true,
    }
}
