//! What the passes of a live loop ask of an edge, besides what a launcher's turns ask of it. The launcher of a loop is
//! over any such edge, so that only the few lines below are proved for all that the edge of the system holds.

ghost use Rattle.std.specs.Prelude.{◌≡◌, ◌≤◌, ℕ, Bool, List, Option, Some, OnSome, true};

use crate::keeper::Keeper;
use crate::sleep::slept;
use child_edge::{ChildEdge, Client, ClockEdge, Notice, OsEdge, PathEdge, SocketEdge, System};
use history_model::{JobNo, Reading, Refusal};
use live_loop::{Caller, Origin};
use mio::{Registry, Token};
use std::fs::File;

/// An edge whose `up` stops while the machine sleeps, and that says how long it slept.
pub trait SleepEdge: ClockEdge {
    /// Milliseconds that the machine slept since a time that stays the same. It is not a call of the edge.
    fn slept(&mut self) -> u64
        ensures told { Self.told self.new ≡ Self.told self.old }
        ensures success { Self.failures self.new ≡ Self.failures self.old };

    /// This is the launcher's clock reading in this pass of the loop: its `up` counts the sleep that the launcher
    /// counts. It is not a call of the edge.
    fn note_time(&mut self, at: Reading)
        ensures told { Self.told self.new ≡ Self.told self.old }
        ensures success { Self.failures self.new ≡ Self.failures self.old };
}

impl<R: System> SleepEdge for OsEdge<R> {
    fn slept(&mut self) -> u64 {
        slept()
    }

    fn note_time(&mut self, _at: Reading) {}
}

/// An edge as the passes of a loop ask it. Each call is that of `OsEdge`. None of them is a call that an edge records:
/// by them it starts or signals no child, closes no connection and gives up no socket.
pub trait RoundEdge: ChildEdge + SleepEdge + PathEdge + SocketEdge {
    /// To the question whose child is over, from this job on, this answer may lead from the one to the other: a job, and its run.
    ghost Finds: { ℕ → Option (ℕ × ℕ) → Self → Self → Type 0 };

    /// That this text was given to the status file may lead from the one to the other.
    ghost Hands: { List ℕ → Self → Self → Type 0 };

    /// That a client was taken which waited at the sockets of this job may have led from the one to the other.
    ghost Accepts: { ℕ → Self → Self → Type 0 };

    /// That a client's connection was to be held, under this number, for this job, with this request, and whether it is, may have led from the one
    /// to the other.
    ghost Holds: { ℕ → ℕ → List ℕ → Bool → Self → Self → Type 0 };

    /// The least job, this one or above it, whose child is over, with the child's run.
    fn over_from(&mut self, job: JobNo) -> Option<(JobNo, u64)>
        ensures finds { Self.Finds job result self.old self.new }
        ensures told { Self.told self.new ≡ Self.told self.old };

    /// Has clients that come to jobs' sockets wake the poll under the token. False: the poll refuses.
    fn register(&mut self, registry: &Registry, token: Token) -> bool
        ensures told { Self.told self.new ≡ Self.told self.old };

    /// The least job, this one or above it, that has sockets, with the bind that gave it these.
    fn listener_from(&self, job: JobNo) -> Option<Origin>;

    /// How many clients there is room for now, besides the sockets of jobs.
    fn room(&self) -> usize;

    /// Whether a further client of the job whose request is whole has to wait for a place.
    fn must_wait(&mut self, job: JobNo) -> bool
        ensures told { Self.told self.new ≡ Self.told self.old };

    /// Whether the exit of a child wakes the poll.
    fn is_woken_by_exits(&self) -> bool;

    /// Whether the job has the sockets of this bind still.
    fn listens_at(&self, origin: Origin) -> bool;

    /// The next client that waits at one of the job's sockets.
    fn accept(&mut self, job: JobNo) -> Option<Client>
        ensures accepts { OnSome result (Self.Accepts job self.old self.new) }
        ensures told { Self.told self.new ≡ Self.told self.old };

    /// Holds the connection of a client whose request came whole, under a number that it has had for no other. False:
    /// the client is disconnected.
    fn take(&mut self, conn: u64, caller: Caller) -> bool
        ensures holds { Self.Holds conn caller.origin.job caller.exchange.request result self.old self.new }
        ensures told { Self.told self.new ≡ Self.told self.old };

    /// Sends clients what their runs have written. True: one may go on at once.
    fn forward(&mut self) -> bool
        ensures told { Self.told self.new ≡ Self.told self.old };

    /// Drops each connection that is held.
    fn release_all(&mut self)
        ensures told { Self.told self.new ≡ Self.told self.old };

    /// The oldest notice that has to be logged and was not.
    fn next_notice(&mut self) -> Option<Notice>
        ensures told { Self.told self.new ≡ Self.told self.old };

    /// Why the last start was refused, as the edge puts it; none if it went well.
    fn start_refusal(&self) -> Option<&str>;

    /// Why the sockets of the last load were not bound, as the edge puts it; none if they were.
    fn bind_refusal(&self) -> Option<&str>;

    /// How many of its calls failed. After the greatest `u64` comes 0. Takes no memory.
    fn failed_calls(&self) -> u64
        ensures { result ≡ Self.failures self.now };

    /// A client's line was answered: with this refusal, or well. `has_loaded`: it is a load, and was accepted.
    fn note_reply(&mut self, line: &[u8], has_loaded: bool, refusal: Option<Refusal>)
        ensures told { Self.told self.new ≡ Self.told self.old };

    /// The journal's file, by a handle of its own: its lock is released once the journal is closed.
    fn keep_journal(&mut self, journal: File)
        ensures told { Self.told self.new ≡ Self.told self.old };

    /// The journal is closed.
    fn note_closing(&mut self)
        ensures told { Self.told self.new ≡ Self.told self.old };

    /// What keeps the status file, if it must be written at this clock reading, or must see what was loaded. The launcher had no memory for the clock
    /// reading if `is_short`. `hand` gives it back.
    fn lend_keeper(&mut self, at: Reading, is_short: bool, has_changed: bool) -> Option<Keeper>
        ensures told { Self.told self.new ≡ Self.told self.old };

    /// Gives it back. If its text is whole, the file gets it.
    fn hand(&mut self, keeper: Keeper, is_whole: bool, at: Reading)
        ensures hands { is_whole ≡ true → Self.Hands keeper.text.bytes.items self.old self.new }
        ensures told { Self.told self.new ≡ Self.told self.old };

    /// The job whose child is over is this one or one above it.
    ghost rises: { (first job run : ℕ) (old new : Self) → Finds first (Some (job, run)) old new → first ≤ job };
}

impl<R: System> RoundEdge for OsEdge<R> {
    ghost use Rattle.jobd.specs.Found.{IsFrom, IsCounted};

    // It keeps no file.
    ghost Hands = { λ text old new. Unit {0} };

    // The question removes no child. The system says which one is over.
    ghost Finds = { λ first found old new. IsFrom first found × (new ≡ old) };

    // What the system's files hold no contract can say.
    ghost Accepts = { λ job old new. new ≡ old };

    ghost Holds = { λ conn job request is_held old new. IsCounted is_held old new };

    ghost rises = { λ first job run old new finds. finds.0 };

    // A job below this one does not answer the question.
    fn over_from(&mut self, job: JobNo) -> Option<(JobNo, u64)> {
        match OsEdge::over_from(self, job) {
            Some((over, run)) if job <= over => Some((over, run)),
            _ => None,
        }
    }

    fn register(&mut self, registry: &Registry, token: Token) -> bool {
        OsEdge::register(self, registry, token).is_ok()
    }

    fn listener_from(&self, job: JobNo) -> Option<Origin> {
        let job = OsEdge::listener_from(self, job)?;
        let bind = OsEdge::bind_of(self, job)?;
        Some(Origin { job, bind })
    }

    fn room(&self) -> usize {
        OsEdge::room(self)
    }

    fn must_wait(&mut self, job: JobNo) -> bool {
        OsEdge::must_wait(self, job)
    }

    fn is_woken_by_exits(&self) -> bool {
        OsEdge::is_woken_by_exits(self)
    }

    fn listens_at(&self, origin: Origin) -> bool {
        OsEdge::bind_of(self, origin.job) == Some(origin.bind)
    }

    fn accept(&mut self, job: JobNo) -> Option<Client> {
        OsEdge::accept(self, job)
    }

    fn take(&mut self, conn: u64, caller: Caller) -> bool {
        let Caller {
            origin,
            client,
            exchange,
            ..
        } = caller;
        OsEdge::take(self, origin.job, conn, client, exchange).is_ok()
    }

    fn forward(&mut self) -> bool {
        OsEdge::forward(self)
    }

    fn release_all(&mut self) {
        OsEdge::release_all(self);
    }

    fn next_notice(&mut self) -> Option<Notice> {
        OsEdge::next_notice(self)
    }

    fn start_refusal(&self) -> Option<&str> {
        OsEdge::start_refusal(self)
    }

    fn bind_refusal(&self) -> Option<&str> {
        OsEdge::bind_refusal(self)
    }

    fn failed_calls(&self) -> u64 {
        OsEdge::failures(self)
    }

    fn note_reply(&mut self, _line: &[u8], _has_loaded: bool, refusal: Option<Refusal>) {
        OsEdge::note_answer(self, refusal == Some(Refusal::NoMemory));
    }

    // It lets no lock go.
    fn keep_journal(&mut self, journal: File) {
        drop(journal);
    }

    fn note_closing(&mut self) {}

    fn lend_keeper(&mut self, _at: Reading, _is_short: bool, _has_changed: bool) -> Option<Keeper> {
        None
    }

    fn hand(&mut self, _keeper: Keeper, _is_whole: bool, _at: Reading) {}
}
