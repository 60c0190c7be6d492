//! A launcher as its live loop sees it: what a pass asks of it and of its edge, and what it delivers. The loop does not
//! know the table, the store and the journal of the launcher.

ghost use Rattle.std.specs.Prelude.{◌≡◌, ◌≤◌, ℕ, Bool, List, Option, Some, IfNone, OnSome};
ghost use Rattle.std.specs.Option.{option_map};
ghost use Rattle.live_loop.specs.Looks.{PathCall, BeginsLooks, HasLoaded, AsksAt, Awaits, LookedAt, Observed};

use crate::label_room::LabelRoom;
use child_edge::{Client, Notice};
use control_socket::Answers;
use history_model::{JobNo, Obs, Refusal};
use job_clients::{Caller, Origin};
use mio::{Registry, Token};
use std::alloc::Global;

/// A launcher as the path checks see it.
pub trait PathHost {
    /// The `up` of the clock reading of the present pass.
    ghost round_up: { Self → ℕ };

    /// This may be the first path after the text, in byte order, that a job lists.
    ghost IsNext: { Self → List ℕ → Option (List ℕ) → Type 0 };

    /// The call may lead from the one to the other.
    ghost Did: { PathCall → Self → Self → Type 0 };

    /// The `up` of the clock reading of the present pass.
    fn up(&self) -> u64
        ensures { result ≡ Self.round_up self.now };

    /// Begins a series of path checks.
    fn begin_looks(&mut self)
        ensures { Self.Did BeginsLooks self.old self.new };

    /// Whether a load was accepted since this was asked before.
    fn take_loaded(&mut self) -> bool
        ensures { Self.Did (HasLoaded result) self.old self.new };

    /// The first path after this one, in byte order, that a job lists.
    fn path_after(&self, path: &str) -> Option<&str>
        ensures { Self.IsNext self.now path.now (option_map (λ next. next.now) result) };

    /// Asks what is at the path, and does not wait for the answer. False: ask that later.
    fn ask(&mut self, path: &str) -> bool
        ensures { Self.Did (AsksAt path.now result) self.old self.new };

    /// Whether it is known what is at the path, or that there will be no answer.
    fn is_seen(&mut self, path: &str) -> bool
        ensures { Self.Did (Awaits path.now result) self.old self.new };

    /// What was at the path when it was asked about, at most half a second ago. None if the system refuses the check,
    /// or gives no answer.
    fn look(&mut self, path: &str) -> Option<Obs>
        ensures { Self.Did (LookedAt path.now result) self.old self.new };

    /// Delivers an observation.
    fn saw(&mut self, alloc: Global, path: &str, obs: Obs)
        ensures { Self.Did (Observed path.now obs) self.old self.new };
}

/// What became of a client that was delivered.
pub enum Delivered {
    /// The edge could not hold it, so it is not an event. It was disconnected, and that was logged.
    Dropped,
    /// Its job heard that it came.
    Received,
    /// The launcher refused it, and it was closed.
    Refused(Refusal),
}

/// The state of a launcher.
#[derive(Clone, Copy)]
pub struct LauncherState {
    /// Whether something happened in this pass that is an input.
    pub is_active: bool,
    /// Whether a shutdown was accepted, and no job is left.
    pub has_ended: bool,
    /// The next time of `up` at which time alone may make an order due. None also while the launcher refuses clock
    /// readings, so that a time that was reached does not keep the loop from waiting.
    pub next_moment: Option<u64>,
}

/// A launcher as the passes of a live loop see it. Its answers to the lines of control clients are those of `Answers`.
pub trait LoopHost: PathHost + Answers {
    ghost use Rattle.live_loop.specs.declared.loop_host.Delivered.{Delivered};

    /// The beginning of a pass may lead from the one to the other.
    ghost Begun: { Self → Self → Type 0 };

    /// To the question for a run that is over, of this job or of the next above it, this answer may lead from the one to the other.
    ghost Polled: { ℕ → Option ℕ → Self → Self → Type 0 };

    /// A question to the edge, which delivers nothing, may lead from the one to the other.
    ghost Asked: { Self → Self → Type 0 };

    /// That a client was taken which waited at the sockets of this job may have led from the one to the other.
    ghost Taken: { ℕ → Self → Self → Type 0 };

    /// The launcher says of its state whether it has ended, and the next time at which time alone may make an order due.
    ghost Says: { Self → Bool → Option ℕ → Type 0 };

    /// A client came, under this number, of this job, with this request. That it was delivered may have led from the
    /// one to the other.
    ghost Came: { ℕ → ℕ → List ℕ → Delivered → Self → Self → Type 0 };

    /// Begins a pass at a new clock reading, and delivers it if it may change something. If the clock can't be read,
    /// the pass has the clock reading of the one before.
    fn begin(&mut self, alloc: Global)
        ensures { Self.Begun self.old self.new };

    /// The `up` of now, or of the pass if the clock can't be read.
    fn up_now(&mut self) -> u64
        ensures { Self.Asked self.old self.new };

    /// Its state now.
    fn standing(&self) -> LauncherState
        ensures { Self.Says self.now result.has_ended result.next_moment };

    /// Asks about the child of this job, or of the next above it, whose run is over. It delivers how the run exited, or
    /// that the wait was refused. It gives the number of that job; none if no run is over.
    fn poll_from(&mut self, alloc: Global, room: &mut LabelRoom, first: JobNo) -> Option<JobNo>
        ensures { Self.Polled first result self.old self.new };

    /// From now on clients that come to sockets of jobs wake the poll under this token. False if the system refuses that for a socket.
    fn register(&mut self, registry: &Registry, token: Token) -> bool
        ensures { Self.Asked self.old self.new };

    /// The job of this number, or the next above it, that listens at sockets, with the number of these sockets, which no other
    /// sockets had or have.
    fn listener_from(&mut self, job: JobNo) -> Option<Origin>
        ensures { Self.Asked self.old self.new };

    /// How many clients there is room for now, besides the sockets of jobs. It is a number of connections whose request
    /// came whole, of clients of jobs' sockets that are heard, and of clients of the control socket.
    fn room(&mut self) -> usize
        ensures { Self.Asked self.old self.new };

    /// Whether a further client of the job whose request is whole has to wait for a place.
    fn must_wait(&mut self, job: JobNo) -> bool
        ensures { Self.Asked self.old self.new };

    /// Whether the exit of a child wakes the poll. Else a pass sees it once it asks.
    fn is_woken_by_exits(&mut self) -> bool
        ensures { Self.Asked self.old self.new };

    /// Whether the job has these sockets still.
    fn listens_at(&mut self, origin: Origin) -> bool
        ensures { Self.Asked self.old self.new };

    /// The label of the job.
    fn label(&self, job: JobNo) -> &str;

    /// Takes a client that waits at the job's sockets, if there is one.
    fn accept(&mut self, job: JobNo) -> Option<Client>
        ensures taken { OnSome result (Self.Taken job self.old self.new) }
        ensures nobody { IfNone result (Self.Asked self.old self.new) };

    /// Delivers a client whose request came whole, under a number that it has had for no other.
    fn deliver(
        &mut self,
        alloc: Global,
        room: &mut LabelRoom,
        conn: u64,
        caller: Caller,
    ) -> Delivered
        ensures { Self.Came conn caller.origin.job caller.exchange.request result self.old self.new };

    /// Sends clients what their runs have written. It says whether one may go on at once.
    fn forward(&mut self) -> bool
        ensures { Self.Asked self.old self.new };

    /// Closes each connection that is held, with its files.
    fn release_all(&mut self)
        ensures { Self.Asked self.old self.new };

    /// The next line on what the edge was refused, and on what became of runs.
    fn next_notice(&mut self) -> Option<Notice>
        ensures { Self.Asked self.old self.new };

    /// Whether the journal was closed since this was asked last.
    fn report_journal_closing(&mut self) -> bool
        ensures { Self.Asked self.old self.new };

    /// The job whose run was over is the one that was asked about, or one above it.
    ghost rises: { (first job : ℕ) (old new : Self) → Polled first (Some job) old new → first ≤ job };
}
