//! The outside as traits: what the launcher asks of it, one small trait for each kind of call. A child is a process that
//! the launcher started; its run is named by the job's number and the run's.

ghost use Rattle.std.specs.Prelude.{◌≡◌, ◌<◌, ℕ, List, [], ◌∷◌, Option, Result, IfOk, OnErr, OnOk};
ghost use Rattle.child_edge.specs.Calls.{TellsOne, one_more, start_answer, done_answer, poll_answer, look_answer, read_answer};
ghost use Rattle.child_edge.specs.declared.plain.EdgeCall.{EdgeCall as Call};
ghost use Rattle.child_edge.specs.declared.plain.Scripted.{Scripted as Answer};

use crate::{EdgeCall, EdgeFault, Scripted};
use history_model::definition::Def;
use history_model::{Ended, JobNo, Obs, Reading};

/// What every trait of the outside records: the calls that were made of it, each with its answer, and how many of them
/// failed.
pub trait Edge {
    /// The calls with their answers, oldest first. An edge that does not record them has none.
    ghost told: { Self → Option (List (Call × Answer)) };

    /// How many calls failed. After the greatest `u64` comes 0.
    ghost failures: { Self → ℕ };
}

/// Starts children, signals them, and asks for their ends. Each call is recorded with its answer; it answers a fault
/// exactly if it adds one to the count of failures.
pub trait ChildEdge: Edge {
    /// This start is expected after the next call: what it needs may be asked about while that is carried out. It need not come,
    /// and nothing is started.
    fn expect(&mut self, _job: JobNo, _run: u64, _def: &Def, _conn: Option<u64>)
        ensures told { Self.told self.new ≡ Self.told self.old }
        ensures success { Self.failures self.new ≡ Self.failures self.old }
    {}

    /// Starts the run's child as the definition says: its program, arguments, environment, directory and streams. A run
    /// that carries a connection has the connection's request and reply in place of standard input and output, or the
    /// null device if these were lost. Answers the child's PID, at least 1. After an `Err` there is no child.
    fn start(
        &mut self,
        job: JobNo,
        run: u64,
        def: &Def,
        conn: Option<u64>,
    ) -> Result<u32, EdgeFault>
        ensures told { TellsOne (Self.told self.old)
            (EdgeCall.Start job run conn, start_answer result) (Self.told self.new) }
        ensures pid { IfOk result (λ pid. 0 < pid) }
        ensures fault { OnErr result (Self.failures self.new ≡ one_more (Self.failures self.old)) }
        ensures success { OnOk result (Self.failures self.new ≡ Self.failures self.old) };

    /// Gives the run's child TERM.
    fn term(&mut self, job: JobNo, run: u64) -> Result<(), EdgeFault>
        ensures told { TellsOne (Self.told self.old)
            (EdgeCall.Term job run, done_answer result) (Self.told self.new) }
        ensures fault { OnErr result (Self.failures self.new ≡ one_more (Self.failures self.old)) }
        ensures success { OnOk result (Self.failures self.new ≡ Self.failures self.old) };

    /// Gives the run's child KILL.
    fn kill(&mut self, job: JobNo, run: u64) -> Result<(), EdgeFault>
        ensures told { TellsOne (Self.told self.old)
            (EdgeCall.Kill job run, done_answer result) (Self.told self.new) }
        ensures fault { OnErr result (Self.failures self.new ≡ one_more (Self.failures self.old)) }
        ensures success { OnOk result (Self.failures self.new ≡ Self.failures self.old) };

    /// How the run's child exited, if it did; it does not wait for that. Once this was answered, the child is removed.
    fn poll(&mut self, job: JobNo, run: u64) -> Result<Option<Ended>, EdgeFault>
        ensures told { TellsOne (Self.told self.old)
            (EdgeCall.Poll job run, poll_answer result) (Self.told self.new) }
        ensures fault { OnErr result (Self.failures self.new ≡ one_more (Self.failures self.old)) }
        ensures success { OnOk result (Self.failures self.new ≡ Self.failures self.old) };
}

/// Binds the sockets of jobs, and gives them up. Each call is recorded with its answer; `bind` answers a fault exactly
/// if it adds one to the count of failures, and the others, which answer nothing, add none.
pub trait SocketEdge: Edge {
    /// Binds each socket of the definition, for the job. After an `Err` none of them is bound.
    fn bind(&mut self, job: JobNo, def: &Def) -> Result<(), EdgeFault>
        ensures told { TellsOne (Self.told self.old)
            (EdgeCall.Bind job, done_answer result) (Self.told self.new) }
        ensures fault { OnErr result (Self.failures self.new ≡ one_more (Self.failures self.old)) }
        ensures success { OnOk result (Self.failures self.new ≡ Self.failures self.old) };

    /// Closes a connection of the job that waits.
    fn close(&mut self, job: JobNo, conn: u64)
        ensures told { TellsOne (Self.told self.old)
            (EdgeCall.Close job conn, Scripted.Done) (Self.told self.new) }
        ensures success { Self.failures self.new ≡ Self.failures self.old };

    /// Gives up what was bound for the job.
    fn release(&mut self, job: JobNo)
        ensures told { TellsOne (Self.told self.old)
            (EdgeCall.Release job, Scripted.Done) (Self.told self.new) }
        ensures success { Self.failures self.new ≡ Self.failures self.old };
}

/// Checks paths, in series: paths are asked about, and each is checked once it is known what is there. An edge that
/// need not be asked knows it at once. Each check is recorded with its answer. It answers a fault exactly if it adds
/// one to the count of failures. The other calls don't check a path, and add none.
pub trait PathEdge: Edge {
    ghost use Rattle.history_model.specs.declared.Obs.{Obs};
    ghost use Rattle.child_edge.specs.declared.plain.EdgeFault.{EdgeFault};

    /// A check of the path, with this answer, may lead from the one to the other.
    ghost Looks: { List ℕ → Result Obs EdgeFault → Self → Self → Type 0 };

    /// Begins a series of checks: what was asked before it and not checked is not answered any more.
    fn begin_looks(&mut self)
        ensures told { Self.told self.new ≡ Self.told self.old }
        ensures success { Self.failures self.new ≡ Self.failures self.old }
    {}

    /// Asks what is at the path, and does not wait for the answer. False: before that, paths that were asked about must
    /// be checked.
    fn ask(&mut self, _path: &str) -> bool
        ensures told { Self.told self.new ≡ Self.told self.old }
        ensures success { Self.failures self.new ≡ Self.failures self.old }
    {
        true
    }

    /// Whether it is known what is at the path, or that there will be no answer: within half a second of the question.
    /// A path that was not asked about in this series is asked about.
    fn is_seen(&mut self, _path: &str) -> bool
        ensures told { Self.told self.new ≡ Self.told self.old }
        ensures success { Self.failures self.new ≡ Self.failures self.old }
    {
        true
    }

    /// What was at the path when it was asked about, at most half a second ago. That nothing is there is an observation
    /// too. An `Err` if the system refused the check, or if there was no answer.
    fn look(&mut self, path: &str) -> Result<Obs, EdgeFault>
        ensures told { TellsOne (Self.told self.old)
            (EdgeCall.Look, look_answer result) (Self.told self.new) }
        ensures looks { Self.Looks path.now result self.old self.new }
        ensures fault { OnErr result (Self.failures self.new ≡ one_more (Self.failures self.old)) }
        ensures success { OnOk result (Self.failures self.new ≡ Self.failures self.old) };
}

/// Reads the clocks. Each call is recorded with its answer; it answers a fault exactly if it adds one to the count of
/// failures.
pub trait ClockEdge: Edge {
    /// The clock reading of now: `up` in milliseconds, `wall` in seconds of Unix time.
    fn read(&mut self) -> Result<Reading, EdgeFault>
        ensures told { TellsOne (Self.told self.old)
            (EdgeCall.Clock, read_answer result) (Self.told self.new) }
        ensures fault { OnErr result (Self.failures self.new ≡ one_more (Self.failures self.old)) }
        ensures success { OnOk result (Self.failures self.new ≡ Self.failures self.old) };
}
