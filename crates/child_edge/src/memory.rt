//! An edge in memory: it answers from a script and lists its calls, so that what the launcher asks of the outside can be
//! compared.

ghost use Rattle.std.specs.Prelude.{◌≡◌, IfOk, true, slice_get};
ghost use Rattle.child_edge.specs.MemoryEdges.{answer_to, answer_of, after_call, after_done, entered, uncalled, untold, takes_answer as is_taken, has_call_room as is_room_for_one};
ghost use Rattle.child_edge.specs.Calls.{outcome_answer, start_answer, done_answer, poll_answer, look_answer, read_answer};

use crate::{ChildEdge, ClockEdge, Edge, EdgeCall, EdgeFault, PathEdge, Scripted, SocketEdge};
use history_model::definition::Def;
use history_model::{Ended, JobNo, Obs, Reading};
use std::alloc::{AllocError, Global};
use std::marker::Model;

/// Answers each call by the next answer of a script, and lists the calls with the answers that it gave, within its
/// room.
///
/// An answer of another kind than the call's, a PID of 0, and a script that has ended are `Refused`. A call for which
/// there is no room is `Refused` and not listed. A close or a release takes no answer of the script and is listed as
/// done; past the room it is done and not listed. Each fault adds one to the count of failures.
#[derive(Drop)]
pub struct MemoryEdge {
    script: Vec<Scripted>,
    used: usize,
    calls: Vec<(EdgeCall, Scripted)>,
    room: usize,
    is_telling: bool,
    failures: u64,
}

impl Model for MemoryEdge {
    ghost use Rattle.std.specs.Prelude.{◌≤◌, length, vec_capacity};
    ghost use Rattle.child_edge.specs.MemoryEdges.{Memory};

    ghost Value = { Memory };

    ghost view = { λ e. record {
      script = e.script.items;
      used = e.used;
      calls = e.calls.items;
      room = e.room;
      is_telling = e.is_telling;
      failures = e.failures;
    } };

    ghost invariant = { λ e. (e.room ≤ vec_capacity e.calls) × (e.used ≤ length e.calls.items) };
}

impl EdgeCall {
    // Whether the answer is of the call's kind.
    fn takes(&self, answer: Scripted) -> bool
        ensures { result ≡ is_taken self.now answer }
    {
        match (self, answer) {
            (EdgeCall::Start { .. }, Scripted::Started(pid)) => pid > 0,
            (EdgeCall::Poll { .. }, Scripted::Running | Scripted::Over(_)) => true,
            (EdgeCall::Look, Scripted::Seen(_)) => true,
            (EdgeCall::Clock, Scripted::At(_)) => true,
            (
                EdgeCall::Term { .. }
                | EdgeCall::Kill { .. }
                | EdgeCall::Bind { .. }
                | EdgeCall::Close { .. }
                | EdgeCall::Release { .. },
                Scripted::Done,
            ) => true,
            _ => false,
        }
    }
}

impl MemoryEdge {
    /// An edge that answers by this script, and has room to list `room` calls. The room is taken here; `AllocError` if
    /// there is no memory for it.
    pub fn new(alloc: Global, script: Vec<Scripted>, room: usize) -> Result<MemoryEdge, AllocError>
        ensures { IfOk result (λ e. e ≡ uncalled script.items room) }
    {
        let calls = Vec::with_capacity(alloc, room)?;
        Ok(MemoryEdge {
            script,
            used: 0,
            calls,
            room,
            is_telling: true,
            failures: 0,
        })
    }

    /// The calls that were made, oldest first, with the answers that they were given. All of them, while there is room
    /// for them, and else the first ones. Takes no memory.
    pub fn calls(&self) -> &[(EdgeCall, Scripted)]
        ensures { result.now ≡ self.now.calls }
    {
        self.calls.as_slice()
    }

    /// How many calls failed, those past the room too. After the greatest `u64` comes 0. Takes no memory.
    pub fn failures(&self) -> u64
        ensures { result ≡ self.now.failures }
    {
        self.failures
    }

    fn has_room(&self) -> bool
        ensures { result ≡ is_room_for_one self.now }
    {
        self.is_telling && self.calls.len() < self.room
    }

    // Answers the call by the script, lists it, and counts a fault. What is Ok is of the call's kind.
    fn give(&mut self, call: EdgeCall) -> Result<Scripted, EdgeFault>
        ensures answer { outcome_answer result ≡ answer_of call self.old }
        ensures kind { IfOk result (λ answer. is_taken call answer ≡ true) }
        ensures after { self.new ≡ after_call call self.old }
    {
        if self.has_room() {
            let outcome = outcome_of(call, self.next_answer());
            self.enter(call, answer_in(outcome));
            outcome
        } else {
            self.refuse_untold();
            Err(EdgeFault::Refused)
        }
    }

    fn next_answer(&self) -> Option<Scripted>
        ensures { result ≡ slice_get self.now.script self.now.used }
    {
        self.script.get(self.used).copied()
    }

    fn refuse_untold(&mut self)
        ensures { self.new ≡ untold self.old }
    {
        self.is_telling = false;
        self.failures = self.failures.wrapping_add(1);
    }

    // Lists the call with the answer that the script gave it, and counts a fault.
    fn enter(&mut self, call: EdgeCall, answer: Scripted)
        requires { is_room_for_one self.old ≡ true }
        ensures { self.new ≡ entered call answer self.old }
    {
        match answer {
            Scripted::Refused | Scripted::NoMemory => {
                self.failures = self.failures.wrapping_add(1);
            }
            _ => {}
        }
        self.used += 1;
        self.calls.push_reserved((call, answer));
    }

    // Lists a call that takes no answer of the script.
    fn note_done(&mut self, call: EdgeCall)
        ensures { self.new ≡ after_done call self.old }
    {
        if self.has_room() {
            self.calls.push_reserved((call, Scripted::Done));
        } else {
            self.is_telling = false;
        }
    }
}

// What the script's next answer is to the call. What is Ok is of the call's kind.
fn outcome_of(call: EdgeCall, next: Option<Scripted>) -> Result<Scripted, EdgeFault>
    ensures answer { outcome_answer result ≡ answer_to call next }
    ensures kind { IfOk result (λ answer. is_taken call answer ≡ true) }
{
    match next {
        Some(answer) if call.takes(answer) => Ok(answer),
        Some(Scripted::NoMemory) => Err(EdgeFault::NoMemory),
        _ => Err(EdgeFault::Refused),
    }
}

fn answer_in(outcome: Result<Scripted, EdgeFault>) -> Scripted
    ensures { result ≡ outcome_answer outcome }
{
    match outcome {
        Ok(answer) => answer,
        Err(EdgeFault::Refused) => Scripted::Refused,
        Err(EdgeFault::NoMemory) => Scripted::NoMemory,
    }
}

impl Edge for MemoryEdge {
    ghost use Rattle.child_edge.specs.MemoryEdges.{calls_told};

    ghost told = { calls_told };

    ghost failures = { λ e. e.failures };
}

impl ChildEdge for MemoryEdge {
    fn start(
        &mut self,
        job: JobNo,
        run: u64,
        _def: &Def,
        conn: Option<u64>,
    ) -> Result<u32, EdgeFault>
        ensures answer { start_answer result ≡ answer_of (EdgeCall.Start job run conn) self.old }
        ensures after { self.new ≡ after_call (EdgeCall.Start job run conn) self.old }
    {
        match self.give(EdgeCall::Start { job, run, conn }) {
            Ok(Scripted::Started(pid)) => Ok(pid),
            Ok(_) => unreachable!(),
            Err(fault) => Err(fault),
        }
    }

    fn term(&mut self, job: JobNo, run: u64) -> Result<(), EdgeFault>
        ensures answer { done_answer result ≡ answer_of (EdgeCall.Term job run) self.old }
        ensures after { self.new ≡ after_call (EdgeCall.Term job run) self.old }
    {
        match self.give(EdgeCall::Term { job, run }) {
            Ok(_) => Ok(()),
            Err(fault) => Err(fault),
        }
    }

    fn kill(&mut self, job: JobNo, run: u64) -> Result<(), EdgeFault>
        ensures answer { done_answer result ≡ answer_of (EdgeCall.Kill job run) self.old }
        ensures after { self.new ≡ after_call (EdgeCall.Kill job run) self.old }
    {
        match self.give(EdgeCall::Kill { job, run }) {
            Ok(_) => Ok(()),
            Err(fault) => Err(fault),
        }
    }

    fn poll(&mut self, job: JobNo, run: u64) -> Result<Option<Ended>, EdgeFault>
        ensures answer { poll_answer result ≡ answer_of (EdgeCall.Poll job run) self.old }
        ensures after { self.new ≡ after_call (EdgeCall.Poll job run) self.old }
    {
        match self.give(EdgeCall::Poll { job, run }) {
            Ok(Scripted::Running) => Ok(None),
            Ok(Scripted::Over(ended)) => Ok(Some(ended)),
            Ok(_) => unreachable!(),
            Err(fault) => Err(fault),
        }
    }
}

impl SocketEdge for MemoryEdge {
    fn bind(&mut self, job: JobNo, _def: &Def) -> Result<(), EdgeFault>
        ensures answer { done_answer result ≡ answer_of (EdgeCall.Bind job) self.old }
        ensures after { self.new ≡ after_call (EdgeCall.Bind job) self.old }
    {
        match self.give(EdgeCall::Bind { job }) {
            Ok(_) => Ok(()),
            Err(fault) => Err(fault),
        }
    }

    fn close(&mut self, job: JobNo, conn: u64)
        ensures after { self.new ≡ after_done (EdgeCall.Close job conn) self.old }
    {
        self.note_done(EdgeCall::Close { job, conn });
    }

    fn release(&mut self, job: JobNo)
        ensures after { self.new ≡ after_done (EdgeCall.Release job) self.old }
    {
        self.note_done(EdgeCall::Release { job });
    }
}

impl PathEdge for MemoryEdge {
    // its record of calls has no paths
    ghost Looks = { λ path answer old new. Unit {0} };

    fn look(&mut self, _path: &str) -> Result<Obs, EdgeFault>
        ensures answer { look_answer result ≡ answer_of EdgeCall.Look self.old }
        ensures after { self.new ≡ after_call EdgeCall.Look self.old }
    {
        match self.give(EdgeCall::Look) {
            Ok(Scripted::Seen(seen)) => Ok(seen),
            Ok(_) => unreachable!(),
            Err(fault) => Err(fault),
        }
    }
}

impl ClockEdge for MemoryEdge {
    fn read(&mut self) -> Result<Reading, EdgeFault>
        ensures answer { read_answer result ≡ answer_of EdgeCall.Clock self.old }
        ensures after { self.new ≡ after_call EdgeCall.Clock self.old }
    {
        match self.give(EdgeCall::Clock) {
            Ok(Scripted::At(reading)) => Ok(reading),
            Ok(_) => unreachable!(),
            Err(fault) => Err(fault),
        }
    }
}
