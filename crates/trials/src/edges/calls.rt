//! Calls of an edge, each with the answer that is expected of it.

use child_edge::{ChildEdge, ClockEdge, EdgeCall, EdgeFault, PathEdge, Scripted, SocketEdge};
use job_defs::{Def, read_def};
use std::alloc::Global;

/// A call, and the answer that is expected of it.
pub type Told = (EdgeCall, Scripted);

/// A child whose PID is not known beforehand.
pub const SOME_CHILD: Scripted = Scripted::Started(0);

macro_rules! told {
    ($answer:expr, $($value:pat => $told:expr),+) => {
        match $answer {
            $(Ok($value) => $told,)+
            Err(EdgeFault::NoMemory) => Scripted::NoMemory,
            Err(EdgeFault::Refused) => Scripted::Refused,
        }
    };
}

/// The two definitions that calls are about. They are made in one function, and lent from there on: a function that has one at an early return is
/// expensive to prove.
#[derive(Drop)]
pub struct Jobs {
    first: Def,
    second: Def,
}

/// The definitions of these texts. None if one is not a definition, or without memory.
pub fn jobs_of(alloc: Global, first: &str, second: &str) -> Option<Jobs> {
    match (
        read_def(alloc, first.as_bytes()),
        read_def(alloc, second.as_bytes()),
    ) {
        (Ok(first), Ok(second)) => Some(Jobs { first, second }),
        (first, second) => {
            drop(first);
            drop(second);
            None
        }
    }
}

/// What the edge answers to the call. Run 1 is of the first definition, every other one of the second; sockets are those of the first.
fn answer_to<E: ChildEdge + ClockEdge + PathEdge + SocketEdge>(
    edge: &mut E,
    jobs: &Jobs,
    call: EdgeCall,
) -> Scripted {
    match call {
        EdgeCall::Start { job, run, conn } => {
            let def = if run == 1 { &jobs.first } else { &jobs.second };
            told!(edge.start(job, run, def, conn), pid => Scripted::Started(pid))
        }
        EdgeCall::Term { job, run } => told!(edge.term(job, run), () => Scripted::Done),
        EdgeCall::Kill { job, run } => told!(edge.kill(job, run), () => Scripted::Done),
        EdgeCall::Poll { job, run } => {
            told!(edge.poll(job, run), Some(ended) => Scripted::Over(ended), None => Scripted::Running)
        }
        EdgeCall::Bind { job } => told!(edge.bind(job, &jobs.first), () => Scripted::Done),
        EdgeCall::Close { job, conn } => {
            edge.close(job, conn);
            Scripted::Done
        }
        EdgeCall::Release { job } => {
            edge.release(job);
            Scripted::Done
        }
        EdgeCall::Look => told!(edge.look("/w"), seen => Scripted::Seen(seen)),
        EdgeCall::Clock => told!(edge.read(), reading => Scripted::At(reading)),
    }
}

/// Whether each call is answered as it says.
pub fn are_answered<E: ChildEdge + ClockEdge + PathEdge + SocketEdge>(
    edge: &mut E,
    jobs: &Jobs,
    calls: &[Told],
) -> bool {
    let mut are_so = true;
    for (call, wanted) in calls {
        let answer = answer_to(edge, jobs, *call);
        let is_so = match (answer, *wanted) {
            (Scripted::Started(pid), SOME_CHILD) => pid > 0,
            (answer, wanted) => answer == wanted,
        };
        are_so = are_so && is_so;
    }
    are_so
}
