//! A launcher that is made where memory is short, and its turns.

use crate::little_memory::memory_hog::MemoryHog;
use crate::little_memory::trial::{Answer, Trial, tried};
use crate::memory_stage::{LINES, Launched, Parts, asked, parts_of};
use anyhow::Result;
use child_edge::{EdgeCall, Scripted};
use history_model::{JobNo, Reading};
use launcher::{HostFault, Input};
use std::alloc::Global;
use std::mem;

/// A turn that takes memory, and what a second request shows of it.
struct Turn {
    /// The definition that is loaded first.
    before: &'static [u8],
    /// The answers of the outside, in order.
    answers: &'static [(EdgeCall, Scripted)],
    input: Input<'static>,
    text: &'static str,
    /// The request that shows what there is: first as it was before the turn, then as it is after it.
    probe: &'static [u8],
    was: &'static str,
    is: &'static str,
    /// How many calls to the outside a turn makes whose store refuses.
    undone: usize,
}

/// A job that is started once it is loaded.
pub const LOAD: &[u8] =
    b"{\"req\":\"load\",\"def\":\"{\\\"Label\\\":\\\"a\\\",\\\"ProgramArguments\\\":[\\\"/bin/a\\\"],\\\"RunAtLoad\\\":true}\"}";

/// A job that is started at each full quarter of an hour.
const LOAD_CALENDAR: &[u8] =
    b"{\"req\":\"load\",\"def\":\"{\\\"Label\\\":\\\"a\\\",\\\"ProgramArguments\\\":[\\\"/bin/a\\\"],\\\"StartCalendarInterval\\\":[{\\\"Minute\\\":0},{\\\"Minute\\\":15},{\\\"Minute\\\":30},{\\\"Minute\\\":45}]}\"}";

/// A job with a socket, whose label is also enabled.
pub const LOAD_LISTENING: &[u8] =
    b"{\"req\":\"load\",\"w\":true,\"def\":\"{\\\"Label\\\":\\\"s\\\",\\\"ProgramArguments\\\":[\\\"/bin/x\\\"],\\\"Sockets\\\":{\\\"l\\\":{\\\"SockPathName\\\":\\\"/s\\\"}},\\\"inetdCompatibility\\\":{\\\"Wait\\\":false}}\"}";

pub const LIST: &[u8] = b"{\"req\":\"list\"}";

const PRINT: &[u8] = b"{\"req\":\"print\",\"job\":\"a\"}";

const FIRST: JobNo = 0;

const STARTED: (EdgeCall, Scripted) = (
    EdgeCall::Start {
        job: FIRST,
        run: 1,
        conn: None,
    },
    Scripted::Started(812),
);

const DONE: (EdgeCall, Scripted) = (EdgeCall::Release { job: 1 }, Scripted::Done);

const RUNNING: &str = "PID\tStatus\tLabel\n812\t0\ta\n";

const PRINTED: &str =
    "a = {\n\tstate = running\n\tpid = 812\n\truns = 1\n\tlast exit = never\n\tdemand = no\n\tconnections = 0\n\tdisabled = false\n}\n";

const DISABLED: &str =
    "a = {\n\tstate = running\n\tpid = 812\n\truns = 1\n\tlast exit = never\n\tdemand = no\n\tconnections = 0\n\tdisabled = true\n}\n";

/// 22:15 and one second, in UTC; the launcher begins at 22:13:20.
const LATER: Reading = Reading {
    up: 101_000,
    wall: 1_700_000_101,
};

/// The making of a launcher, and turns, by their names.
static CALLS: &[(&str, Option<&Turn>)] = &[
    ("Host::new", None),
    (
        "turn: list",
        Some(&Turn {
            before: LOAD,
            answers: &[STARTED],
            input: Input::Line(LIST),
            text: RUNNING,
            probe: LIST,
            was: RUNNING,
            is: RUNNING,
            undone: 0,
        }),
    ),
    (
        "turn: print",
        Some(&Turn {
            before: LOAD,
            answers: &[STARTED],
            input: Input::Line(PRINT),
            text: PRINTED,
            probe: PRINT,
            was: PRINTED,
            is: PRINTED,
            undone: 0,
        }),
    ),
    (
        "turn: load -w, with a socket",
        Some(&Turn {
            before: LOAD,
            answers: &[STARTED, DONE, DONE, DONE],
            input: Input::Line(LOAD_LISTENING),
            text: "",
            probe: LIST,
            was: RUNNING,
            is: "PID\tStatus\tLabel\n812\t0\ta\n-\t0\ts\n",
            undone: 2,
        }),
    ),
    (
        "turn: disable",
        Some(&Turn {
            before: LOAD,
            answers: &[STARTED],
            input: Input::Line(b"{\"req\":\"disable\",\"job\":\"a\"}"),
            text: "",
            probe: PRINT,
            was: PRINTED,
            is: DISABLED,
            undone: 0,
        }),
    ),
    (
        "turn: a clock reading that crosses minutes",
        Some(&Turn {
            before: LOAD_CALENDAR,
            answers: &[STARTED],
            input: Input::Clock(LATER),
            text: "",
            probe: LIST,
            was: "PID\tStatus\tLabel\n-\t0\ta\n",
            is: RUNNING,
            undone: 0,
        }),
    ),
];

/// The making of a launcher over a store that has one setting, or a turn on one whose job runs. A making that is refused keeps nothing, so all is
/// made again for each call.
#[derive(Drop)]
struct Turning<H> {
    turn: Option<&'static Turn>,
    parts: Option<Parts>,
    host: Option<H>,
    /// How many calls to the outside it made before the turn.
    calls: usize,
    /// The code that the turn was answered.
    code: u8,
}

/// The turn's code, and what it answers: want of memory also if it was made and the journal was closed, or if the store refused.
fn taken<H: Launched>(alloc: Global, host: &mut H, turn: &Turn) -> (u8, Answer) {
    let (code, is_text) = asked(alloc, host, turn.input, turn.text);
    let has_closed = host.has_closed();
    let answer = match code {
        0 if !is_text => Answer::Other,
        0 if !has_closed => Answer::Made,
        0 | 1 | 9 => Answer::NoMemory,
        _ => Answer::Other,
    };
    (code, answer)
}

/// Whether a refused turn left all as it was, but for `calls` calls, and is made with memory.
fn is_undone<H: Launched>(alloc: Global, host: &mut H, turn: &Turn, calls: usize) -> bool {
    let is_uncalled = host.calls() == calls;
    let was_so = asked(alloc, host, Input::Line(turn.probe), turn.was) == (0, true);
    let is_made = taken(alloc, host, turn).1 == Answer::Made;
    let is_so = asked(alloc, host, Input::Line(turn.probe), turn.is) == (0, true);
    is_uncalled && was_so && is_made && is_so
}

/// A launcher that has the turn's first job, if it took that.
fn ready<H: Launched + Drop>(alloc: Global, turn: &Turn) -> Option<H> {
    let parts = parts_of(alloc, "UTC0", 0, &[], turn.answers)?;
    let mut host = H::open(alloc, parts, LINES).ok()?;
    if asked(alloc, &mut host, Input::Line(turn.before), "") == (0, true) {
        Some(host)
    } else {
        drop(host);
        None
    }
}

impl<H: Launched + Drop> Turning<H> {
    /// Makes the launcher of the parts.
    fn open(&mut self, alloc: Global) -> Answer {
        let Some(parts) = self.parts.take() else {
            return Answer::Other;
        };
        match H::open(alloc, parts, LINES) {
            Ok(host) => {
                drop(mem::replace(&mut self.host, Some(host)));
                Answer::Made
            }
            Err(HostFault::NoMemory) => Answer::NoMemory,
            Err(_) => Answer::Other,
        }
    }
}

impl<H: Launched + Drop> Trial for Turning<H> {
    fn prepare(&mut self, alloc: Global) -> bool {
        let Some(turn) = self.turn else {
            drop(mem::replace(&mut self.host, None));
            let parts = parts_of(alloc, "UTC0", 0, &["a"], &[]);
            drop(mem::replace(&mut self.parts, parts));
            return self.parts.is_some();
        };
        drop(mem::replace(&mut self.host, ready(alloc, turn)));
        match self.host.as_mut() {
            Some(host) => {
                self.calls = host.calls();
                true
            }
            None => false,
        }
    }

    fn call(&mut self, alloc: Global) -> Answer {
        match (self.turn, self.host.as_mut()) {
            (Some(turn), Some(host)) => {
                let (code, answer) = taken(alloc, host, turn);
                self.code = code;
                answer
            }
            (Some(_), None) => Answer::Other,
            (None, _) => self.open(alloc),
        }
    }

    /// A launcher that was made refuses the disabled label. One that was refused is made with memory.
    fn is_right(&mut self, alloc: Global, answer: Answer) -> bool {
        if self.turn.is_none() && answer == Answer::NoMemory {
            let is_prepared = self.prepare(alloc);
            return self.open(alloc) == Answer::Made && is_prepared;
        }
        match (self.turn, self.host.as_mut(), self.code) {
            (Some(turn), Some(host), 1) => is_undone(alloc, host, turn, self.calls),
            (Some(turn), Some(host), 9) => {
                let calls = self.calls.saturating_add(turn.undone);
                is_undone(alloc, host, turn, calls)
            }
            (Some(turn), Some(host), _) => {
                asked(alloc, host, Input::Line(turn.probe), turn.is) == (0, true)
            }
            (None, Some(host), _) => asked(alloc, host, Input::Line(LOAD), "").0 == 5,
            (_, None, _) => false,
        }
    }
}

/// Tries the making of a launcher, and then each turn.
pub fn try_all<H: Launched + Drop>(rt: &HostRuntime, memory_hog: &mut MemoryHog) -> Result<()> {
    for (name, turn) in CALLS {
        let trial: Turning<H> = Turning {
            turn: *turn,
            parts: None,
            host: None,
            calls: 0,
            code: 0,
        };
        tried(rt, memory_hog, name, trial)?;
    }
    Ok(())
}
