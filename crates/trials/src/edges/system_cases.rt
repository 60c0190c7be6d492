//! What the edge of the real system answers: the cases.

use crate::cases::Case;
use crate::edges::calls::SOME_CHILD;
use crate::edges::system::{Scene, Step};
use child_edge::{EdgeCall, Scripted};
use history_model::Ended;

const START: EdgeCall = EdgeCall::Start {
    job: 0,
    run: 1,
    conn: None,
};

const START_2: EdgeCall = EdgeCall::Start {
    job: 0,
    run: 2,
    conn: None,
};

const START_2_OF_7: EdgeCall = EdgeCall::Start {
    job: 7,
    run: 2,
    conn: None,
};

const SERVE: EdgeCall = EdgeCall::Start {
    job: 0,
    run: 1,
    conn: Some(1),
};

const POLL: EdgeCall = EdgeCall::Poll { job: 0, run: 1 };

const TERM: EdgeCall = EdgeCall::Term { job: 0, run: 1 };

const KILL: EdgeCall = EdgeCall::Kill { job: 0, run: 1 };

const BIND: EdgeCall = EdgeCall::Bind { job: 0 };

/// Of a child that runs and one that has ended, only the second is over, from its job's number on and no further, until it is polled.
const OVER: &Scene = &Scene {
    name: "over",
    scripts: ["exec sleep 60", "exit 3"],
    steps: &[
        Step::Answers(START, SOME_CHILD),
        Step::Answers(START_2_OF_7, SOME_CHILD),
        Step::IsOver(0, (7, 2)),
        Step::NoneIsOver(8),
        Step::Answers(
            EdgeCall::Poll { job: 7, run: 2 },
            Scripted::Over(Ended::Code(3)),
        ),
        Step::NoneIsOver(0),
        Step::Answers(KILL, Scripted::Done),
        Step::Ends(POLL, Scripted::Over(Ended::Signal(9))),
    ],
};

/// A run whose end was reported has no child: a poll, TERM and KILL are refused, and so is a second start of a run that goes on.
const AGAIN: &Scene = &Scene {
    name: "again",
    scripts: ["exit 7", "exec sleep 60"],
    steps: &[
        Step::Answers(START, SOME_CHILD),
        Step::Ends(POLL, Scripted::Over(Ended::Code(7))),
        Step::Answers(POLL, Scripted::Refused),
        Step::Answers(TERM, Scripted::Refused),
        Step::Answers(KILL, Scripted::Refused),
        Step::Answers(START_2, SOME_CHILD),
        Step::Answers(START_2, Scripted::Refused),
        Step::Answers(EdgeCall::Term { job: 0, run: 2 }, Scripted::Done),
        Step::Ends(
            EdgeCall::Poll { job: 0, run: 2 },
            Scripted::Over(Ended::Signal(15)),
        ),
    ],
};

/// A child that has ended keeps its PID until it is polled: TERM and KILL are done, and the poll reports how it ended.
const ENDED: &Scene = &Scene {
    name: "ended",
    scripts: ["exit 3", ":"],
    steps: &[
        Step::Answers(START, SOME_CHILD),
        Step::IsOver(0, (0, 1)),
        Step::Answers(TERM, Scripted::Done),
        Step::Answers(KILL, Scripted::Done),
        Step::Ends(POLL, Scripted::Over(Ended::Code(3))),
    ],
};

/// Each bind has a number of its own, while its sockets are open.
const BINDS: &Scene = &Scene {
    name: "binds",
    scripts: ["exit 0", ":"],
    steps: &[
        Step::HasSockets(false),
        Step::Answers(BIND, Scripted::Done),
        Step::HasSockets(true),
        Step::Answers(EdgeCall::Release { job: 0 }, Scripted::Done),
        Step::HasSockets(false),
        Step::NobodyCalls,
        Step::Answers(BIND, Scripted::Done),
        Step::HasSockets(true),
    ],
};

/// A second bind of a job's sockets and a second connection of a number are refused, and the first ones stay; its files go with a
/// connection that is closed. A run is started also if its connection was closed.
const TWICE: &Scene = &Scene {
    name: "twice",
    scripts: ["exit 0", ":"],
    steps: &[
        Step::Answers(BIND, Scripted::Done),
        Step::Answers(EdgeCall::Bind { job: 1 }, Scripted::Refused),
        Step::Answers(BIND, Scripted::Refused),
        Step::NobodyCalls,
        Step::CallPort,
        Step::IsTaken(true),
        Step::CallPort,
        Step::IsTaken(false),
        Step::IsSpooled(true),
        Step::Answers(EdgeCall::Close { job: 0, conn: 1 }, Scripted::Done),
        Step::IsSpooled(false),
        Step::Answers(SERVE, SOME_CHILD),
        Step::Ends(POLL, Scripted::Over(Ended::Code(0))),
    ],
};

/// A call of the path, and then one of the port, wakes a registered poll, and nothing before.
const WAKES: &Scene = &Scene {
    name: "wakes",
    scripts: ["exit 0", ":"],
    steps: &[
        Step::Answers(BIND, Scripted::Done),
        Step::Registers,
        Step::IsWoken(false),
        Step::CallPath,
        Step::IsWoken(true),
        Step::CallPort,
        Step::IsWoken(true),
    ],
};

pub const CASES: &[Case] = &[
    Case::System(OVER),
    Case::System(AGAIN),
    Case::System(ENDED),
    Case::System(BINDS),
    Case::System(TWICE),
    Case::System(WAKES),
];
