//! The edge over a system that refuses each call: what it answers, keeps and logs. That it counts each refusal is proved.

use crate::edges::calls::{Jobs, Told, are_answered, jobs_of};
use crate::edges::places::edge_over;
use crate::edges::refusing::{Found, Grants, Refusing, new_refusing};
use child_edge::{EdgeCall, OsEdge, Scripted};
use std::io::ErrorKind;

/// How every call fails, the child that starts if one does, the calls, and what it then logs, if that is looked at.
pub struct Refused {
    kind: ErrorKind,
    child: Option<Found>,
    calls: &'static [Told],
    told: Option<&'static [&'static str]>,
}

/// A child for which no wait is granted.
const LOST: Option<Found> = Some(Found {
    pid: 7,
    refusals: u32::MAX,
});

/// One with a PID that no child has.
const NO_CHILD: Option<Found> = Some(Found {
    pid: 0,
    refusals: u32::MAX,
});

/// Run 1 has no stream of its own; run 2 has one in the cases in which no child starts.
const START: EdgeCall = EdgeCall::Start {
    job: 0,
    run: 1,
    conn: None,
};

const SECOND: EdgeCall = EdgeCall::Start {
    job: 0,
    run: 2,
    conn: None,
};

const TERM: EdgeCall = EdgeCall::Term { job: 0, run: 1 };

const KILL: EdgeCall = EdgeCall::Kill { job: 0, run: 1 };

const POLL: EdgeCall = EdgeCall::Poll { job: 0, run: 1 };

const BIND: EdgeCall = EdgeCall::Bind { job: 0 };

const CLOSE: EdgeCall = EdgeCall::Close { job: 0, conn: 1 };

const RELEASE: EdgeCall = EdgeCall::Release { job: 0 };

/// Each call is answered by its fault; want of memory has one of its own.
pub const NO_MEMORY: &Refused = &Refused {
    kind: ErrorKind::OutOfMemory,
    child: None,
    calls: &[
        (START, Scripted::NoMemory),
        (SECOND, Scripted::NoMemory),
        (BIND, Scripted::NoMemory),
        (EdgeCall::Look, Scripted::NoMemory),
        (EdgeCall::Clock, Scripted::NoMemory),
        (CLOSE, Scripted::Done),
        (RELEASE, Scripted::Done),
    ],
    told: None,
};

pub const NO_RIGHT: &Refused = &Refused {
    kind: ErrorKind::PermissionDenied,
    child: None,
    calls: &[
        (START, Scripted::Refused),
        (SECOND, Scripted::Refused),
        (BIND, Scripted::Refused),
        (EdgeCall::Look, Scripted::Refused),
        (EdgeCall::Clock, Scripted::Refused),
        (CLOSE, Scripted::Done),
        (RELEASE, Scripted::Done),
    ],
    told: None,
};

/// A child that can't be waited for is kept and reported; another is started next to it.
pub const A_LOST_CHILD: &Refused = &Refused {
    kind: ErrorKind::PermissionDenied,
    child: LOST,
    calls: &[
        (START, Scripted::Started(7)),
        (POLL, Scripted::Refused),
        (TERM, Scripted::Refused),
        (KILL, Scripted::Refused),
        (START, Scripted::Refused),
        (SECOND, Scripted::Started(7)),
    ],
    told: Some(&[
        "no helper process can be started from /proc/self/exe: a path that hangs stops the launcher",
        "a: run 1: cannot wait for its end: permission denied",
        "a: run 1: cannot TERM: it can't be waited for, so its PID may be another process's",
        "a: run 1: cannot KILL: permission denied",
        "a: run 1: cannot start /bin/x: entity already exists",
    ]),
};

/// A PID of 0 is not a child.
pub const CHILD_0: &Refused = &Refused {
    kind: ErrorKind::PermissionDenied,
    child: NO_CHILD,
    calls: &[(START, Scripted::Refused), (POLL, Scripted::Refused)],
    told: None,
};

const PLAIN: &str =
    "{\"Label\":\"a\",\"Program\":\"/bin/x\",\"inetdCompatibility\":{\"Wait\":false},\"Sockets\":{\"s\":{\"SockServiceName\":7}}}";

const FILED: &str =
    "{\"Label\":\"a\",\"Program\":\"/bin/x\",\"StandardInPath\":\"/in\",\"inetdCompatibility\":{\"Wait\":false},\"Sockets\":{\"s\":{\"SockServiceName\":7}}}";

/// Whether these lines wait to be printed, and no others.
fn are_told(edge: &mut OsEdge<Refusing>, lines: &[&str]) -> bool {
    let mut are_so = true;
    for line in lines {
        are_so &= match edge.next_notice() {
            Some(told) => told.text.as_str() == *line,
            None => false,
        };
    }
    let is_all = edge.next_notice().is_none();
    are_so && is_all
}

/// Whether the calls are answered and logged as it says.
fn goes(edge: &mut OsEdge<Refusing>, jobs: &Jobs, refused: &Refused) -> bool {
    let are_answered = are_answered(edge, jobs, refused.calls);
    let are_told = match refused.told {
        Some(lines) => are_told(edge, lines),
        None => true,
    };
    are_answered && are_told
}

/// Whether the edge answers, keeps and logs each refusal of the system.
pub fn is_so(rt: &HostRuntime, refused: &Refused) -> Option<bool> {
    let system = new_refusing(rt, refused.kind, refused.child, Grants::Nothing)?;
    let mut edge = edge_over(system, "/none")?;
    let second = if refused.child.is_none() {
        FILED
    } else {
        PLAIN
    };
    let is_so = match jobs_of(rt.alloc(), PLAIN, second) {
        Some(jobs) => {
            let is_so = goes(&mut edge, &jobs, refused);
            drop(jobs);
            is_so
        }
        None => false,
    };
    drop(edge);
    Some(is_so)
}
