//! A launcher over an edge, a store and a journal in memory, with ample memory: its turns from the first on. The expected
//! replies, calls and lines are read off the rules of launchctl(1) and launchd.plist(5) and the line protocol, and off no run
//! of this code.

use crate::cases::{Case, Line};
use crate::little_memory::turning::{LIST, LOAD, LOAD_LISTENING};
use crate::memory_stage::{Launched, Left, asked, parts_of};
use child_edge::{EdgeCall, Scripted};
use history_model::{Ended, JobNo, Reading};
use launcher::Input;
use std::alloc::Global;

/// What the launcher gets, the code and the text of its reply, and how many calls were then made in all.
type Told = (Input<'static>, u8, &'static str, usize);

/// What a launcher gets, and what comes of it.
pub struct Turns {
    /// What its store answers if it is given a setting.
    answer: bool,
    /// How many lines its journal takes.
    writes: usize,
    told: &'static [Told],
    /// The calls that are made with their answers, and no other.
    calls: &'static [(EdgeCall, Scripted)],
    /// How often its store gets a setting.
    asked: u64,
    /// The one label that its store then disables.
    disabled: Option<&'static str>,
    /// Whether a job is there in the end.
    has_job: bool,
    /// What the journal then holds, if that is looked at.
    journal: Option<&'static [u8]>,
    /// Whether the journal was closed.
    is_closed: bool,
}

/// A job is started once it is loaded, and is not throttled.
const LOAD_AT_ONCE: Input<'static> = Input::Line(
    b"{\"req\":\"load\",\"def\":\"{\\\"Label\\\":\\\"a\\\",\\\"ProgramArguments\\\":[\\\"/bin/a\\\"],\\\"RunAtLoad\\\":true,\\\"ThrottleInterval\\\":0}\"}",
);

const STOP: Input<'static> = Input::Line(b"{\"req\":\"stop\",\"job\":\"a\"}");

const KILLED: Input<'static> = Input::Ended("a", 1, Ended::Signal(9));

/// The header's line, that of the load of the first job, and that of its start.
const STARTS: &[u8] = b"{\"overrides\":{},\"up\":0,\"wall\":1700000000,\"zone\":\"UTC0\"}\n\
{\"F\":false,\"bind\":true,\"def\":\"{\\\"Label\\\":\\\"a\\\",\\\"ProgramArguments\\\":[\\\"/bin/a\\\"],\\\"RunAtLoad\\\":true}\",\"ev\":\"load\",\"store\":true,\"w\":false}\n\
{\"ev\":\"spawned\",\"job\":\"a\",\"pid\":812,\"run\":1}\n";

/// The same if the start was refused.
const STARTS_NOT: &[u8] = b"{\"overrides\":{},\"up\":0,\"wall\":1700000000,\"zone\":\"UTC0\"}\n\
{\"F\":false,\"bind\":true,\"def\":\"{\\\"Label\\\":\\\"a\\\",\\\"ProgramArguments\\\":[\\\"/bin/a\\\"],\\\"RunAtLoad\\\":true}\",\"ev\":\"load\",\"store\":true,\"w\":false}\n\
{\"ev\":\"spawn_refused\",\"job\":\"a\",\"run\":1}\n";

/// The header's line, and that of the load of the job with a socket, which the store refused.
const NOT_STORED: &[u8] = b"{\"overrides\":{},\"up\":0,\"wall\":1700000000,\"zone\":\"UTC0\"}\n\
{\"F\":false,\"bind\":true,\"def\":\"{\\\"Label\\\":\\\"s\\\",\\\"ProgramArguments\\\":[\\\"/bin/x\\\"],\\\"Sockets\\\":{\\\"l\\\":{\\\"SockPathName\\\":\\\"/s\\\"}},\\\"inetdCompatibility\\\":{\\\"Wait\\\":false}}\",\"ev\":\"load\",\"store\":false,\"w\":true}\n";

/// The number that the first job has.
const FIRST: JobNo = 0;

const STARTED: Scripted = Scripted::Started(812);

const START_1: EdgeCall = EdgeCall::Start {
    job: FIRST,
    run: 1,
    conn: None,
};

const START_2: EdgeCall = EdgeCall::Start {
    job: FIRST,
    run: 2,
    conn: None,
};

const TERM_1: EdgeCall = EdgeCall::Term { job: FIRST, run: 1 };

const TERM_2: EdgeCall = EdgeCall::Term { job: FIRST, run: 2 };

const KILL_1: EdgeCall = EdgeCall::Kill { job: FIRST, run: 1 };

const KILL_2: EdgeCall = EdgeCall::Kill { job: FIRST, run: 2 };

const BIND: EdgeCall = EdgeCall::Bind { job: FIRST };

const RELEASE: EdgeCall = EdgeCall::Release { job: FIRST };

const AT_999: Input<'static> = Input::Clock(Reading {
    up: 999,
    wall: 1_700_000_000,
});

const AT_1_000: Input<'static> = Input::Clock(Reading {
    up: 1_000,
    wall: 1_700_000_000,
});

const AT_20_999: Input<'static> = Input::Clock(Reading {
    up: 20_999,
    wall: 1_700_000_000,
});

const AT_21_000: Input<'static> = Input::Clock(Reading {
    up: 21_000,
    wall: 1_700_000_000,
});

const AT_21_999: Input<'static> = Input::Clock(Reading {
    up: 21_999,
    wall: 1_700_000_000,
});

const AT_22_000: Input<'static> = Input::Clock(Reading {
    up: 22_000,
    wall: 1_700_000_000,
});

const AT_60_000: Input<'static> = Input::Clock(Reading {
    up: 60_000,
    wall: 1_700_000_000,
});

/// A launcher whose store takes each setting and whose journal takes all, and that has a job in the end.
const WITH_A_JOB: Turns = Turns {
    answer: true,
    writes: 1_000,
    told: &[],
    calls: &[],
    asked: 0,
    disabled: None,
    has_job: true,
    journal: None,
    is_closed: false,
};

/// The same with none.
const WITHOUT: Turns = Turns {
    has_job: false,
    ..WITH_A_JOB
};

/// The cases of launchers, turn by turn.
pub fn list() -> &'static [Line] {
    LINES
}

static LINES: &[Line] = &[
    // The journal has the header, the load, and the answer to the start.
    (
        "a_load_and_its_start_are_journaled",
        &[Case::Launched(&Turns {
            told: &[(Input::Line(LOAD), 0, "", 1)],
            calls: &[(START_1, STARTED)],
            journal: Some(STARTS),
            ..WITH_A_JOB
        })],
    ),
    (
        "a_load_and_its_refused_start_are_journaled",
        &[Case::Launched(&Turns {
            told: &[(Input::Line(LOAD), 0, "", 1)],
            calls: &[(START_1, Scripted::Refused)],
            journal: Some(STARTS_NOT),
            ..WITH_A_JOB
        })],
    ),
    // TERM at once, KILL twenty seconds later, and nothing once the child has ended. The list shows how.
    (
        "a_job_that_stays_is_killed",
        &[Case::Launched(&Turns {
            told: &[
                (LOAD_AT_ONCE, 0, "", 1),
                (AT_1_000, 0, "", 1),
                (STOP, 0, "", 2),
                (AT_20_999, 0, "", 2),
                (AT_21_000, 0, "", 3),
                (KILLED, 0, "", 3),
                (Input::Line(LIST), 0, "PID\tStatus\tLabel\n-\t-9\ta\n", 3),
                (AT_60_000, 0, "", 3),
            ],
            calls: &[
                (START_1, STARTED),
                (TERM_1, Scripted::Done),
                (KILL_1, Scripted::Done),
            ],
            ..WITH_A_JOB
        })],
    ),
    // A job is started a second after a refused start at the soonest, also if its throttle is 0. TERM and KILL then go to the
    // second run, the KILL twenty seconds after the stop.
    (
        "a_refused_start_comes_again",
        &[Case::Launched(&Turns {
            told: &[
                (LOAD_AT_ONCE, 0, "", 1),
                (AT_999, 0, "", 1),
                (AT_1_000, 0, "", 2),
                (STOP, 0, "", 3),
                (AT_20_999, 0, "", 3),
                (AT_21_000, 0, "", 4),
            ],
            calls: &[
                (START_1, Scripted::Refused),
                (START_2, STARTED),
                (TERM_2, Scripted::Done),
                (KILL_2, Scripted::Done),
            ],
            ..WITH_A_JOB
        })],
    ),
    // A refused TERM comes again, and the KILL stays due twenty seconds after the stop.
    (
        "a_refused_term_comes_again",
        &[Case::Launched(&Turns {
            told: &[
                (LOAD_AT_ONCE, 0, "", 1),
                (AT_1_000, 0, "", 1),
                (STOP, 0, "", 2),
                (AT_20_999, 0, "", 3),
                (AT_21_000, 0, "", 4),
            ],
            calls: &[
                (START_1, STARTED),
                (TERM_1, Scripted::Refused),
                (TERM_1, Scripted::Done),
                (KILL_1, Scripted::Done),
            ],
            ..WITH_A_JOB
        })],
    ),
    // A refused KILL comes again a second later.
    (
        "a_refused_kill_comes_again",
        &[Case::Launched(&Turns {
            told: &[
                (LOAD_AT_ONCE, 0, "", 1),
                (AT_1_000, 0, "", 1),
                (STOP, 0, "", 2),
                (AT_21_000, 0, "", 3),
                (AT_21_999, 0, "", 3),
                (AT_22_000, 0, "", 4),
            ],
            calls: &[
                (START_1, STARTED),
                (TERM_1, Scripted::Done),
                (KILL_1, Scripted::Refused),
                (KILL_1, Scripted::Done),
            ],
            ..WITH_A_JOB
        })],
    ),
    // If the system refused to wait for the present child, nothing is asked of the outside.
    (
        "a_refused_wait_orders_nothing",
        &[Case::Launched(&Turns {
            told: &[
                (LOAD_AT_ONCE, 0, "", 1),
                (Input::WaitRefused("a", 1), 0, "", 1),
                (Input::WaitRefused("a", 2), 13, "", 1),
            ],
            calls: &[(START_1, STARTED)],
            ..WITH_A_JOB
        })],
    ),
    // The sockets are bound, the store gets one setting and refuses, and they are given up again. The one line says so.
    (
        "a_refused_store_releases_the_sockets",
        &[Case::Launched(&Turns {
            answer: false,
            told: &[(Input::Line(LOAD_LISTENING), 9, "", 2)],
            calls: &[(BIND, Scripted::Done), (RELEASE, Scripted::Done)],
            asked: 1,
            journal: Some(NOT_STORED),
            ..WITHOUT
        })],
    ),
    (
        "a_refused_bind_asks_no_store",
        &[Case::Launched(&Turns {
            told: &[(Input::Line(LOAD_LISTENING), 11, "", 1)],
            calls: &[(BIND, Scripted::Refused)],
            ..WITHOUT
        })],
    ),
    (
        "a_setting_of_no_job_is_stored",
        &[Case::Launched(&Turns {
            writes: 10,
            told: &[(
                Input::Line(b"{\"req\":\"disable\",\"job\":\"z\"}"),
                0,
                "",
                0,
            )],
            asked: 1,
            disabled: Some("z"),
            ..WITHOUT
        })],
    ),
    // Turns go on if the journal's writer refuses, and its closing is logged once.
    (
        "a_refused_line_stops_no_turn",
        &[Case::Launched(&Turns {
            writes: 1,
            told: &[(LOAD_AT_ONCE, 0, "", 1), (STOP, 0, "", 2)],
            calls: &[(START_1, STARTED), (TERM_1, Scripted::Done)],
            is_closed: true,
            ..WITH_A_JOB
        })],
    ),
];

/// Whether each input is answered as it says, and this many calls were then made.
fn are_answered<H: Launched>(alloc: Global, host: &mut H, told: &[Told]) -> bool {
    let mut are_so = true;
    for (input, code, text, made) in told {
        are_so &= asked(alloc, host, *input, text) == (*code, true);
        are_so &= host.calls() == *made;
    }
    are_so
}

/// Whether the launcher answers as expected. It must report once, and not before, that its journal was closed if it was.
fn answers<H: Launched>(alloc: Global, host: &mut H, turns: &Turns) -> bool {
    let was_told = host.has_closed();
    let are_so = are_answered(alloc, host, turns.told);
    let is_told = host.has_closed();
    let is_told_again = host.has_closed();
    are_so && !was_told && is_told == turns.is_closed && !is_told_again
}

/// Whether the calls were made, the store has the one setting, or none, and the journal holds what is looked at.
fn is_left(left: &Left, turns: &Turns) -> bool {
    let is_called = left.edge.calls() == turns.calls && left.has_job == turns.has_job;
    let is_held = match (turns.disabled, left.store.held.as_slice()) {
        (Some(label), [setting]) => setting.label.as_str() == label && setting.disabled,
        (None, []) => true,
        _ => false,
    };
    let is_noted = match (turns.journal, &left.journal) {
        (Some(wanted), Some(sink)) => sink.taken.as_slice() == wanted,
        (Some(_), None) => false,
        (None, _) => true,
    };
    is_called && is_held && left.store.asked == turns.asked && is_noted
}

/// Whether the launcher answers, calls, stores and writes as it is said.
pub fn is_so<H: Launched + Drop>(alloc: Global, turns: &Turns) -> Option<bool> {
    let (header, mut store, edge) = parts_of(alloc, "UTC0", 0, &[], turns.calls)?;
    store.answer = turns.answer;
    let mut launcher = H::open(alloc, (header, store, edge), turns.writes).ok()?;
    let answers = answers(alloc, &mut launcher, turns);
    let left = launcher.into_left();
    let is_left = is_left(&left, turns);
    drop(left);
    Some(answers && is_left)
}
