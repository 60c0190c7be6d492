//! The helper that reports exits, `jobd-wake`: it gets the PID of each child, waits for the exits of all, and reports each.
//! The launcher asks it in each pass of the loop which have exited. What it reports can only make the launcher ask the
//! system earlier: whether a child exited is what the system then answers. Where it gives no answer in time, the launcher
//! asks about each child, and goes on with the helper once the answer comes. If too many answers of a second are late, it
//! asks the helper again only after that second. After a second without an answer the launcher ends the helper, and starts
//! another ten seconds later.

ghost use Rattle.std.specs.Prelude.{◌≡◌, true, false};

use crate::children::Children;
use crate::clock;
use crate::wake_file::{NAME, WakeFile};
use crate::waking::{AnswerLine, Received, asks_all, is_sweep_due};
use mio::unix::SourceFd;
use mio::{Interest, Registry, Token};
use std::alloc::{AllocError, Global};
use std::io::{ErrorKind, Read, Write};
use std::net::Net;
use std::os::fd::{AsRawFd, OwnedFd};
use std::os::unix::net::UnixStream;
use std::os::unix::process::CommandExt;
use std::process::{Child, Command, OpenProcess, Processes, Stdio};
use std::rt::Clock;
use std::time::{Duration, Instant};
use std::{io, mem};

/// Under this token a report wakes the poll of the loop. No client and no socket has it.
const REPORT: Token = Token(usize::MAX);

/// How many milliseconds the launcher waits for an answer.
const PATIENCE: u64 = 2;

/// How many milliseconds an answer may take that the launcher does not wait for: the first one of a helper that was
/// started, and one that was late.
const OVERDUE: u64 = 1_000;

/// How many answers may be late within `LATE_IN` milliseconds. After one more the launcher asks the helper again only once
/// they are over.
const LATE: u32 = 8;

const LATE_IN: u64 = 1_000;

/// After how many milliseconds a helper is started again.
const PEACE: u64 = 10_000;

/// How many reads an answer may take, and how many bytes each takes at most: more than a helper has to report.
const READS: usize = 64;

const ROOM: usize = 4_096;

/// How many reports that say nothing new a helper may give between two passes that ask about all children. One that gives
/// more is given up: it would keep the loop awake.
const STRAYS: u32 = 1_024;

/// Whether the helper owes an answer.
#[derive(Clone, Copy, PartialEq, Eq)]
enum Turn {
    /// It owes none. Each pass asks it, and waits for the answer.
    Ready,
    /// It owes one, for which the launcher does not wait: since this `up` it was started, or is late.
    Owing { since: u64 },
    /// It owes none. Too many were late, so the launcher does not ask it for a while.
    Resting,
}

/// A helper, the launcher's end of its socket, and whether that is registered with the loop's poll.
#[derive(Drop)]
struct Helper<P: OpenProcess + Drop> {
    child: Child<P>,
    socket: UnixStream,
    is_known: bool,
    turn: Turn,
}

/// What became of a question.
#[derive(Clone, Copy, PartialEq, Eq)]
enum QuestionState {
    /// All that had exited were reported.
    Answered,
    /// The launcher does not wait for the answer: the helper was just started, or this answer is late.
    Awaited,
    /// No answer came, or what came is none. The helper is of no use.
    Silent,
}

#[derive(Drop)]
pub(crate) struct Waker<P: OpenProcess + Drop> {
    alloc: Global,
    program: Option<WakeFile>,
    helper: Option<Helper<P>>,
    // It was given up and killed, and not yet waited for. There is no other meanwhile.
    given_up: Option<Child<P>>,
    // The `up` from which on one may be started.
    again: u64,
    line: AnswerLine,
    strays: u32,
    // How many answers were late since the `up` of the first of them.
    lates: u32,
    late_since: u64,
    // The `up` at which the last pass began that asks about all, and whether this is one.
    swept: u64,
    is_sweep: bool,
    // Whether this pass asks about each child.
    pub(crate) asks_all: bool,
}

impl<P: OpenProcess + Drop> Waker<P> {
    /// There is none, and each pass of the loop asks about each child.
    pub(crate) fn new(alloc: Global) -> Waker<P>
        ensures { result.asks_all ≡ true }
    {
        Waker {
            alloc,
            program: None,
            helper: None,
            given_up: None,
            again: 0,
            line: AnswerLine::new(),
            strays: 0,
            lates: 0,
            late_since: 0,
            swept: 0,
            is_sweep: true,
            asks_all: true,
        }
    }

    /// From now on helpers are started by this program.
    pub(crate) fn set_program(&mut self, program: WakeFile) {
        drop(mem::replace(&mut self.program, Some(program)));
    }

    /// A pass of the loop begins, or a pass over all children. It asks the helper which children have exited. If all were
    /// asked ten seconds ago, or if the helper gives no answer, this pass asks about each.
    pub(crate) fn begin_round<R: Clock>(
        &mut self,
        rt: &R,
        made: Instant,
        children: &mut Children<P>,
        is_pass: bool,
    ) {
        if self.helper.is_none() || children.is_empty() {
            self.asks_all = true;
            return;
        }
        let up = clock::up(rt, made);
        if is_pass {
            self.is_sweep = is_sweep_due(up, self.swept);
        }
        if is_pass && self.is_sweep {
            self.swept = up;
            self.strays = 0;
        }
        let asked = self.ask(rt, made, up, children);
        self.asks_all = asks_all(self.is_sweep, asked == QuestionState::Answered);
        if asked == QuestionState::Silent {
            self.give_up(up, children);
        }
    }

    // Asks the helper, if it owes no answer. One that it owed is to an earlier question: by it the helper is known to be
    // ready.
    fn ask<R: Clock>(
        &mut self,
        rt: &R,
        made: Instant,
        up: u64,
        children: &mut Children<P>,
    ) -> QuestionState {
        let may_wait = self.may_wait(up);
        let Some(turn) = self.next_turn(may_wait) else {
            return QuestionState::Silent;
        };
        match (turn, self.answer(rt, made, up, children)) {
            (Turn::Ready, Some(true)) => QuestionState::Answered,
            (Turn::Owing { .. }, Some(true)) if self.has_answered(may_wait) => {
                QuestionState::Awaited
            }
            (Turn::Ready, None) if self.may_be_late(up) => QuestionState::Awaited,
            (Turn::Owing { since }, None) if up.saturating_sub(since) < OVERDUE => {
                QuestionState::Awaited
            }
            (Turn::Resting, None) => QuestionState::Awaited,
            _ => QuestionState::Silent,
        }
    }

    // Whether the launcher may wait for answers: not too many were late within the last second.
    fn may_wait(&self, up: u64) -> bool {
        self.lates <= LATE || up.saturating_sub(self.late_since) >= LATE_IN
    }

    // Whose turn it is, once the helper was asked, if it owed no answer. None: there is no helper, or it takes no question.
    fn next_turn(&mut self, may_wait: bool) -> Option<Turn> {
        let Some(helper) = &mut self.helper else {
            return None;
        };
        if helper.turn == Turn::Resting && may_wait && !is_made_ready(helper) {
            return None;
        }
        if helper.turn == Turn::Ready && !is_sent(&mut helper.socket, b"\n".as_slice()) {
            return None;
        }
        Some(helper.turn)
    }

    // A late answer came. From now on the launcher waits for each, 2 milliseconds at most; if too many were late, it lets
    // the helper rest first.
    fn has_answered(&mut self, may_wait: bool) -> bool {
        match &mut self.helper {
            Some(helper) if may_wait => is_made_ready(helper),
            Some(helper) => {
                helper.turn = Turn::Resting;
                true
            }
            None => false,
        }
    }

    // An answer is late. The launcher does not wait for it any more.
    fn may_be_late(&mut self, up: u64) -> bool {
        if up.saturating_sub(self.late_since) >= LATE_IN {
            self.late_since = up;
            self.lates = 0;
        }
        self.lates = self.lates.saturating_add(1);
        match &mut self.helper {
            Some(helper) => {
                helper.turn = Turn::Owing { since: up };
                helper.socket.set_nonblocking(true).is_ok()
            }
            None => false,
        }
    }

    // Whether what comes is an answer. None: it did not come in time.
    fn answer<R: Clock>(
        &mut self,
        rt: &R,
        made: Instant,
        up: u64,
        children: &mut Children<P>,
    ) -> Option<bool> {
        let Some(helper) = &mut self.helper else {
            return None;
        };
        for _ in 0..READS {
            let mut room = [0u8; ROOM];
            let count = match helper.socket.read(&mut room) {
                Ok(count) => count,
                Err(error) if error.kind() == ErrorKind::WouldBlock => return None,
                Err(_) => return Some(false),
            };
            let strays = &mut self.strays;
            let answer = receive(&mut self.line, &room[..count], strays, children);
            if answer.is_some() {
                return answer;
            }
            if clock::up(rt, made).saturating_sub(up) >= PATIENCE {
                return None;
            }
        }
        None
    }

    /// Names to the helper the children that it does not know. If there is none, it is started first: not before ten
    /// seconds have passed since the last one was given up. An `Err` is the system's reason why none was started.
    pub(crate) fn tell<R: Clock + Net + Processes<Started = P>>(
        &mut self,
        rt: &R,
        made: Instant,
        children: &mut Children<P>,
    ) -> io::Result<()> {
        if !children.has_unsent {
            return Ok(());
        }
        let begun = self.begin(rt, made);
        let Some(helper) = &mut self.helper else {
            return begun;
        };
        let Ok(lines) = children.unsent_lines(self.alloc) else {
            return Ok(());
        };
        let is_told = is_sent(&mut helper.socket, lines.as_bytes());
        drop(lines);
        if is_told {
            children.all_sent();
        } else {
            self.give_up(clock::up(rt, made), children);
        }
        Ok(())
    }

    // Starts a helper, if there is none, there may be one, and it is time.
    fn begin<R: Clock + Net + Processes<Started = P>>(
        &mut self,
        rt: &R,
        made: Instant,
    ) -> io::Result<()> {
        let Some(program) = &self.program else {
            return Ok(());
        };
        if self.helper.is_some() {
            return Ok(());
        }
        let up = clock::up(rt, made);
        if up < self.again || !is_gone(&mut self.given_up) {
            return Ok(());
        }
        self.again = up.saturating_add(PEACE);
        self.line = AnswerLine::new();
        self.strays = 0;
        self.lates = 0;
        match start(rt, self.alloc, program.path(), up) {
            Ok(helper) => {
                drop(mem::replace(&mut self.helper, Some(helper)));
                Ok(())
            }
            Err(error) => Err(error),
        }
    }

    /// Has reports wake this poll. Where the poll refuses, it is asked again in the next pass.
    pub(crate) fn register(&mut self, registry: &Registry) {
        let Some(helper) = &mut self.helper else {
            return;
        };
        if helper.is_known {
            return;
        }
        let number = helper.socket.as_raw_fd();
        let mut source = SourceFd(&number);
        helper.is_known = registry
            .register(&mut source, REPORT, Interest::READABLE)
            .is_ok();
    }

    /// Whether a report comes of itself: a helper owes no answer, and its reports wake the poll.
    pub(crate) fn reports(&self) -> bool {
        match &self.helper {
            Some(helper) => helper.is_known && helper.turn == Turn::Ready,
            None => false,
        }
    }

    // Ends the helper, also one that was stopped. The launcher sends the next one all children.
    fn give_up(&mut self, up: u64, children: &mut Children<P>) {
        self.end();
        self.again = up.saturating_add(PEACE);
        children.none_sent();
    }

    /// Ends the helper, if there is one, and does not wait for that.
    pub(crate) fn end(&mut self) {
        if let Some(helper) = self.helper.take() {
            let Helper {
                mut child,
                socket,
                ..
            } = helper;
            let _ = child.kill();
            drop(socket);
            drop(mem::replace(&mut self.given_up, Some(child)));
        }
    }
}

// Takes in what came: true if the answer did, false if no helper writes it or nothing came, none if more is to come.
fn receive<P: OpenProcess + Drop>(
    line: &mut AnswerLine,
    bytes: &[u8],
    strays: &mut u32,
    children: &mut Children<P>,
) -> Option<bool> {
    let mut answer = if bytes.is_empty() { Some(false) } else { None };
    for byte in bytes {
        let is_right = match line.take(*byte) {
            Received::Part => true,
            Received::Exit { job, pid } => is_news(children, strays, job, pid),
            Received::Answer => answer.replace(true).is_none(),
            Received::Wrong => false,
        };
        if !is_right {
            return Some(false);
        }
    }
    answer
}

// Whether a report is news, or not yet one of too many that are none.
fn is_news<P: OpenProcess + Drop>(
    children: &mut Children<P>,
    strays: &mut u32,
    job: u32,
    pid: u32,
) -> bool {
    if !children.reported(job, pid) {
        *strays = strays.saturating_add(1);
    }
    *strays <= STRAYS
}

// From now on the launcher waits for each answer, 2 milliseconds at most.
fn is_made_ready<P: OpenProcess + Drop>(helper: &mut Helper<P>) -> bool {
    helper.turn = Turn::Ready;
    helper.socket.set_nonblocking(false).is_ok()
}

// Whether all of it was taken in time.
fn is_sent(socket: &mut UnixStream, bytes: &[u8]) -> bool {
    match socket.write(bytes) {
        Ok(count) => count == bytes.len(),
        Err(_) => false,
    }
}

// Whether no helper is left that was given up. It does not wait for that.
fn is_gone<P: OpenProcess + Drop>(given_up: &mut Option<Child<P>>) -> bool {
    let is_gone = match given_up {
        Some(child) => !matches!(child.try_wait(), Ok(None)),
        None => true,
    };
    if is_gone {
        drop(given_up.take());
    }
    is_gone
}

// A helper with nothing of the launcher but its own end of a socket. No other child gets the launcher's end.
fn start<R: Net + Processes>(
    rt: &R,
    alloc: Global,
    path: &str,
    since: u64,
) -> io::Result<Helper<R::Started>> {
    let (mut socket, far) = match UnixStream::pair(rt) {
        Ok(pair) => pair,
        Err(error) => return Err(error),
    };
    let patience = Some(Duration::from_millis(PATIENCE));
    let reads = socket.set_read_timeout(patience);
    let writes = socket.set_write_timeout(patience);
    let answer = match reads.and(writes).and(socket.set_nonblocking(true)) {
        Ok(()) if is_sent(&mut socket, b"\n".as_slice()) => start_at(rt, alloc, path, far),
        Ok(()) => {
            drop(far);
            Err(io::Error::from(ErrorKind::BrokenPipe))
        }
        Err(error) => {
            drop(far);
            Err(error)
        }
    };
    match answer {
        Ok(child) => Ok(Helper {
            child,
            socket,
            is_known: false,
            turn: Turn::Owing { since },
        }),
        Err(error) => {
            drop(socket);
            Err(error)
        }
    }
}

// The far end is its input.
fn start_at<R: Processes>(
    rt: &R,
    alloc: Global,
    path: &str,
    far: UnixStream,
) -> io::Result<Child<R::Started>> {
    let input = Stdio::from(OwnedFd::from(far));
    match command_of(alloc, path, input) {
        Ok(command) => {
            let mut command = command;
            let child = command.spawn(rt);
            drop(command);
            child
        }
        Err(error) => Err(io::Error::from(error)),
    }
}

fn command_of(alloc: Global, path: &str, input: Stdio) -> Result<Command, AllocError> {
    let mut command = Command::new(alloc, path)?;
    command.env_clear();
    command.stdin(input);
    command.stdout(Stdio::null());
    command.stderr(Stdio::null());
    let is_named = command.arg0(NAME).is_ok();
    let is_placed = command.current_dir("/").is_ok();
    if is_named && is_placed {
        Ok(command)
    } else {
        drop(command);
        Err(AllocError)
    }
}
