//! The notices of the edge: what the system refused and, if it is asked for, what became of each run.

ghost use Rattle.std.specs.Prelude.{◌≡◌};

use crate::children::{Kept, RunKey};
use crate::failure::Failure;
use crate::start::Start;
use crate::words::Hole::{Error, Number, Text as Words};
use crate::words::{Hole, filled, refusal};
use history_model::{Ended, JobNo, Obs, Text};
use std::alloc::Global;
use std::collections::{BTreeMap, VecDeque};
use std::rt::Clock;
use std::time::Duration;
use std::{io, mem};

/// What a notice is about.
#[derive(Clone, Copy)]
pub enum NoticeKind {
    /// The system refused something, or a client was disconnected.
    Refusal,
    /// A run started or exited, or was given a signal; or something is as it may well be.
    Run,
}

/// One line to be logged. The text has no name of the program before it, and neither a newline nor another control
/// character.
#[derive(Drop)]
pub struct Notice {
    pub kind: NoticeKind,
    pub text: Text,
}

/// How many notices wait to be logged; of further ones their number alone is kept.
const ROOM: usize = 64;

/// Of how many paths the reasons are remembered; of further ones none is logged.
const PATHS: usize = 1024;

/// What was asked of the system for a job. Of each the reason is logged when it is another than the last.
#[derive(Clone, Copy)]
pub(crate) enum SystemRequest {
    Start,
    Term,
    Kill,
    Wait,
    Bind,
    Watch,
    Accept,
    Spool,
    Over,
    Room,
    NoRoom,
    Share,
    Client,
}

/// Why a client of a job's socket was disconnected.
#[derive(Clone, Copy)]
pub(crate) enum Disconnection {
    /// It took nothing of its reply for a minute.
    Still,
    /// It could not be sent its reply.
    Write(io::Error),
    /// Its reply could not be read.
    Read(io::Error),
    /// The job has this many connections whose run is over, and of these it took nothing for longest.
    Job(usize),
    /// All jobs have this many connections, and of these it took nothing for longest.
    Room(usize),
    /// All jobs have this many connections, each of which has its run still before it.
    NoRoom(usize),
    /// 64 of the job's connections wait or are served, or no fewer than those of all jobs leave room for.
    Share,
}

impl Disconnection {
    // Whose last reason it is, and what is logged.
    fn said(self) -> (SystemRequest, &'static str, Hole<'static>) {
        match self {
            Disconnection::Still => (
                SystemRequest::Client,
                "a client was disconnected: it took nothing of its reply for a minute",
                Number(0),
            ),
            Disconnection::Write(error) => (
                SystemRequest::Client,
                "a client was disconnected: $",
                Error(error),
            ),
            Disconnection::Read(error) => (
                SystemRequest::Client,
                "a client was disconnected: cannot read its reply: $",
                Error(error),
            ),
            Disconnection::Job(count) => (
                SystemRequest::Over,
                "a client was disconnected: it takes nothing, like $ others of the job",
                Number(count as u64),
            ),
            Disconnection::Room(count) => (
                SystemRequest::Room,
                "a client was disconnected: it takes nothing, and $ connections are open",
                Number(count as u64),
            ),
            Disconnection::NoRoom(count) => (
                SystemRequest::NoRoom,
                "a client was disconnected: $ connections are open",
                Number(count as u64),
            ),
            Disconnection::Share => (
                SystemRequest::Share,
                "a client was disconnected: the job has its share of the connections",
                Number(0),
            ),
        }
    }
}

/// What a job's runs ask for. When a job is loaded again, none of it counts as logged.
const OF_RUNS: [SystemRequest; 4] = [
    SystemRequest::Start,
    SystemRequest::Term,
    SystemRequest::Kill,
    SystemRequest::Wait,
];

/// What the bounds on connections ask for: these are logged again once the job holds none.
pub(crate) const OF_ROOM: [SystemRequest; 4] = [
    SystemRequest::Over,
    SystemRequest::Room,
    SystemRequest::NoRoom,
    SystemRequest::Share,
];

/// How many requests must be answered well before a refusal for want of memory is logged again.
const WELL: u32 = 1_000;

/// A job, and the number of what was asked of the system for it.
type Call = (JobNo, u8);

/// The notices that wait, and the reason that was logged last for each call of a job and for each path.
#[derive(Drop)]
pub(crate) struct Notices {
    alloc: Global,
    /// What becomes of runs is logged too.
    pub(crate) tells_runs: bool,
    waiting: VecDeque<Notice>,
    dropped: u64,
    told: BTreeMap<Call, String>,
    paths: BTreeMap<String, String>,
    /// Why the last start was refused; none if it went well, or if there was no memory for the reason.
    pub(crate) start_refusal: Option<String>,
    /// Why the sockets of the last load were not bound; none if they were, or if there was no memory for the reason.
    pub(crate) bind_refusal: Option<String>,
    // A refusal for want of memory has to be logged; and how many requests were answered well since the last one.
    is_short: bool,
    well: u32,
}

impl Notices {
    pub(crate) fn new(alloc: Global) -> Notices {
        Notices {
            alloc,
            tells_runs: false,
            waiting: VecDeque::new(alloc),
            dropped: 0,
            told: BTreeMap::new(alloc),
            paths: BTreeMap::new(alloc),
            start_refusal: None,
            bind_refusal: None,
            is_short: false,
            well: WELL,
        }
    }

    /// The oldest notice, taken out. Once those that had room are logged, one says how many had none.
    pub(crate) fn next(&mut self) -> Option<Notice> {
        if let Some(notice) = self.waiting.pop_front() {
            return Some(notice);
        }
        if self.is_short {
            return self.short();
        }
        if self.dropped == 0 {
            return None;
        }
        let dropped = self.dropped;
        self.dropped = 0;
        let text = filled(self.alloc, "$ more lines were dropped", &[Number(dropped)])?;
        Some(Notice {
            kind: NoticeKind::Refusal,
            text: Text::new(text),
        })
    }

    // Without memory for the line itself it is logged later.
    fn short(&mut self) -> Option<Notice> {
        let text = filled(self.alloc, "a request was refused: no memory", &[])?;
        self.is_short = false;
        Some(Notice {
            kind: NoticeKind::Refusal,
            text: Text::new(text),
        })
    }

    /// A request was answered: refused for want of memory, or otherwise. The first such refusal is logged, and the
    /// first after 1,000 other answers in a row.
    pub(crate) fn answered(&mut self, is_short: bool) {
        if is_short {
            self.is_short = self.is_short | (self.well >= WELL);
            self.well = 0;
        } else {
            self.well = self.well.saturating_add(1).min(WELL);
        }
    }

    /// Logs what became of a run, if runs are logged.
    pub(crate) fn run(&mut self, form: &str, holes: &[Hole<'_>]) {
        if self.tells_runs && self.has_place() {
            let line = filled(self.alloc, form, holes);
            self.add(NoticeKind::Run, line);
        }
    }

    /// What became of a start. At the first run of a job, nothing of what its runs ask for counts as logged.
    pub(crate) fn started(&mut self, start: Start<'_>, answer: Result<u32, Failure>) {
        let (job, run) = start.key;
        if run <= 1 {
            self.all_done(job, OF_RUNS);
        }
        self.keep_refusal(start, answer);
        match answer {
            Ok(pid) => {
                self.done(job, SystemRequest::Start);
                let holes = [
                    Words(start.def.label()),
                    Number(run),
                    Number(u64::from(pid)),
                ];
                self.run("$: run $ started as $", &holes);
            }
            Err(failure) => {
                let (form, path) = failure.said(start.def);
                self.start_refused(start, SystemRequest::Start, form, path, failure.error);
            }
        }
    }

    fn keep_refusal(&mut self, start: Start<'_>, answer: Result<u32, Failure>) {
        let refusal = match answer {
            Ok(_) => None,
            Err(failure) => {
                let (form, path) = failure.said(start.def);
                filled(self.alloc, form, &[Words(path), Error(failure.error)])
            }
        };
        drop(mem::replace(&mut self.start_refusal, refusal));
    }

    /// The sockets of the job were bound.
    pub(crate) fn bound(&mut self, job: JobNo) {
        drop(self.bind_refusal.take());
        self.done(job, SystemRequest::Bind);
    }

    /// The sockets of the job with this label were not bound, as the form says.
    pub(crate) fn not_bound(&mut self, job: JobNo, label: &str, form: &str, holes: &[Hole<'_>]) {
        let refusal = filled(self.alloc, form, holes);
        drop(mem::replace(&mut self.bind_refusal, refusal));
        self.refused(job, SystemRequest::Bind, Some(label), None, form, holes);
    }

    /// A start found that a file of its connection is lost.
    pub(crate) fn spool_lost(&mut self, start: Start<'_>, failure: Failure) {
        let (_, file) = failure.said(start.def);
        let form = "a client was disconnected: cannot open $: $";
        self.start_refused(start, SystemRequest::Spool, form, file, failure.error);
    }

    fn start_refused(
        &mut self,
        start: Start<'_>,
        asked: SystemRequest,
        form: &str,
        path: &str,
        error: io::Error,
    ) {
        let (job, run) = start.key;
        let label = Some(start.def.label());
        let holes = [Words(path), Error(error)];
        self.refused(job, asked, label, Some(run), form, &holes);
    }

    /// A run was given the signal of this name. Nothing is logged without its job's label.
    pub(crate) fn signalled<'x>(
        &mut self,
        (job, run): RunKey,
        asked: SystemRequest,
        label: Option<&'x str>,
        signal: &'x str,
    ) {
        self.done(job, asked);
        if let Some(label) = label {
            self.run("$: $ to run $", &[Words(label), Words(signal), Number(run)]);
        }
    }

    /// What was asked for a run's child could not be done, for this reason.
    pub(crate) fn run_refused(
        &mut self,
        (job, run): RunKey,
        asked: SystemRequest,
        label: Option<&str>,
        what: &str,
        error: io::Error,
    ) {
        let holes = [Words(what), Error(error)];
        self.refused(job, asked, label, Some(run), "cannot $: $", &holes);
    }

    /// A run has exited, of which this was kept. If its start was kept, its time is logged too, in seconds with one
    /// decimal. Nothing is logged without its job's label.
    pub(crate) fn ended<R: Clock>(&mut self, rt: &R, run: u64, ended: Ended, kept: &Kept) {
        let took = match kept.since {
            Some(since) => since.elapsed(rt).ok(),
            None => None,
        };
        if let Some(label) = &kept.label {
            self.ended_after(label.as_str(), run, ended, took);
        }
    }

    fn ended_after(&mut self, label: &str, run: u64, ended: Ended, took: Option<Duration>) {
        let (how, number) = match ended {
            Ended::Code(code) => ("ended with code", code),
            Ended::Signal(signal) => ("ended by signal", signal),
        };
        let (form, took) = match took {
            Some(took) => ("$: run $ $ $ after $.$ s", took),
            None => ("$: run $ $ $", Duration::ZERO),
        };
        let holes = [
            Words(label),
            Number(run),
            Words(how),
            Number(u64::from(number)),
            Number(took.as_secs()),
            Number(u64::from(took.subsec_millis() / 100)),
        ];
        self.run(form, &holes);
    }

    /// The call for the job was refused, as the form says. That is logged unless it was what was logged last of this
    /// call. Nothing is logged without the job's label.
    pub(crate) fn refused(
        &mut self,
        job: JobNo,
        asked: SystemRequest,
        label: Option<&str>,
        run: Option<u64>,
        form: &str,
        holes: &[Hole<'_>],
    ) {
        let Some(label) = label else {
            return;
        };
        let Some(reason) = refusal(self.alloc, label, None, form, holes) else {
            return;
        };
        let call = (job, asked as u8);
        if self.is_news(call, reason.as_str()) && self.has_place() {
            let line = refusal(self.alloc, label, run, form, holes);
            if self.add(NoticeKind::Refusal, line) {
                drop(self.told.insert(call, reason));
                return;
            }
        }
        drop(reason);
    }

    // Whether another reason was logged last of this call, or none.
    fn is_news(&self, call: Call, reason: &str) -> bool {
        match self.told.get(&call) {
            Some(last) => last.as_str() != reason,
            None => true,
        }
    }

    /// A client of the job was disconnected.
    pub(crate) fn disconnected(&mut self, job: JobNo, label: Option<&str>, why: Disconnection) {
        let (asked, form, hole) = why.said();
        self.refused(job, asked, label, None, form, &[hole]);
    }

    /// The call for the job was done: the next refusal is logged, whatever its reason.
    pub(crate) fn done(&mut self, job: JobNo, asked: SystemRequest) {
        if !self.told.is_empty() {
            drop(self.told.remove(&(job, asked as u8)));
        }
    }

    /// The same of each of these calls.
    pub(crate) fn all_done(&mut self, job: JobNo, calls: [SystemRequest; 4]) {
        for asked in calls {
            self.done(job, asked);
        }
    }

    /// What became of a check of the path.
    pub(crate) fn looked(&mut self, path: &str, answer: io::Result<Obs>) {
        match answer {
            Ok(_) if self.paths.is_empty() => {}
            Ok(_) => drop(self.paths.remove(path)),
            Err(error) => self.unseen(path, error),
        }
    }

    // A check of the path was refused, for this reason.
    fn unseen(&mut self, path: &str, error: io::Error) {
        let holes = [Words(path), Error(error)];
        let Some(reason) = filled(self.alloc, "cannot check $: $", &holes) else {
            return;
        };
        let is_told = match self.paths.get(path) {
            Some(last) => last.as_str() == reason.as_str(),
            None => self.paths.len() >= PATHS,
        };
        if is_told || !self.has_place() {
            drop(reason);
            return;
        }
        let line = String::from_str(self.alloc, reason.as_str()).ok();
        if !self.add(NoticeKind::Refusal, line) {
            drop(reason);
            return;
        }
        match String::from_str(self.alloc, path) {
            Ok(path) => drop(self.paths.insert(path, reason)),
            Err(_) => drop(reason),
        }
    }

    /// What a helper process holds can't be opened, since its folder in /proc is closed to this process.
    pub(crate) fn shut(&mut self) {
        if self.has_place() {
            let form = "streams are opened by their paths: /proc is closed to the launcher";
            let line = filled(self.alloc, form, &[]);
            self.add(NoticeKind::Refusal, line);
        }
    }

    /// There can be no helper process, so the launcher checks and opens paths itself.
    pub(crate) fn alone(&mut self) {
        if self.has_place() {
            let form =
                "no helper process can be started from /proc/self/exe: a path that hangs stops the launcher";
            let line = filled(self.alloc, form, &[]);
            self.add(NoticeKind::Refusal, line);
        }
    }

    /// No helper reports exits, for this reason. Nothing was refused that somebody asked for.
    pub(crate) fn no_waker(&mut self, error: io::Error) {
        if self.has_place() {
            let form = "exits are seen within 0.1 s, as no jobd-wake reports them: $";
            let line = filled(self.alloc, form, &[Error(error)]);
            self.add(NoticeKind::Run, line);
        }
    }

    // Whether a line more has room. One that has none is counted.
    fn has_place(&mut self) -> bool {
        if self.dropped > 0 || self.waiting.len() >= ROOM {
            self.dropped = self.dropped.saturating_add(1);
            return false;
        }
        true
    }

    // Whether the line waits to be logged from now on. Want of memory drops it.
    fn add(&mut self, kind: NoticeKind, line: Option<String>) -> bool {
        match line {
            Some(line) => {
                let text = Text::new(line);
                self.waiting.push_back(Notice { kind, text }).is_ok()
            }
            None => false,
        }
    }
}
