//! What is kept of one job: of its present load, and over all its loads.

ghost use Rattle.std.specs.Prelude.{◌≡◌};
ghost use Rattle.scope.specs.Told.{has_ended};

use crate::journal::news::What;
use crate::journal::run::{JobRun, RunEnd};
use crate::journal::waiting::Wait;
use crate::known_runs::KnownRuns;
use history_model::{Answer, DemandKind, Ended, JobItem, Reading, SECOND};
use job_defs::Def;
use pace::Signal;
use run_log::{RunItem, RunLog, is_failure};
use status_page::is_crash;

/// After this many exits with code 0, each within a second of its begin, `why` asks whether the program puts itself in the background.
const QUICK_ENDS: u64 = 3;

/// What was asked of a job, by a control client.
#[derive(Clone, Copy)]
pub(crate) enum JobRequest {
    Start,
    Stop,
    Kickstart,
    /// `kickstart -k`.
    Strike,
    Unload,
    /// `unload -w`.
    UnloadForGood,
    Enable,
    Disable,
    Shutdown,
}

/// Counts over all loads of a label. Times are milliseconds of `up`.
#[derive(Clone, Copy)]
pub(crate) struct Totals {
    /// Starts that were ordered, refused ones too.
    pub(crate) starts: u64,
    pub(crate) refused: u64,
    /// Runs that ended with a code, and by a signal.
    pub(crate) codes: u64,
    pub(crate) signals: u64,
    /// Runs that ended with a code above 0; each is among the codes.
    pub(crate) nonzero: u64,
    /// Runs that ended by a crash; each is among the signals.
    pub(crate) crashes: u64,
    /// Runs that failed: with a code above 0, or by a signal that the launcher did not give.
    pub(crate) failed: u64,
    /// How long its completed runs ran, in all.
    pub(crate) lived: u64,
    /// The time that loads which are over lasted.
    pub(crate) loaded: u64,
    /// The longest time without a run while it was loaded.
    pub(crate) gap: u64,
    /// The shortest and the longest completed run. If there is none, the shortest is the greatest number.
    pub(crate) shortest: u64,
    pub(crate) longest: u64,
}

/// What is counted of a label that was never loaded.
const NOTHING: Totals = Totals {
    starts: 0,
    refused: 0,
    codes: 0,
    nonzero: 0,
    signals: 0,
    crashes: 0,
    failed: 0,
    lived: 0,
    loaded: 0,
    gap: 0,
    shortest: u64::MAX,
    longest: 0,
};

/// A job that is or was loaded.
#[derive(Drop)]
pub(crate) struct KeptJob {
    /// Its definition, while it is loaded.
    pub(crate) def: Option<Def>,
    /// The text of its definition, while it is loaded.
    pub(crate) text: Option<String>,
    pub(crate) record: Record,
}

impl KeptJob {
    /// Its launcher has exited, and with it the job, if it was loaded. `ending` is the clock reading at which that launcher was asked for a shutdown.
    pub(crate) fn lose(&mut self, at: Reading, ending: Option<Reading>) {
        self.record.absent = None;
        if self.def.is_some() {
            self.record.lose(at);
            self.record.absent = Some(at.wall);
        } else if is_left(self.record.gone, ending) {
            self.record.absent = Some(self.record.gone.wall);
        }
        self.record.follow();
        drop(self.def.take());
        drop(self.text.take());
    }
}

// Whether a job that left then did so in a shutdown, and not at a request of its own.
fn is_left(gone: Reading, ending: Option<Reading>) -> bool {
    match ending {
        Some(ending) => gone.wall >= ending.wall,
        None => false,
    }
}

/// What is kept of a job: what became of the runs of its last load, as `run_log` records it, and what `jobscope` reports of it too.
#[derive(Drop)]
pub(crate) struct Record {
    /// The number by which runs name it.
    pub(crate) serial: u64,
    /// The runs of its last load.
    pub(crate) log: RunLog,
    /// The run whose order is not answered, or that is running.
    pub(crate) current: Option<JobRun>,
    /// The last stop, `kickstart -k` or unload since the last start was ordered, and its number among such requests to all jobs.
    pub(crate) asked: Option<(JobRequest, Reading)>,
    pub(crate) ask: u64,
    /// Since which second no launcher ran, if it was loaded until then.
    pub(crate) absent: Option<u64>,
    // Whether the system refused to wait for the present run.
    is_lost: bool,
    /// Whether this is its first load under its launcher.
    pub(crate) is_first: bool,
    /// Whether it was lost with a launcher before.
    was_lost: bool,
    /// Whether it is started again after each exit with code 0.
    pub(crate) is_kept_alive: bool,
    /// How many of its last runs ended one after another with code 0 within a second.
    pub(crate) quick_ends: u64,
    /// From when on it has no run.
    idle: Reading,
    /// From when on the times of the totals count.
    counted: Reading,
    /// When its last load ended: the job was removed, or its launcher exited.
    pub(crate) gone: Reading,
    totals: Totals,
}

impl Record {
    /// Of a job that is just loaded for the first time.
    pub(crate) fn new(serial: u64, at: Reading) -> Record {
        Record {
            serial,
            log: RunLog::new(at),
            current: None,
            asked: None,
            ask: 0,
            absent: None,
            is_lost: false,
            is_first: true,
            was_lost: false,
            is_kept_alive: false,
            quick_ends: 0,
            idle: at,
            counted: at,
            gone: at,
            totals: NOTHING,
        }
    }

    /// Of the job that is loaded again: what is kept of its earlier load goes, the totals stay.
    /// A time without a launcher, from the second `from` on, counts as a time in which it was loaded and did not run.
    pub(crate) fn loaded_again(&self, at: Reading, from: u64) -> Record {
        let mut record = Record::new(self.serial, at);
        record.gone = self.gone;
        record.totals = self.totals;
        record.is_first = self.was_lost;
        if let Some(since) = self.absent {
            let absent = at
                .wall
                .saturating_sub(since.max(from))
                .saturating_mul(SECOND);
            record.totals.loaded = record.totals.loaded.saturating_add(absent);
            record.totals.gap = record.totals.gap.max(absent);
        }
        record
    }

    /// Counts from this clock reading on, and forgets what was counted before.
    pub(crate) fn count_from(&mut self, at: Reading) {
        self.totals = NOTHING;
        self.counted = at;
        self.idle = at;
    }

    /// A start was ordered.
    pub(crate) fn order(&mut self, run: u64, demand: Option<DemandKind>, at: Reading) {
        self.log.note(RunItem::Ordered(run), at);
        self.totals.starts = self.totals.starts.saturating_add(1);
        self.current = Some(JobRun::ordered(self.serial, run, demand, at));
        self.asked = None;
        self.is_lost = false;
    }

    /// A signal was ordered for the present run.
    pub(crate) fn tell(&mut self, signal: Signal, at: Reading) {
        if let Some(run) = &mut self.current {
            run.is_ordered_to_end = true;
        }
        let item = match signal {
            Signal::Term => RunItem::Termed,
            Signal::Kill => RunItem::Killed,
        };
        self.log.note(item, at);
    }

    /// Whether a run of it ended, of whichever load.
    pub(crate) fn has_ended(&self) -> bool
        ensures { result ≡ has_ended self.now }
    {
        self.totals.codes > 0 || self.totals.signals > 0
    }

    /// When it was loaded last.
    pub(crate) fn loaded(&self) -> Reading {
        self.log.facts().loaded
    }

    /// The `up` at which something happened to the job last: it was loaded, a start or a signal was ordered, a run began or ended, or something was asked.
    pub(crate) fn newest(&self) -> u64 {
        let facts = self.log.facts();
        let mut newest = facts.since.up;
        for at in [facts.started, facts.term, facts.kill] {
            newest = newest.max(up_or_0(at));
        }
        match self.asked {
            Some((_, at)) => newest.max(at.up),
            None => newest,
        }
    }

    /// What is known of the runs of its last load.
    pub(crate) fn known(&self) -> KnownRuns<'_> {
        let began = match &self.current {
            Some(run) => run.running_since(),
            None => None,
        };
        KnownRuns::recorded(self.log.facts(), began, self.is_lost)
    }

    /// Notes what came to its sockets, an answer to an order, or an exit. It returns what the log reports of that, and the run that is over
    /// now. The order of a signal reports the signal, so its answer reports nothing. A launcher may be refused the wait for a run in each
    /// pass of its event loop; only the first refusal is reported.
    pub(crate) fn note(
        &mut self,
        item: JobItem,
        wait: Wait,
        at: Reading,
    ) -> (Option<What>, Option<JobRun>) {
        match item {
            JobItem::Asked(_) => (None, None),
            JobItem::Came(conn) => (Some(What::Came(conn)), None),
            JobItem::Left(conn) => (Some(What::Left(conn)), None),
            JobItem::Answered(answer) => self.note_answer(answer, wait, at),
            JobItem::Ended { how, .. } => match self.end(how, at) {
                Some(run) => {
                    let is_odd = self.is_kept_alive && self.quick_ends == QUICK_ENDS;
                    (Some(What::Ended { run, wait, is_odd }), Some(run))
                }
                None => (None, None),
            },
            JobItem::WaitRefused { .. } if self.is_lost => (None, None),
            JobItem::WaitRefused { run } => {
                self.is_lost = true;
                (Some(What::Lost { run }), None)
            }
        }
    }

    fn note_answer(
        &mut self,
        answer: Answer,
        wait: Wait,
        at: Reading,
    ) -> (Option<What>, Option<JobRun>) {
        match answer {
            Answer::Spawned { run, pid } => {
                self.begin(at);
                (Some(What::Began { run, pid }), None)
            }
            Answer::SpawnRefused { run } => (Some(What::NotBegun { run, wait }), self.refuse(at)),
            Answer::Termed { run, ok: false } => (Some(unsent(run, Signal::Term)), None),
            Answer::Killed { run, ok: false } => (Some(unsent(run, Signal::Kill)), None),
            Answer::Termed { .. } | Answer::Killed { .. } => (None, None),
        }
    }

    // The start that was ordered succeeded.
    fn begin(&mut self, at: Reading) {
        self.totals.gap = self.gap_at(at);
        self.log.note(RunItem::Begun, at);
        if let Some(run) = &mut self.current {
            run.begun = at;
            run.ended = at;
            run.end = RunEnd::Lives;
        }
    }

    // The start that was ordered was refused. It gives the run.
    fn refuse(&mut self, at: Reading) -> Option<JobRun> {
        self.totals.refused = self.totals.refused.saturating_add(1);
        let mut run = self.current?;
        run.ended = at;
        run.end = RunEnd::Refused;
        self.current = None;
        self.log.note(RunItem::Refused(run.run, None), at);
        Some(run)
    }

    // The present run ended. It gives the run.
    fn end(&mut self, how: Ended, at: Reading) -> Option<JobRun> {
        let mut run = self.current?;
        run.ended = at;
        run.is_crash = is_crash(how, run.is_ordered_to_end);
        let totals = &mut self.totals;
        match how {
            Ended::Code(code) => {
                run.end = RunEnd::Code(code);
                totals.codes = totals.codes.saturating_add(1);
                totals.nonzero = totals.nonzero.saturating_add(u64::from(code > 0));
            }
            Ended::Signal(signal) => {
                run.end = RunEnd::Signal(signal);
                totals.signals = totals.signals.saturating_add(1);
            }
        }
        if run.is_crash {
            totals.crashes = totals.crashes.saturating_add(1);
        }
        let has_failed = is_failure(how, run.is_ordered_to_end);
        totals.failed = totals.failed.saturating_add(u64::from(has_failed));
        let lived = run.lived(at);
        let begun = run.begun.up.max(self.counted.up);
        totals.lived = totals.lived.saturating_add(at.up.saturating_sub(begun));
        totals.shortest = totals.shortest.min(lived);
        totals.longest = totals.longest.max(lived);
        self.quick_ends = match how {
            Ended::Code(0) if lived <= SECOND => self.quick_ends.saturating_add(1),
            _ => 0,
        };
        self.log.note(RunItem::Exited(run.run, how), at);
        self.idle = at;
        self.current = None;
        Some(run)
    }

    /// Whether it looks as if its program put itself in the background.
    pub(crate) fn is_in_background(&self) -> bool {
        self.is_kept_alive && self.quick_ends >= QUICK_ENDS
    }

    /// Its launcher has exited: the present run counts as far as it is known.
    pub(crate) fn lose(&mut self, at: Reading) {
        self.totals = self.totals_at(true, at);
        self.current = None;
        self.gone = at;
    }

    /// Its launcher has exited, whether the job was loaded then or not.
    pub(crate) fn follow(&mut self) {
        self.was_lost = true;
    }

    /// The job was removed.
    pub(crate) fn leave(&mut self, at: Reading) {
        let loaded = at.up.saturating_sub(self.counted.up);
        self.totals.gap = self.gap_at(at);
        self.totals.loaded = self.totals.loaded.saturating_add(loaded);
        self.gone = at;
    }

    // The longest time without a run, if the present one ends.
    fn gap_at(&self, at: Reading) -> u64 {
        self.totals.gap.max(at.up.saturating_sub(self.idle.up))
    }

    /// The counts at this clock reading, with the present load and the present run.
    pub(crate) fn totals_at(&self, is_loaded: bool, at: Reading) -> Totals {
        let mut totals = self.totals;
        if is_loaded {
            let loaded = at.up.saturating_sub(self.counted.up);
            totals.loaded = totals.loaded.saturating_add(loaded);
        }
        if let Some(
            JobRun {
                end: RunEnd::Lives,
                begun,
                ..
            },
        ) = &self.current
        {
            let begun = begun.up.max(self.counted.up);
            totals.lived = totals.lived.saturating_add(at.up.saturating_sub(begun));
        } else if is_loaded {
            totals.gap = self.gap_at(at);
        }
        totals
    }
}

fn up_or_0(at: Option<Reading>) -> u64 {
    match at {
        Some(at) => at.up,
        None => 0,
    }
}

// The signal could not be sent.
fn unsent(run: u64, signal: Signal) -> What {
    What::Untold { run, signal }
}
