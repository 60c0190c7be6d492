//! What is kept of all jobs: by their labels, and the runs that are over.

ghost use Rattle.std.specs.Prelude.{◌≡◌};
ghost use Rattle.scope.specs.Told.{asked_in};

use crate::journal::job::{JobRequest, KeptJob, Record};
use crate::journal::labels::KnownLabels;
use crate::journal::news::News;
use crate::journal::run::JobRun;
use history_model::Reading;
use job_defs::Def;
use status_page::{Down, gone_on, within_limits};
use std::alloc::{AllocError, Global};
use std::collections::{BTreeMap, VecDeque};
use std::mem;

/// How many labels are kept at most. Beyond that, each new one takes the place of one that is not loaded.
pub(crate) const MOST_LABELS: usize = 8_192;

/// How many completed runs of all jobs are kept at most: the last ones.
pub(crate) const MOST_RUNS: usize = 131_072;

/// The jobs, and the runs that are over.
#[derive(Drop)]
pub(crate) struct Past {
    /// The jobs by their labels, also those that were removed.
    pub(crate) jobs: BTreeMap<String, KeptJob>,
    /// What is known of labels besides.
    pub(crate) labels: KnownLabels,
    /// The runs that are over, in the order of their ends.
    pub(crate) runs: VecDeque<JobRun>,
    /// How many more are over than are kept.
    pub(crate) dropped: u64,
    /// Whether each line becomes news, as a log and a picture need it. Without it only loads and requests do, by which a label is known.
    pub(crate) has_news: bool,
    /// What the last line gave, in order.
    pub(crate) news: Vec<News>,
    /// The second from which on it counts, and whether it does.
    pub(crate) from: u64,
    counts: bool,
    /// The serial number of the job that was last new.
    serial: u64,
    /// How many questions were kept, and which of them asked for the last shutdown, and when.
    asks: u64,
    shut_down: Option<(u64, Reading)>,
    /// Between which seconds no launcher ran before this one, if one ran before.
    pub(crate) down: Option<Down>,
}

impl Past {
    pub(crate) fn new(alloc: Global) -> Past {
        Past {
            jobs: BTreeMap::new(alloc),
            labels: KnownLabels::new(alloc),
            runs: VecDeque::new(alloc),
            dropped: 0,
            has_news: true,
            news: Vec::new(alloc),
            from: 0,
            counts: false,
            serial: 0,
            asks: 0,
            shut_down: None,
            down: None,
        }
    }

    /// The clocks went on from `last` to `now`. When they reach the second from which runs count, it forgets what was counted before. It counts from
    /// the clock reading of that second, if both clocks went on alike.
    pub(crate) fn reach(&mut self, last: Reading, now: Reading) {
        if self.counts || now.wall < self.from {
            return;
        }
        self.counts = true;
        let begun = gone_on(within_limits(last), self.from);
        for (_, job) in &mut self.jobs {
            job.record.count_from(begun);
        }
        self.runs.clear();
        self.dropped = 0;
    }

    /// Continues the history of an earlier launcher, which exited: its counts stay, and its loaded jobs count as removed at its last clock reading. A
    /// launcher that was asked for a shutdown started nothing from then on. By what a label was disabled stays known, if it still is.
    pub(crate) fn follow(&mut self, before: &mut Past, last: Reading, now: Reading) {
        let since = match before.shut_down {
            Some((_, at)) => at.wall,
            None => last.wall,
        };
        self.down = Some(Down {
            since,
            until: now.wall,
            loaded: now.wall,
        });
        mem::swap(&mut self.jobs, &mut before.jobs);
        mem::swap(&mut self.runs, &mut before.runs);
        self.dropped = before.dropped;
        self.serial = before.serial;
        self.labels.follow(&before.labels);
        self.counts = before.counts;
        let ending = match before.shut_down {
            Some((_, at)) => Some(at),
            None => None,
        };
        for (_, job) in &mut self.jobs {
            job.lose(last, ending);
        }
    }

    /// A job is loaded, by the definition with this text.
    pub(crate) fn load(
        &mut self,
        alloc: Global,
        def: Def,
        text: &str,
        at: Reading,
    ) -> Result<(), AllocError> {
        let label = String::from_str(alloc, def.label());
        let text = String::from_str(alloc, text);
        let mut is_room = true;
        let mut record = match self.jobs.get(def.label()) {
            Some(job) => job.record.loaded_again(at, self.from),
            None => {
                is_room = self.make_room().is_ok();
                self.serial = self.serial.saturating_add(1);
                Record::new(self.serial, at)
            }
        };
        record.is_kept_alive = def.keep_alive() || def.successful_exit() == Some(true);
        let is_kept = is_room && text.is_ok();
        let job = KeptJob {
            def: Some(def),
            text: text.ok(),
            record,
        };
        match label {
            Ok(label) if is_kept => match self.jobs.insert(label, job) {
                Ok(old) => {
                    drop(old);
                    Ok(())
                }
                Err(refused) => {
                    drop(refused);
                    Err(AllocError)
                }
            },
            label => {
                drop(label);
                drop(job);
                Err(AllocError)
            }
        }
    }

    // If the most labels are kept, forgets the first one that is not loaded.
    fn make_room(&mut self) -> Result<(), AllocError> {
        if self.jobs.len() < MOST_LABELS {
            return Ok(());
        }
        let label = match self.first_gone() {
            Some(label) => label.clone()?,
            None => return Ok(()),
        };
        drop(self.jobs.remove(label.as_str()));
        drop(label);
        Ok(())
    }

    fn first_gone(&self) -> Option<&String> {
        for (label, job) in &self.jobs {
            if job.def.is_none() {
                return Some(label);
            }
        }
        None
    }

    /// What keeps the job of this label from a start, or asks for its end, is kept until the next order; a shutdown is asked of all jobs.
    pub(crate) fn ask(&mut self, label: &str, asked: JobRequest, at: Reading) {
        self.asks = self.asks.saturating_add(1);
        match asked {
            JobRequest::Shutdown => self.shut_down = Some((self.asks, at)),
            JobRequest::Start | JobRequest::Kickstart | JobRequest::Enable | JobRequest::Disable =>
                {}
            JobRequest::Stop
            | JobRequest::Strike
            | JobRequest::Unload
            | JobRequest::UnloadForGood => {
                if let Some(job) = self.jobs.get_mut(label) {
                    job.record.asked = Some((asked, at));
                    job.record.ask = self.asks;
                }
            }
        }
    }

    /// What was asked last of the job, or of all.
    pub(crate) fn asked_of(&self, job: &Record) -> Option<(JobRequest, Reading)>
        ensures { result ≡ asked_in self.now job.now }
    {
        match self.shut_down {
            Some((ask, at)) if ask > job.ask => Some((JobRequest::Shutdown, at)),
            _ => job.asked,
        }
    }

    /// A run is over.
    pub(crate) fn keep(&mut self, run: JobRun) -> Result<(), AllocError> {
        if self.runs.len() >= MOST_RUNS {
            let _oldest = self.runs.pop_front();
            self.dropped = self.dropped.saturating_add(1);
        }
        Ok(self.runs.push_back(run)?)
    }
}
