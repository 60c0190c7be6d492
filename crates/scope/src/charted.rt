//! What a chart shows of a journal: the runs and the marks, joined as they go by while it is read.

ghost use Rattle.std.specs.Prelude.{◌≡◌, max, IfSome, option_map};
ghost use Rattle.scope.specs.RunBars.{run_bar_end};

use crate::journal::job::JobRequest;
use crate::journal::news::{News, What};
use crate::journal::past::Past;
use crate::journal::run::{JobRun, RunEnd};
use crate::journal::waiting::Wait;
use crate::texts::log::is_named;
use history_model::Text;
use run_times::picture::{Axis, Bar, Chart, ChartRow, End, Gathered, Gathering, MarkKind, PLACES};
use std::alloc::{AllocError, Global};

/// What is kept of the lines that were read, of all jobs or of those that are named.
#[derive(Drop)]
pub(crate) struct ReceivedMarks<'a> {
    pub(crate) labels: &'a [Text],
    /// The runs that are over, and the marks, by the serial numbers of their jobs.
    pub(crate) gathering: Gathering,
    /// How many refusals were of jobs that were not loaded before.
    pub(crate) rowless: u64,
    /// What was before this second is left out.
    pub(crate) since: u64,
    /// The least and the greatest second that the clock showed.
    pub(crate) from: u64,
    pub(crate) until: u64,
}

impl ReceivedMarks<'_> {
    /// Nothing is known yet of the jobs with these labels, or of all.
    pub(crate) fn new(alloc: Global, labels: &[Text]) -> ReceivedMarks<'_> {
        ReceivedMarks {
            labels,
            gathering: Gathering::new(alloc),
            rowless: 0,
            since: 0,
            from: u64::MAX,
            until: 0,
        }
    }

    /// Takes what the journal's last line gave at this second.
    pub(crate) fn receive(&mut self, at: u64, news: &[News]) -> Result<(), AllocError> {
        self.from = self.from.min(at.max(self.since));
        self.until = self.until.max(at);
        if at < self.since {
            return Ok(());
        }
        for one in news {
            if is_named(self.labels, one.label.as_str()) {
                self.receive_news(one, at, is_met(one, news))?;
            }
        }
        Ok(())
    }

    /// A launcher exited at this second: the bars of its running runs end there.
    pub(crate) fn end(&mut self, past: &Past, at: u64) -> Result<(), AllocError> {
        let axis = Axis::new(at.saturating_sub(1), at, PLACES);
        for (label, job) in &past.jobs {
            if let (Some(run), true) = (
                &job.record.current,
                is_named(self.labels, label.as_str()) && at >= self.since,
            ) {
                if let Some(bar) = bar_of(&axis, run) {
                    self.gathering.add(run.job, since(bar, self.since))?;
                }
            }
        }
        Ok(())
    }

    fn receive_news(&mut self, news: &News, at: u64, is_met: bool) -> Result<(), AllocError> {
        if let What::Ended { run, .. } = &news.what {
            if let Some(bar) = bar_of(&Axis::new(at, at, PLACES), run) {
                self.gathering.add(run.job, since(bar, self.since))?;
            }
        }
        match (mark_of(&news.what), news.serial) {
            (Some(MarkKind::Demand), _) if is_met => Ok(()),
            (Some(kind), Some(job)) => self.gathering.mark(job, kind, at),
            (Some(_), None) => {
                self.rowless = self.rowless.saturating_add(1);
                Ok(())
            }
            (None, _) => Ok(()),
        }
    }
}

// Whether what came is met at once: by a start that the same line orders. One that is ordered as a run ends was waited for.
fn is_met(came: &News, news: &[News]) -> bool {
    let mut is_ordered = false;
    for one in news {
        if one.label.as_str() == came.label.as_str() {
            match one.what {
                What::Ordered { .. } => is_ordered = true,
                What::Ended { .. } => return false,
                _ => {}
            }
        }
    }
    is_ordered
}

// The mark that an event of a journal makes, if it makes one.
fn mark_of(what: &What) -> Option<MarkKind> {
    match what {
        What::Asked(JobRequest::Start | JobRequest::Kickstart | JobRequest::Strike) => Some(
            MarkKind::Demand,
        ),
        What::Came(_) => Some(MarkKind::Demand),
        What::Ordered { wants, .. } if wants.demand => Some(MarkKind::Demand),
        What::LoadRefused(_) | What::Declined(_, _) | What::NotBegun { .. } => {
            Some(MarkKind::Refusal)
        }
        What::Ended {
            wait: Wait::Throttled(_),
            ..
        } => Some(MarkKind::Throttle),
        _ => None,
    }
}

/// The bar of a run: from its begin to its end, or to the end of the axis if it is running. None for a run that did not begin: its order is
/// not answered, or was refused.
pub(crate) fn bar_of(axis: &Axis, run: &JobRun) -> Option<Bar>
    ensures begin { IfSome result (λ bar. bar.from ≡ run.now.begun.wall) }
    ensures end { option_map (λ bar. bar.until) result ≡ run_bar_end run.now.end axis.now.until run.now.ended.wall }
    ensures one { IfSome result (λ bar. (bar.run ≡ run.now.run) × (bar.runs ≡ 1)) }
{
    let end = match run.end {
        RunEnd::Awaited | RunEnd::Refused => return None,
        RunEnd::Lives => End::Lives,
        RunEnd::Signal(signal) if run.is_crash => End::Crash(signal),
        _ if run.is_ordered_to_end => End::Stopped,
        RunEnd::Signal(signal) => End::Signal(signal),
        RunEnd::Code(code) => End::Code(code),
    };
    let begun = run.begun.wall;
    Some(Bar::of_run(axis, run.run, end, begun, run.ended.wall))
}

// The part of the bar from that second on.
fn since(bar: Bar, from: u64) -> Bar
    ensures { result ≡ record bar { from = max bar.from from } }
{
    Bar {
        from: bar.from.max(from),
        ..bar
    }
}

/// The chart of the journal's jobs, or of those named that it has.
pub(crate) fn chart_of(
    alloc: Global,
    past: &Past,
    received: &ReceivedMarks<'_>,
) -> Result<Chart, AllocError> {
    let mut rows = Rows {
        chart: Chart {
            axis: Axis::new(received.from, received.until, PLACES),
            rows: Vec::new(alloc),
            missing_runs: received.gathering.missing_runs,
            missing_marks: received.gathering.missing_marks,
            rowless_refusals: received.rowless,
        },
        places: Vec::new(alloc),
    };
    let filled = rows.fill(alloc, past, received);
    let Rows { chart, places } = rows;
    drop(places);
    match filled {
        Ok(()) => Ok(chart),
        Err(error) => {
            drop(chart);
            Err(error)
        }
    }
}

// The rows of a chart, and the index of each job's row, by the job's serial number.
#[derive(Drop)]
struct Rows {
    chart: Chart,
    places: Vec<(u64, usize)>,
}

impl Rows {
    fn fill(
        &mut self,
        alloc: Global,
        past: &Past,
        received: &ReceivedMarks<'_>,
    ) -> Result<(), AllocError> {
        for (label, job) in &past.jobs {
            if is_named(received.labels, label.as_str()) {
                self.add_job(alloc, label.as_str(), job.record.serial)?;
            }
        }
        self.places.sort_unstable();
        for of in &received.gathering.rows {
            self.add_gathered(of)?;
        }
        self.add_living(past, received.since)
    }

    fn add_job(&mut self, alloc: Global, label: &str, serial: u64) -> Result<(), AllocError> {
        self.places.push((serial, self.chart.rows.len()))?;
        let row = ChartRow::new(alloc, String::from_str(alloc, label)?);
        Ok(self.chart.rows.push(row)?)
    }

    // Adds what was gathered of a job. If the job was forgotten meanwhile, it counts among what is missing.
    fn add_gathered(&mut self, of: &Gathered) -> Result<(), AllocError> {
        let axis = self.chart.axis;
        let place = row_of_job(self.places.as_slice(), of.job).unwrap_or(usize::MAX);
        if let Some(row) = self.chart.rows.get_mut(place) {
            return row.add_all(&axis, &of.row);
        }
        self.chart.missing_runs = self.chart.missing_runs.saturating_add(of.row.runs());
        self.chart.missing_marks = self.chart.missing_marks.saturating_add(of.row.moments());
        Ok(())
    }

    // Adds the runs that are running.
    fn add_living(&mut self, past: &Past, from: u64) -> Result<(), AllocError> {
        for (_, job) in &past.jobs {
            if let Some(run) = &job.record.current {
                self.add_run(run, from)?;
            }
        }
        Ok(())
    }

    // Adds the run, if it began and has a row.
    fn add_run(&mut self, run: &JobRun, from: u64) -> Result<(), AllocError> {
        let axis = self.chart.axis;
        let place = row_of_job(self.places.as_slice(), run.job).unwrap_or(usize::MAX);
        match (self.chart.rows.get_mut(place), bar_of(&axis, run)) {
            (Some(row), Some(bar)) => row.add(&axis, since(bar, from)),
            _ => Ok(()),
        }
    }
}

// The index of the job's row.
fn row_of_job(places: &[(u64, usize)], serial: u64) -> Option<usize> {
    let (Ok(at) | Err(at)) = places.binary_search(&(serial, 0));
    match places.get(at) {
        Some((job, place)) if *job == serial => Some(*place),
        _ => None,
    }
}
