//! Bars and marks as they go by, before the span of time is known over which they are drawn.

ghost use Rattle.std.specs.Prelude.{◌≡◌, OnOk};
ghost use Rattle.run_times.specs.Bars.{runs_in};

use crate::picture::axis::Axis;
use crate::picture::chart::{Bar, ChartMark, ChartRow, MarkKind};
use history_model::MAX_WALL;
use std::alloc::{AllocError, Global};
use std::mem;

/// How many bars and marks of all jobs are kept, while the axis can still grow.
const MOST: usize = 131_072;

/// The places of the axis; each is a second long at first.
const FINE: u16 = 65_535;

/// What is kept of a job.
#[derive(Drop)]
pub struct Gathered {
    /// The number by which the caller gave it.
    pub job: u64,
    pub row: ChartRow,
}

/// The runs and marks of jobs. Those in one place of an axis are kept together. The axis begins fine. Its places grow longer if it must reach
/// further, or if too much is kept. So the memory is bounded, and none is lost.
#[derive(Drop)]
pub struct Gathering {
    alloc: Global,
    axis: Axis,
    /// Of each job that has some, in the order of their numbers.
    pub rows: Vec<Gathered>,
    /// How many bars and marks are kept.
    kept: usize,
    /// How many runs and marks came when the axis could not grow any more, and the most were kept.
    pub missing_runs: u64,
    pub missing_marks: u64,
}

impl Gathering {
    /// Nothing is kept yet. The first time that comes decides where the axis begins.
    pub fn new(alloc: Global) -> Gathering {
        Gathering {
            alloc,
            axis: Axis::new(0, 0, FINE),
            rows: Vec::new(alloc),
            kept: 0,
            missing_runs: 0,
            missing_marks: 0,
        }
    }

    /// Adds the bar of a run of the job.
    pub fn add(&mut self, job: u64, bar: Bar) -> Result<(), AllocError> {
        self.reach(bar.from)?;
        self.reach(bar.until)?;
        if !self.has_room()? {
            self.missing_runs = self.missing_runs.saturating_add(u64::from(bar.runs));
            return Ok(());
        }
        let axis = self.axis;
        let place = self.place_for(job)?;
        if let Some(of) = self.rows.get_mut(place) {
            let before = of.row.size();
            of.row.add(&axis, bar)?;
            let more = of.row.size().saturating_sub(before);
            self.kept = self.kept.saturating_add(more);
        }
        Ok(())
    }

    /// Adds a mark of the job.
    pub fn mark(&mut self, job: u64, kind: MarkKind, at: u64) -> Result<(), AllocError> {
        self.reach(at)?;
        if !self.has_room()? {
            self.missing_marks = self.missing_marks.saturating_add(1);
            return Ok(());
        }
        let axis = self.axis;
        let place = self.place_for(job)?;
        if let Some(of) = self.rows.get_mut(place) {
            let before = of.row.size();
            of.row.mark(&axis, kind, ChartMark { at, count: 1 })?;
            let more = of.row.size().saturating_sub(before);
            self.kept = self.kept.saturating_add(more);
        }
        Ok(())
    }

    // Makes the axis reach the second. It grows by its own length at least, so that it seldom grows.
    fn reach(&mut self, at: u64) -> Result<(), AllocError> {
        let at = at.min(MAX_WALL);
        if self.kept == 0 {
            self.axis = Axis::new(at, at.saturating_add(u64::from(FINE)), FINE);
        }
        if at >= self.axis.from && at <= self.axis.until {
            return Ok(());
        }
        let from = self.axis.from.min(at);
        self.grow(from, at)
    }

    // Whether one more may be kept. If not, the axis grows to twice its length, as far as it can.
    fn has_room(&mut self) -> Result<bool, AllocError> {
        if self.kept >= MOST && self.axis.until < MAX_WALL {
            self.grow(self.axis.from, self.axis.until)?;
        }
        Ok(self.kept < MOST)
    }

    // The axis begins at the second, reaches the other, and is twice as long at least.
    fn grow(&mut self, from: u64, at: u64) -> Result<(), AllocError> {
        let span = self
            .axis
            .until
            .saturating_sub(self.axis.from)
            .saturating_mul(2);
        self.axis = Axis::new(from, from.saturating_add(span).max(at), FINE);
        self.kept = 0;
        for of in &mut self.rows {
            join(self.alloc, &self.axis, &mut of.row)?;
            self.kept = self.kept.saturating_add(of.row.size());
        }
        Ok(())
    }

    // The index of the job's row, which is made if the job has none.
    fn place_for(&mut self, job: u64) -> Result<usize, AllocError> {
        let place = self.rows.partition_point(|of| of.job < job);
        let has_row = match self.rows.get(place) {
            Some(of) => of.job == job,
            None => false,
        };
        if !has_row {
            let row = ChartRow::new(self.alloc, String::new(self.alloc));
            self.rows.insert(place, Gathered { job, row })?;
        }
        Ok(place)
    }
}

// Joins what is in one place of the axis: no run is lost.
fn join(alloc: Global, axis: &Axis, row: &mut ChartRow) -> Result<(), AllocError>
    ensures { OnOk result (runs_in row.new.bars.items ≡ runs_in row.old.bars.items) }
{
    let mut joined = ChartRow::new(alloc, String::new(alloc));
    let added = joined.add_all(axis, row);
    drop(mem::replace(row, joined));
    added
}
