//! What a chart shows: a row for each job, with its runs as bars, and with start requests, throttles and refusals as marks.

ghost use Rattle.std.specs.Prelude.{◌≡◌, ◌≤◌, ◌↔◌, ◌+◌, ℕ, [], OnOk, IfSome};
ghost use Rattle.run_times.specs.Bars.{Covers, IsAdded, Joins, WasThere, bar_end, runs_in};

use crate::picture::axis::Axis;
use std::alloc::{AllocError, Global};

/// The state of a run, or how it ended.
#[derive(Clone, Copy)]
pub enum End {
    Lives,
    Code(u8),
    /// TERM or KILL was ordered for it, and it ended then, by no crash.
    Stopped,
    Signal(u8),
    Crash(u8),
}

/// A run, or several of one place together.
#[derive(Clone, Copy)]
pub struct Bar {
    /// When it began and ended, in seconds of Unix time. A run that is running ends where the chart does.
    pub from: u64,
    pub until: u64,
    /// The gravest end of its runs.
    pub end: End,
    /// The number of the first of its runs.
    pub run: u64,
    /// How many runs it is for.
    pub runs: u32,
    /// How many of these failed: by a code above 0, or by a signal, and were not stopped.
    pub failed: u32,
}

/// What a mark means.
#[derive(Clone, Copy)]
pub enum MarkKind {
    /// A start request came, or a client asked for a start.
    Demand,
    /// It is wanted, and waits since it is throttled.
    Throttle,
    /// A start, a load or what a client asked was refused.
    Refusal,
}

/// A time that matters, or several of one place.
#[derive(Clone, Copy)]
pub struct ChartMark {
    pub at: u64,
    pub count: u32,
}

/// A job's runs and marks, in the order in which they came.
#[derive(Drop)]
pub struct ChartRow {
    pub label: String,
    pub bars: Vec<Bar>,
    pub demands: Vec<ChartMark>,
    pub throttles: Vec<ChartMark>,
    pub refusals: Vec<ChartMark>,
}

/// The rows over their axis, and what was too much to keep.
#[derive(Drop)]
pub struct Chart {
    pub axis: Axis,
    pub rows: Vec<ChartRow>,
    /// How many runs, and how many marks, are older than what is kept.
    pub missing_runs: u64,
    pub missing_marks: u64,
    /// How many refusals were of jobs that were not loaded before, so that they had no row.
    pub rowless_refusals: u64,
}

impl Bar {
    /// The bar of one run: from its begin to its end, or to the end of the axis if the run is running.
    pub fn of_run(axis: &Axis, run: u64, end: End, begun: u64, ended: u64) -> Bar
        ensures begin { result.from ≡ begun }
        ensures end { result.until ≡ bar_end end axis.now.until ended }
        // It is drawn at just those seconds of the axis at which the run was there.
        ensures covers { (at : ℕ) → at ≤ axis.now.until → Covers result at ↔ WasThere end begun ended at }
        ensures kind { result.end ≡ end }
        ensures one { (result.run ≡ run) × (result.runs ≡ 1) }
    {
        let until = match end {
            End::Lives => axis.until,
            _ => ended,
        };
        Bar {
            from: begun,
            until,
            end,
            run,
            runs: 1,
            failed: failures_of(end),
        }
    }
}

// 1 of an end that is a failure.
fn failures_of(end: End) -> u32 {
    match end {
        End::Lives | End::Code(0) | End::Stopped => 0,
        End::Code(_) | End::Signal(_) | End::Crash(_) => 1,
    }
}

/// How grave an end is, from 0 for a run that goes on to 5 for a crash; and its code or signal, 0 if it has none.
pub(crate) fn grade(end: End) -> (usize, u64)
    ensures { result.0 ≤ 5 }
{
    match end {
        End::Lives => (0, 0),
        End::Code(0) => (1, 0),
        End::Stopped => (2, 0),
        End::Code(code) => (3, u64::from(code)),
        End::Signal(signal) => (4, u64::from(signal)),
        End::Crash(signal) => (5, u64::from(signal)),
    }
}

// The bar for both, if both are in one place of the axis.
fn joined(axis: &Axis, last: Bar, next: Bar) -> Option<Bar>
    ensures { IfSome result (λ bar. Joins axis.now last next bar) }
{
    // All four times are in one place, if the first and the last of them are.
    let first = last.from.min(next.from);
    let until = last.until.max(next.until);
    let (begin, end) = axis.edges(first, until.max(last.from).max(next.from));
    if begin != end {
        return None;
    }
    let Some(runs) = last.runs.checked_add(next.runs) else {
        return None;
    };
    let failed = last.failed.saturating_add(next.failed);
    let is_graver = grade(next.end).0 > grade(last.end).0;
    Some(Bar {
        from: last.from,
        until: next.until.max(last.until),
        end: if is_graver { next.end } else { last.end },
        run: last.run,
        runs,
        failed,
    })
}

// Adds a bar after the others. It joins one that is whole in the place of the last bar to that bar.
#[tactic(auto, using(crate::proofs::BarsLemmas::one_more))]
fn add_bar(bars: &mut Vec<Bar>, axis: &Axis, bar: Bar) -> Result<(), AllocError>
    ensures runs { OnOk result (runs_in bars.new.items ≡ runs_in bars.old.items + bar.runs) }
    ensures added { OnOk result (IsAdded axis.now bar bars.old.items bars.new.items) }
{
    let mut next = bar;
    if let Some(last) = bars.pop() {
        match joined(axis, last, bar) {
            Some(joined) => next = joined,
            None => bars.push(last)?,
        }
    }
    Ok(bars.push(next)?)
}

// Adds each of the bars.
fn add_bars(bars: &mut Vec<Bar>, axis: &Axis, others: &[Bar]) -> Result<(), AllocError>
    ensures { OnOk result (runs_in bars.new.items ≡ runs_in bars.old.items + runs_in others.now) }
{
    for bar in others {
        match add_bar(bars, axis, *bar) {
            Ok(()) => {}
            Err(error) => return Err(error),
        }
    }
    Ok(())
}

// Adds a mark; marks of one place are kept together.
fn add_mark(marks: &mut Vec<ChartMark>, axis: &Axis, mark: ChartMark) -> Result<(), AllocError> {
    if let Some(last) = marks.last_mut() {
        if axis.place(last.at) == axis.place(mark.at) {
            last.count = last.count.saturating_add(mark.count);
            return Ok(());
        }
    }
    Ok(marks.push(mark)?)
}

// Adds each of the marks.
fn add_marks(
    marks: &mut Vec<ChartMark>,
    axis: &Axis,
    others: &[ChartMark],
) -> Result<(), AllocError> {
    for mark in others {
        add_mark(marks, axis, *mark)?;
    }
    Ok(())
}

impl ChartRow {
    /// A row of the label, with nothing in it.
    pub fn new(alloc: Global, label: String) -> ChartRow
        ensures { result.bars.items ≡ [] }
    {
        ChartRow {
            label,
            bars: Vec::new(alloc),
            demands: Vec::new(alloc),
            throttles: Vec::new(alloc),
            refusals: Vec::new(alloc),
        }
    }

    /// Adds a run. Runs that are whole in one place of the axis share one bar, so that no more bars are kept than can be seen; none is
    /// lost.
    pub fn add(&mut self, axis: &Axis, bar: Bar) -> Result<(), AllocError>
        ensures runs { OnOk result (runs_in self.new.bars.items ≡ runs_in self.old.bars.items + bar.runs) }
        ensures added { OnOk result (IsAdded axis.now bar self.old.bars.items self.new.bars.items) }
    {
        add_bar(&mut self.bars, axis, bar)
    }

    /// Adds a mark. Marks of one kind and one place are kept together.
    pub fn mark(&mut self, axis: &Axis, kind: MarkKind, mark: ChartMark) -> Result<(), AllocError> {
        match kind {
            MarkKind::Demand => add_mark(&mut self.demands, axis, mark),
            MarkKind::Throttle => add_mark(&mut self.throttles, axis, mark),
            MarkKind::Refusal => add_mark(&mut self.refusals, axis, mark),
        }
    }

    /// Adds the bars and the marks of another row, each as by `add` and `mark`: no run is lost.
    pub fn add_all(&mut self, axis: &Axis, other: &ChartRow) -> Result<(), AllocError>
        ensures runs { OnOk result (runs_in self.new.bars.items ≡ runs_in self.old.bars.items + runs_in other.now.bars.items) }
    {
        add_marks(&mut self.demands, axis, other.demands.as_slice())?;
        add_marks(&mut self.throttles, axis, other.throttles.as_slice())?;
        add_marks(&mut self.refusals, axis, other.refusals.as_slice())?;
        add_bars(&mut self.bars, axis, other.bars.as_slice())
    }

    /// How many runs its bars are for.
    pub fn runs(&self) -> u64 {
        let mut runs: u64 = 0;
        for bar in &self.bars {
            runs = runs.saturating_add(u64::from(bar.runs));
        }
        runs
    }

    /// How many times its marks are for.
    pub fn moments(&self) -> u64 {
        let mut moments: u64 = 0;
        for marks in [&self.demands, &self.throttles, &self.refusals] {
            for mark in marks {
                moments = moments.saturating_add(u64::from(mark.count));
            }
        }
        moments
    }

    /// Whether it has neither a bar nor a mark.
    pub(crate) fn is_idle(&self) -> bool {
        self.size() == 0
    }

    /// How many bars and marks it has.
    pub(crate) fn size(&self) -> usize {
        let marks = self
            .demands
            .len()
            .saturating_add(self.throttles.len())
            .saturating_add(self.refusals.len());
        self.bars.len().saturating_add(marks)
    }
}
