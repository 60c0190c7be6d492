//! The axis of a chart: a span of Unix time over a number of places.

ghost use Rattle.std.specs.Prelude.{◌≡◌, ◌≤◌, ◌<◌, ◌+◌, ◌-◌, ℕ, min, max};
ghost use Rattle.history_model.specs.declared.TheConstants.{MAX_WALL};
ghost use Rattle.run_times.specs.Axis.{IsPlace};

use history_model::MAX_WALL;

/// A span of time over places: place 0 begins at `from`, and place `places` is at `until`. Both are in seconds of Unix time.
#[derive(Clone, Copy)]
pub struct Axis {
    pub from: u64,
    pub until: u64,
    pub places: u16,
    ghost ordered: { from < until },
    ghost known: { until ≤ MAX_WALL },
}

impl Axis {
    /// The axis of the span; of at least a second, and within what a clock may show (`MAX_WALL`).
    pub fn new(from: u64, until: u64, places: u16) -> Axis
        ensures from { result.from ≡ min from (MAX_WALL - 1) }
        ensures until { result.until ≡ max (min until MAX_WALL) (min from (MAX_WALL - 1) + 1) }
        ensures places { result.places ≡ places }
    {
        let from = from.min(MAX_WALL - 1);
        let until = until.min(MAX_WALL).max(from + 1);
        Axis {
            from,
            until,
            places,
        }
    }

    /// The place of the second: the last one that has begun by then. What is before the axis is at its beginning, and what is after it at
    /// its end.
    #[tactic(auto, using(crate::proofs::AxisLemmas::place_fits, crate::proofs::AxisLemmas::product_fits))]
    pub fn place(&self, at: u64) -> u16
        ensures last { IsPlace self.now.from self.now.until self.now.places at result }
        ensures within { result ≤ self.now.places }
    {
        let span = self.until - self.from;
        let gone = at.saturating_sub(self.from).min(span);
        (gone * u64::from(self.places) / span) as u16
    }

    /// Where a span begins and ends. One that ends before it begins, since the clock was set back, ends where it begins.
    pub fn edges(&self, from: u64, until: u64) -> (u16, u16)
        ensures begin { IsPlace self.now.from self.now.until self.now.places from result.0 }
        ensures end { IsPlace self.now.from self.now.until self.now.places (max from until) result.1 }
        ensures ordered { result.0 ≤ result.1 }
        ensures within { result.1 ≤ self.now.places }
    {
        (self.place(from), self.place(until.max(from)))
    }

    /// Which places a span fills: from the first up to, and without, the second. It is one at least, and none is outside.
    pub fn filled(&self, from: u64, until: u64) -> (u16, u16)
        ensures begin { (place : ℕ) → IsPlace self.now.from self.now.until self.now.places from place →
            result.0 ≡ min place (self.now.places - 1) }
        ensures end { (place : ℕ) → IsPlace self.now.from self.now.until self.now.places (max from until) place →
            result.1 ≡ max place (result.0 + 1) }
        ensures some { result.0 < result.1 }
        ensures within { result.1 ≤ max self.now.places 1 }
    {
        let (begin, end) = self.edges(from, until);
        let first = begin.min(self.places.saturating_sub(1));
        (first, end.max(first + 1))
    }
}
