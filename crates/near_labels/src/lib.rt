//! The labels that are near a label which nothing has.
#![tactic(auto)]

use std::alloc::{AllocError, Global};
use strsim::levenshtein;

/// How many labels are named at most.
const MOST_NAMED: usize = 3;

/// How many characters a label may be apart at most, to be near.
const FARTHEST: usize = 8;

/// The labels that are nearest to one, of those that were compared with it.
#[derive(Drop)]
pub struct Near<'a> {
    distance: usize,
    labels: Vec<&'a str>,
}

impl<'a> Near<'a> {
    /// None was compared with the label.
    pub fn to(alloc: Global, label: &str) -> Near<'a> {
        Near {
            distance: (label.len() / 3).saturating_add(1).min(FARTHEST),
            labels: Vec::new(alloc),
        }
    }

    /// Compares another with the label. It stays, if none is nearer.
    pub fn compare(
        &mut self,
        alloc: Global,
        label: &str,
        other: &'a str,
    ) -> Result<(), AllocError> {
        let distance = distance_of(alloc, label, other)?;
        if distance > self.distance {
            return Ok(());
        }
        if distance < self.distance {
            self.labels.clear();
            self.distance = distance;
        }
        if self.labels.len() < MOST_NAMED {
            self.labels.push(other)?;
        }
        Ok(())
    }

    /// The nearest, in the order in which they were compared: three at most.
    pub fn labels(&self) -> &[&'a str] {
        self.labels.as_slice()
    }
}

// How many characters the labels are apart; one, if the one ends as the other.
fn distance_of(alloc: Global, label: &str, other: &str) -> Result<usize, AllocError> {
    if other.ends_with(label) || label.ends_with(other) {
        return Ok(1);
    }
    if other.len().abs_diff(label.len()) > FARTHEST {
        return Ok(usize::MAX);
    }
    levenshtein(alloc, label, other)
}
