//! What is counted of the runs of labels over all their loads, as far as journals reach back.

use std::alloc::{AllocError, Global};
use std::collections::BTreeMap;

/// What is counted of the runs of a label.
#[derive(Clone, Copy)]
pub struct RunCount {
    /// Starts that were ordered, refused ones too.
    pub starts: u64,
    /// Runs that failed (`run_log::is_failure`).
    pub failures: u64,
    /// Starts that the system refused.
    pub refusals: u64,
    /// When a run last exited with code 0, in seconds of Unix time.
    pub succeeded: Option<u64>,
    /// Whether TERM or KILL was ordered since the last start.
    pub is_ordered_to_end: bool,
}

/// Of a label without a start.
const NOTHING: RunCount = RunCount {
    starts: 0,
    failures: 0,
    refusals: 0,
    succeeded: None,
    is_ordered_to_end: false,
};

/// The counts of some labels from a second on.
#[derive(Drop)]
pub struct RunCounts {
    items: BTreeMap<String, RunCount>,
    /// From which second of Unix time on.
    pub since: u64,
}

impl RunCounts {
    /// No label is counted yet.
    pub fn new(alloc: Global, since: u64) -> RunCounts {
        RunCounts {
            items: BTreeMap::new(alloc),
            since,
        }
    }

    /// From now on this label is counted.
    pub fn add_label(&mut self, alloc: Global, label: &str) -> Result<(), AllocError> {
        let label = String::from_str(alloc, label)?;
        match self.items.insert(label, NOTHING) {
            Ok(_) => Ok(()),
            Err(refused) => {
                drop(refused);
                Err(AllocError)
            }
        }
    }

    /// The count of a label, to go on with. None: the label is not counted.
    pub fn of_mut(&mut self, label: &str) -> Option<&mut RunCount> {
        self.items.get_mut(label)
    }

    /// The count of a label. None: the label is not counted.
    pub fn of(&self, label: &str) -> Option<RunCount> {
        match self.items.get(label) {
            Some(count) => Some(*count),
            None => None,
        }
    }
}
