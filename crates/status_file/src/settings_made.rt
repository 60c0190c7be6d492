//! When the labels of loaded jobs were disabled, as far as it happened under this launcher: the store keeps no time of a setting.

ghost use Rattle.std.specs.Prelude.{◌≡◌};
ghost use Rattle.status_file.specs.Settings.{seen_on, known_since};

use crate::jobs::{NUMBERS, is_loaded, job_of};
use history_model::{JobNo, Reading};
use job_table::JobTable;
use std::alloc::Global;

/// Whether the label of a job was disabled when it was seen last, and when it came to that, if that was seen.
#[derive(Clone, Copy)]
pub(crate) struct SeenSetting {
    pub(crate) is_disabled: bool,
    pub(crate) at: Option<Reading>,
}

// What is seen of a job now that its label is disabled, or is not.
fn seen_on(before: Option<SeenSetting>, is_disabled: bool, at: Reading) -> SeenSetting
    ensures { result ≡ seen_on before is_disabled at }
{
    match before {
        Some(seen) if seen.is_disabled == is_disabled => seen,
        Some(_) => SeenSetting {
            is_disabled,
            at: Some(at),
        },
        None => SeenSetting {
            is_disabled,
            at: None,
        },
    }
}

// Since when the label is disabled, if it is and that is known.
fn known_since(seen: Option<SeenSetting>) -> Option<Reading>
    ensures { result ≡ known_since seen }
{
    match seen {
        Some(seen) if seen.is_disabled => seen.at,
        _ => None,
    }
}

/// What was seen of the settings of loaded jobs, by their numbers. Want of memory leaves a job out.
#[derive(Drop)]
pub(crate) struct SettingsMade {
    jobs: Vec<Option<SeenSetting>>,
}

impl SettingsMade {
    /// Nothing was seen yet.
    pub(crate) fn new(alloc: Global) -> SettingsMade {
        SettingsMade {
            jobs: Vec::new(alloc),
        }
    }

    /// Looks at each loaded job of the table, at this clock reading.
    pub(crate) fn see_all(&mut self, table: &JobTable, at: Reading) {
        for job in 0..NUMBERS {
            if is_loaded(table, job) {
                self.see_loaded(table, job, at);
            }
        }
    }

    fn see_loaded(&mut self, table: &JobTable, job: JobNo, at: Reading) {
        if let Some((label, _)) = job_of(table, job) {
            if let Some(is_disabled) = table.is_disabled(label) {
                self.see(job, is_disabled, at);
            }
        }
    }

    fn see(&mut self, job: JobNo, is_disabled: bool, at: Reading) {
        let place = job as usize;
        for _ in self.jobs.len()..place.saturating_add(1) {
            if self.jobs.push(None).is_err() {
                return;
            }
        }
        if let Some(slot) = self.jobs.get_mut(place) {
            *slot = Some(seen_on(*slot, is_disabled, at));
        }
    }

    /// The job was removed.
    pub(crate) fn gone(&mut self, job: JobNo) {
        if let Some(slot) = self.jobs.get_mut(job as usize) {
            *slot = None;
        }
    }

    /// When the label of this job was disabled, if it is and that happened under this launcher.
    pub(crate) fn of(&self, job: JobNo) -> Option<Reading> {
        match self.jobs.get(job as usize) {
            Some(seen) => known_since(*seen),
            None => None,
        }
    }
}
