//! A table with no job.

ghost use Rattle.std.specs.Prelude.{◌≡◌, [], Some, None, IfOk, MatchResult};
ghost use Rattle.std.specs.List.{list_all};
ghost use Rattle.history_model.specs.Labels as labels;
ghost use Rattle.history_model.specs.Machine.{opened};
ghost use Rattle.calendar_due.specs.ZoneRules.{minute_at};
ghost use Rattle.loaded_jobs.specs.StandsFor.{KeepsState};
ghost use Rattle.loaded_jobs.specs.Opening.{opening_refusal};

use crate::events::is_clock_refused;
use crate::gone_jobs::Gone;
use crate::jobs::{Index, Jobs};
use crate::settings::Settings;
use calendar_due::Zone;
use history_model::{Reading, Refusal, Setting, is_label};
use place_set::PlaceSet;
use slab::Slab;
use std::alloc::Global;
use timer_heap::TimerHeap;

impl Jobs {
    ghost use Rattle.loaded_jobs.specs.Sound.{seen_table, IsWhole};

    /// No job yet; the settings are oldest first.
    pub fn new(
        alloc: Global,
        reading: Reading,
        zone: Zone,
        overrides: Vec<Setting>,
    ) -> Result<Jobs, Refusal>
        ensures opened { IfOk result (λ jobs.
            KeepsState (seen_table jobs)
            (opened
            (record { reading = reading; zone = minute_at zone; overrides = overrides.items }))) }
        ensures sound { IfOk result IsWhole }
        ensures refused { MatchResult result (λ _. opening_refusal reading overrides.items
            ≡ None) (λ refusal. opening_refusal reading overrides.items ≡ Some refusal) }
    {
        if !are_labels(&overrides) {
            return Err(Refusal::BadRequest);
        }
        if is_clock_refused(reading, reading) {
            return Err(Refusal::ClockRefused);
        }
        Ok(Jobs {
            reading,
            zone,
            settings: Settings::new(overrides),
            is_shutting_down: false,
            job_slots: Vec::new(alloc),
            numbers: Slab::new(alloc),
            orders: Vec::new(alloc),
            visited: 0,
            index: Index {
                timers: heap(alloc),
                marked: PlaceSet::new(alloc),
                places: Vec::new(alloc),
            },
            gone: Gone::Nobody,
            has_calendars: false,
            triggers: Vec::new(alloc),
        })
    }
}

/// Whether each setting is of a label.
fn are_labels(settings: &[Setting]) -> bool
    ensures { result ≡ list_all (λ setting. labels.is_label setting.label) settings.now }
{
    settings
        .iter()
        .all(|setting| is_label(setting.label.as_str()))
}

/// An empty heap, which takes no memory.
fn heap(alloc: Global) -> TimerHeap
    ensures { result ≡ record { moments = [] } }
{
    match TimerHeap::new(alloc) {
        Ok(heap) => heap,
        Err(_) => unreachable!(),
    }
}
