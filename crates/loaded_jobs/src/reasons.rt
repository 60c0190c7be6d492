//! Why a loaded job has no spawn due, when time alone may change that, and whether its label is disabled.

ghost use Rattle.std.specs.Prelude.{◌≡◌};
ghost use Rattle.std.specs.Option.{option_map};
ghost use Rattle.history_model.specs.Machine.{State, past_of, is_disabled};
ghost use Rattle.history_model.specs.Clock.{definition_of};
ghost use Rattle.history_model.specs.Reasons.{reasons_of};
ghost use Rattle.loaded_jobs.specs.StandsFor.{KeepsState};
ghost use Rattle.loaded_jobs.specs.Waking.{spawning, demanding, holding, HasMoments};

use crate::jobs::Jobs;
use crate::settings;
use history_model::{DemandKind, Reasons};
use job_core::Moments;

impl Jobs {
    ghost use Rattle.loaded_jobs.specs.Sound.{seen_table, IsSound};

    /// What keeps the spawn of the job with this label from being due, at the last clock reading; none if no such job is loaded.
    pub fn reasons(&self, label: &str) -> Option<Reasons>
        requires { IsSound self.now }
        ensures { (s : State) → KeepsState (seen_table self.now) s →
            result ≡ option_map reasons_of (past_of s label.now) }
    {
        match self.here(label) { // for the proof
            None => None,
            Some(job_slot) => Some(job_slot.core.reasons(self.reading)),
        }
    }

    /// From when on TERM and KILL are due for the run of the job with this label, and when its interval is over.
    pub fn moments(&self, label: &str) -> Option<Moments>
        requires { IsSound self.now }
        ensures { (s : State) → KeepsState (seen_table self.now) s →
            HasMoments (past_of s label.now) result }
    {
        match self.here(label) { // for the proof
            None => None,
            Some(job_slot) => Some(job_slot.core.moments(self.reading)),
        }
    }

    /// The time from which a clock reading makes the job's spawn due, if only the clock goes on and no calendar entry fires.
    pub fn spawns_from(&self, label: &str) -> Option<u64>
        requires { IsSound self.now }
        ensures { (s : State) → KeepsState (seen_table self.now) s →
            result ≡ spawning (past_of s label.now) }
    {
        match self.here(label) { // for the proof
            None => None,
            Some(job_slot) => job_slot.core.spawns_from(self.reading),
        }
    }

    /// What made the job's pending start request.
    pub fn latest_demand(&self, label: &str) -> Option<DemandKind>
        requires { IsSound self.now }
        ensures { (s : State) → KeepsState (seen_table self.now) s →
            result ≡ demanding (past_of s label.now) }
    {
        match self.here(label) { // for the proof
            None => None,
            Some(job_slot) => job_slot.core.latest_demand(),
        }
    }

    /// The path that holds the job wanted.
    pub fn path_that_holds(&self, label: &str) -> Option<&str>
        requires { IsSound self.now }
        ensures { (s : State) → KeepsState (seen_table self.now) s →
            option_map (λ path. path.now) result ≡ holding (past_of s label.now) }
    {
        match self.here(label) { // for the proof
            None => None,
            Some(job_slot) => job_slot.core.path_that_holds(),
        }
    }

    /// Whether the label of the job is disabled: its setting decides, or else its definition. None if no such job is loaded.
    pub fn is_disabled(&self, label: &str) -> Option<bool>
        requires { IsSound self.now }
        ensures { (s : State) → KeepsState (seen_table self.now) s →
            result ≡ option_map (λ past. is_disabled s label.now (definition_of past).disabled) (past_of s label.now) }
    {
        match self.here(label) { // for the proof
            None => None,
            Some(job_slot) => Some(settings::is_disabled(
                &self.settings,
                label,
                job_slot.def.disabled(),
            )),
        }
    }
}
