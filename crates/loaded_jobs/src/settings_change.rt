//! A setting in two parts: what can be refused, and what cannot.

ghost use Rattle.std.specs.Prelude.{◌≡◌, Bool, true, false, ◌||◌, [], Some, None, IfOk, IfErr, map};
ghost use Rattle.history_model.specs.declared.Ask.TheVariants as asks;
ghost use Rattle.history_model.specs.Items.{Asked};
ghost use Rattle.std.specs.List.{flat_map};
ghost use Rattle.history_model.specs.FactsOfPast.{reply};
ghost use Rattle.history_model.specs.Machine.{State, UnloadJob, past_of};
ghost use Rattle.history_model.specs.Step.{with_orders, orders_of};
ghost use Rattle.history_model.specs.Acceptance.{refusal_in, refusal_at, refusal_stored};
ghost use Rattle.loaded_jobs.specs.StandsFor.{KeepsState, acts_in};
ghost use Rattle.loaded_jobs.specs.TableOutcomes.{IsSameFor, Means};
ghost use Rattle.loaded_jobs.specs.Goes.{GoesWithSetting};
ghost use Rattle.loaded_jobs.specs.SettingChanges.{set_of, IsReadySet, withdrawn};
ghost use Rattle.loaded_jobs.specs.Begun.{IsBegun};
ghost use Rattle.loaded_jobs.specs.JobSlots.{rows, gone, name};
ghost use Rattle.loaded_jobs.specs.Counts.{counts, IsCounted};
ghost use Rattle.loaded_jobs.specs.Numbers.{row_names};
ghost use Rattle.loaded_jobs.specs.Room.{HasSameRoom};
ghost use Rattle.loaded_jobs.specs.Touching.{SparesOthers};

use crate::jobs::Jobs;
use crate::settings::set;
use history_model::{Refusal, Setting, Text, is_label};
use std::alloc::Global;

/// A label's new setting, and whether its job is to be removed.
#[derive(Drop)]
pub struct NewSetting {
    pub setting: Setting,
    pub unload: bool,
}

impl Jobs {
    ghost use Rattle.loaded_jobs.specs.Sound.{seen_table, IsWhole};
    ghost use Rattle.loaded_jobs.specs.Alike.{IsAlike};

    /// Makes a setting ready: looks for each refusal but the store's, and takes all the memory.
    pub fn make_setting(
        &mut self,
        alloc: Global,
        label: &str,
        disabled: bool,
        unload: bool,
    ) -> Result<NewSetting, Refusal>
        requires sound { IsWhole self.old }
        ensures label { IfOk result (λ ready. ready.setting.label ≡ label.now) }
        ensures disabled { IfOk result (λ ready. ready.setting.disabled ≡ (disabled || unload)) }
        ensures unload { IfOk result (λ ready. ready.unload ≡ unload) }
        ensures admitted { IfOk result (λ _. (s : State) (store : Bool) →
            KeepsState (seen_table self.old) s →
            refusal_in s (set_of label.now disabled unload store) ≡ refusal_stored true store) }
        ensures ready { IfOk result (IsReadySet (seen_table self.new)) }
        ensures refused { IfErr result (λ refusal. Means refusal ((s : State) (store : Bool) →
            KeepsState (seen_table self.old) s →
            refusal_in s (set_of label.now disabled unload store) ≡ Some refusal)) }
        ensures same { IsSameFor (seen_table self.old) (seen_table self.new) }
        ensures rows { (seen_table self.new).rows ≡ (seen_table self.old).rows }
        ensures sound { IsWhole self.new }
    {
        if !is_label(label) {
            return Err(Refusal::BadRequest);
        }
        self.begin();
        if unload {
            if let Err(refusal) = self.admit_unload(label) {
                return Err(refusal);
            }
        }
        let Ok(()) = self.settings.reserve(1) else {
            return Err(Refusal::NoMemory);
        };
        match Text::copy_of(alloc, label) {
            Ok(label) => {
                let setting = Setting {
                    label,
                    disabled: disabled || unload,
                };
                Ok(NewSetting { setting, unload })
            }
            Err(_) => Err(Refusal::NoMemory),
        }
    }

    /// Looks for the refusals of an unload, but for the store's.
    fn admit_unload(&self, label: &str) -> Result<(), Refusal>
        requires { IsBegun self.now }
        ensures { (s : State) → KeepsState (seen_table self.now) s →
            result ≡ reply (refusal_at (past_of s label.now) (Asked asks.Unload)) }
    {
        match self.refusal_there(label) {
            None => Err(Refusal::NoSuchJob),
            Some(Refusal::Removing) => Err(Refusal::Removing),
            Some(_) => Ok(()),
        }
    }

    /// Makes the setting, and with `unload` removes its job, which alone is visited.
    pub fn change(&mut self, ready: NewSetting)
        requires sound { IsWhole self.old }
        requires ready { IsReadySet (seen_table self.old) ready }
        ensures goes { GoesWithSetting ready (seen_table self.old) (seen_table self.new) }
        ensures whole { IsWhole self.new }
    {
        let NewSetting { setting, unload } = ready;
        self.withdraw(setting.label.as_str(), unload);
        set(&mut self.settings, setting);
    }

    /// Removes the job with the label, if that is wanted. No other job is visited.
    fn withdraw(&mut self, label: &str, unload: bool)
        requires sound { IsWhole self.old }
        ensures kept { (s : State) → KeepsState (seen_table self.old) s →
            (unload ≡ true → refusal_in s (UnloadJob label.now false true) ≡ None) →
            KeepsState (seen_table self.new) (with_orders (withdrawn label.now unload s)) }
        ensures orders { (s : State) → KeepsState (seen_table self.old) s →
            (unload ≡ true → refusal_in s (UnloadJob label.now false true) ≡ None) →
            acts_in (seen_table self.new) ≡ flat_map orders_of (withdrawn label.now unload s).jobs }
        ensures counted { IsCounted (counts (seen_table self.old).rows) (seen_table self.new).rows
            (seen_table self.new).gone (seen_table self.new).visited }
        ensures spared { (disabled store : Bool) →
            SparesOthers (set_of label.now disabled unload store) (seen_table self.old) (seen_table self.new) }
        ensures names { (seen_table self.new).names ≡ row_names (seen_table self.old).rows }
        ensures sound { IsWhole self.new }
        ensures alike { IsAlike self.old self.new }
        ensures room { HasSameRoom (seen_table self.old) (seen_table self.new) }
    {
        if !unload {
            self.ask_none();
            return;
        }
        if self.unload(label).is_ok() {
            return;
        }
        self.ask_none();
    }

    /// An event that is for no job: it drops the jobs that went at the last one, and asks none.
    fn ask_none(&mut self)
        requires { IsWhole self.old }
        ensures rows { rows self.new.job_slots.items ≡ rows self.old.job_slots.items }
        ensures names { map name self.new.job_slots.items ≡ row_names (rows self.old.job_slots.items) }
        ensures orders { self.new.orders.items ≡ [] }
        ensures counted { IsCounted (counts (rows self.old.job_slots.items))
            (rows self.new.job_slots.items) (gone self.new.job_slots.items) self.new.visited }
        ensures whole { IsWhole self.new }
        ensures alike { IsAlike self.old self.new }
        ensures room { HasSameRoom (seen_table self.old) (seen_table self.new) }
    {
        self.begin();
        self.visited = 0;
    }
}
