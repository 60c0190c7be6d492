//! What was set over the definitions' `Disabled`, by label.

ghost use Rattle.std.specs.Prelude.{◌≡◌, ◌<◌, ◌+◌, ◌≤◌, ◌∷◌, length, reverse, OnOk};
ghost use Rattle.std.specs.List.{filter};
ghost use Rattle.std.specs.Vec.{vec_capacity, vec_len};
ghost use Rattle.history_model.specs.Search.{first};
ghost use Rattle.history_model.specs.Machine.{sets, flag_in};
ghost use Rattle.loaded_jobs.specs.StandsFor.{KeepsSettings, with_setting};
ghost use Rattle.loaded_jobs.specs.Room.{held_with, held_after};

use crate::setting_order::{in_order, put, setting_place};
use history_model::Setting;
use std::alloc::AllocError;
use std::marker::Model;

/// The settings in byte order of labels, each label once.
#[derive(Drop)]
pub struct Settings {
    sorted: Vec<Setting>,
}

impl Model for Settings {
    ghost use Rattle.std.specs.Global.{Vec};
    ghost use Rattle.history_model.specs.declared.event.Setting.{Setting};
    ghost use Rattle.loaded_jobs.specs.TableSettings.{AreSet};

    ghost Value = { Vec Setting };

    ghost view = { λ settings. settings.sorted };

    ghost invariant = { λ settings. AreSet settings.sorted.items };
}

impl Settings {
    /// Each label's newest setting. The settings that the caller gives are oldest first. It takes no memory.
    pub fn new(overrides: Vec<Setting>) -> Settings
        ensures { KeepsSettings result.items (reverse overrides.items) }
    {
        Settings {
            sorted: in_order(overrides),
        }
    }

    /// Makes room for `more` further settings.
    pub fn reserve(&mut self, more: usize) -> Result<(), AllocError>
        ensures items { self.new.items ≡ self.old.items }
        ensures len { vec_len self.new ≡ vec_len self.old }
        ensures ok { OnOk result (vec_len self.new + more ≤ vec_capacity self.new) }
        ensures capacity { vec_capacity self.old ≤ vec_capacity self.new }
    {
        self.sorted.reserve(more)
    }
}

/// Whether the label is disabled: its setting decides, or else the definition.
pub fn is_disabled(settings: &Settings, label: &str, otherwise: bool) -> bool
    ensures { result ≡ flag_in (first (filter (sets label.now) settings.now.items)) otherwise }
{
    match setting_place(&settings.sorted, label) {
        Ok(place) => settings.sorted[place].disabled,
        Err(_) => otherwise,
    }
}

/// Makes this the setting of its label, if there is room for one more.
pub fn set(settings: &mut Settings, setting: Setting)
    requires { vec_len settings.old < vec_capacity settings.old }
    ensures kept { KeepsSettings settings.new.items (setting ∷ settings.old.items) }
    ensures held { length settings.new.items ≡ held_with setting.label settings.old.items }
    ensures room { vec_capacity settings.new ≡ vec_capacity settings.old }
{
    put(&mut settings.sorted, setting);
}

/// Makes this the setting of its label, if there is one.
pub fn set_if(settings: &mut Settings, setting: Option<Setting>)
    requires { vec_len settings.old < vec_capacity settings.old }
    ensures kept { KeepsSettings settings.new.items (with_setting setting settings.old.items) }
    ensures held { length settings.new.items ≡ held_after setting settings.old.items }
    ensures room { vec_capacity settings.new ≡ vec_capacity settings.old }
{
    if let Some(setting) = setting {
        set(settings, setting);
    }
}
