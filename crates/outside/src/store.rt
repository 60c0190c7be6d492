//! Where the settings of labels last.

ghost use Rattle.std.specs.Prelude.{◌≡◌, ◌≤◌, List, [], ◌∷◌, Option, Result, Ok, Err, IfOk, MatchResult, reverse, true};
ghost use Rattle.history_model.specs.declared.event.Setting.{Setting as Held};
ghost use Rattle.history_model.specs.declared.TheConstants.{MAX_WALL};
ghost use Rattle.history_model.specs.Labels.{is_label};
ghost use Rattle.history_model.specs.Step.{set_if};
ghost use Rattle.outside.specs.Stores.{Stamp, StoreCall, AreTold, HoldsAfter, set_call, stamp_if};

use history_model::Setting;
use std::alloc::Global;

/// Why a store does not give its settings.
#[derive(Clone, Copy, PartialEq, Eq)]
pub enum StoreFault {
    /// Memory was refused.
    NoMemory,
    /// They can't be read, or are not settings of labels.
    Refused,
}

/// Keeps the settings of labels, or refuses one.
pub trait SettingStore {
    ghost use Rattle.outside.specs.declared.store.StoreFault.{StoreFault};

    /// The store holds these settings, newest first, as long as it is what the implementation says of an honest one.
    ghost holds: { Self → List Held → Type 0 };

    /// The store has these seconds of its labels' settings, newest first, as long as it is what the implementation says.
    ghost stamped: { Self → List Stamp → Type 0 };

    /// The settings that it was asked to keep, with its answers, oldest first. A store that does not record them has
    /// none.
    ghost told: { Self → Option (List StoreCall) };

    /// What it may answer if it is asked for its settings, oldest first. A store that says nothing of that may answer
    /// anything.
    ghost may_give: { Self → Result (List Held) StoreFault → Type 0 };

    /// Stores that the label is disabled, or enabled, and the second of Unix time in which that was said. Says whether
    /// it was stored; a refused setting leaves the store as it was.
    fn set(&mut self, label: &str, disabled: bool, changed: u64) -> bool
        requires label { is_label label.now ≡ true }
        requires second { changed ≤ MAX_WALL }
        ensures told { AreTold (Self.told self.old)
            (set_call label.now disabled changed result ∷ []) (Self.told self.new) }
        ensures stored { HoldsAfter Self.holds
            (set_if result label.now disabled) self.old self.new }
        ensures stamped { HoldsAfter Self.stamped
            (stamp_if result label.now changed) self.old self.new };

    /// The settings that it holds, the last of a label deciding. Refused as `StoreFault` says. Nothing is changed by it.
    fn all(&mut self, alloc: Global) -> Result<Vec<Setting>, StoreFault>
        ensures told { AreTold (Self.told self.old) [] (Self.told self.new) }
        ensures same { HoldsAfter Self.holds (λ settings. settings) self.old self.new }
        ensures kept { HoldsAfter Self.stamped (λ stamps. stamps) self.old self.new }
        ensures answers { MatchResult result
            (λ all. Self.may_give self.old (Ok all.items))
            (λ fault. Self.may_give self.old (Err fault)) }
        ensures gives { IfOk result (λ all.
            HoldsAfter Self.holds (λ _. reverse all.items) self.old self.new) };
}
