//! A store of settings in memory, which refuses if it was made so.

ghost use Rattle.std.specs.Prelude.{◌≡◌, None, MatchResult};
ghost use Rattle.trials.specs.MemoryAnswers.{MayGive};

use history_model::{Setting, Text};
use outside::{SettingStore, StoreFault};
use std::alloc::Global;

/// A store that takes each setting, or refuses each; and gives its settings, or does not.
#[derive(Drop)]
pub struct MemoryStore {
    pub alloc: Global,
    /// What it holds, oldest first.
    pub held: Vec<Setting>,
    /// What it answers if it gets a setting.
    pub answer: bool,
    /// What it answers if it is asked for its settings and does not give them.
    pub fault: Option<StoreFault>,
    /// How often it got a setting.
    pub asked: u64,
}

impl MemoryStore {
    /// Keeps the setting if it answers so and there is memory for it, and returns whether it did.
    fn keep(&mut self, label: &str, disabled: bool) -> bool {
        if !self.answer {
            return false;
        }
        let Ok(label) = Text::copy_of(self.alloc, label) else {
            return false;
        };
        self.held.push(Setting { label, disabled }).is_ok()
    }

    /// Copies of what it holds.
    fn copies(&self, alloc: Global) -> Result<Vec<Setting>, StoreFault>
        ensures { MatchResult result (λ all. all.items ≡ self.now.held.items)
            (λ fault. fault ≡ StoreFault.NoMemory) }
    {
        let mut all = Vec::new(alloc);
        for setting in &self.held {
            let setting = copied(alloc, setting)?;
            match all.push(setting) {
                Ok(()) => {}
                Err(_) => return Err(StoreFault::NoMemory),
            }
        }
        Ok(all)
    }
}

fn copied(alloc: Global, setting: &Setting) -> Result<Setting, StoreFault>
    ensures { MatchResult result (λ copy. copy ≡ setting.now)
        (λ fault. fault ≡ StoreFault.NoMemory) }
{
    match Text::copy_of(alloc, setting.label.as_str()) {
        Ok(label) => Ok(Setting {
            label,
            disabled: setting.disabled,
        }),
        Err(_) => Err(StoreFault::NoMemory),
    }
}

impl SettingStore for MemoryStore {
    ghost holds = { λ s settings. Unit {0} };

    ghost stamped = { λ s stamps. Unit {0} };

    ghost told = { λ s. None };

    ghost may_give = { λ s answer. MayGive s.held.items s.fault answer };

    fn set(&mut self, label: &str, disabled: bool, _changed: u64) -> bool {
        self.asked = self.asked.saturating_add(1);
        self.keep(label, disabled)
    }

    fn all(&mut self, alloc: Global) -> Result<Vec<Setting>, StoreFault> {
        if let Some(fault) = self.fault {
            return Err(fault);
        }
        match self.copies(alloc) {
            Ok(all) => Ok(all),
            Err(fault) => Err(fault),
        }
    }
}
