//! A setting of a label: it is made ready, the store is asked, its line is written, and if the store answered well the
//! setting is made.

ghost use Rattle.std.specs.Prelude.{◌≡◌, ◌||◌, ℕ, Bool, List, [], None, Some, true, false};
ghost use Rattle.history_model.specs.Acceptance.{refusal_in};
ghost use Rattle.history_model.specs.Machine.{State};
ghost use Rattle.loaded_jobs.specs.SettingChanges.{set_of, IsReadySet};
ghost use Rattle.loaded_jobs.specs.StandsFor.{KeepsState};
ghost use Rattle.launcher.specs.Journals.{JournalState, Grows};
ghost use Rattle.outside.specs.Asking.{told_of};
ghost use Rattle.outside.specs.Stores.{HoldsAfter};
ghost use Rattle.launcher.specs.Hosts.{stands};
ghost use Rattle.launcher.specs.HostTurns.{IsLed, trace};
ghost use Rattle.loaded_jobs.specs.Loads.{refused_with};
ghost use Rattle.launcher.specs.LoadTurns.{SetTurnOf, Sets, IsUntouched, is_memory, settings_after, stamps_after};

use crate::host::Host;
use crate::request_lines::{note_set, note_set_refused};
use child_edge::{ChildEdge, SocketEdge};
use history_model::Refusal;
use job_defs::is_label;
use job_table::NewSetting;
use outside::SettingStore;
use std::alloc::Global;
use std::io::Write;

/// What a setting came to.
#[derive(Clone, Copy)]
pub(crate) struct Changed {
    /// Whether it was stored. What the store was not asked counts as stored.
    pub stored: bool,
    /// Why it was refused, if it was.
    pub reply: Result<(), Refusal>,
}

/// Drops a setting that was made ready.
fn discard(_ready: NewSetting) {}

impl<T: SettingStore, E: ChildEdge + SocketEdge, W: Write> Host<T, E, W> {
    /// Makes the setting that was made ready, carries out what is ordered, and makes each answer the next event.
    fn set_ready(&mut self, alloc: Global, ready: NewSetting)
        requires ready { IsReadySet self.old.table ready }
        requires empty { self.old.answers ≡ [] }
        ensures made { (s : State) (store : Bool) (line : List ℕ) (written : JournalState) →
            Grows written self.old.journal line → IsLed s → KeepsState self.old.table s
            → refusal_in s (set_of ready.setting.label ready.setting.disabled ready.unload store)
            ≡ None
            → Sets s (set_of ready.setting.label ready.setting.disabled ready.unload store) line
            self.old.table self.new.table
            (trace (E.told self.old.edge) written)
            (trace (E.told self.new.edge) self.new.journal) }
        ensures store { self.new.store ≡ self.old.store }
    {
        self.table.commit_set(ready);
        self.finish(alloc);
    }

    /// A turn that begins with a setting of a label, as `enable` and `disable` of launchctl(1). With `unload` it is as
    /// `unload -w`, which disables the label and removes its job. The store keeps the second of the last clock reading
    /// with it. All memory is taken before the store is asked, but for that of the journal's lines: want of it closes
    /// the journal and changes nothing else. The journal gets the line of the setting with what the store answered,
    /// also if it is refused, and then the line of each answer.
    ///
    /// Refusals: BadRequest (no label); with `unload` then NoSuchJob, Removing; NoMemory; StoreRefused, if the setting
    /// was not stored. A refused setting leaves the state that the table represents as it was. One that found no memory
    /// has no line.
    pub(crate) fn set(
        &mut self,
        alloc: Global,
        label: &str,
        disabled: bool,
        unload: bool,
    ) -> Changed
        ensures memory { is_memory (refused_with result.reply) ≡ true →
            IsUntouched self.old.table self.new.table
            (told_of (E.told self.old.edge) (T.told self.old.store))
            (told_of (E.told self.new.edge) (T.told self.new.store)) }
        ensures silent { is_memory (refused_with result.reply) ≡ true →
            self.new.journal ≡ self.old.journal }
        ensures turn { is_memory (refused_with result.reply) ≡ false → (s : State) → IsLed s →
            KeepsState self.old.table s
            → SetTurnOf s label.now disabled unload result.stored (refused_with result.reply)
            (stands E.told T.told self.old) (stands E.told T.told self.new) }
        ensures stored { (s : State) → KeepsState self.old.table s
            → T.holds self.old.store s.settings
            → T.holds self.new.store (settings_after (refused_with result.reply) s
            (set_of label.now disabled unload result.stored)) }
        ensures stamped { (s : State) → KeepsState self.old.table s → HoldsAfter T.stamped
            (stamps_after (Some label.now) (refused_with result.reply) s.reading.wall)
            self.old.store self.new.store }
    {
        if !is_label(label) {
            note_set(&mut self.journal, alloc, label, disabled, unload, true);
            return Changed {
                stored: true,
                reply: Err(Refusal::BadRequest),
            };
        }
        self.answers.clear();
        let changed = self.table.reading().wall;
        match self.table.prepare_set(alloc, label, disabled, unload) {
            Ok(ready) => {
                let stored = self.store.set(label, ready.setting.disabled, changed);
                note_set(&mut self.journal, alloc, label, disabled, unload, stored);
                if stored {
                    self.set_ready(alloc, ready);
                    Changed {
                        stored,
                        reply: Ok(()),
                    }
                } else {
                    discard(ready);
                    Changed {
                        stored,
                        reply: Err(Refusal::StoreRefused),
                    }
                }
            }
            Err(refusal) => {
                note_set_refused(&mut self.journal, alloc, label, disabled, unload, refusal);
                Changed {
                    stored: true,
                    reply: Err(refusal),
                }
            }
        }
    }
}
