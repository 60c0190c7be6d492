//! What holds of a launcher after any list of turns. The functions do nothing: their contracts are the laws. A turn is
//! what `launcher::Host::turn` promises of it, and the start is what `launcher::Host::new` promises. Between two turns
//! the outside may be asked other things.

ghost use Rattle.std.specs.Prelude.{◌≡◌, List, [], Option, Some, ℕ, reverse, true};
ghost use Rattle.sqlite.specs.Held.{Held, state};
ghost use Rattle.sqlite.specs.State.{HasCleanDisk};
ghost use Rattle.history_model.specs.declared.event.Setting.{Setting};
ghost use Rattle.ctl_protocol.specs.declared.header.Header.{Header};
ghost use Rattle.override_store.specs.OverrideStores.{IsOpenedOn, setting_rows};
ghost use Rattle.override_store.specs.Settings.{HoldsEach, ListAlike};
ghost use Rattle.outside.specs.Stores.{StoreCall};
ghost use Rattle.override_store.specs.declared.lasting_settings.LastingSettings.{LastingSettings as Lasting};
ghost use Rattle.override_store.specs.KnownSettings.{HoldsLast};
ghost use Rattle.launcher.specs.declared.journal.Phase.TheVariants.{Open};
ghost use Rattle.launcher.specs.Journals.{JournalState, fresh};
ghost use Rattle.launcher.specs.Hosts.{IsNew, with_overrides};
ghost use Rattle.launcher_laws.specs.TurnRuns.{Snapshot, Turn, AreTurns};
ghost use Rattle.launcher_laws.specs.Lasting.{Lasts, settings_at_last};
ghost use Rattle.launcher_laws.specs.Replays.{IsReplayed};
ghost use Rattle.child_edge.specs.Calls.{ToldCall};

use outside::SettingStore;
use override_store::{LastingSettings, OverrideStore, StorePlace};
use sqlite::{Alter, Connection};

/// After any turns the table stands for the machine that the turns' events lead to, and the store holds that machine's settings. The
/// replies and the calls were the machine's.
pub fn the_store_holds_what_the_machine_sets<T: SettingStore>(store: &T)
    ensures { (header : Header) (calls : Option (List ToldCall)) (stores : Option (List StoreCall))
        (journal : JournalState) (first last : Snapshot T) (turns : List (Turn T)) →
        (new : IsNew header calls stores journal first.stands
        (T.holds store.now) (T.holds first.store)) →
        AreTurns T.holds first turns last →
        (list : List Setting) → T.holds store.now list → Lasts T.holds new.machine turns last }
{
    let _ = store;
}

/// A launcher's store is closed after any turns and opened again, over a disk that returns what was written. For each
/// label it then has the last setting that the launcher made. Refused settings between, and earlier openings, do not
/// matter. `listed` is what `all` gives of it. The condition: the launcher's store is not shut at its end.
pub fn a_store_opened_again_has_the_last_settings<
    S: Alter,
    P: StorePlace<Connection<S>, S>,
    R: Alter,
>(store: &LastingSettings<S, P>, again: &OverrideStore<R>)
    ensures { (header : Header) (calls : Option (List ToldCall)) (stores : Option (List StoreCall))
        (journal : JournalState) (first last : Snapshot (Lasting S P)) (turns : List (Turn (Lasting S P))) →
        (new : IsNew header calls stores journal first.stands
        (HoldsLast S.Store store.now.pattern store.now.store store.now.known.items)
        (HoldsLast S.Store first.store.pattern first.store.store first.store.known.items)) →
        AreTurns (λ (s : Lasting S P). HoldsLast S.Store s.pattern s.store s.known.items) first turns last →
        (list : List Setting) → HoldsLast S.Store store.now.pattern store.now.store store.now.known.items list →
        (at_end : Held S) → last.store.store ≡ Some at_end →
        IsOpenedOn (state S.Store at_end) (state R.Store again.now) →
        HasCleanDisk (state R.Store again.now) →
        (listed : List Setting) →
        HoldsEach (setting_rows (state R.Store again.now).now.trees) (reverse listed) →
        (lasts : Lasts (λ (s : Lasting S P). HoldsLast S.Store s.pattern s.store s.known.items)
        new.machine turns last)
        × ListAlike (reverse listed) (settings_at_last lasts) }
{
    let _ = store;
    let _ = again;
}

/// A replay of the journal writes the replies and the orders of all turns, if no write of the journal was refused. It began empty.
pub fn a_replay_writes_what_was_replied<T: SettingStore>(store: &T)
    ensures { (header : Header) (calls : Option (List ToldCall)) (stores : Option (List StoreCall))
        (first last : Snapshot T) (turns : List (Turn T)) (bytes : List ℕ) →
        (new : IsNew header calls stores (fresh (Some []) true) first.stands
        (T.holds store.now) (T.holds first.store)) →
        AreTurns T.holds first turns last →
        last.stands.journal.phase ≡ Open → last.stands.journal.bytes ≡ Some bytes →
        IsReplayed (with_overrides header new.settings) turns bytes }
{
    let _ = store;
}
