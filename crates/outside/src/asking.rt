//! The two questions that a load asks of the outside, in order: for sockets, and for a setting.

ghost use Rattle.std.specs.Prelude.{◌≡◌, ◌≤◌, ◌&&◌, true, false};
ghost use Rattle.history_model.specs.declared.TheConstants.{MAX_WALL};
ghost use Rattle.history_model.specs.Labels.{is_label};
ghost use Rattle.history_model.specs.Step.{set_if};
ghost use Rattle.outside.specs.Asking.{Asks, told_of};
ghost use Rattle.outside.specs.Stores.{AreTold, HoldsAfter, stamp_if, store_calls};

use crate::SettingStore;
use child_edge::SocketEdge;
use ctl_protocol::Outside;
use history_model::JobNo;
use history_model::definition::Def;

/// Stores that the label is enabled, if that is wanted. Says whether it was stored; what is not wanted counts as
/// stored.
fn ask_store<T: SettingStore>(
    store: &mut T,
    label: &str,
    writes_setting: bool,
    changed: u64,
) -> bool
    requires label { is_label label.now ≡ true }
    requires second { changed ≤ MAX_WALL }
    ensures told { AreTold (T.told store.old)
        (store_calls writes_setting label.now changed result) (T.told store.new) }
    ensures uncalled { writes_setting ≡ false → result ≡ true }
    ensures stored { HoldsAfter T.holds
        (set_if (writes_setting && result) label.now false) store.old store.new }
    ensures stamped { HoldsAfter T.stamped
        (stamp_if (writes_setting && result) label.now changed) store.old store.new }
{
    if writes_setting {
        store.set(label, false, changed)
    } else {
        true
    }
}

/// Binds the job's sockets, if it has any; then, with `writes_setting`, stores that its label is enabled since `changed`, a
/// second of Unix time. Sockets that can't be bound end it there. If the store refuses, the sockets are given up again.
pub fn ask_outside<E: SocketEdge, T: SettingStore>(
    edge: &mut E,
    store: &mut T,
    job: JobNo,
    def: &Def,
    writes_setting: bool,
    changed: u64,
) -> Outside
    requires label { is_label def.now.label ≡ true }
    requires second { changed ≤ MAX_WALL }
    ensures outside { Asks job def.now writes_setting changed result
        (told_of (E.told edge.old) (T.told store.old))
        (told_of (E.told edge.new) (T.told store.new)) }
    ensures stored { HoldsAfter T.holds
        (set_if (writes_setting && (result.bind && result.store)) def.now.label false)
        store.old store.new }
    ensures stamped { HoldsAfter T.stamped
        (stamp_if (writes_setting && (result.bind && result.store)) def.now.label changed)
        store.old store.new }
{
    if !def.has_sockets() {
        let store = ask_store(store, def.label(), writes_setting, changed);
        return Outside { bind: true, store };
    }
    match edge.bind(job, def) {
        Ok(()) => {}
        Err(_) => {
            return Outside {
                bind: false,
                store: true,
            };
        }
    }
    let stored = ask_store(store, def.label(), writes_setting, changed);
    if !stored {
        edge.release(job);
    }
    Outside {
        bind: true,
        store: stored,
    }
}
