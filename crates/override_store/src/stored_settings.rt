//! The store as the place where a launcher's settings last: it holds each setting that was made, and so does the store that is
//! opened again.

ghost use Rattle.std.specs.Prelude.{◌≡◌, ◌⊎◌, ◌↔◌, IfErr, IfOk, None, [], reverse};
ghost use Rattle.sqlite.specs.Held.{state};
ghost use Rattle.override_store.specs.OverrideStores.{AreFit, HoldsAs, HoldsOn, HoldsSettings, HoldsStamps};
ghost use Rattle.outside.specs.declared.store.StoreFault.TheVariants as given;
ghost use Rattle.sqlite.specs.Tree.{Trees};
ghost use Rattle.sqlite.specs.View.{IsClean};

use crate::again::on_connection;
use crate::{OverrideStore, StoreFault};
use history_model::Setting;
use outside::{self, SettingStore};
use sqlite::{Alter, Connection};
use std::alloc::Global;

/// A store of settings to which a launcher's turns write. It holds what it was asked to keep as long as its disk is honest and
/// its connection open. Its contracts don't record the calls.
#[derive(Drop)]
pub struct StoredSettings<S: Alter> {
    pub store: OverrideStore<S>,
}

/// The fault for the caller. A name that is not a label counts as refused.
pub(crate) fn fault_of(fault: StoreFault) -> outside::StoreFault
    ensures memory { result ≡ given.NoMemory ↔ (fault ≡ StoreFault.NoMemory) }
{
    match fault {
        StoreFault::NoMemory => outside::StoreFault::NoMemory,
        StoreFault::Refused | StoreFault::Full | StoreFault::Foreign => {
            outside::StoreFault::Refused
        }
    }
}

impl<S: Alter> SettingStore for StoredSettings<S> {
    ghost holds = { λ s settings. HoldsSettings (state S.Store s.store) settings };

    ghost stamped = { λ s stamps. HoldsStamps (state S.Store s.store) stamps };

    ghost told = { λ s. None };

    ghost may_give = { λ s answer. Unit {0} };

    fn set(&mut self, label: &str, disabled: bool, changed: u64) -> bool {
        match self.store.set(label, disabled, changed) {
            Ok(()) => true,
            Err(_) => false,
        }
    }

    fn all(&mut self, alloc: Global) -> Result<Vec<Setting>, outside::StoreFault> {
        match self.store.all(alloc) {
            Ok(all) => Ok(all),
            Err(fault) => Err(fault_of(fault)),
        }
    }
}

/// The store on a connection, and the settings that it holds, by rising bytes of their labels. `NoMemory` and `Refused` as
/// `OverrideStore::open_or_give`, and `Foreign` if a stored name is not a label. A fault returns the storage of the connection, whose
/// database is as it was or wholly moved.
pub fn opened<S: Alter + Drop>(
    alloc: Global,
    conn: Connection<S>,
) -> Result<(StoredSettings<S>, Vec<Setting>), (StoreFault, S)>
    ensures holds { IfOk result (λ r. AreFit (state S.Store conn).committed.trees →
        HoldsSettings (state S.Store r.0.store) (reverse r.1.items)) }
    ensures stamped { IfOk result (λ r. AreFit (state S.Store conn).committed.trees →
        HoldsStamps (state S.Store r.0.store) []) }
    ensures left { IfErr result (λ e. IsClean (S.Store.view e.1) →
        AreFit (state S.Store conn).committed.trees → (db : Trees) → S.Store.recovers e.1 db →
        (state S.Store conn).may_leave db ⊎ HoldsAs (state S.Store conn).committed.trees db) }
{
    let mut store = match OverrideStore::open_or_give(alloc, conn) {
        Ok(store) => store,
        Err(refused) => return Err(refused),
    };
    match store.all(alloc) {
        Ok(all) => Ok((StoredSettings { store }, all)),
        Err(fault) => Err((fault, store.close_on().into_store())),
    }
}

/// The store closed and opened again on its connection: it holds the settings that it held. Refused as
/// `OverrideStore::open_on`; the store is then dropped.
pub fn opened_again<S: Alter + Drop>(
    alloc: Global,
    settings: StoredSettings<S>,
) -> Result<StoredSettings<S>, StoreFault>
    ensures holds { IfOk result (λ r.
        HoldsOn (state S.Store settings.store) (state S.Store r.store)) }
{
    let StoredSettings { store } = settings;
    let store = on_connection(alloc, store)?;
    Ok(StoredSettings { store })
}
