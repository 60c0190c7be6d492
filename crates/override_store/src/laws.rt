//! What holds of each store that is opened again, only by the clauses of the calls. The calls are `close_on` and
//! `open_on`; `close_files`, `open_files` and `open_on`; and `all`. The functions do nothing: their contracts are the
//! laws.

ghost use Rattle.std.specs.Prelude.{◌≡◌, List, reverse};
ghost use Rattle.sqlite.specs.Closing.{IsCopied};
ghost use Rattle.sqlite.specs.Files.{Finds, file_state};
ghost use Rattle.sqlite.specs.Held.{state};
ghost use Rattle.sqlite.specs.State.{HasCleanDisk};
ghost use Rattle.sqlite_wal.specs.Reads.{AreClean};
ghost use Rattle.history_model.specs.declared.event.Setting.{Setting};
ghost use Rattle.override_store.specs.OverrideStores.{HoldsNow, IsOpenedOn, HoldsOn, StaysSame, rows_now};
ghost use Rattle.override_store.specs.Settings.{HoldsEach, ListAlike};
ghost use Rattle.override_store.specs.Places.{IsOver};
ghost use Rattle.sqlite.specs.Steps.{over_memory};

use crate::{MemoryPlace, OverrideStore, StorePlace};
use sqlite::{Alter, Connection, FileStore, MemStore};
use sqlite_disk::{Disk, Files};

/// What a store held, a store holds that `open_on` gives on the connection that `close_on` gave.
pub fn a_store_opened_again_holds_the_same<S: Alter, R: Alter>(
    store: &OverrideStore<S>,
    again: &OverrideStore<R>,
)
    ensures { IsOpenedOn (state S.Store store.now) (state R.Store again.now) →
        HoldsOn (state S.Store store.now) (state R.Store again.now) }
{
    let _ = store;
    let _ = again;
}

/// A store that is opened again on its files holds what it held before. `close_files` gave the files, `open_files` made
/// the connection of them, and `open_on` gives the second store on it. Each label has the setting and the second that
/// it had.
pub fn a_store_over_its_files_holds_the_same<D: Disk>(
    store: &OverrideStore<FileStore<D>>,
    files: &Files<D>,
    conn: &Connection<FileStore<D>>,
    again: &OverrideStore<FileStore<D>>,
)
    ensures holds { (AreClean D.Disk files.now.log files.now.db → IsCopied store.now files.now) →
        (HasCleanDisk (file_state conn.now) → Finds files.now conn.now) →
        IsOpenedOn (file_state conn.now) (file_state again.now) →
        HoldsOn (file_state store.now) (file_state again.now) }
    ensures same { (AreClean D.Disk files.now.log files.now.db → IsCopied store.now files.now) →
        (HasCleanDisk (file_state conn.now) → Finds files.now conn.now) →
        IsOpenedOn (file_state conn.now) (file_state again.now) →
        StaysSame (file_state store.now) (file_state again.now) }
{
    let _ = store;
    let _ = files;
    let _ = conn;
    let _ = again;
}

/// For each label, a list that `all` gives has the setting that the store holds.
pub fn what_all_lists_is_what_is_held<S: Alter>(store: &OverrideStore<S>)
    ensures { (settings listed : List Setting) → HoldsNow (state S.Store store.now) settings →
        HoldsEach (rows_now (state S.Store store.now)) (reverse listed) →
        ListAlike (reverse listed) settings }
{
    let _ = store;
}

/// A place in memory is one that `LastingSettings::keep` asks for: it says of its connections what a stop leaves under them.
pub fn a_place_in_memory_is_over_its_connections(place: &MemoryPlace)
    ensures { IsOver over_memory
        ⟦<MemoryPlace as StorePlace<Connection<MemStore>, MemStore>>⟧.finds
        ⟦<MemoryPlace as StorePlace<Connection<MemStore>, MemStore>>⟧.over
        ⟦<MemoryPlace as StorePlace<Connection<MemStore>, MemStore>>⟧.after
        ⟦<MemoryPlace as StorePlace<Connection<MemStore>, MemStore>>⟧.is_open }
{
    let _ = place;
}
