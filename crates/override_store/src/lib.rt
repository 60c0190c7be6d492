//! The settings that an administrator made of labels, enabled or disabled, kept in a database so that they last.
#![tactic(auto)]

ghost use Rattle.std.specs.Prelude.{◌≡◌, ◌≢◌, ◌⊎◌, ◌↔◌, ◌≤◌, Err, IfErr, IfOk, IsErr, IsTrue, List, OnErr, OnOk, ◌∷◌, false, map, reverse};
ghost use Rattle.std.specs.List.{IsDistinct};
ghost use Rattle.sqlite.specs.Held.{state};
ghost use Rattle.sqlite.specs.State.{HasCleanDisk, Survives};
ghost use Rattle.sqlite_disk.specs.Disk.{MoreFaults};
ghost use Rattle.sqlite.specs.Tree.{Trees};
ghost use Rattle.sqlite.specs.View.{IsClean, doubt};
ghost use Rattle.override_store.specs.KnownSettings.{HoldsKnown, HoldsTrees};
ghost use Rattle.history_model.specs.declared.TheConstants.{MAX_WALL};
ghost use Rattle.history_model.specs.Labels.{is_label, is_same};
ghost use Rattle.history_model.specs.declared.event.Setting.{Setting};
ghost use Rattle.override_store.specs.OverrideStores.{AreFit, CommitsOpen, HoldsAs, HoldsSetting, HoldsSettings, HoldsStamps, IsOurs, Between, FromOurs, IsOpenedOn, LeavesAll, LeavesOr, OpensNone, SetsOne, StaysOurs, rows_now};
ghost use Rattle.override_store.specs.Settings.{Change, HoldsEach, ListsChanges, ListsSettings, change_of, HasForeign, HoldsOneMore, ListAlike, labels_changed, labels_set};

pub mod again;
mod batch;
mod known;
mod lasting_settings;
pub mod laws;
mod lists;
mod memory_place;
mod mending;
mod open;
mod place;
mod renewal;
mod sameness;
mod statements;
mod stored_settings;

use history_model::Setting;
pub use known::{Known, MOST_LABELS};
pub use lasting_settings::{LastingSettings, NotKept, lasting};
pub use memory_place::MemoryPlace;
pub use place::{StorePlace, StoreStatus, Telling};
use sqlite::{Alter, Connection, Error, ErrorCode};
use sqlite_trees::store::Store;
use std::alloc::Global;
use std::marker::Model;
pub use stored_settings::{StoredSettings, opened, opened_again};

/// Why a store refuses.
#[derive(Clone, Copy, PartialEq, Eq)]
pub enum StoreFault {
    /// There was not enough memory.
    NoMemory,
    /// The database refused the statement, or its disk failed.
    Refused,
    /// No room was left on the disk.
    Full,
    /// A stored name is not a label.
    Foreign,
}

fn fault(error: Error) -> StoreFault
    ensures memory { result ≡ StoreFault.NoMemory
        ↔ (error ≡ Error.SqliteFailure ErrorCode.OutOfMemory) }
    ensures other { result ≢ StoreFault.Foreign }
{
    match error {
        Error::SqliteFailure(ErrorCode::OutOfMemory) => StoreFault::NoMemory,
        Error::SqliteFailure(ErrorCode::DiskFull) => StoreFault::Full,
        _ => StoreFault::Refused,
    }
}

/// The settings of labels, in a database that has the tables `overrides` and `settings` and nothing else.
/// They decide over the `Disabled` of a definition, as launchctl(1) says of `enable` and `disable`.
#[derive(Drop)]
pub struct OverrideStore<S: Alter> {
    conn: Connection<S>,
}

impl<S: Alter> Model for OverrideStore<S> {
    ghost use Rattle.sqlite.specs.Held.{Held, held_code};

    ghost Value = { Held S };

    ghost coded = { held_code S.code };

    ghost view = { λ s. s.conn };
}

impl<S: Alter + Drop> OverrideStore<S> {
    /// The store on a connection. In one transaction it makes both tables if they are missing, and moves the settings of
    /// `overrides`, the table of the first version, to `settings` with the second 0. It does not look at names. What was
    /// not committed on the connection is rolled back, and a limit or a clock that was set on it is lost.
    ///
    /// `NoMemory` and `Refused` return the storage of the connection, whose database is as it was or wholly moved.
    pub fn open_or_give(
        alloc: Global,
        conn: Connection<S>,
    ) -> Result<OverrideStore<S>, (StoreFault, S)>
        ensures opened { IfOk result (λ s. IsOpenedOn (state S.Store conn) (state S.Store s)) }
        ensures crash { IfOk result (λ s. HasCleanDisk (state S.Store s) →
            AreFit (state S.Store conn).committed.trees → LeavesAll (state S.Store s)) }
        ensures left { IfErr result (λ e. IsClean (S.Store.view e.1) →
            AreFit (state S.Store conn).committed.trees → (db : Trees) → S.Store.recovers e.1 db →
            (state S.Store conn).may_leave db ⊎ HoldsAs (state S.Store conn).committed.trees db) }
        ensures doubted { IfErr result (λ e.
            doubt (state S.Store conn).is_clean ≤ doubt (S.Store.view e.1).is_clean) }
        ensures known { IfErr result (λ e. e.0 ≢ StoreFault.Foreign) }
    {
        let mut conn = match open::renewed(alloc, conn) {
            Ok(conn) => conn,
            Err(refused) => return Err(refused),
        };
        match open::open_tables(&mut conn) {
            Ok(()) => Ok(OverrideStore { conn }),
            Err(fault) => Err((fault, conn.into_store())),
        }
    }

    /// As `open_or_give`, but a refusal drops the connection.
    pub fn open_on(alloc: Global, conn: Connection<S>) -> Result<OverrideStore<S>, StoreFault>
        ensures opened { IfOk result (λ s. IsOpenedOn (state S.Store conn) (state S.Store s)) }
        ensures crash { IfOk result (λ s. HasCleanDisk (state S.Store s) →
            AreFit (state S.Store conn).committed.trees → LeavesAll (state S.Store s)) }
        ensures known { IfErr result (λ e. e ≢ StoreFault.Foreign) }
    {
        match OverrideStore::open_or_give(alloc, conn) {
            Ok(store) => Ok(store),
            Err((fault, _)) => Err(fault),
        }
    }
}

impl<S: Alter> OverrideStore<S> {
    /// Keeps that the label is disabled, or that it is enabled, and the second of Unix time in which that was said. Once
    /// it returns Ok the setting lasts, whatever stops the machine.
    ///
    /// `NoMemory` and `Refused` change nothing. If the disk failed in between, an open then finds the settings before, or
    /// those with this one.
    pub fn set(&mut self, label: &str, disabled: bool, changed: u64) -> Result<(), StoreFault>
        requires label { IsTrue (is_label label.now) }
        requires second { changed ≤ MAX_WALL }
        ensures ok { FromOurs S.Store self.old self.new (λ old new.
            OnOk result (SetsOne old new label.now disabled changed)) }
        ensures newest { FromOurs S.Store self.old self.new (λ old new.
            OnOk result (HoldsOneMore (rows_now old) (rows_now new)
            (record { label = label.now; disabled = disabled }))) }
        ensures err { FromOurs S.Store self.old self.new (λ old new.
            IsTrue new.is_open → OnErr result (StaysOurs old new)) }
        ensures mode { FromOurs S.Store self.old self.new (λ _ new. new.in_transaction ≡ false) }
        ensures shut { FromOurs S.Store self.old self.new (λ old new. new.is_open ≡ false →
            IsErr result × MoreFaults old.faults new.faults
            × LeavesOr old new (λ db. HoldsSetting old db label.now disabled changed)) }
        ensures was_open { Between S.Store self.old self.new OpensNone }
        ensures holds { Between S.Store self.old self.new (λ old new.
            (settings : List Setting) → HoldsSettings old settings →
            OnOk result (HoldsSettings new
            (record { label = label.now; disabled = disabled } ∷ settings))
            × OnErr result (HoldsSettings new settings)) }
        ensures stamped { Between S.Store self.old self.new (λ old new.
            (changes : List Change) → HoldsStamps old changes →
            OnOk result (HoldsStamps new ((label.now, changed) ∷ changes))
            × OnErr result (HoldsStamps new changes)) }
        ensures crash { Between S.Store self.old self.new (λ old new. Survives old new (λ db.
            CommitsOpen old (HoldsSetting old db label.now disabled changed))) }
        ensures lasts { FromOurs S.Store self.old self.new (λ _ new. OnOk result (LeavesAll new)) }
        ensures ran { Between S.Store self.old self.new (λ old new.
            HasCleanDisk new → OnOk result (IsTrue old.is_open)) }
        ensures known { IfErr result (λ e. e ≢ StoreFault.Foreign) }
    {
        statements::put(&mut self.conn, label, disabled, changed)
    }

    /// Each label's setting, by rising bytes of the labels.
    ///
    /// `NoMemory` and `Refused`, and `Foreign` if a stored name is not a label. It changes nothing.
    pub fn all(&mut self, alloc: Global) -> Result<Vec<Setting>, StoreFault>
        ensures ok { FromOurs S.Store self.old self.new (λ old _.
            IfOk result (λ all. ListsSettings (rows_now old) all.items)) }
        ensures each { FromOurs S.Store self.old self.new (λ old _.
            IfOk result (λ all. HoldsEach (rows_now old) (reverse all.items))) }
        ensures once { FromOurs S.Store self.old self.new (λ _ _.
            IfOk result (λ all. IsDistinct is_same (labels_set all.items))) }
        ensures foreign { FromOurs S.Store self.old self.new (λ old _.
            result ≡ Err StoreFault.Foreign → HasForeign (rows_now old)) }
        ensures same { FromOurs S.Store self.old self.new (λ old new.
            IsTrue new.is_open → StaysOurs old new) }
        ensures mode { FromOurs S.Store self.old self.new (λ _ new. new.in_transaction ≡ false) }
        ensures was_open { Between S.Store self.old self.new OpensNone }
        ensures holds { Between S.Store self.old self.new (λ old new.
            (settings : List Setting) → HoldsSettings old settings → HoldsSettings new settings) }
        ensures stamped { Between S.Store self.old self.new (λ old new.
            (changes : List Change) → HoldsStamps old changes → HoldsStamps new changes) }
        ensures told { Between S.Store self.old self.new (λ old new. HasCleanDisk new →
            (settings : List Setting) → HoldsSettings old settings →
            IfOk result (λ all. ListAlike (reverse all.items) settings)) }
        ensures crash { Between S.Store self.old self.new (λ old new.
            Survives old new (λ _. CommitsOpen old ⊥)) }
    {
        let rows = match statements::read(&mut self.conn) {
            Ok(rows) => rows,
            Err(fault) => return Err(fault),
        };
        lists::entries(alloc, rows.as_slice())
    }

    /// For each label the second of Unix time in which its setting was made, by rising bytes of the labels. It is 0 for a
    /// setting that comes from the first version's table.
    ///
    /// Refused as `all` is.
    pub fn changes(&mut self, alloc: Global) -> Result<Vec<(String, u64)>, StoreFault>
        ensures ok { FromOurs S.Store self.old self.new (λ old _.
            IfOk result (λ all. ListsChanges (rows_now old) (map change_of all.items))) }
        ensures once { FromOurs S.Store self.old self.new (λ _ _.
            IfOk result (λ all. IsDistinct is_same (labels_changed (map change_of all.items)))) }
        ensures foreign { FromOurs S.Store self.old self.new (λ old _.
            result ≡ Err StoreFault.Foreign → HasForeign (rows_now old)) }
        ensures same { FromOurs S.Store self.old self.new (λ old new.
            IsTrue new.is_open → StaysOurs old new) }
        ensures mode { FromOurs S.Store self.old self.new (λ _ new. new.in_transaction ≡ false) }
        ensures was_open { Between S.Store self.old self.new OpensNone }
        ensures holds { Between S.Store self.old self.new (λ old new.
            (settings : List Setting) → HoldsSettings old settings → HoldsSettings new settings) }
        ensures stamped { Between S.Store self.old self.new (λ old new.
            (changes : List Change) → HoldsStamps old changes → HoldsStamps new changes) }
        ensures crash { Between S.Store self.old self.new (λ old new.
            Survives old new (λ _. CommitsOpen old ⊥)) }
    {
        let rows = match statements::read(&mut self.conn) {
            Ok(rows) => rows,
            Err(fault) => return Err(fault),
        };
        lists::changes(alloc, rows.as_slice())
    }

    /// Each label's setting with its second, by falling bytes of the labels. Refused as `all` is.
    pub(crate) fn known(&mut self, alloc: Global) -> Result<Vec<Known>, StoreFault>
        ensures tells { Between S.Store self.old self.new (λ old new. (HasCleanDisk old → IsOurs old) →
            IfOk result (λ all. HoldsKnown new all.items)) }
        ensures crash { Between S.Store self.old self.new (λ old new.
            Survives old new (λ _. CommitsOpen old ⊥)) }
    {
        let rows = match statements::read(&mut self.conn) {
            Ok(rows) => rows,
            Err(fault) => return Err(fault),
        };
        let mut all = match lists::all_known(alloc, rows.as_slice()) {
            Ok(all) => all,
            Err(fault) => return Err(fault),
        };
        all.reverse();
        Ok(all)
    }

    /// Makes the store have what is known and nothing else, in one transaction. At each exit a crash leaves what it could leave before, or
    /// all that is known.
    pub(crate) fn mend(&mut self, known: &[Known]) -> Result<(), StoreFault>
        ensures crash { Between S.Store self.old self.new (λ old new. Survives old new (λ db.
            CommitsOpen old (HoldsTrees db known.now))) }
    {
        mending::mended(&mut self.conn, known)
    }

    /// The connection, as it is.
    pub fn close_on(self) -> Connection<S>
        ensures { result ≡ self }
    {
        let OverrideStore { conn } = self;
        conn
    }
}
