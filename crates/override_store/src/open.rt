//! The connection of a store, with both tables.

ghost use Rattle.std.specs.Prelude.{◌≡◌, ◌≢◌, ◌≤◌, IfErr, IfOk, IsTrue, OnOk};
ghost use Rattle.sqlite.specs.Held.{state};
ghost use Rattle.sqlite.specs.State.{HasCleanDisk, Survives};
ghost use Rattle.sqlite.specs.Tree.{Trees};
ghost use Rattle.sqlite.specs.View.{doubt};
ghost use Rattle.override_store.specs.OverrideStores.{Between, HasMoved, IsReadyFor, MayHoldMoved};

use crate::batch::run_batch;
use crate::{StoreFault, fault};
use sqlite::{Alter, Connection};
use sqlite_trees::store::Store;
use std::alloc::Global;

/// A connection over the same store, whose rows are known to rise: it rolls back the given one and reads it again.
pub(crate) fn renewed<S: Alter + Drop>(
    alloc: Global,
    conn: Connection<S>,
) -> Result<Connection<S>, (StoreFault, S)>
    ensures ready { IfOk result (λ c. HasCleanDisk (state S.Store c) →
        IsReadyFor (state S.Store conn).committed.trees (state S.Store c)) }
    ensures same { IfOk result (λ c. HasCleanDisk (state S.Store c) →
        (state S.Store c).now.trees ≡ (state S.Store conn).committed.trees) }
    ensures clean { IfOk result (λ c.
        doubt (state S.Store conn).is_clean ≤ doubt (state S.Store c).is_clean) }
    ensures was_open { IfOk result (λ c.
        HasCleanDisk (state S.Store c) → IsTrue (state S.Store conn).is_open) }
    ensures crash { IfOk result (λ c. HasCleanDisk (state S.Store c) →
        (db : Trees) → (state S.Store c).may_leave db → (state S.Store conn).may_leave db) }
    ensures left { IfErr result (λ e.
        (db : Trees) → S.Store.recovers e.1 db → (state S.Store conn).may_leave db) }
    ensures doubted { IfErr result (λ e.
        doubt (state S.Store conn).is_clean ≤ doubt (S.Store.view e.1).is_clean) }
    ensures known { IfErr result (λ e. e.0 ≢ StoreFault.Foreign) }
{
    let store = conn.into_store();
    if store.is_broken() {
        return Err((StoreFault::Refused, store));
    }
    let again = match Connection::over(alloc, store) {
        Ok(again) => again,
        Err((error, store)) => return Err((fault(error), store)),
    };
    Ok(again)
}

/// Makes both tables if they aren't there, and moves the rows of the first, in one transaction.
pub(crate) fn open_tables<S: Alter>(conn: &mut Connection<S>) -> Result<(), StoreFault>
    ensures ok { Between S.Store conn.old conn.new (λ old new.
        HasCleanDisk new → OnOk result (HasMoved old new)) }
    ensures crash { Between S.Store conn.old conn.new (λ old new.
        Survives old new (MayHoldMoved old)) }
    ensures known { IfErr result (λ e. e ≢ StoreFault.Foreign) }
{
    run_batch(
        conn,
        "CREATE TABLE IF NOT EXISTS overrides (label TEXT NOT NULL PRIMARY KEY, disabled INTEGER NOT NULL CHECK (disabled IN (0, 1))) STRICT; CREATE TABLE IF NOT EXISTS settings (label TEXT NOT NULL PRIMARY KEY, disabled INTEGER NOT NULL CHECK (disabled IN (0, 1)), changed INTEGER NOT NULL CHECK (changed >= 0)) STRICT; INSERT OR REPLACE INTO settings (label, disabled, changed) SELECT label, disabled, 0 FROM overrides; DELETE FROM overrides",
    )
}
