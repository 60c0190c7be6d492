//! The statement that sets a label, and the query that lists the labels.

ghost use Rattle.std.specs.Prelude.{◌≡◌, ◌≢◌, ◌⊎◌, ◌≤◌, IfErr, IfOk, IsTrue, OnErr, OnOk, false};
ghost use Rattle.history_model.specs.declared.TheConstants.{MAX_WALL};
ghost use Rattle.sqlite.specs.State.{HasCleanDisk, IsRolledBack, IsUnchanged, Survives};
ghost use Rattle.override_store.specs.OverrideStores.{CommitsOpen, HoldsSetting, IsOurs, Between, FromOurs, LeavesAll, OpensNone, SetsOne, StaysOurs, rows_now};
ghost use Rattle.override_store.specs.Settings.{IsSortedList};

use crate::{StoreFault, fault};
use sqlite::{Alter, Connection, Row, params};

pub(crate) const SET: &str =
    "INSERT OR REPLACE INTO settings (label, disabled, changed) VALUES (?1, ?2, ?3)";

const LIST: &str = "SELECT label, disabled, changed FROM settings ORDER BY label";

/// Compiles the statement, which a shut connection refuses. Nothing is changed by it.
fn ready<S: Alter>(conn: &mut Connection<S>, sql: &str) -> Result<(), StoreFault>
    ensures open { Between S.Store conn.old conn.new (λ old new.
        HasCleanDisk new → OnOk result (IsUnchanged old new)) }
    ensures left { Between S.Store conn.old conn.new (λ old new.
        HasCleanDisk new → OnErr result (IsUnchanged old new ⊎ IsRolledBack old new)) }
    ensures crash { Between S.Store conn.old conn.new (λ old new. Survives old new (λ _. ⊥)) }
    ensures known { IfErr result (λ e. e ≢ StoreFault.Foreign) }
{
    match conn.prepare(sql) {
        Ok(_) => Ok(()),
        Err(error) => Err(fault(error)),
    }
}

/// Sets the label on a connection that is open.
fn write_row<S: Alter>(
    conn: &mut Connection<S>,
    label: &str,
    disabled: bool,
    changed: u64,
) -> Result<(), StoreFault>
    requires second { changed ≤ MAX_WALL }
    ensures ok { FromOurs S.Store conn.old conn.new (λ old new.
        OnOk result (SetsOne old new label.now disabled changed)) }
    ensures err { FromOurs S.Store conn.old conn.new (λ old new.
        IsTrue new.is_open → OnErr result (StaysOurs old new)) }
    ensures mode { FromOurs S.Store conn.old conn.new (λ _ new. new.in_transaction ≡ false) }
    ensures was_open { Between S.Store conn.old conn.new OpensNone }
    ensures crash { Between S.Store conn.old conn.new (λ old new. Survives old new (λ db.
        IsOurs old → HoldsSetting old db label.now disabled changed)) }
    ensures lasts { FromOurs S.Store conn.old conn.new (λ _ new. OnOk result (LeavesAll new)) }
    ensures known { IfErr result (λ e. e ≢ StoreFault.Foreign) }
{
    match conn.execute(SET, params![label, disabled, changed as i64]) {
        Ok(_) => Ok(()),
        Err(error) => Err(fault(error)),
    }
}

/// The rows, on a connection that is open.
fn read_rows<S: Alter>(conn: &mut Connection<S>) -> Result<Vec<Row>, StoreFault>
    ensures ok { FromOurs S.Store conn.old conn.new (λ old _.
        IfOk result (λ rows. IsSortedList (rows_now old) rows.items)) }
    ensures same { FromOurs S.Store conn.old conn.new (λ old new.
        IsTrue new.is_open → StaysOurs old new) }
    ensures mode { FromOurs S.Store conn.old conn.new (λ _ new. new.in_transaction ≡ false) }
    ensures ran { Between S.Store conn.old conn.new (λ old new.
        HasCleanDisk new → OnOk result (IsTrue old.is_open)) }
    ensures was_open { Between S.Store conn.old conn.new OpensNone }
    ensures crash { Between S.Store conn.old conn.new (λ old new.
        Survives old new (λ _. IsOurs old → ⊥)) }
    ensures known { IfErr result (λ e. e ≢ StoreFault.Foreign) }
{
    match conn.query_all(LIST, &[]) {
        Ok(rows) => Ok(rows),
        Err(error) => Err(fault(error)),
    }
}

/// Sets the label. A connection that was shut before is refused, and left as it was.
pub(crate) fn put<S: Alter>(
    conn: &mut Connection<S>,
    label: &str,
    disabled: bool,
    changed: u64,
) -> Result<(), StoreFault>
    requires second { changed ≤ MAX_WALL }
    ensures ok { FromOurs S.Store conn.old conn.new (λ old new.
        OnOk result (SetsOne old new label.now disabled changed)) }
    ensures err { FromOurs S.Store conn.old conn.new (λ old new.
        IsTrue new.is_open → OnErr result (StaysOurs old new)) }
    ensures mode { FromOurs S.Store conn.old conn.new (λ _ new. new.in_transaction ≡ false) }
    ensures was_open { Between S.Store conn.old conn.new OpensNone }
    ensures crash { Between S.Store conn.old conn.new (λ old new. Survives old new (λ db.
        CommitsOpen old (HoldsSetting old db label.now disabled changed))) }
    ensures lasts { FromOurs S.Store conn.old conn.new (λ _ new. OnOk result (LeavesAll new)) }
    ensures ran { Between S.Store conn.old conn.new (λ old new.
        HasCleanDisk new → OnOk result (IsTrue old.is_open)) }
    ensures known { IfErr result (λ e. e ≢ StoreFault.Foreign) }
{
    match ready(conn, SET) {
        Ok(()) => write_row(conn, label, disabled, changed),
        Err(fault) => Err(fault),
    }
}

/// The rows, by rising bytes of their labels. A connection that was shut before is refused, and left as it was.
pub(crate) fn read<S: Alter>(conn: &mut Connection<S>) -> Result<Vec<Row>, StoreFault>
    ensures ok { FromOurs S.Store conn.old conn.new (λ old _.
        IfOk result (λ rows. IsSortedList (rows_now old) rows.items)) }
    ensures same { FromOurs S.Store conn.old conn.new (λ old new.
        IsTrue new.is_open → StaysOurs old new) }
    ensures mode { FromOurs S.Store conn.old conn.new (λ _ new. new.in_transaction ≡ false) }
    ensures ran { Between S.Store conn.old conn.new (λ old new.
        HasCleanDisk new → OnOk result (IsTrue old.is_open)) }
    ensures was_open { Between S.Store conn.old conn.new OpensNone }
    ensures crash { Between S.Store conn.old conn.new (λ old new.
        Survives old new (λ _. CommitsOpen old ⊥)) }
    ensures known { IfErr result (λ e. e ≢ StoreFault.Foreign) }
{
    match ready(conn, LIST) {
        Ok(()) => read_rows(conn),
        Err(fault) => Err(fault),
    }
}
