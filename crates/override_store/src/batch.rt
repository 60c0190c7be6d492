//! A text of several statements as one transaction.

ghost use Rattle.std.specs.Prelude.{◌≡◌, ◌≢◌, IfErr, OnOk, false};
ghost use Rattle.sqlite.specs.Held.{state};
ghost use Rattle.sqlite.specs.State.{HasCleanDisk, Survives};
ghost use Rattle.override_store.specs.Batches.{HasRun, LeavesBatch};

use crate::{StoreFault, fault};
use sqlite::{Alter, Connection, Error};

fn run<S: Alter>(conn: &mut Connection<S>, sql: &str) -> Result<(), Error>
    requires { conn.now.in_transaction ≡ false }
    ensures all { HasCleanDisk (state S.Store conn.new) →
        OnOk result (HasRun S.Store sql.now conn.old conn.new) }
    ensures crash { Survives (state S.Store conn.old) (state S.Store conn.new)
        (LeavesBatch S.Store sql.now conn.old) }
{
    let mut tx = conn.transaction();
    tx.execute_batch(sql)?;
    tx.commit()?;
    Ok(())
}

/// The statements are run, all of them or none. A connection that is in a transaction refuses them.
pub(crate) fn run_batch<S: Alter>(conn: &mut Connection<S>, sql: &str) -> Result<(), StoreFault>
    ensures all { HasCleanDisk (state S.Store conn.new) →
        OnOk result (HasRun S.Store sql.now conn.old conn.new) }
    ensures crash { Survives (state S.Store conn.old) (state S.Store conn.new)
        (LeavesBatch S.Store sql.now conn.old) }
    ensures known { IfErr result (λ e. e ≢ StoreFault.Foreign) }
{
    if !conn.is_autocommit() {
        return Err(StoreFault::Refused);
    }
    match run(conn, sql) {
        Ok(()) => Ok(()),
        Err(error) => Err(fault(error)),
    }
}
