//! A store that is made to have what it has to hold, in one transaction.

ghost use Rattle.std.specs.Prelude.{◌≡◌, ◌≤◌, false};
ghost use Rattle.sqlite.specs.State.{Survives};
ghost use Rattle.history_model.specs.declared.TheConstants.{MAX_WALL};
ghost use Rattle.override_store.specs.KnownSettings.{HoldsTrees, known_as};
ghost use Rattle.override_store.specs.Mending.{Clears, Fills, IsMended, PutsOne, RunsOpen};
ghost use Rattle.override_store.specs.OverrideStores.{Between, CommitsOpen};

use crate::known::Known;
use crate::statements::SET;
use crate::{StoreFault, fault};
use history_model::{MAX_WALL, is_label};
use sqlite::{Alter, Connection, Transaction, params};

const CLEAR: &str = "DELETE FROM settings";

// Takes all settings out, within a transaction.
fn clear<S: Alter>(tx: &mut Transaction<'_, S>) -> Result<(), StoreFault>
    ensures same_reference { tx.new.conn.ghost_name ≡ tx.old.conn.ghost_name }
    ensures cleared { Between S.Store tx.old.conn.now tx.new.conn.now (λ old new. Clears old new result) }
    ensures ran { Between S.Store tx.old.conn.now tx.new.conn.now (λ old new. RunsOpen old new result) }
    ensures crash { Between S.Store tx.old.conn.now tx.new.conn.now (λ old new.
        Survives old new (λ _. ⊥)) }
{
    match tx.execute(CLEAR, &[]) {
        Ok(_) => Ok(()),
        Err(error) => Err(fault(error)),
    }
}

// Makes one setting, within a transaction.
fn put_one<S: Alter>(tx: &mut Transaction<'_, S>, one: &Known) -> Result<(), StoreFault>
    ensures same_reference { tx.new.conn.ghost_name ≡ tx.old.conn.ghost_name }
    ensures put { Between S.Store tx.old.conn.now tx.new.conn.now (λ old new.
        PutsOne old new one.now result) }
    ensures crash { Between S.Store tx.old.conn.now tx.new.conn.now (λ old new.
        Survives old new (λ _. ⊥)) }
{
    if !is_label(one.label()) || one.changed > MAX_WALL {
        return Err(StoreFault::Refused);
    }
    write_one(tx, one.label(), one.setting.disabled, one.changed)
}

fn write_one<S: Alter>(
    tx: &mut Transaction<'_, S>,
    label: &str,
    disabled: bool,
    changed: u64,
) -> Result<(), StoreFault>
    requires second { changed ≤ MAX_WALL }
    ensures same_reference { tx.new.conn.ghost_name ≡ tx.old.conn.ghost_name }
    ensures put { Between S.Store tx.old.conn.now tx.new.conn.now (λ old new.
        PutsOne old new (known_as label.now disabled changed) result) }
    ensures crash { Between S.Store tx.old.conn.now tx.new.conn.now (λ old new.
        Survives old new (λ _. ⊥)) }
{
    match tx.execute(SET, params![label, disabled, changed as i64]) {
        Ok(_) => Ok(()),
        Err(error) => Err(fault(error)),
    }
}

// Makes each setting that is known, the first of a label last, within a transaction over a store without settings.
fn put_all<S: Alter>(tx: &mut Transaction<'_, S>, known: &[Known]) -> Result<(), StoreFault>
    ensures same_reference { tx.new.conn.ghost_name ≡ tx.old.conn.ghost_name }
    ensures filled { Between S.Store tx.old.conn.now tx.new.conn.now (λ old new.
        Fills old new known.now result) }
    ensures crash { Between S.Store tx.old.conn.now tx.new.conn.now (λ old new.
        Survives old new (λ _. ⊥)) }
{
    for turn in 0..known.len() {
        match put_one(tx, &known[known.len() - 1 - turn]) {
            Ok(()) => {}
            Err(fault) => return Err(fault),
        }
    }
    Ok(())
}

// Makes the store have what is known and nothing else, within a transaction.
fn fill<S: Alter>(tx: &mut Transaction<'_, S>, known: &[Known]) -> Result<(), StoreFault>
    ensures same_reference { tx.new.conn.ghost_name ≡ tx.old.conn.ghost_name }
    ensures mended { Between S.Store tx.old.conn.now tx.new.conn.now (λ old new.
        IsMended old new known.now result) }
    ensures ran { Between S.Store tx.old.conn.now tx.new.conn.now (λ old new. RunsOpen old new result) }
    ensures crash { Between S.Store tx.old.conn.now tx.new.conn.now (λ old new.
        Survives old new (λ _. ⊥)) }
{
    match clear(tx) {
        Ok(()) => put_all(tx, known),
        Err(fault) => Err(fault),
    }
}

fn run<S: Alter>(conn: &mut Connection<S>, known: &[Known]) -> Result<(), StoreFault>
    requires { conn.now.in_transaction ≡ false }
    ensures crash { Between S.Store conn.old conn.new (λ old new. Survives old new (λ db.
        CommitsOpen old (HoldsTrees db known.now))) }
{
    let mut tx = conn.transaction();
    fill(&mut tx, known)?;
    match tx.commit() {
        Ok(()) => Ok(()),
        Err(error) => Err(fault(error)),
    }
}

/// Makes the store have what is known and nothing else: all at once, or nothing of it. A connection that is in a transaction is refused.
pub(crate) fn mended<S: Alter>(conn: &mut Connection<S>, known: &[Known]) -> Result<(), StoreFault>
    ensures crash { Between S.Store conn.old conn.new (λ old new. Survives old new (λ db.
        CommitsOpen old (HoldsTrees db known.now))) }
{
    if !conn.is_autocommit() {
        return Err(StoreFault::Refused);
    }
    run(conn, known)
}
