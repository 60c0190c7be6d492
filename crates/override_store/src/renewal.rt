//! A store that is opened again: its database is made to have what it must hold.

ghost use Rattle.std.specs.Prelude.{◌≡◌, ◌⊎◌, ◌≤◌, IfErr, IfOk, IsTrue, None};
ghost use Rattle.sqlite_catalog.specs.Listing.{IsSound};
ghost use Rattle.override_store.specs.StoreTables.{both_schema, no_schema};
ghost use Rattle.sqlite.specs.Held.{state};
ghost use Rattle.sqlite.specs.State.{HasCleanDisk};
ghost use Rattle.sqlite.specs.Tree.{Trees};
ghost use Rattle.sqlite.specs.View.{IsClean, doubt};
ghost use Rattle.override_store.specs.OverrideStores.{AreFit, HoldsAs, IsOurs};
ghost use Rattle.override_store.specs.KnownSettings.{HoldsKnown, HoldsTrees};
ghost use Rattle.override_store.specs.Places.{IsAskedMore, IsOver, Keeps, LeadsTo, over_connection};

use crate::known::{Known, are_same};
use crate::place::{StorePlace, StoreStatus, Telling};
use crate::sameness::Same;
use crate::{OverrideStore, StoreFault};
use sqlite::{Alter, Connection};
use sqlite_schema::schema::Schema;
use sqlite_trees::store::Store;
use std::alloc::Global;

/// The store on a connection, and all that it holds. Refused as `opened` is.
pub(crate) fn open_all<S: Alter + Drop>(
    alloc: Global,
    conn: Connection<S>,
) -> Result<(OverrideStore<S>, Vec<Known>), (StoreFault, S)>
    ensures holds { (HasCleanDisk (state S.Store conn) → IsTrue (state S.Store conn).is_open →
        AreFit (state S.Store conn).committed.trees) →
        IfOk result (λ r. HoldsKnown (state S.Store r.0) r.1.items) }
    ensures crash { IfOk result (λ r. HasCleanDisk (state S.Store r.0) →
        AreFit (state S.Store conn).committed.trees → (db : Trees) → (state S.Store r.0).may_leave db →
        (state S.Store conn).may_leave db ⊎ HoldsAs (state S.Store conn).committed.trees db) }
    ensures left { IfErr result (λ e. IsClean (S.Store.view e.1) →
        AreFit (state S.Store conn).committed.trees → (db : Trees) → S.Store.recovers e.1 db →
        (state S.Store conn).may_leave db ⊎ HoldsAs (state S.Store conn).committed.trees db) }
    ensures clean { IfOk result (λ r.
        doubt (state S.Store conn).is_clean ≤ doubt (state S.Store r.0).is_clean) }
    ensures doubted { IfErr result (λ e.
        doubt (state S.Store conn).is_clean ≤ doubt (S.Store.view e.1).is_clean) }
{
    let mut store = match OverrideStore::open_or_give(alloc, conn) {
        Ok(store) => store,
        Err(refused) => return Err(refused),
    };
    match store.known(alloc) {
        Ok(known) => Ok((store, known)),
        Err(fault) => Err((fault, store.close_on().into_store())),
    }
}

// It reports a refusal.
fn open_at<S: Alter + Drop, P: StorePlace<Connection<S>, S>>(
    alloc: Global,
    place: &mut P,
    pattern: &Schema,
    telling: Telling,
) -> Result<(OverrideStore<S>, Vec<Known>), StoreFault>
    ensures holds { pattern.now ≡ both_schema →
        IfOk result (λ r. HoldsKnown (state S.Store r.0) r.1.items) }
    ensures asked { IsAskedMore (P.asked place.old) (P.asked place.new) }
    ensures crash { IsOver S.Store P.finds P.over P.after P.is_open → pattern.now ≡ both_schema → IfOk result (λ r.
        LeadsTo (P.finds place.old) (over_connection S.Store (P.finds place.new) r.0) (λ _. ⊥)) }
    ensures left { IsOver S.Store P.finds P.over P.after P.is_open → pattern.now ≡ both_schema → IfErr result (λ _.
        LeadsTo (P.finds place.old) (P.finds place.new) (λ _. ⊥)) }
{
    let conn = match place.open(alloc, telling) {
        Ok(conn) => conn,
        Err(fault) => return Err(fault),
    };
    if !is_fit(&conn, pattern) {
        place.leave(conn.into_store());
        return Err(told(place, telling, StoreFault::Foreign));
    }
    match open_all(alloc, conn) {
        Ok(both) => Ok(both),
        Err((fault, store)) => {
            place.leave(store);
            Err(told(place, telling, fault))
        }
    }
}

// Whether the database has the tables of a store and nothing else, or no table at all. Nothing is written to another one.
fn is_fit<S: Alter>(conn: &Connection<S>, pattern: &Schema) -> bool
    ensures { IsTrue result → pattern.now ≡ both_schema → IsTrue (state S.Store conn.now).is_open →
        AreFit (state S.Store conn.now).committed.trees }
{
    if is_empty(conn) {
        true
    } else {
        has_schema(conn, pattern)
    }
}

// Whether the database has no table, with no transaction open.
fn is_empty<S: Alter>(conn: &Connection<S>) -> bool
    ensures { IsTrue result → IsTrue (state S.Store conn.now).is_open →
        IsSound no_schema (state S.Store conn.now).committed.trees }
{
    let is_settled = conn.is_autocommit();
    is_settled && has_nothing(conn.schema())
}

fn has_nothing(schema: &Schema) -> bool
    ensures { IsTrue result → schema.now ≡ no_schema }
{
    let has_no_table = schema.tables.is_empty();
    let has_no_index = schema.indexes.is_empty();
    let has_no_view = schema.views.is_empty();
    has_no_table && has_no_index && has_no_view
}

// Whether the database has this schema, with no transaction open.
fn has_schema<S: Alter>(conn: &Connection<S>, pattern: &Schema) -> bool
    ensures { IsTrue result → IsTrue (state S.Store conn.now).is_open →
        IsSound pattern.now (state S.Store conn.now).committed.trees }
{
    let is_settled = conn.is_autocommit();
    is_settled && conn.schema().is_same(pattern)
}

/// The schema of a store.
pub(crate) fn store_schema(alloc: Global) -> Result<Schema, StoreFault>
    ensures { IfOk result (λ schema. schema ≡ both_schema) }
{
    let conn = match Connection::open_in_memory(alloc) {
        Ok(conn) => conn,
        Err(_) => return Err(StoreFault::NoMemory),
    };
    let conn = match OverrideStore::open_on(alloc, conn) {
        Ok(store) => store.close_on(),
        Err(fault) => return Err(fault),
    };
    let copy = conn.schema().copy(alloc);
    drop(conn);
    match copy {
        Ok(schema) => Ok(schema),
        Err(_) => Err(StoreFault::NoMemory),
    }
}

fn told<S: Alter, P: StorePlace<Connection<S>, S>>(
    place: &P,
    telling: Telling,
    fault: StoreFault,
) -> StoreFault
    ensures { result ≡ fault }
{
    match telling {
        Telling::New | Telling::AllButBusy => place.tell(StoreStatus::Refused(fault)),
    }
    fault
}

// The store at its place, and what it has, if that is not what is known.
fn look<S: Alter + Drop, P: StorePlace<Connection<S>, S>>(
    alloc: Global,
    place: &mut P,
    pattern: &Schema,
    known: &[Known],
    telling: Telling,
) -> Result<(OverrideStore<S>, Option<Vec<Known>>), StoreFault>
    ensures holds { pattern.now ≡ both_schema →
        IfOk result (λ r. r.1 ≡ None → HoldsKnown (state S.Store r.0) known.now) }
    ensures ours { pattern.now ≡ both_schema → IfOk result (λ r. HasCleanDisk (state S.Store r.0) →
        IsTrue (state S.Store r.0).is_open → IsOurs (state S.Store r.0)) }
    ensures asked { IsAskedMore (P.asked place.old) (P.asked place.new) }
    ensures crash { IsOver S.Store P.finds P.over P.after P.is_open → pattern.now ≡ both_schema → IfOk result (λ r.
        LeadsTo (P.finds place.old) (over_connection S.Store (P.finds place.new) r.0) (λ _. ⊥)) }
    ensures left { IsOver S.Store P.finds P.over P.after P.is_open → pattern.now ≡ both_schema → IfErr result (λ _.
        LeadsTo (P.finds place.old) (P.finds place.new) (λ _. ⊥)) }
{
    let (store, found) = match open_at(alloc, place, pattern, telling) {
        Ok(both) => both,
        Err(fault) => return Err(fault),
    };
    if are_same(known, found.as_slice()) {
        drop(found);
        Ok((store, None))
    } else {
        Ok((store, Some(found)))
    }
}

/// The store opened again, with all that is known, and whether that had to be written back. If so, it reads the store again before it
/// returns.
pub(crate) fn renewed<S: Alter + Drop, P: StorePlace<Connection<S>, S>>(
    alloc: Global,
    place: &mut P,
    pattern: &Schema,
    known: &[Known],
    telling: Telling,
) -> Result<(OverrideStore<S>, bool), StoreFault>
    ensures holds { pattern.now ≡ both_schema →
        IfOk result (λ r. HoldsKnown (state S.Store r.0) known.now) }
    ensures asked { IsAskedMore (P.asked place.old) (P.asked place.new) }
    ensures crash { IsOver S.Store P.finds P.over P.after P.is_open → pattern.now ≡ both_schema → IfOk result (λ r.
        LeadsTo (P.finds place.old) (over_connection S.Store (P.finds place.new) r.0)
        (λ db. HoldsTrees db known.now)) }
    ensures left { IsOver S.Store P.finds P.over P.after P.is_open → pattern.now ≡ both_schema → IfErr result (λ _.
        LeadsTo (P.finds place.old) (P.finds place.new) (λ db. HoldsTrees db known.now)) }
{
    let (store, other) = match look(alloc, place, pattern, known, telling) {
        Ok(both) => both,
        Err(fault) => return Err(fault),
    };
    match other {
        None => Ok((store, false)),
        Some(found) => {
            drop(found);
            match mend(place, store, known) {
                Ok(()) => look_again(alloc, place, pattern, known, telling),
                Err(fault) => Err(told(place, telling, fault)),
            }
        }
    }
}

// The store, once it was mended.
fn look_again<S: Alter + Drop, P: StorePlace<Connection<S>, S>>(
    alloc: Global,
    place: &mut P,
    pattern: &Schema,
    known: &[Known],
    telling: Telling,
) -> Result<(OverrideStore<S>, bool), StoreFault>
    ensures holds { pattern.now ≡ both_schema →
        IfOk result (λ r. HoldsKnown (state S.Store r.0) known.now) }
    ensures asked { IsAskedMore (P.asked place.old) (P.asked place.new) }
    ensures crash { IsOver S.Store P.finds P.over P.after P.is_open → pattern.now ≡ both_schema → IfOk result (λ r.
        LeadsTo (P.finds place.old) (over_connection S.Store (P.finds place.new) r.0) (λ _. ⊥)) }
    ensures left { IsOver S.Store P.finds P.over P.after P.is_open → pattern.now ≡ both_schema → IfErr result (λ _.
        LeadsTo (P.finds place.old) (P.finds place.new) (λ _. ⊥)) }
{
    let (store, other) = match look(alloc, place, pattern, known, telling) {
        Ok(both) => both,
        Err(fault) => return Err(fault),
    };
    match other {
        None => Ok((store, true)),
        Some(found) => {
            leave(place, store);
            drop(found);
            Err(told(place, telling, StoreFault::Refused))
        }
    }
}

// Makes the store have what is known, and closes it.
fn mend<S: Alter + Drop, P: StorePlace<Connection<S>, S>>(
    place: &mut P,
    store: OverrideStore<S>,
    known: &[Known],
) -> Result<(), StoreFault>
    ensures asked { P.asked place.new ≡ P.asked place.old }
    ensures crash { IsOver S.Store P.finds P.over P.after P.is_open → (HasCleanDisk (state S.Store store) → IsTrue (state S.Store store).is_open →
        IsOurs (state S.Store store)) → LeadsTo (over_connection S.Store (P.finds place.old) store)
        (P.finds place.new) (λ db. HoldsTrees db known.now) }
{
    let mut store = store;
    let mended = store.mend(known);
    leave(place, store);
    mended
}

/// Closes the store, and has the place drop what is under its connection.
pub(crate) fn leave<S: Alter + Drop, P: StorePlace<Connection<S>, S>>(
    place: &mut P,
    store: OverrideStore<S>,
)
    ensures asked { P.asked place.new ≡ P.asked place.old }
    ensures found { IsOver S.Store P.finds P.over P.after P.is_open → Keeps (over_connection S.Store (P.finds place.old) store) (P.finds place.new) }
{
    place.leave(store.close_on().into_store());
}
