//! One call each, and whether it succeeded.

use history_model::Setting;
use override_store::{OverrideStore, StoreFault};
use sqlite::{Alter, Connection};
use std::alloc::Global;

/// A label's setting and its second.
pub type Row<'a> = (&'a str, bool, u64);

/// The database of the first version, with two settings.
pub const FIRST_VERSION: &str =
    "CREATE TABLE overrides (label TEXT NOT NULL PRIMARY KEY, disabled INTEGER NOT NULL CHECK (disabled IN (0, 1))) STRICT; INSERT INTO overrides VALUES ('a', 1), ('b', 0)";

pub const SECOND: u64 = 1_700_000_000;

pub fn runs<S: Alter>(conn: &mut Connection<S>, sql: &str) -> bool {
    conn.execute_batch(sql).is_ok()
}

pub fn opened<S: Alter + Drop>(alloc: Global, conn: Connection<S>) -> Option<OverrideStore<S>> {
    OverrideStore::open_on(alloc, conn).ok()
}

fn all_of<S: Alter>(
    alloc: Global,
    store: &mut OverrideStore<S>,
) -> Result<Vec<Setting>, StoreFault> {
    store.all(alloc)
}

fn changes_of<S: Alter>(
    alloc: Global,
    store: &mut OverrideStore<S>,
) -> Result<Vec<(String, u64)>, StoreFault> {
    store.changes(alloc)
}

/// Whether the settings are these, in this order.
fn show_all(all: &[Setting], want: &[Row<'_>]) -> bool {
    let mut are_so = all.len() == want.len();
    for (setting, row) in all.iter().zip(want) {
        are_so &= setting.label.as_str() == row.0;
        are_so &= setting.disabled == row.1;
    }
    are_so
}

/// Whether the seconds are these, in this order.
fn tell_all(changes: &[(String, u64)], want: &[Row<'_>]) -> bool {
    let mut are_so = changes.len() == want.len();
    for (change, row) in changes.iter().zip(want) {
        are_so &= change.0.as_str() == row.0;
        are_so &= change.1 == row.2;
    }
    are_so
}

/// Whether the store has these settings, each with its second.
pub fn has<S: Alter>(alloc: Global, store: &mut OverrideStore<S>, want: &[Row<'_>]) -> bool {
    let all = all_of(alloc, store);
    let changes = changes_of(alloc, store);
    let are_so = match (&all, &changes) {
        (Ok(all), Ok(changes)) => show_all(all, want) && tell_all(changes, want),
        _ => false,
    };
    drop(all);
    drop(changes);
    are_so
}
