//! `jobd overrides`: a line for each label that has a stored setting, by rising bytes of the labels.

use crate::connections::ConnectionTask;
use crate::looking::{StoreKind, look};
use crate::refusal::{StoreRefusal, refuse_store};
use crate::reporting::Level;
use crate::store::over_store;
use exit_status::STREAMS;
use history_model::Setting;
use override_store::{OverrideStore, StoreFault};
use sqlite::{Alter, Connection};
use std::alloc::Global;
use std::io;

/// Prints `LABEL`, `enabled` or `disabled`, and the second of Unix time in which that was set, with a tab between them.
/// A store that is not there is not made: status 5, as for one that can't be read. A file that is not a store is not
/// written to.
pub fn list_store(rt: &HostRuntime, alloc: Global, path: &str) -> u8 {
    let read = match look(rt, alloc, path) {
        Ok(StoreKind::Store) => over_store(rt, path, Listing { alloc }),
        Ok(StoreKind::Empty) => return 0,
        Err(refusal) => Err((refusal, Listing { alloc })),
    };
    match read {
        Ok((all, changes)) => print_all(rt, all.as_slice(), changes.as_slice()),
        Err((refusal, Listing { alloc: _ })) => { refuse_store(rt, Level::NONE, path, refusal) }
    }
}

/// Reads all settings, and drops the store.
struct Listing {
    alloc: Global,
}

impl ConnectionTask for Listing {
    type Done = (Vec<Setting>, Vec<(String, u64)>);

    fn over<S: Alter + Drop>(
        self,
        conn: Connection<S>,
    ) -> Result<(Vec<Setting>, Vec<(String, u64)>), (StoreRefusal, Listing)> {
        let Listing { alloc } = self;
        match read_settings(alloc, conn) {
            Ok(both) => Ok(both),
            Err(refusal) => Err((refusal, Listing { alloc })),
        }
    }
}

/// The settings that the database has, and the second in which each was set. The database is then closed.
pub(crate) fn read_settings<S: Alter + Drop>(
    alloc: Global,
    conn: Connection<S>,
) -> Result<(Vec<Setting>, Vec<(String, u64)>), StoreRefusal> {
    let mut store = match OverrideStore::open_on(alloc, conn) {
        Ok(store) => store,
        Err(fault) => return Err(StoreRefusal::Settings(fault)),
    };
    let read = read_all(alloc, &mut store);
    drop(store);
    match read {
        Ok(both) => Ok(both),
        Err(fault) => Err(StoreRefusal::Settings(fault)),
    }
}

fn read_all<S: Alter>(
    alloc: Global,
    store: &mut OverrideStore<S>,
) -> Result<(Vec<Setting>, Vec<(String, u64)>), StoreFault> {
    let all = store.all(alloc)?;
    let changes = store.changes(alloc)?;
    Ok((all, changes))
}

fn word_of(setting: &Setting) -> &'static str {
    if setting.disabled {
        "disabled"
    } else {
        "enabled"
    }
}

fn print_lines(rt: &impl Print, all: &[Setting], changes: &[(String, u64)]) -> io::Result<()> {
    for (setting, change) in all.iter().zip(changes) {
        let (label, word) = (setting.label.as_str(), word_of(setting));
        println!(rt; "{label}\t{word}\t{}", change.1)?;
    }
    Ok(())
}

fn print_all(rt: &impl Print, all: &[Setting], changes: &[(String, u64)]) -> u8 {
    match print_lines(rt, all, changes) {
        Ok(()) => 0,
        Err(_) => STREAMS,
    }
}
