//! The rows of a query as settings, as seconds, and as both.

ghost use Rattle.std.specs.Prelude.{◌≡◌, ◌<◌, All, Err, IfOk, length, map, string_bytes};
ghost use Rattle.std.specs.List.{AllZip};
ghost use Rattle.sqlite.specs.Order.{column};
ghost use Rattle.override_store.specs.Settings.{IsChange, IsEntry, IsForeign, IsOf, change_of, HasForeignAnswer};
ghost use Rattle.override_store.specs.KnownSettings.{IsKnown};

use crate::known::Known;
use crate::{StoreFault, fault};
use history_model::{Setting, Text, is_label};
use sqlite::{Error, ErrorCode, Row};
use std::alloc::Global;

fn stored_label(row: &Row) -> Result<String, StoreFault>
    ensures ok { IfOk result (λ s. IsOf row.now (string_bytes s)) }
    ensures foreign { 0 < length row.now →
        result ≡ Err StoreFault.Foreign → IsForeign (column row.now 0) }
{
    let label: String = match row.get(0) {
        Ok(label) => label,
        Err(Error::SqliteFailure(ErrorCode::OutOfMemory)) => return Err(StoreFault::NoMemory),
        Err(_) => return Err(StoreFault::Foreign),
    };
    if !is_label(&label) {
        return Err(StoreFault::Foreign);
    }
    Ok(label)
}

fn entry(row: &Row) -> Result<Setting, StoreFault>
    ensures ok { IfOk result (λ s. IsEntry row.now s) }
    ensures foreign { 0 < length row.now →
        result ≡ Err StoreFault.Foreign → IsForeign (column row.now 0) }
{
    let label = match stored_label(row) {
        Ok(label) => label,
        Err(fault) => return Err(fault),
    };
    match row.get(1) {
        Ok(disabled) => Ok(Setting {
            label: Text::new(label),
            disabled,
        }),
        Err(error) => Err(fault(error)),
    }
}

fn change(row: &Row) -> Result<(String, u64), StoreFault>
    ensures ok { IfOk result (λ c. IsChange row.now (change_of c)) }
    ensures foreign { 0 < length row.now →
        result ≡ Err StoreFault.Foreign → IsForeign (column row.now 0) }
{
    let label = match stored_label(row) {
        Ok(label) => label,
        Err(fault) => return Err(fault),
    };
    match row.get(2) {
        Ok(second) => Ok((label, second)),
        Err(error) => Err(fault(error)),
    }
}

pub(crate) fn entries(alloc: Global, rows: &[Row]) -> Result<Vec<Setting>, StoreFault>
    ensures ok { IfOk result (λ all. AllZip IsEntry rows.now all.items) }
    ensures foreign { All (λ row. 0 < length row) rows.now →
        result ≡ Err StoreFault.Foreign → HasForeignAnswer rows.now }
{
    let mut all = Vec::new(alloc);
    for row in rows {
        let one = match entry(row) {
            Ok(one) => one,
            Err(fault) => return Err(fault),
        };
        match all.push(one) {
            Ok(()) => {}
            Err(_) => return Err(StoreFault::NoMemory),
        }
    }
    Ok(all)
}

pub(crate) fn changes(alloc: Global, rows: &[Row]) -> Result<Vec<(String, u64)>, StoreFault>
    ensures ok { IfOk result (λ all. AllZip IsChange rows.now (map change_of all.items)) }
    ensures foreign { All (λ row. 0 < length row) rows.now →
        result ≡ Err StoreFault.Foreign → HasForeignAnswer rows.now }
{
    let mut all = Vec::new(alloc);
    for row in rows {
        let one = match change(row) {
            Ok(one) => one,
            Err(fault) => return Err(fault),
        };
        match all.push(one) {
            Ok(()) => {}
            Err(_) => return Err(StoreFault::NoMemory),
        }
    }
    Ok(all)
}

fn known_in(row: &Row) -> Result<Known, StoreFault>
    ensures ok { IfOk result (λ known. IsKnown row.now known) }
{
    let setting = match entry(row) {
        Ok(setting) => setting,
        Err(fault) => return Err(fault),
    };
    match row.get(2) {
        Ok(changed) => Ok(Known { setting, changed }),
        Err(error) => {
            drop(setting);
            Err(fault(error))
        }
    }
}

/// The settings with their seconds, in the order of the rows.
pub(crate) fn all_known(alloc: Global, rows: &[Row]) -> Result<Vec<Known>, StoreFault>
    ensures ok { IfOk result (λ all. AllZip IsKnown rows.now all.items) }
{
    let mut all = Vec::new(alloc);
    for row in rows {
        let one = match known_in(row) {
            Ok(one) => one,
            Err(fault) => return Err(fault),
        };
        match all.push(one) {
            Ok(()) => {}
            Err(_) => return Err(StoreFault::NoMemory),
        }
    }
    Ok(all)
}
