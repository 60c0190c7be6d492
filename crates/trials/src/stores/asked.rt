//! What a store is asked to set, what it answers, and which settings it may then have.

use crate::stores::calls::{Row, has};
use history_model::is_label;
use outside::SettingStore;
use override_store::OverrideStore;
use sqlite::Alter;
use std::alloc::Global;

/// A setting, and what the store answered; none if it was not asked for it yet.
#[derive(Clone, Copy)]
pub struct Asked {
    pub row: Row<'static>,
    pub answer: Option<bool>,
}

/// Whether the store makes the setting.
fn sets<T: SettingStore>(store: &mut T, row: Row<'_>) -> bool {
    let (label, disabled, second) = row;
    is_label(label) && second <= 250_000_000_000 && store.set(label, disabled, second)
}

/// Whether the store makes all of these settings.
pub fn set_all<T: SettingStore>(store: &mut T, rows: &[Row<'_>]) -> bool {
    let mut are_made = true;
    for row in rows {
        are_made &= sets(store, *row);
    }
    are_made
}

/// Asks for each setting that has no answer yet, in order.
pub fn ask_all<T: SettingStore>(store: &mut T, asked: &mut [Asked]) {
    for one in asked.iter_mut() {
        if one.answer.is_none() {
            one.answer = Some(sets(store, one.row));
        }
    }
}

/// How many settings the store refused.
pub fn refused_of(asked: &[Asked]) -> u64 {
    let mut refused = 0u64;
    for one in asked {
        if let Some(false) = one.answer {
            refused = refused.saturating_add(1);
        }
    }
    refused
}

/// The last setting of the label that is there, if each one is that was made, and the one with the number `also`.
pub fn last_of(asked: &[Asked], also: usize, label: &str) -> Option<Row<'static>> {
    let mut last = None;
    for (number, one) in asked.iter().enumerate() {
        let is_there = number == also || matches!(one.answer, Some(true));
        if is_there && one.row.0 == label {
            last = Some(one.row);
        }
    }
    last
}

/// Whether the store has these last settings of the labels, and no other.
fn has_last<S: Alter>(
    alloc: Global,
    store: &mut OverrideStore<S>,
    asked: &[Asked],
    also: usize,
) -> bool {
    let a = last_of(asked, also, "a");
    let b = last_of(asked, also, "b");
    let c = last_of(asked, also, "c");
    match (a, b, c) {
        (Some(a), Some(b), Some(c)) => has(alloc, store, &[a, b, c]),
        (Some(a), Some(b), None) => has(alloc, store, &[a, b]),
        _ => false,
    }
}

/// Whether the store has of each label the last setting that was made. If not `is_exact`, one that was refused after all of these may be there, too.
pub fn has_asked<S: Alter>(
    alloc: Global,
    store: &mut OverrideStore<S>,
    asked: &[Asked],
    is_exact: bool,
) -> bool {
    let is_made = has_last(alloc, store, asked, asked.len());
    let mut is_refused = false;
    for (number, one) in asked.iter().enumerate() {
        match one.answer {
            Some(true) => is_refused = false,
            Some(false) => is_refused |= has_last(alloc, store, asked, number),
            None => {}
        }
    }
    is_made || (is_refused && !is_exact)
}
