//! The fields that five texts are.

use crate::cron::fault::LineFault;
use crate::cron::fields::{Field, Fields};
use crate::cron::items::mark_named;
use crate::cron::kinds::{DAY, HOUR, Kind, MINUTE, MONTH, WEEKDAY};
use std::alloc::{AllocError, Global};

/// The five texts of a line's fields.
#[derive(Clone, Copy)]
pub(crate) struct Texts<'a> {
    pub(crate) minute: &'a str,
    pub(crate) hour: &'a str,
    pub(crate) day: &'a str,
    pub(crate) month: &'a str,
    pub(crate) weekday: &'a str,
}

/// The fields that the texts are. Of a day and a weekday either suffices if neither begins with `*`.
pub(crate) fn fields_of(alloc: Global, texts: Texts<'_>) -> Result<Fields, LineFault> {
    let is_each_day = texts.day.starts_with('*');
    let is_either = !(is_each_day | texts.weekday.starts_with('*'));
    let mut fault = None;
    let fields = Fields {
        minutes: field_of(alloc, &MINUTE, texts.minute, true, &mut fault),
        hours: field_of(alloc, &HOUR, texts.hour, true, &mut fault),
        days: field_of(alloc, &DAY, texts.day, !is_either, &mut fault),
        months: field_of(alloc, &MONTH, texts.month, true, &mut fault),
        weekdays: field_of(alloc, &WEEKDAY, texts.weekday, !is_either, &mut fault),
        is_either,
    };
    match fault {
        None => Ok(fields),
        Some(fault) => {
            drop(fields);
            Err(fault)
        }
    }
}

// With `may_be_every`, a field that names each value counts as `*`. The first fault is kept; a field after it has no values.
fn field_of(
    alloc: Global,
    kind: &Kind,
    text: &str,
    may_be_every: bool,
    fault: &mut Option<LineFault>,
) -> Field {
    let mut values = Vec::new(alloc);
    if fault.is_none() {
        let mut named = [false; 64];
        *fault = mark_named(alloc, kind, text, &mut named);
        if add_named(kind, &named, &mut values).is_err() && fault.is_none() {
            *fault = Some(LineFault::NoMemory);
        }
    }
    Field {
        is_every: may_be_every && values.len() == usize::from(kind.count),
        values,
    }
}

// Adds the values that are named. A value that means the same as the least one, as the weekday 7, is left out if the least one is there.
fn add_named(kind: &Kind, named: &[bool], values: &mut Vec<u8>) -> Result<(), AllocError> {
    let mut has_least = false;
    for value in kind.low..=kind.high {
        let is_least_again = has_least && value.saturating_sub(kind.low) >= kind.count;
        let is_named = match named.get(usize::from(value)) {
            Some(is_named) => *is_named,
            None => false,
        };
        if is_named && !is_least_again {
            values.push(value)?;
            has_least = has_least || value == kind.low;
        }
    }
    Ok(())
}
