//! The entries of a calendar that match what the fields of a line match.
ghost use Rattle.std.specs.Prelude.{◌≡◌, ◌++◌, ◌<◌, ◌≤◌, ℕ, length, map, true, Err, IfOk, OnOk};
ghost use Rattle.definition_files.specs.Entries as spec;
ghost use Rattle.definition_files.specs.Entries.{AreOf};
ghost use Rattle.definition_files.specs.declared.cron.entries.EntriesFault.TheVariants as faults;

use crate::cron::fields::{Field, Fields};
use history_model::Entry;
use std::alloc::{AllocError, Global};

/// The most entries of a definition.
pub const MOST_ENTRIES: usize = 64;

/// Why a line has no entries.
#[derive(Drop)]
pub enum EntriesFault {
    NoMemory,
    /// It would have this many.
    TooMany(usize),
    /// It wants a day of the month and a weekday at once, which no entry says.
    BothDays,
}

/// A part of an entry.
#[derive(Clone, Copy)]
pub enum Part {
    Minute,
    Hour,
    Day,
    Month,
    Weekday,
}

/// The entries that match exactly the minutes which the fields match, at most 64. Each fault leaves nothing.
pub fn entries_of(alloc: Global, fields: &Fields) -> Result<Vec<Entry>, EntriesFault>
    ensures exact { IfOk result (λ entries. AreOf fields.now entries.items) }
    ensures few { IfOk result (λ entries. length entries.items ≤ 64) }
    ensures many { (count : ℕ) → result ≡ Err (faults.TooMany count) →
        (64 < count) × (count ≡ length (spec.entries_of fields.now)) }
    ensures both { result ≡ Err faults.BothDays → spec.is_both fields.now ≡ true }
{
    if is_both(fields) {
        return Err(EntriesFault::BothDays);
    }
    match all_entries(alloc, fields) {
        Ok(entries) => {
            if entries.len() > MOST_ENTRIES {
                return Err(EntriesFault::TooMany(entries.len()));
            }
            Ok(entries)
        }
        Err(_) => Err(EntriesFault::NoMemory),
    }
}

// A day and a weekday are named, and both must suit.
fn is_both(fields: &Fields) -> bool
    ensures { result ≡ spec.is_both fields.now }
{
    !fields.is_either && (!fields.days.is_every && !fields.weekdays.is_every)
}

fn all_entries(alloc: Global, fields: &Fields) -> Result<Vec<Entry>, AllocError>
    ensures { IfOk result (λ entries. entries.items ≡ spec.entries_of fields.now) }
{
    let days = days_of(alloc, fields)?;
    let months = times(alloc, Part::Month, &fields.months, days)?;
    let hours = times(alloc, Part::Hour, &fields.hours, months)?;
    times(alloc, Part::Minute, &fields.minutes, hours)
}

fn days_of(alloc: Global, fields: &Fields) -> Result<Vec<Entry>, AllocError>
    ensures { IfOk result (λ found. found.items ≡ spec.days_of fields.now) }
{
    let blank = [Entry {
        minute: None,
        hour: None,
        day: None,
        weekday: None,
        month: None,
    }];
    let mut found = Vec::new(alloc);
    if !fields.days.is_every {
        add_times(&mut found, Part::Day, &fields.days, &blank)?;
    }
    if fields.days.is_every || !fields.weekdays.is_every {
        add_times(&mut found, Part::Weekday, &fields.weekdays, &blank)?;
    }
    Ok(found)
}

// The entries, once for each choice of the field, which is this part of them.
fn times(
    alloc: Global,
    part: Part,
    field: &Field,
    entries: Vec<Entry>,
) -> Result<Vec<Entry>, AllocError>
    ensures { IfOk result (λ made. made.items ≡ spec.times part (spec.choices field.now) entries.items) }
{
    let mut made = Vec::new(alloc);
    let added = add_times(&mut made, part, field, entries.as_slice());
    drop(entries);
    added?;
    Ok(made)
}

fn add_times(
    made: &mut Vec<Entry>,
    part: Part,
    field: &Field,
    entries: &[Entry],
) -> Result<(), AllocError>
    ensures { OnOk result (made.new.items
        ≡ made.old.items ++ spec.times part (spec.choices field.now) entries.now) }
{
    if field.is_every {
        return add_with(made, part, None, entries);
    }
    for value in field.values.as_slice() {
        add_with(made, part, Some(*value), entries)?;
    }
    Ok(())
}

fn add_with(
    made: &mut Vec<Entry>,
    part: Part,
    choice: Option<u8>,
    entries: &[Entry],
) -> Result<(), AllocError>
    ensures { OnOk result (made.new.items
        ≡ made.old.items ++ map (spec.with part choice) entries.now) }
{
    for entry in entries {
        made.push(with(*entry, part, choice))?;
    }
    Ok(())
}

fn with(entry: Entry, part: Part, choice: Option<u8>) -> Entry
    ensures { result ≡ spec.with part choice entry }
{
    let mut made = entry;
    match part {
        Part::Minute => made.minute = choice,
        Part::Hour => made.hour = choice,
        Part::Day => made.day = choice,
        Part::Month => made.month = choice,
        Part::Weekday => made.weekday = choice,
    }
    made
}
