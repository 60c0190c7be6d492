//! The items of a field's text: `*`, a value, a range, each with a step or without.

use crate::cron::fault::{LineFault, refused};
use crate::cron::kinds::{Kind, number_of, value_of};
use run_times::Piece::{Number, Text};
use run_times::TextWriter;
use std::alloc::Global;

/// The values from the first to the last by this step, which is 1 at least.
#[derive(Clone, Copy)]
struct Item {
    first: u8,
    last: u8,
    step: u8,
}

/// What is wrong with an item.
#[derive(Clone, Copy)]
enum Wrong<'a> {
    /// This is not a value of the field.
    Value(&'a str),
    /// The range runs backwards.
    Backwards(&'a str),
    /// The single value has this step.
    NoRange(&'a str, &'a str),
    /// The step is invalid.
    Step(&'a str),
}

/// Marks the values that the items of a field's text name, each at its place. Refused: an item is invalid, is out of the field's bounds,
/// runs backwards, or has a step and no range.
pub(crate) fn mark_named(
    alloc: Global,
    kind: &Kind,
    text: &str,
    named: &mut [bool],
) -> Option<LineFault> {
    for part in text.split(',') {
        match item_of(kind, part) {
            Ok(item) => mark(item, named),
            Err(wrong) => return Some(fault_of(alloc, kind, wrong)),
        }
    }
    None
}

fn mark(item: Item, named: &mut [bool]) {
    for value in item.first..=item.last {
        if value.saturating_sub(item.first) % item.step.max(1) == 0 {
            if let Some(place) = named.get_mut(usize::from(value)) {
                *place = true;
            }
        }
    }
}

fn item_of<'a>(kind: &Kind, text: &'a str) -> Result<Item, Wrong<'a>> {
    let (span, step) = parted(text, '/');
    let (from, to) = parted(span, '-');
    let is_every = span == "*";
    let is_one = !is_every & to.is_none();
    let until = to.unwrap_or(from);
    let (first, last) = if is_every {
        (Some(kind.low), Some(kind.high))
    } else {
        (value_of(kind, from), value_of(kind, until))
    };
    let Some(first) = first else {
        return Err(Wrong::Value(from));
    };
    let Some(last) = last else {
        return Err(Wrong::Value(until));
    };
    if last < first {
        return Err(Wrong::Backwards(span));
    }
    let Some(text) = step else {
        return Ok(Item {
            first,
            last,
            step: 1,
        });
    };
    if is_one {
        return Err(Wrong::NoRange(span, text));
    }
    match number_of(text) {
        Some(step) if 1 <= step && step <= most_of(kind) => Ok(Item { first, last, step }),
        _ => Err(Wrong::Step(text)),
    }
}

// The greatest step: how many numbers the field has.
fn most_of(kind: &Kind) -> u8 {
    kind.high.saturating_sub(kind.low).saturating_add(1)
}

fn fault_of(alloc: Global, kind: &Kind, wrong: Wrong<'_>) -> LineFault {
    let mut writer = TextWriter::new(alloc);
    writer.put(kind.name);
    match wrong {
        Wrong::Value(text) => {
            let shown = if text.is_empty() { "empty" } else { text };
            writer.fill(" is $, expected $", &[Text(shown), Text(kind.wanted)]);
        }
        Wrong::Backwards(span) => writer.fill(" is $, which runs backwards", &[Text(span)]),
        Wrong::NoRange(span, step) => writer.fill(
            " is $/$, expected a range before the step, as $-$/$",
            &[
                Text(span),
                Text(step),
                Text(span),
                Number(u64::from(kind.high)),
                Text(step),
            ],
        ),
        Wrong::Step(step) => {
            writer.put(" has the step ");
            writer.put_quoted(step);
            writer.fill(", expected 1 to $", &[Number(u64::from(most_of(kind)))]);
        }
    }
    refused(writer)
}

// What comes before the first such letter, and what after it.
fn parted(text: &str, by: char) -> (&str, Option<&str>) {
    match text.split_once(by) {
        Some((before, behind)) => (before, Some(behind)),
        None => (text, None),
    }
}
