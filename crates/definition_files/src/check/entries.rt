//! What may be wrong with the entries of a calendar.

use crate::check::changes::Change;
use crate::check::finding::Severity;
use crate::check::finding_list::FindingList;
use crate::check::mistakes::{Mistake, made_by};
use crate::check::place::{WayStep, place_by};
use calendar_due::Calendar;
use history_model::{CivilMinute, Entry, KeyName};
use json_kinds::key_name;
use run_times::Piece::{Number, Text, TwoDigits};
use run_times::TextWriter;

const MONTHS: &[&str] = &[
    "January",
    "February",
    "March",
    "April",
    "May",
    "June",
    "July",
    "August",
    "September",
    "October",
    "November",
    "December",
];

fn month_name(month: u8) -> &'static str {
    match MONTHS.get(usize::from(month.saturating_sub(1))) {
        Some(name) => name,
        None => "?",
    }
}

/// Adds the findings on entries of an hour that the clock skips at a change, or shows twice.
pub(crate) fn add_entries(
    entries: &[Entry],
    changes: &[Change],
    finding_list: &mut FindingList<'_>,
) {
    for (index, entry) in entries.iter().enumerate() {
        if entry.hour.is_some() && !made_by(Mistake::NeverMatches, entry) {
            add_changed(&way_to(index), entry, changes, finding_list);
        }
    }
}

fn way_to(index: usize) -> [WayStep<'static>; 2] {
    let key = key_name(KeyName::StartCalendarInterval);
    [WayStep::Key(key), WayStep::Member(index)]
}

/// Adds a remark for each entry that makes this mistake.
pub(crate) fn add_made_by(mistake: Mistake, entries: &[Entry], finding_list: &mut FindingList<'_>) {
    for (index, entry) in entries.iter().enumerate() {
        if made_by(mistake, entry) {
            let (severity, form) = form_for(mistake, entry);
            // Only the month is named before the number.
            let (number, first) = match mistake {
                Mistake::NeverMatches => (entry.day, 0),
                Mistake::EachMinute => (entry.hour, 1),
                Mistake::EachHour => (entry.minute, 1),
                _ => (entry.day, 1),
            };
            let month = month_name(entry.month.unwrap_or(0));
            let pieces = [Text(month), Number(u64::from(number.unwrap_or(0)))];
            let mut writer = TextWriter::new(finding_list.alloc);
            writer.fill(form, pieces.get(first..).unwrap_or(&[]));
            let place = place_by(finding_list.text, finding_list.marks, &way_to(index), false);
            finding_list.push(place, severity, writer.into_text());
        }
    }
}

// How grave it is, and the form. Its hole is for the hour, the minute or the day that is named. For an entry that never matches the month comes
// first.
fn form_for(mistake: Mistake, entry: &Entry) -> (Severity, &'static str) {
    match mistake {
        Mistake::NeverMatches => (
            Severity::Warning,
            "StartCalendarInterval: $ has no day $, so this entry never matches",
        ),
        Mistake::EachHour => (
            Severity::Note,
            "StartCalendarInterval: Hour is absent: it starts in each of the 24 hours of the day, at minute $; is \"Hour\": 0 meant?",
        ),
        Mistake::ShortMonth => (
            Severity::Note,
            "StartCalendarInterval: months without a day $ are left out",
        ),
        Mistake::EitherDay => (
            Severity::Warning,
            "StartCalendarInterval: of Day and Weekday either suffices, so it starts on each such day and on each such weekday",
        ),
        _ => (Severity::Warning, each_minute_form(entry)),
    }
}

fn each_minute_form(entry: &Entry) -> &'static str {
    let has_day = entry.day.is_some() || entry.weekday.is_some() || entry.month.is_some();
    if entry.hour.is_some() {
        "StartCalendarInterval: Minute is absent: it starts in each of the 60 minutes of hour $; is \"Minute\": 0 meant?"
    } else if has_day {
        "StartCalendarInterval: Minute and Hour are absent: it starts in each of the 1440 minutes of the day; are \"Hour\": 0 and \"Minute\": 0 meant?"
    } else {
        "StartCalendarInterval: Minute and Hour are absent: it starts in each minute of each day; are \"Hour\": 0 and \"Minute\": 0 meant?"
    }
}

fn add_changed(
    way: &[WayStep<'_>],
    entry: &Entry,
    changes: &[Change],
    finding_list: &mut FindingList<'_>,
) {
    for change in changes {
        if let Some(minute) = first_matched(entry, change.minutes.as_slice()) {
            add_change(way, change.is_skipped, &minute, finding_list);
        }
    }
}

fn first_matched(entry: &Entry, minutes: &[CivilMinute]) -> Option<CivilMinute> {
    let entries = [*entry];
    for minute in minutes {
        if Calendar::matches(&entries, minute) {
            return Some(*minute);
        }
    }
    None
}

fn add_change(
    way: &[WayStep<'_>],
    is_skipped: bool,
    minute: &CivilMinute,
    finding_list: &mut FindingList<'_>,
) {
    let form = if is_skipped {
        "StartCalendarInterval: the clock skips $:$ on $ $, $: this entry does not match then"
    } else {
        "StartCalendarInterval: the clock shows $:$ twice on $ $, $: this entry matches twice"
    };
    let pieces = [
        TwoDigits(u64::from(minute.hour)),
        TwoDigits(u64::from(minute.minute)),
        Text(month_name(minute.month)),
        Number(u64::from(minute.day)),
        Number(minute.year.max(0) as u64),
    ];
    finding_list.add_at(way, form, &pieces);
}
