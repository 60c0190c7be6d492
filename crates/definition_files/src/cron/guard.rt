//! A test before the command, for a line that no 64 entries can say.

use crate::cron::entries::MOST_ENTRIES;
use crate::cron::fields::{Field, Fields};
use crate::cron::line::When;
use run_times::TextWriter;
use std::alloc::{AllocError, Global};

// The time that is judged: that of the start by the clock, put back by the first minute of the entries, and by their first hour if they name
// hours. So it has the hour, or the day, of the entry that came due last, however late the start is.
const BEFORE_MINUTES: &str =
    "set -- \"$(/bin/date -u -d \"$(TZ=:/etc/localtime /bin/date '+%F %T UTC') ";

const BEHIND_MINUTES: &str = " minutes ago\" +%-m.%-d.%w%u.%-H)\" \"$@\"; ";

const END: &str = "shift; exec \"$0\" \"$@\"";

/// A field, with what comes before and after each value in the text of the time.
#[derive(Clone, Copy)]
struct Judged<'a> {
    field: &'a Field,
    before: &'static str,
    behind: &'static str,
}

/// The shell script that runs the program only at the line's minutes, if no 64 entries say these, or a day and a weekday must both suit. A
/// field that it judges is then as `*`. If entries say the minutes, the script is empty, and the fields stay as they were.
pub(crate) fn guard_in(alloc: Global, when: &mut When) -> Result<String, AllocError> {
    let mut writer = TextWriter::new(alloc);
    if let When::Minutes(fields) = when {
        if is_both(fields) || has_many(fields) {
            put_guard(alloc, &mut writer, fields);
        }
    }
    writer.into_text()
}

fn put_guard(alloc: Global, writer: &mut TextWriter, fields: &mut Fields) {
    let mut cases = TextWriter::new(alloc);
    put_cases(&mut cases, fields);
    let hours = first_of(&fields.hours).saturating_mul(60);
    writer.put(BEFORE_MINUTES);
    writer.put_number(first_of(&fields.minutes).saturating_add(hours));
    writer.put(BEHIND_MINUTES);
    writer.put_made(cases.into_text());
    writer.put(END);
}

fn put_cases(writer: &mut TextWriter, fields: &mut Fields) {
    if is_both(fields) {
        put_case(writer, &[by_day(&fields.days)]);
        fields.days.is_every = true;
    }
    if has_many(fields) {
        put_case(writer, &[by_hour(&fields.hours)]);
        fields.hours.is_every = true;
    }
    if has_many(fields) {
        put_case(
            writer,
            &[by_day(&fields.days), by_weekday(&fields.weekdays)],
        );
        fields.days.is_every = true;
        fields.weekdays.is_every = true;
    }
    if has_many(fields) {
        put_case(writer, &[by_month(&fields.months)]);
        fields.months.is_every = true;
    }
}

fn by_hour(field: &Field) -> Judged<'_> {
    Judged {
        field,
        before: "*.*.*.",
        behind: "",
    }
}

fn by_day(field: &Field) -> Judged<'_> {
    Judged {
        field,
        before: "*.",
        behind: ".*.*",
    }
}

// The text of the time has both numbers of Sunday.
fn by_weekday(field: &Field) -> Judged<'_> {
    Judged {
        field,
        before: "*.*.*",
        behind: "*.*",
    }
}

fn by_month(field: &Field) -> Judged<'_> {
    Judged {
        field,
        before: "",
        behind: ".*.*.*",
    }
}

// Adds the test that one of the fields suits; nothing, if none has values.
fn put_case(writer: &mut TextWriter, fields: &[Judged<'_>]) {
    let mut is_first = true;
    for judged in fields {
        put_values(writer, judged, &mut is_first);
    }
    if !is_first {
        writer.put(") ;; *) exit;; esac; ");
    }
}

fn put_values(writer: &mut TextWriter, judged: &Judged<'_>, is_first: &mut bool) {
    if judged.field.is_every {
        return;
    }
    for value in judged.field.values.as_slice() {
        writer.put(if *is_first { "case $1 in " } else { "|" });
        writer.put(judged.before);
        writer.put_number(u64::from(*value));
        writer.put(judged.behind);
        *is_first = false;
    }
}

// The first value that entries name of the field; 0 if they name none.
fn first_of(field: &Field) -> u64 {
    match field.values.as_slice().first() {
        Some(value) if !field.is_every => u64::from(*value),
        _ => 0,
    }
}

// A day and a weekday are named, and both must suit.
fn is_both(fields: &Fields) -> bool {
    !fields.is_either & !fields.days.is_every & !fields.weekdays.is_every
}

// The fields make more entries than a definition may have.
fn has_many(fields: &Fields) -> bool {
    let by_day = if fields.days.is_every {
        0
    } else {
        choices(&fields.days)
    };
    let by_weekday = if fields.weekdays.is_every & !fields.days.is_every {
        0
    } else {
        choices(&fields.weekdays)
    };
    let days = by_day.saturating_add(by_weekday);
    let hours = choices(&fields.hours).saturating_mul(choices(&fields.months));
    days.saturating_mul(hours)
        .saturating_mul(choices(&fields.minutes))
        > MOST_ENTRIES
}

fn choices(field: &Field) -> usize {
    if field.is_every {
        1
    } else {
        field.values.len()
    }
}
