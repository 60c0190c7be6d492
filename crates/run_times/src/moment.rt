//! A second of Unix time as a clock shows it.

ghost use Rattle.std.specs.Prelude.{◌≡◌, ◌≤◌, true};
ghost use Rattle.std.specs.List.{list_all};
ghost use Rattle.calendar_due.specs.ZoneRules.{minute_at};
ghost use Rattle.run_times.specs.ClockTexts.{TellsClock, date_text, hour_text, is_clock_char, offset_text};
ghost use Rattle.run_times.specs.Written.{Adds};

use crate::writer::Piece::{Number, Text, TwoDigits};
use crate::writer::TextWriter;
use calendar_due::Zone;
use history_model::{CivilMinute, MAX_WALL};
use std::alloc::{AllocError, Global};

const WEEKDAYS: [&str; 7] = ["Sun", "Mon", "Tue", "Wed", "Thu", "Fri", "Sat"];

const DAY: u32 = 1440;

/// The zone of UTC. Takes no memory.
pub fn utc() -> Zone {
    let Ok(zone) = Zone::fixed(0) else {
        unreachable!()
    };
    zone
}

/// What a clock in the zone shows at the second, with its weekday and how far it is ahead of UTC, as
/// `2026-11-29 Sun 03:30:00 +0100`. The offset is that of the minute: seconds of an offset, which no zone has had since 1972, are
/// dropped. The caller's condition: at most 250,000,000,000 seconds.
pub fn time_text(alloc: Global, zone: &Zone, second: u64) -> Result<String, AllocError>
    requires { second ≤ MAX_WALL }
{
    let at = zone.civil_minute(second);
    let (sign, offset) = offset_of(&at, second);
    let mut writer = TextWriter::new(alloc);
    // No year is before 1969, nor after 9999.
    let pieces = [
        Number(u64::from(at.year.unsigned_abs())),
        TwoDigits(u64::from(at.month)),
        TwoDigits(u64::from(at.day)),
        Text(WEEKDAYS[usize::from(at.weekday % 7)]),
        TwoDigits(u64::from(at.hour)),
        TwoDigits(u64::from(at.minute)),
        TwoDigits(second % 60),
        Text(sign),
        TwoDigits(offset / 60),
        TwoDigits(offset % 60),
    ];
    writer.fill("$-$-$ $ $:$:$ $$$", &pieces);
    writer.into_text()
}

/// Adds the second as RFC 3339 writes it, by the clock of the zone: `2026-11-29T03:30:00+01:00`. It is digits and signs alone, without the name of
/// the zone. Seconds of an offset are dropped. The caller's condition: at most 250,000,000,000 seconds.
#[tactic(auto, using(crate::proofs::ClockLemmas::tells_clock))]
pub fn put_clock(writer: &mut TextWriter, zone: &Zone, second: u64)
    requires { second ≤ MAX_WALL }
    ensures { TellsClock (minute_at zone.now second) second writer.old writer.new }
{
    let at = zone.civil_minute(second);
    let (sign, offset) = offset_of(&at, second);
    put_date(writer, &at);
    put_hour(writer, &at, second);
    put_offset(writer, sign, offset);
}

fn put_date(writer: &mut TextWriter, at: &CivilMinute)
    ensures { Adds (date_text at.now) writer.old writer.new }
{
    let year = u64::from(at.year.unsigned_abs());
    writer.put_all(&[
        TwoDigits(year / 100),
        TwoDigits(year % 100),
        Text("-"),
        TwoDigits(u64::from(at.month)),
        Text("-"),
        TwoDigits(u64::from(at.day)),
    ]);
}

fn put_hour(writer: &mut TextWriter, at: &CivilMinute, second: u64)
    ensures { Adds (hour_text at.now second) writer.old writer.new }
{
    writer.put_all(&[
        Text("T"),
        TwoDigits(u64::from(at.hour)),
        Text(":"),
        TwoDigits(u64::from(at.minute)),
        Text(":"),
        TwoDigits(second % 60),
    ]);
}

fn put_offset(writer: &mut TextWriter, sign: &str, minutes: u64)
    ensures { Adds (offset_text sign.now minutes) writer.old writer.new }
{
    writer.put_all(&[
        Text(sign),
        TwoDigits(minutes / 60),
        Text(":"),
        TwoDigits(minutes % 60),
    ]);
}

// How far the minute that is shown at the second is from that of UTC: earlier or later, and by how many minutes. Both are counted from the
// beginning of the second last day before that of UTC. An offset is less than two days, so the weekdays give it; UTC's first was a Thursday.
fn offset_of(at: &CivilMinute, second: u64) -> (&'static str, u64)
    ensures { list_all is_clock_char result.0.now ≡ true }
{
    let utc_days = ((second / 86_400) % 7) as u32;
    let days = (u32::from(at.weekday) + 12 - utc_days) % 7;
    let shown = days * DAY + u32::from(at.hour) * 60 + u32::from(at.minute);
    let utc = 2 * DAY + ((second / 60) % 1440) as u32;
    let sign = if shown < utc { "-" } else { "+" };
    (sign, u64::from(shown.abs_diff(utc)))
}
