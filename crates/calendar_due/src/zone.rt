//! A zone that the caller gives, the civil minute that its clock shows, and the minutes that a step of the clock crosses.
ghost use Rattle.std.specs.Prelude.{◌≡◌, ◌≤◌, ◌↔◌, ◌+ℤ◌, ◌⊎◌, ◌<◌, ◌++◌, ◌∷◌, [], Err, map, length, IsOk, IsErr, IsSome, IfOk, IfErr, OnOk};
ghost use Rattle.jiff_core.specs.Calendar.{IsWithin};
ghost use Rattle.jiff_core.specs.DateTime.{civil_seconds};
ghost use Rattle.jiff_tz.specs.PosixReader.{read_whole};
ghost use Rattle.jiff_tz.specs.Tzif.{HasBadRule};
ghost use Rattle.jiff_tz.specs.TzifReader.{read_tzif};
ghost use Rattle.history_model.specs.Calendar.{crossed, last_before};
ghost use Rattle.calendar_due.specs.Minute.{shown_minute};
ghost use Rattle.calendar_due.specs.Offsets.{always, clock_seconds};
ghost use Rattle.calendar_due.specs.ZoneRules.{offsets, minute_at};
ghost use Rattle.calendar_due.specs.Zone.{IsOfRule, IsOfTable, IsUnreadable, IsBadFile};
ghost use Rattle.calendar_due.specs.declared.zone.TheConstants.{LONGEST_FILE};

use history_model::{CALENDAR_REACH, CivilMinute, MAX_WALL};
use jiff::civil::DateTime;
use jiff::tz::{Offset, TimeZone, Tzif};
use jiff::{Error, Timestamp};
use std::alloc::{AllocError, Global};

/// The rules of a civil clock. Contracts see a zone by `offsets` and `minute_at`, both at each second of Unix time. `offsets` are
/// the seconds by which its clock is ahead of UTC, and `minute_at` is the civil minute that it shows.
#[derive(Drop)]
pub struct Zone {
    rules: Rules,
}

#[derive(Drop)]
enum Rules {
    Plain(TimeZone<'static>),
    Table(Tzif),
}

/// Why no zone was made.
#[derive(Clone, Copy, PartialEq, Eq, Drop)]
pub enum ZoneFault {
    /// Memory ran out.
    NoMemory,
    /// What the caller gave is past a limit, or does not describe a zone.
    BadZone,
}

/// The longest zone file, in bytes.
pub const LONGEST_FILE: usize = 65_536;

impl Zone {
    /// The zone whose clock is always that many seconds ahead of UTC, negative west of it. BadZone past 86,399 either way.
    /// Takes no memory.
    pub fn fixed(seconds: i32) -> Result<Zone, ZoneFault>
        ensures succeeds { IsOk result ↔ IsWithin 86_399 seconds }
        ensures zone { IfOk result (λ zone. offsets zone ≡ always seconds) }
        ensures fault { IfErr result (λ e. e ≡ ZoneFault.BadZone) }
    {
        if !(-86_399..=86_399).contains(&seconds) {
            return Err(ZoneFault::BadZone);
        }
        match Offset::from_seconds(seconds) {
            Ok(offset) => Ok(Zone {
                rules: Rules::Plain(TimeZone::fixed(offset)),
            }),
            Err(_) => Err(ZoneFault::BadZone),
        }
    }

    /// The zone of a POSIX rule, as `EST5EDT,M3.2.0,M11.1.0` (POSIX, Base Definitions, 8.3, variable TZ). BadZone if the text is
    /// not such a rule; the name of a zone, as `Europe/Paris`, is not one. Takes no memory.
    pub fn posix(text: &str) -> Result<Zone, ZoneFault>
        ensures succeeds { IsOk result ↔ IsSome (read_whole text.now) }
        ensures zone { IfOk result (λ zone. IsOfRule text.now (offsets zone)) }
        ensures fault { IfErr result (λ e. e ≡ ZoneFault.BadZone) }
    {
        match TimeZone::posix(text) {
            Ok(zone) => Ok(Zone {
                rules: Rules::Plain(zone),
            }),
            Err(_) => Err(ZoneFault::BadZone),
        }
    }

    /// The zone of the bytes of a zone file (RFC 9636). BadZone past 65,536 bytes, if the bytes are not a zone file, and if the
    /// file's footer does not agree with its last row. NoMemory if the table found no room.
    pub fn tzif(alloc: Global, bytes: &[u8]) -> Result<Zone, ZoneFault>
        ensures long { LONGEST_FILE < length bytes.now → result ≡ Err ZoneFault.BadZone }
        ensures unreadable { IsUnreadable bytes.now → result ≡ Err ZoneFault.BadZone }
        ensures bad_rule { HasBadRule (read_tzif bytes.now) → IsErr result }
        ensures bad { result ≡ Err ZoneFault.BadZone → IsBadFile bytes.now }
        ensures zone { IfOk result (λ zone. IsOfTable bytes.now (offsets zone)) }
    {
        if bytes.len() > LONGEST_FILE {
            return Err(ZoneFault::BadZone);
        }
        match Tzif::parse(alloc, None, bytes) {
            Ok(table) => Ok(Zone {
                rules: Rules::Table(table),
            }),
            Err(Error::OutOfMemory) => Err(ZoneFault::NoMemory),
            Err(_) => Err(ZoneFault::BadZone),
        }
    }

    // What a clock in this zone shows at a second of Unix time.
    fn shown_at(&self, seconds: u64) -> DateTime
        requires { seconds ≤ MAX_WALL }
        ensures { civil_seconds result ≡ clock_seconds (offsets self.now) seconds }
    {
        let Ok(instant) = Timestamp::from_second(seconds as i64) else {
            unreachable!()
        };
        match &self.rules {
            Rules::Plain(zone) => zone.to_datetime(instant),
            Rules::Table(table) => TimeZone::tzif(table).to_datetime(instant),
        }
    }

    /// What a clock in this zone shows that many seconds after 1970-01-01T00:00:00 UTC, its seconds dropped. The caller's
    /// condition: at most 250,000,000,000 seconds, in the year 9892. Takes no memory.
    #[tactic(auto, unfolding(crate::specs::ZoneRules::minute_at, crate::specs::Offsets::shown_by))]
    pub fn civil_minute(&self, seconds: u64) -> CivilMinute
        requires { seconds ≤ MAX_WALL }
        ensures { result ≡ minute_at self.now seconds }
    {
        minute_of(self.shown_at(seconds))
    }

    /// What a clock in this zone shows at each whole minute of Unix time after `previous` and up to `now`, both in seconds,
    /// in rising order. Of a step of more than 400 days only the last 400 count. A civil minute that the clock skips is
    /// not there, and one that it shows twice is there twice. The caller's condition: `now` is at most 250,000,000,000.
    pub fn crossed(
        &self,
        alloc: Global,
        previous: u64,
        now: u64,
    ) -> Result<Vec<CivilMinute>, AllocError>
        requires { now ≤ MAX_WALL }
        ensures { IfOk result (λ minutes. minutes.items
            ≡ map (minute_at self.now) (crossed previous now)) }
    {
        let last_before = minute_before(previous, now);
        let count = (now / 60).saturating_sub(last_before);
        let mut minutes = Vec::with_capacity(alloc, count as usize)?;
        for k in last_before..now / 60 {
            self.add_minute(&mut minutes, (k + 1) * 60)?;
        }
        Ok(minutes)
    }

    // What a clock in this zone shows at the second, as the last of the list.
    fn add_minute(&self, minutes: &mut Vec<CivilMinute>, second: u64) -> Result<(), AllocError>
        requires { second ≤ MAX_WALL }
        ensures { OnOk result (minutes.new.items
            ≡ minutes.old.items ++ minute_at self.now second ∷ []) }
    {
        minutes.push(self.civil_minute(second))?;
        Ok(())
    }
}

// The minute after which a step's minutes are crossed, counted from 1970: that of the clock reading before, or 400 days ago.
fn minute_before(previous: u64, now: u64) -> u64
    ensures { result ≡ last_before previous now }
{
    (previous / 60).max(now.saturating_sub(CALENDAR_REACH) / 60)
}

// The datetime with its seconds dropped.
fn minute_of(shown: DateTime) -> CivilMinute
    ensures { result ≡ shown_minute (civil_seconds shown) }
{
    CivilMinute {
        year: shown.year(),
        month: shown.month().unsigned_abs(),
        day: shown.day().unsigned_abs(),
        hour: shown.hour().unsigned_abs(),
        minute: shown.minute().unsigned_abs(),
        weekday: shown.weekday().to_sunday_zero_offset().unsigned_abs(),
    }
}
