//! How times are written.

ghost use Rattle.std.specs.Prelude.{◌≡◌, ◌≤◌, ◌<◌, ◌+◌, ◌-◌, ◌*◌, ◌^◌, IfSome, IfNone, IsTrue, length};
ghost use Rattle.history_model.specs.declared.TheConstants.{MAX_WALL};
ghost use Rattle.moment_words.specs.Read.{IsReadable, IsTime};
ghost use Rattle.moment_words.specs.Written.{moment_in, worded, spanned, begins_span, ago, span_of, dated, begins_date, of_date, of_today, time_after, time_of_day, time_by, date_by, two_digit_number, number_of, unit_seconds};

use crate::meaning::{MIDNIGHT, Moment, Time};
use history_model::{CivilMinute, MAX_WALL};

/// What is expected where a text is not a time.
pub const WANTED: &str =
    "HH:MM, HH:MM:SS, a date (today, yesterday, YYYY-MM-DD), a date and a time, a span before now (-90s, -15m, -2h, -3d, -1w), or a second of Unix time up to 250000000000";

/// The time that the text says; None if it says none.
pub fn read_moment(text: &str) -> Option<Moment>
    ensures readable { IfSome result IsReadable }
    ensures exact { result ≡ moment_in text.now }
{
    let text = text.as_bytes();
    match number_of_digits(text, MAX_WALL) {
        Some(second) => Some(Moment::Second(second)),
        None => read_words(text),
    }
}

// A time that is not a second of Unix time.
fn read_words(text: &[u8]) -> Option<Moment>
    ensures readable { IfSome result IsReadable }
    ensures exact { result ≡ worded text.now }
{
    if text.starts_with(b"yesterday") {
        return match time_behind(&text[9..]) {
            Some(time) => Some(Moment::OfYesterday(time)),
            None => None,
        };
    }
    if text.starts_with(b"today") {
        return match time_behind(&text[5..]) {
            Some(time) => Some(Moment::OfToday(time)),
            None => None,
        };
    }
    read_span(text)
}

// A span before now, or else a date or a time.
fn read_span(text: &[u8]) -> Option<Moment>
    ensures readable { IfSome result IsReadable }
    ensures exact { result ≡ spanned text.now }
{
    if is_span(text) {
        read_ago(text)
    } else {
        read_dated(text)
    }
}

fn is_span(text: &[u8]) -> bool
    ensures value { result ≡ begins_span text.now }
    ensures long { IsTrue result → 2 ≤ length text.now }
{
    text.len() >= 2 && text[0] == b'-'
}

fn read_ago(text: &[u8]) -> Option<Moment>
    requires { 2 ≤ length text.now }
    ensures readable { IfSome result IsReadable }
    ensures exact { result ≡ ago text.now }
{
    let last = text.len() - 1;
    match span_in(&text[1..last], text[last]) {
        Some(seconds) => Some(Moment::Ago(seconds)),
        None => None,
    }
}

// A number of the unit, in seconds.
fn span_in(digits: &[u8], unit: u8) -> Option<u64>
    ensures exact { result ≡ span_of digits.now unit }
{
    let count = number_of_digits(digits, MAX_WALL)?;
    let seconds = seconds_of(unit)?;
    Some(count * seconds)
}

// A date with a time after it, or else a time.
fn read_dated(text: &[u8]) -> Option<Moment>
    ensures readable { IfSome result IsReadable }
    ensures exact { result ≡ dated text.now }
{
    if is_dated(text) {
        read_date(text)
    } else {
        read_time(text)
    }
}

fn is_dated(text: &[u8]) -> bool
    ensures value { result ≡ begins_date text.now }
    ensures long { IsTrue result → 10 ≤ length text.now }
{
    text.len() >= 10 && text[4] == b'-' && text[7] == b'-'
}

fn read_date(text: &[u8]) -> Option<Moment>
    requires { 10 ≤ length text.now }
    ensures readable { IfSome result IsReadable }
    ensures exact { result ≡ of_date text.now }
{
    let century = [text[0], text[1]];
    let year = [text[2], text[3]];
    let date = date_of(century, year, [text[5], text[6]], [text[8], text[9]])?;
    let time = time_behind(&text[10..])?;
    Some(Moment::OfDate(date, time))
}

fn read_time(text: &[u8]) -> Option<Moment>
    ensures readable { IfSome result IsReadable }
    ensures exact { result ≡ of_today text.now }
{
    match time_in(text) {
        Some(time) => Some(Moment::OfToday(time)),
        None => None,
    }
}

// The time after a day, with a space or a T between them; midnight if nothing follows.
fn time_behind(rest: &[u8]) -> Option<Time>
    ensures time { IfSome result IsTime }
    ensures exact { result ≡ time_after rest.now }
{
    if rest.is_empty() {
        return Some(MIDNIGHT);
    }
    if rest[0] == b' ' || rest[0] == b'T' {
        time_in(&rest[1..])
    } else {
        None
    }
}

fn time_in(text: &[u8]) -> Option<Time>
    ensures time { IfSome result IsTime }
    ensures exact { result ≡ time_of_day text.now }
{
    if text.len() == 5 && text[2] == b':' {
        return time_of([text[0], text[1]], [text[3], text[4]], [b'0', b'0']);
    }
    if text.len() == 8 && text[2] == b':' && text[5] == b':' {
        return time_of([text[0], text[1]], [text[3], text[4]], [text[6], text[7]]);
    }
    None
}

fn time_of(hour: [u8; 2], minute: [u8; 2], second: [u8; 2]) -> Option<Time>
    ensures time { IfSome result IsTime }
    ensures exact { result ≡ time_by hour minute second }
{
    let hour = two_digits(hour, 24)?;
    let minute = two_digits(minute, 60)?;
    let second = two_digits(second, 60)?;
    Some(Time {
        hour,
        minute,
        second,
    })
}

// A date from 1970 on. Whether the month has that day is for the clock to say.
fn date_of(century: [u8; 2], year: [u8; 2], month: [u8; 2], day: [u8; 2]) -> Option<CivilMinute>
    ensures exact { result ≡ date_by century year month day }
{
    let century = two_digits(century, 99)?;
    let rest = two_digits(year, 100)?;
    let month = two_digits(month, 13)?;
    let day = two_digits(day, 32)?;
    let year = i16::from(century) * 100 + i16::from(rest);
    if year < 1970 {
        return None;
    }
    Some(CivilMinute {
        year,
        month,
        day,
        hour: 0,
        minute: 0,
        weekday: 0,
    })
}

// The number of the two digits, if it is below the bound.
fn two_digits(digits: [u8; 2], bound: u8) -> Option<u8>
    ensures below { IfSome result (λ number. number < bound) }
    ensures exact { result ≡ two_digit_number digits bound }
{
    let [tens, ones] = digits;
    if !(tens.is_ascii_digit() && ones.is_ascii_digit()) {
        return None;
    }
    let number = (tens - b'0') * 10 + (ones - b'0');
    if number < bound { Some(number) } else { None }
}

// The decimal number that the digits are, if it is at most `most`.
fn number_of_digits(digits: &[u8], most: u64) -> Option<u64>
    ensures most { IfSome result (λ number. number ≤ most) }
    ensures exact { result ≡ number_of digits.now most }
{
    if digits.is_empty() {
        return None;
    }
    let mut value: u64 = 0;
    for byte in digits {
        if !byte.is_ascii_digit() {
            return None;
        }
        match with_digit(value, *byte) {
            Some(next) => value = next,
            None => return None,
        }
    }
    if value <= most { Some(value) } else { None }
}

// The number with one digit more, if it fits.
fn with_digit(value: u64, digit: u8) -> Option<u64>
    requires { 48 ≤ digit }
    ensures next { IfSome result (λ next. next ≡ value * 10 + (digit - 48)) }
    ensures over { IfNone result (2 ^ 64 ≤ value * 10 + (digit - 48)) }
{
    match value.checked_mul(10) {
        Some(tens) => tens.checked_add(u64::from(digit - b'0')),
        None => None,
    }
}

// How many seconds the unit has.
fn seconds_of(unit: u8) -> Option<u64>
    ensures exact { result ≡ unit_seconds unit }
    ensures most { IfSome result (λ seconds. seconds ≤ 604_800) }
{
    match unit {
        b's' => Some(1),
        b'm' => Some(60),
        b'h' => Some(3_600),
        b'd' => Some(86_400),
        b'w' => Some(604_800),
        _ => None,
    }
}
