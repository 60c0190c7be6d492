//! A text that grows by forms with holes, and the clock by which it shows times.

ghost use Rattle.run_times.specs.Written.{Grows};

use crate::escape::escaped;
use crate::moment::time_text;
use crate::next::coming_second;
use crate::writer::TextWriter;
use calendar_due::Zone;
use history_model::{MAX_WALL, Reading};
use std::alloc::{AllocError, Global};

/// A text, the zone in which it shows times, and the clock reading as of which it speaks.
#[derive(Drop)]
pub struct Page<'a> {
    pub writer: TextWriter,
    pub now: Reading,
    pub alloc: Global,
    pub zone: &'a Zone,
    /// The whole time of the clock reading.
    moment: TextWriter,
}

/// What is put into a hole.
#[derive(Clone, Copy)]
pub enum Filling<'a> {
    /// A text, as by `TextWriter::put_plain`.
    Text(&'a str),
    /// A text as it is written within XML or HTML.
    Escaped(&'a str),
    Number(u64),
    /// The time of the present clock reading, with weekday and offset.
    Now,
    /// The date and time of a second of `wall`, with weekday and offset.
    Moment(u64),
    /// The time of the day of a second of `wall`. It is the whole time, if its day or its offset is not that of the present clock reading.
    Time(u64),
    /// As `Time`, of a coming instant of `up`, if both clocks go on alike.
    Coming(u64),
    /// The date and the minute of a second of `wall`, with weekday and offset.
    Minute(u64),
    /// A span of milliseconds, by tenths of a second below a minute.
    Span(u64),
}

/// How a time is shown.
#[derive(Clone, Copy)]
enum MomentLook {
    Whole,
    /// Only the time of the day, if all else is as of the present clock reading.
    Short,
    Minute,
}

// Whether two times differ only in the time of the day.
fn is_same_day(one: &str, other: &str) -> bool {
    let is_same_date = one.get(..15) == other.get(..15);
    let is_same_offset = one.get(23..) == other.get(23..);
    is_same_date && is_same_offset
}

// The number of the hole for the `$` before this part of a form, and what follows it. `next` is the hole if the `$` names none.
fn place_in(part: &str, next: usize) -> (usize, &str) {
    match part.as_bytes() {
        [digit @ b'0'..=b'9', ..] => (usize::from(*digit - b'0'), part.get(1..).unwrap_or("")),
        _ => (next, part),
    }
}

impl<'a> Page<'a> {
    /// An empty one.
    pub fn new(alloc: Global, zone: &'a Zone, now: Reading) -> Page<'a> {
        let mut moment = TextWriter::new(alloc);
        moment.put_moment(alloc, zone, now.wall);
        Page {
            writer: TextWriter::new(alloc),
            now,
            alloc,
            zone,
            moment,
        }
    }

    /// The text, if memory was never refused.
    pub fn into_text(self) -> Result<String, AllocError> {
        let Page {
            mut writer,
            moment,
            ..
        } = self;
        if moment.is_refused {
            writer.refuse();
        }
        drop(moment);
        writer.into_text()
    }

    /// Adds the form. Each `$` in it is for the next of the holes or, with a digit after it, for the hole of that number, from 0. Holes for
    /// which there is no `$` are left out. What is written stays.
    pub fn add(&mut self, form: &str, holes: &[Filling<'_>])
        ensures grows { Grows self.old.writer self.new.writer }
    {
        let mut parts = form.split('$');
        self.writer.put(parts.next().unwrap_or(""));
        let mut next: usize = 0;
        for part in parts {
            let (place, rest) = place_in(part, next);
            self.add_hole(holes.get(place));
            self.writer.put(rest);
            next = next.saturating_add(1);
        }
    }

    fn add_hole(&mut self, hole: Option<&Filling<'_>>)
        ensures grows { Grows self.old.writer self.new.writer }
    {
        let Some(hole) = hole else {
            return;
        };
        match *hole {
            Filling::Text(part) => self.writer.put_plain(part),
            Filling::Escaped(part) => self.writer.put_made(escaped(self.alloc, part)),
            Filling::Number(number) => self.writer.put_number(number),
            Filling::Now => self.writer.put(self.moment.text.as_str()),
            Filling::Span(length) => self.writer.put_span(length, true),
            Filling::Moment(wall) => self.add_moment(wall, MomentLook::Whole),
            Filling::Time(wall) => self.add_moment(wall, MomentLook::Short),
            Filling::Coming(up) => {
                self.add_moment(coming_second(self.now, up), MomentLook::Short);
            }
            Filling::Minute(wall) => self.add_moment(wall, MomentLook::Minute),
        }
    }

    fn add_moment(&mut self, wall: u64, look: MomentLook)
        ensures grows { Grows self.old.writer self.new.writer }
    {
        match time_text(self.alloc, self.zone, wall.min(MAX_WALL)) {
            Ok(text) => {
                let moment = text.as_str();
                let (date, from, until) = match look {
                    MomentLook::Minute => (20, 23, moment.len()),
                    MomentLook::Short if is_same_day(moment, self.moment.text.as_str()) => (
                        0, 15, 23,
                    ),
                    _ => (moment.len(), 0, 0),
                };
                self.writer.put(moment.get(..date).unwrap_or(""));
                self.writer.put(moment.get(from..until).unwrap_or(""));
                drop(text);
            }
            Err(_) => self.writer.refuse(),
        }
    }
}
