//! The calls of a feed of lines that take memory.

use crate::little_memory::trial::Answer;
use ctl_protocol::{LINE_LIMIT, LineFault, LineFeed};
use std::alloc::Global;

/// What the feed is given first: a line, and the front of a second.
const BEFORE: &[u8] = b"first\nsec";

/// The rest of the second line, and the front of a third. It is longer than what a buffer of the first piece has room for.
const PIECE: &[u8] =
    b"ond, which is so long that the buffer has to grow for it: more than a hundred bytes, and some more than that\nthird";

const FIRST: &[u8] = b"first";

/// The lines after the first.
const SECOND: &[u8] =
    b"second, which is so long that the buffer has to grow for it: more than a hundred bytes, and some more than that\n";

/// All lines.
const BOTH: &[u8] =
    b"first\nsecond, which is so long that the buffer has to grow for it: more than a hundred bytes, and some more than that\n";

/// A feed that was given the first piece, and also the second if a line is to be taken.
pub fn fed(alloc: Global, is_whole: bool) -> Option<LineFeed> {
    let mut feed = LineFeed::new(alloc, LINE_LIMIT);
    let is_begun = feed.feed(BEFORE).is_ok();
    if is_begun && (!is_whole || feed.feed(PIECE).is_ok()) {
        Some(feed)
    } else {
        drop(feed);
        None
    }
}

/// More lines than the feed has.
const LINES: usize = 4;

/// Adds the lines that the feed has, each with its newline, and says whether these are all.
fn add_lines(feed: &mut LineFeed, lines: &mut Vec<u8>) -> bool {
    for _ in 0..LINES {
        match feed.next_line() {
            Ok(Some(line)) => {
                let is_added = lines.extend_from_slice(line.as_slice()).is_ok();
                if !is_added || lines.push(b'\n').is_err() {
                    return false;
                }
            }
            Ok(None) => return true,
            Err(_) => return false,
        }
    }
    false
}

/// Feeds the piece, or takes the first line. If that is refused, the feed has what it had, and the same call with memory is not.
pub fn fed_or_taken(feed: &mut LineFeed, is_taking: bool) -> Answer {
    if !is_taking {
        return match feed.feed(PIECE) {
            Ok(()) => Answer::Made,
            Err(LineFault::NoMemory) => Answer::NoMemory,
            Err(LineFault::TooLong) => Answer::Other,
        };
    }
    match feed.next_line() {
        Ok(Some(line)) if line.as_slice() == FIRST => Answer::Made,
        Err(LineFault::NoMemory) => Answer::NoMemory,
        _ => Answer::Other,
    }
}

/// Whether the lines that were not taken come, each once and whole, and what no newline has ended is kept.
pub fn is_kept(alloc: Global, feed: &mut LineFeed, is_taking: bool, answer: Answer) -> bool {
    let is_made = answer == Answer::Made;
    if !is_made && !is_taking && feed.feed(PIECE).is_err() {
        return false;
    }
    let wanted = if is_made && is_taking { SECOND } else { BOTH };
    let mut lines = Vec::new(alloc);
    let is_all = add_lines(feed, &mut lines);
    is_all && lines.as_slice() == wanted && feed.rest() == b"third".as_slice()
}
