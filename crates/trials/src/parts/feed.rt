//! A feed of lines as its caller uses it, step by step.

use crate::parts::feed::Step::*;
use ctl_protocol::{LINE_LIMIT, LineFeed};
use std::alloc::Global;

/// What is asked of a feed, and what is expected of it.
pub enum Step {
    /// The piece is taken.
    Taken(&'static [u8]),
    /// The next line is this.
    Next(&'static [u8]),
    /// There is no line.
    NoLine,
    /// This is what no newline has ended.
    Rest(&'static [u8]),
}

/// How many bytes a line may have, and the steps.
pub struct FeedCase {
    pub limit: usize,
    pub steps: &'static [Step],
}

/// A line that is cut in two comes whole, once its newline has come.
pub const CUT: &FeedCase = &FeedCase {
    limit: LINE_LIMIT,
    steps: &[
        Taken(b"{\"req\":\"li"),
        NoLine,
        Taken(b"st\"}\n{\"req\""),
        Next(b"{\"req\":\"list\"}"),
        NoLine,
        Rest(b"{\"req\""),
    ],
};

/// Whether the step goes as it says.
fn goes(feed: &mut LineFeed, step: &Step) -> bool {
    match *step {
        Taken(piece) => feed.feed(piece).is_ok(),
        Next(wanted) => match feed.next_line() {
            Ok(Some(line)) => line.as_slice() == wanted,
            _ => false,
        },
        NoLine => matches!(feed.next_line(), Ok(None)),
        Rest(wanted) => feed.rest() == wanted,
    }
}

/// Whether a feed goes as its steps say.
pub fn all_go(alloc: Global, fed: &FeedCase) -> bool {
    let mut feed = LineFeed::new(alloc, fed.limit);
    let mut all_go = true;
    for step in fed.steps {
        let goes = goes(&mut feed, step);
        all_go &= goes;
    }
    drop(feed);
    all_go
}
