//! The bytes of one exchange, from the client's request to what is left to send of the reply.

use crate::parts::exchange::Step::*;
use socket_demand::{Exchange, ExchangeFault};
use std::alloc::Global;

/// What happens to an exchange, and what is expected of it.
pub enum Step {
    /// A piece of the request, and how it is refused.
    Piece(&'static str, Option<ExchangeFault>),
    RequestEnd,
    /// The request is this.
    Asked(&'static str),
    /// A piece of the reply, and how many bytes of it are taken.
    Reply(&'static str, usize),
    /// How many bytes were sent.
    Sent(usize),
    ReplyEnd,
    /// What is left to send is this.
    Left(&'static str),
    Done(bool),
}

/// A request in two pieces, and a reply of which two bytes are sent.
pub const SERVED: &[Step] = &[
    Piece("ab", None),
    Piece("c", None),
    Asked("abc"),
    RequestEnd,
    Piece("d", Some(ExchangeFault::Closed)),
    Asked("abc"),
    Reply("xyz", 3),
    Sent(2),
    Left("z"),
    ReplyEnd,
    Reply("more", 0),
    Left("z"),
    Done(false),
    Sent(1),
    Done(true),
];

/// Whether the step goes as it says.
fn goes(exchange: &mut Exchange, step: &Step) -> bool {
    match *step {
        Piece(piece, fault) => exchange.request(piece.as_bytes()).err() == fault,
        RequestEnd => {
            exchange.request_end();
            true
        }
        Asked(text) => exchange.request_bytes() == text.as_bytes(),
        Reply(piece, count) => exchange.reply(piece.as_bytes()) == count,
        Sent(count) => {
            let is_there = count <= exchange.to_send().len();
            if is_there {
                exchange.sent(count);
            }
            is_there
        }
        ReplyEnd => {
            exchange.reply_end();
            true
        }
        Left(text) => exchange.to_send() == text.as_bytes(),
        Done(is_done) => exchange.done() == is_done,
    }
}

/// Whether the exchange goes as its steps say. None without memory.
pub fn all_go(alloc: Global, steps: &[Step]) -> Option<bool> {
    let mut exchange = Exchange::new(alloc).ok()?;
    let mut all_go = true;
    for step in steps {
        all_go &= goes(&mut exchange, step);
    }
    drop(exchange);
    Some(all_go)
}
