//! Writes the lines of outcomes and of replies.

ghost use Rattle.std.specs.Prelude.{◌≡◌, IfOk};
ghost use Rattle.ctl_protocol.specs.OutcomeLines as outcomes;
ghost use Rattle.ctl_protocol.specs.OutcomeLines.{line_parts};
ghost use Rattle.ctl_protocol.specs.Objects.{line_of};
ghost use Rattle.ctl_protocol.specs.OutcomeLines.{replied, plain_orders, outcome_object, reply_object};

use crate::object::{Cell, line_from, object_of};
use crate::orders::{orders_text, string_text};
use crate::texts::refusal_text;
use history_model::{Act, Reply};
use itoa::Buffer;
use std::alloc::{AllocError, Global};

/// The line of an outcome of these parts.
fn joined(alloc: Global, code: &[u8], orders: &[u8], said: &[u8]) -> Result<Vec<u8>, AllocError>
    ensures { IfOk result (λ line. line.items ≡ line_parts code.now orders.now said.now) }
{
    let room = orders.len().saturating_add(said.len()).saturating_add(64);
    let mut line = Vec::with_capacity(alloc, room)?;
    line.extend_from_slice(b"{\"code\":")?;
    line.extend_from_slice(code)?;
    line.extend_from_slice(b",\"orders\":")?;
    line.extend_from_slice(orders)?;
    line.extend_from_slice(b",\"text\":")?;
    line.extend_from_slice(said)?;
    line.extend_from_slice(b"}\n")?;
    Ok(line)
}

fn outcome_from(
    alloc: Global,
    code: u8,
    text: &str,
    orders: &[(&str, Act)],
) -> Result<Vec<u8>, AllocError>
    ensures { IfOk result (λ line. line.items
        ≡ line_of (outcome_object code text.now (plain_orders orders.now))) }
{
    if code == 0 && orders.is_empty() && text.is_empty() {
        return Vec::from_slice(alloc, b"{\"code\":0,\"orders\":[],\"text\":\"\"}\n");
    }
    let mut buffer = Buffer::new();
    let number = buffer.format(code).as_bytes();
    let list = orders_text(alloc, orders)?;
    if text.is_empty() {
        return joined(alloc, number, list.as_slice(), b"\"\"");
    }
    let said = string_text(alloc, text)?;
    joined(alloc, number, list.as_slice(), said.as_slice())
}

/// The line of an event's outcome, with its newline: the reply's code (0 if there is no refusal), the orders with their jobs'
/// labels, and the text. A refusal puts its own text there. `Err` says only that memory ran out.
pub fn outcome_line(
    alloc: Global,
    reply: &Reply,
    orders: &[(&str, Act)],
) -> Result<Vec<u8>, AllocError>
    ensures { IfOk result (λ line. line.items
        ≡ outcomes.outcome_line (replied reply.now (plain_orders orders.now))) }
{
    match reply.refusal {
        None => outcome_from(alloc, 0, reply.text.as_str(), orders),
        Some(refusal) => {
            let text = refusal_text(alloc, refusal)?;
            outcome_from(alloc, refusal.code(), text.as_str(), orders)
        }
    }
}

fn reply_from(alloc: Global, code: u8, text: &str) -> Result<Vec<u8>, AllocError>
    ensures { IfOk result (λ line. line.items ≡ line_of (reply_object code text.now)) }
{
    let value = object_of(
        alloc,
        &[
            ("code", Cell::Count(code as u64)),
            ("text", Cell::Text(text)),
        ],
    )?;
    line_from(alloc, &value)
}

/// The line of a reply to a control client, with its newline. `Err` says only that memory ran out.
pub fn reply_line(alloc: Global, reply: &Reply) -> Result<Vec<u8>, AllocError>
    ensures { IfOk result (λ line. line.items ≡ outcomes.reply_line reply.now) }
{
    match reply.refusal {
        None => reply_from(alloc, 0, reply.text.as_str()),
        Some(refusal) => {
            let text = refusal_text(alloc, refusal)?;
            reply_from(alloc, refusal.code(), text.as_str())
        }
    }
}
