//! Writes the orders of an outcome, each straight as its text.

ghost use Rattle.std.specs.Prelude.{◌≡◌, ◌++◌, IfOk, OnOk};
ghost use Rattle.std.specs.List.{flat_map};
ghost use Rattle.serde_json.specs.Data.{array, string};
ghost use Rattle.serde_json.specs.Written.{comma_if, compact_text};
ghost use Rattle.ctl_protocol.specs.Objects.{plain_object};
ghost use Rattle.ctl_protocol.specs.OutcomeLines.{order_members, orders_data, plain_orders};

use history_model::Act;
use itoa::Buffer;
use serde_json::Value;
use std::alloc::{AllocError, Global};

/// The compact text of a string.
pub(crate) fn string_text(alloc: Global, said: &str) -> Result<Vec<u8>, AllocError>
    ensures { IfOk result (λ text. text.items ≡ compact_text (string said.now)) }
{
    let value = Value::String(String::from_str(alloc, said)?);
    value.to_vec(alloc)
}

/// Adds these pieces to the text.
fn add_all(text: &mut Vec<u8>, pieces: &[&[u8]]) -> Result<(), AllocError>
    ensures { OnOk result (text.new.items
        ≡ text.old.items ++ flat_map (λ piece. piece.now) pieces.now) }
{
    for piece in pieces {
        text.extend_from_slice(piece)?;
    }
    Ok(())
}

/// Adds the comma between two orders.
fn add_comma(text: &mut Vec<u8>, later: bool) -> Result<(), AllocError>
    ensures { OnOk result (text.new.items ≡ text.old.items ++ comma_if later) }
{
    if later {
        text.push(b',')?;
    }
    Ok(())
}

/// Adds an order: its members in byte order of keys.
fn add_order(alloc: Global, text: &mut Vec<u8>, job: &str, act: Act) -> Result<(), AllocError>
    ensures { OnOk result (text.new.items
        ≡ text.old.items ++ compact_text (plain_object (order_members (job.now, act)))) }
{
    let label = string_text(alloc, job)?;
    let job = label.as_slice();
    let mut first = Buffer::new();
    let mut last = Buffer::new();
    match act {
        Act::Spawn { run, conn } => {
            let run = last.format(run).as_bytes();
            match conn {
                None => add_all(
                    text,
                    &[
                        b"{\"job\":",
                        job,
                        b",\"order\":\"spawn\",\"run\":",
                        run,
                        b"}",
                    ],
                ),
                Some(conn) => add_all(
                    text,
                    &[
                        b"{\"conn\":",
                        first.format(conn).as_bytes(),
                        b",\"job\":",
                        job,
                        b",\"order\":\"spawn\",\"run\":",
                        run,
                        b"}",
                    ],
                ),
            }
        }
        Act::Term { run } => {
            let run = last.format(run).as_bytes();
            add_all(
                text,
                &[
                    b"{\"job\":",
                    job,
                    b",\"order\":\"term\",\"run\":",
                    run,
                    b"}",
                ],
            )
        }
        Act::Kill { run } => {
            let run = last.format(run).as_bytes();
            add_all(
                text,
                &[
                    b"{\"job\":",
                    job,
                    b",\"order\":\"kill\",\"run\":",
                    run,
                    b"}",
                ],
            )
        }
        Act::Close { conn } => {
            let conn = first.format(conn).as_bytes();
            add_all(
                text,
                &[
                    b"{\"conn\":",
                    conn,
                    b",\"job\":",
                    job,
                    b",\"order\":\"close\"}",
                ],
            )
        }
        Act::Gone => add_all(text, &[b"{\"job\":", job, b",\"order\":\"gone\"}"]),
    }
}

/// The text of a list of orders.
pub(crate) fn orders_text(alloc: Global, orders: &[(&str, Act)]) -> Result<Vec<u8>, AllocError>
    ensures { IfOk result (λ text. text.items
        ≡ compact_text (array (orders_data (plain_orders orders.now)))) }
{
    let mut text = Vec::with_capacity(alloc, 64)?;
    text.push(b'[')?;
    let mut later = false;
    for (job, act) in orders {
        add_comma(&mut text, later)?;
        add_order(alloc, &mut text, job, *act)?;
        later = true;
    }
    text.push(b']')?;
    Ok(text)
}
