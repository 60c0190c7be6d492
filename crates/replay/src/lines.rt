//! The line of what the table answered.

ghost use Rattle.std.specs.Prelude.{◌≡◌, IfOk, Some, []};
ghost use Rattle.history_model.specs.Step.{refused};
ghost use Rattle.ctl_protocol.specs.OutcomeLines as outcomes;
ghost use Rattle.ctl_protocol.specs.OutcomeLines.{plain_orders};
ghost use Rattle.job_table.specs.Ends.{lent_acts};
ghost use Rattle.job_table.specs.Taking.{outcome_of};

use ctl_protocol::outcome_line;
use history_model::{Act, Refusal, Reply, Text};
use job_table::{JobTable, Step, Taken};
use std::alloc::{AllocError, Global};

/// The orders of a step, by the labels of their jobs.
fn labelled_orders<'a>(alloc: Global, step: &Step<'a>) -> Result<Vec<(&'a str, Act)>, AllocError>
    ensures { IfOk result (λ orders. plain_orders orders.items ≡ lent_acts step.now) }
{
    let mut orders = Vec::new(alloc);
    for order in step.orders {
        orders.push((step.label(order.job), order.act))?;
    }
    Ok(orders)
}

/// The line of an event that was accepted.
pub(crate) fn accepted_line(
    alloc: Global,
    table: &JobTable,
    taken: Taken,
) -> Result<Vec<u8>, AllocError>
    ensures { IfOk result (λ line. line.items ≡ outcomes.outcome_line (outcome_of taken table.now)) }
{
    let (orders, text) = match taken {
        Taken::Made(text) => (labelled_orders(alloc, &table.last_step())?, text),
        Taken::Told(text) => (Vec::new(alloc), text),
    };
    let reply = Reply {
        refusal: None,
        text,
    };
    outcome_line(alloc, &reply, orders.as_slice())
}

/// The line of an event that was refused.
pub(crate) fn refused_line(alloc: Global, refusal: Refusal) -> Result<Vec<u8>, AllocError>
    ensures { IfOk result (λ line. line.items ≡ outcomes.outcome_line (refused refusal)) }
{
    let reply = Reply {
        refusal: Some(refusal),
        text: Text::new(String::new(alloc)),
    };
    outcome_line(alloc, &reply, &[])
}
