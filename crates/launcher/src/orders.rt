//! Carries out on the outside what the table orders at one event.

ghost use Rattle.std.specs.Prelude.{◌≡◌};
ghost use Rattle.job_table.specs.Ends.{AreKnown};
ghost use Rattle.launcher.specs.HostTurns.{Executed, orders_lent, AreKnownIn};
ghost use Rattle.loaded_jobs.specs.Loads.{refused_with};

use crate::answer_queue::AnswerQueue;
use child_edge::{ChildEdge, SocketEdge};
use history_model::{Act, Refusal};
use job_table::Step;
use outside::execute;

/// Carries out each order of the step, in order, each by its one call, and puts the answers after those that wait.
/// Takes no memory of its own.
pub(crate) fn execute_all<E: ChildEdge + SocketEdge>(
    edge: &mut E,
    step: &Step<'_>,
    answers: &mut AnswerQueue,
)
    requires { AreKnown step.now }
    ensures { Executed step.now.orders.now answers.old answers.new
        (E.told edge.old) (E.told edge.new) }
{
    let mut next = 0usize;
    for order in step.orders {
        next = next.saturating_add(1);
        expect_at(edge, step, next);
        match execute(edge, *order, step.def(order.job)) {
            Some(answer) => answers.keep(answer),
            None => {}
        }
    }
}

// If the order at this place is a start, it is expected: the edge may prepare it while it carries out the one before.
fn expect_at<E: ChildEdge>(edge: &mut E, step: &Step<'_>, at: usize)
    requires { AreKnown step.now }
    ensures { E.told edge.new ≡ E.told edge.old }
{
    if let Some(order) = step.orders.get(at) {
        if let Act::Spawn { run, conn } = order.act {
            edge.expect(order.job, run, step.def(order.job), conn);
        }
    }
}

/// Carries out the orders of an event; one that was refused has none, and its refusal is the answer.
#[tactic(auto, using(crate::proofs::ExecuteLemmas::none_carried))]
pub(crate) fn execute_step<E: ChildEdge + SocketEdge>(
    edge: &mut E,
    lent: Result<Step<'_>, Refusal>,
    answers: &mut AnswerQueue,
) -> Result<(), Refusal>
    requires { AreKnownIn lent }
    ensures executed { Executed (orders_lent lent.entry) answers.old answers.new
        (E.told edge.old) (E.told edge.new) }
    ensures answer { refused_with result ≡ refused_with lent.entry }
{
    match lent { // for the proof
        Ok(step) => {
            execute_all(edge, &step, answers);
            Ok(())
        }
        Err(refusal) => Err(refusal),
    }
}
