//! One order, carried out by one call.

ghost use Rattle.outside.specs.Orders.{Executes, IsTellable, IsTellablePending, spawn_answer as spawned};
ghost use Rattle.child_edge.specs.Calls.{start_answer};
ghost use Rattle.std.specs.Prelude.{◌≡◌, ◌<◌, IfSome};
ghost use Rattle.std.specs.Result.{ForOk};

use crate::PendingAnswer;
use child_edge::{ChildEdge, EdgeFault, SocketEdge};
use history_model::definition::Def;
use history_model::{Act, Answer, Order};

/// The answer that the result of a start is.
fn spawn_answer(run: u64, started: Result<u32, EdgeFault>) -> Answer
    requires pid { ForOk started (λ pid. 0 < pid) }
    ensures answer { result ≡ spawned run (start_answer started) }
    ensures tellable { IsTellable result }
{
    match started {
        Ok(pid) => Answer::Spawned { run, pid },
        Err(_) => Answer::SpawnRefused { run },
    }
}

/// Carries out the order by the one call that it asks for: `start`, `term` or `kill`; `close` for a connection, and
/// `release` for a job that was removed. The last two have no answer. `def` is the definition of the order's job.
#[tactic(auto, using(crate::proofs::OrdersLemmas::made_start, crate::proofs::OrdersLemmas::made_term, crate::proofs::OrdersLemmas::made_kill, crate::proofs::OrdersLemmas::made_close, crate::proofs::OrdersLemmas::made_release))]
pub fn execute<E: ChildEdge + SocketEdge>(
    edge: &mut E,
    order: Order,
    def: &Def,
) -> Option<PendingAnswer>
    ensures executes { Executes order result (E.told edge.old) (E.told edge.new) }
    ensures tellable { IfSome result IsTellablePending }
{
    let job = order.job;
    match order.act {
        Act::Spawn { run, conn } => {
            let answer = spawn_answer(run, edge.start(job, run, def, conn));
            Some(PendingAnswer { job, answer })
        }
        Act::Term { run } => {
            let ok = edge.term(job, run).is_ok();
            Some(PendingAnswer {
                job,
                answer: Answer::Termed { run, ok },
            })
        }
        Act::Kill { run } => {
            let ok = edge.kill(job, run).is_ok();
            Some(PendingAnswer {
                job,
                answer: Answer::Killed { run, ok },
            })
        }
        Act::Close { conn } => {
            edge.close(job, conn);
            None
        }
        Act::Gone => {
            edge.release(job);
            None
        }
    }
}
