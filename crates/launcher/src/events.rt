//! Gives the table what happens, and carries out what it orders.

ghost use Rattle.std.specs.Prelude.{◌≡◌, Err, IfOk, OnErr, false};
ghost use Rattle.history_model.specs.declared.Refusal.TheVariants.{NoMemory};
ghost use Rattle.history_model.specs.Machine.{State};
ghost use Rattle.history_model.specs.Step.{outcome};
ghost use Rattle.loaded_jobs.specs.StandsFor.{KeepsState};
ghost use Rattle.loaded_jobs.specs.TableOutcomes.{UnlessMemory};
ghost use Rattle.job_table.specs.Taking.{machine_event};
ghost use Rattle.launcher.specs.AtOnce.{NamesStay};
ghost use Rattle.launcher.specs.Inputs.{takes_none};
ghost use Rattle.launcher.specs.HostTurns.{Happens, IsUncalled, answer_event};
ghost use Rattle.loaded_jobs.specs.Loads.{refused_with};

use crate::answer_queue::AnswerQueue;
use crate::lent_facts::lend_table;
use crate::orders::{execute_all, execute_step};
use child_edge::{ChildEdge, SocketEdge};
use history_model::{Event, Refusal, Text};
use job_table::{JobTable, Taken};
use outside::PendingAnswer;
use std::alloc::Global;

/// Gives the table what happens, and carries out what it orders; a question orders nothing. The answer is the event's
/// text. After NoMemory nothing was carried out.
pub(crate) fn receive<E: ChildEdge + SocketEdge>(
    table: &mut JobTable,
    edge: &mut E,
    alloc: Global,
    what: &Event<'_>,
    answers: &mut AnswerQueue,
) -> Result<Text, Refusal>
    ensures happens { NamesStay what.now → UnlessMemory result
        (Happens (machine_event what.now) (refused_with result) table.old table.new
        answers.old answers.new (E.told edge.old) (E.told edge.new)) }
    ensures text { IfOk result (λ text. (s : State) → KeepsState table.old s →
        (outcome s (machine_event what.now)).text ≡ text) }
    ensures uncalled { result ≡ Err NoMemory →
        IsUncalled table.old table.new (E.told edge.old) (E.told edge.new) }
    ensures memory { result ≡ Err NoMemory → takes_none what.now ≡ false }
{
    lend_table(table); // for the proof
    match table.take(alloc, what) {
        Ok(Taken::Made(text)) => {
            execute_all(edge, &table.last_step(), answers);
            Ok(text)
        }
        Ok(Taken::Told(text)) => {
            lend_table(table); // for the proof
            Ok(text)
        }
        Err(refusal) => Err(refusal),
    }
}

/// Gives the table an answer by its job's number, and carries out what it orders.
pub(crate) fn receive_answer<E: ChildEdge + SocketEdge>(
    table: &mut JobTable,
    edge: &mut E,
    pending: PendingAnswer,
    answers: &mut AnswerQueue,
) -> Result<(), Refusal>
    ensures happens { Happens (answer_event table.old.names pending) (refused_with result) table.old
        table.new answers.old answers.new (E.told edge.old) (E.told edge.new) }
    ensures rows { OnErr result (table.new.rows ≡ table.old.rows) }
{
    execute_step(edge, table.answered(pending.job, pending.answer), answers)
}
