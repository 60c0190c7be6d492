//! Makes each answer of the outside the next event, first in first out, until none remains.

ghost use Rattle.std.specs.Prelude.{◌≡◌, ◌≤◌, ◌*◌, List, ◌∷◌};
ghost use Rattle.history_model.specs.declared.TheConstants.{MAX_JOBS};
ghost use Rattle.history_model.specs.Machine.{State};
ghost use Rattle.history_model.specs.Turns.{JobOrder};
ghost use Rattle.history_model.specs.AwaitedOrders.{weigh_orders};
ghost use Rattle.loaded_jobs.specs.Tables.{Name};
ghost use Rattle.outside.specs.declared.pending_answer.PendingAnswer.{PendingAnswer as Answered};
ghost use Rattle.launcher.specs.HostTurns.{IsWaiting, Handled, Settled, trace};

use crate::events::receive_answer;
use crate::host::Host;
use crate::lent_facts::{lend_table, lend_text};
use child_edge::{ChildEdge, SocketEdge};
use history_model::{Event, JobItem, TextRef};
use outside::{PendingAnswer, SettingStore};
use std::alloc::Global;
use std::io::Write;

impl<T: SettingStore, E: ChildEdge + SocketEdge, W: Write> Host<T, E, W> {
    /// Gives the table one answer by its job's number, which takes no memory, carries out what it orders, and writes
    /// its line.
    fn handle(&mut self, alloc: Global, pending: PendingAnswer)
        ensures handled { (s : State) (names : List Name) (job_order : JobOrder)
            (waits : List JobOrder) (rest : List Answered) →
            IsWaiting self.old.table s names (job_order ∷ waits) (pending ∷ rest)
            → Handled s names job_order waits pending rest
            self.old.answers self.new.answers self.new.table
            (trace (E.told self.old.edge) self.old.journal)
            (trace (E.told self.new.edge) self.new.journal) }
        ensures store { self.new.store ≡ self.old.store }
    {
        lend_table(&self.table); // for the proof
        let _accepted = receive_answer(&mut self.table, &mut self.edge, pending, &mut self.answers);
        let label = self.table.last_step().label(pending.job);
        lend_text(label); // for the proof
        let told = Event::OfJob {
            job: TextRef::new(label),
            item: JobItem::Answered(pending.answer),
        };
        self.journal.note(alloc, &told);
    }

    /// Gives the table each answer of the queue, carries out what the table orders, and puts the answers to that after
    /// the others. It writes the line of each answer, until none remains. Only the lines take memory; want of it closes
    /// the journal and changes nothing else.
    pub(crate) fn settle(&mut self, alloc: Global)
        ensures settled { (s : State) (names : List Name) (waits : List JobOrder) →
            IsWaiting self.old.table s names waits self.old.answers
            → weigh_orders waits ≤ 3 * MAX_JOBS
            → Settled s names self.old.answers self.new.answers self.new.table
            (trace (E.told self.old.edge) self.old.journal)
            (trace (E.told self.new.edge) self.new.journal) }
        ensures store { self.new.store ≡ self.old.store }
    {
        let mut next = 0;
        while next < self.answers.len() {
            let pending = self.answers.at(next);
            next += 1;
            self.handle(alloc, pending);
        }
    }
}
