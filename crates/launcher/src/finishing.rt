//! The rest of a load or of a setting whose event the table has taken in.

ghost use Rattle.std.specs.Prelude.{◌≡◌, ℕ, List, []};
ghost use Rattle.history_model.specs.Machine.{State, Event};
ghost use Rattle.loaded_jobs.specs.Tables.{Table};
ghost use Rattle.loaded_jobs.specs.StandsFor.{KeepsState};
ghost use Rattle.launcher.specs.Journals.{JournalState, Grows};
ghost use Rattle.launcher.specs.HostTurns.{IsLed, NamesLabel, trace};
ghost use Rattle.launcher.specs.LoadTurns.{Finishes, HasTaken};

use crate::host::Host;
use crate::orders::execute_all;
use child_edge::{ChildEdge, SocketEdge};
use outside::SettingStore;
use std::alloc::Global;
use std::io::Write;

impl<T: SettingStore, E: ChildEdge + SocketEdge, W: Write> Host<T, E, W> {
    /// Carries out what the event that the table has just taken in ordered, and makes each answer the next event, until none is
    /// left. The journal, which has the line of the event, gets the line of each answer.
    pub(crate) fn finish(&mut self, alloc: Global)
        requires { self.old.answers ≡ [] }
        ensures finished { (before : Table) (s : State) (e : Event) (line : List ℕ)
            (written : JournalState) →
            Grows written self.old.journal line → NamesLabel e → IsLed s → KeepsState before s
            → HasTaken s e self.old.table
            → Finishes s e line self.old.table.names self.new.table
            (trace (E.told self.old.edge) written)
            (trace (E.told self.new.edge) self.new.journal) }
        ensures store { self.new.store ≡ self.old.store }
    {
        execute_all(&mut self.edge, &self.table.last_step(), &mut self.answers);
        self.settle(alloc);
    }
}
