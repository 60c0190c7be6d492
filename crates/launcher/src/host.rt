//! The launcher: how it is made, and what it lends.

ghost use Rattle.std.specs.Prelude.{◌≡◌, ◌↔◌, IfOk, IsTrue, List, Result, is_some, true, false};
ghost use Rattle.std.specs.Borrow.{sem};
ghost use Rattle.history_model.specs.declared.event.Setting.{Setting};
ghost use Rattle.outside.specs.declared.store.StoreFault.{StoreFault};
ghost use Rattle.outside.specs.Stores.{HoldsAfter};
ghost use Rattle.launcher.specs.Journals.{fresh, held, reported, is_writing};
ghost use Rattle.launcher.specs.Hosts.{IsNewWith, stands};
ghost use Rattle.launcher.specs.TurnFaults.{ComesOf, FaultOf};
ghost use Rattle.launcher.specs.Lends.{lends_edge};

use crate::answer_queue::AnswerQueue;
use crate::host_parts::{Inside, make_inside, store_fault, with_settings};
use crate::journal::{Journal, Phase};
use child_edge::{ChildEdge, SocketEdge};
use ctl_protocol::{Header, LineRoom};
use job_table::JobTable;
use outside::SettingStore;
use std::alloc::Global;
use std::io::Write;

/// Why a launcher could not be made.
#[derive(Clone, Copy)]
pub enum HostFault {
    /// Memory was refused.
    NoMemory,
    /// The store did not give its settings, or they are not of labels, each before all that follow in byte order.
    Store,
    /// The header's zone is none, or its clock reading is past a limit.
    Header,
}

/// A launcher: the table of its jobs, the store of settings, the outside, and the journal.
#[derive(Drop)]
pub struct Host<T: SettingStore, E: ChildEdge + SocketEdge, W: Write> {
    pub(crate) table: JobTable,
    pub(crate) store: T,
    pub(crate) edge: E,
    pub(crate) journal: Journal<W>,
    pub(crate) answers: AnswerQueue,
    // What reading a client's line takes. It is out of the launcher while the event that borrows of it is executed.
    pub(crate) room: LineRoom,
    // The input of the last turn was a load that was accepted.
    pub(crate) has_loaded: bool,
}

impl<T: SettingStore + Drop, E: ChildEdge + SocketEdge + Drop, W: Write + Drop> Host<T, E, W> {
    /// A launcher with no job. It has the header's clock reading and zone, and the store's settings in place of the
    /// header's. The journal, if there is one, begins with the line of that header, which a replay reads as this
    /// header. A refused write of it closes the journal and is not a fault. All room that turns need is reserved.
    /// Refused as `HostFault` says; the arguments are then dropped.
    pub fn new(
        alloc: Global,
        header: Header,
        store: T,
        edge: E,
        journal: Option<W>,
    ) -> Result<Host<T, E, W>, HostFault>
        ensures faults { FaultOf header result }
        ensures comes { (answer : Result (List Setting) StoreFault)
            × (T.may_give store answer × ComesOf (λ host. host.table)
            (λ settings host. IsNewWith settings header (E.told edge) (T.told store)
            (fresh (held W.contents journal) (is_some journal))
            (stands E.told T.told host) (T.holds store) (T.holds host.store))
            header answer result) }
        ensures stamped { IfOk result (λ host.
            HoldsAfter T.stamped (λ stamps. stamps) store host.store) }
        ensures loaded { IfOk result (λ host. host.has_loaded ≡ false) }
    {
        let mut store = store;
        let settings = match store.all(alloc) {
            Ok(settings) => settings,
            Err(fault) => return Err(store_fault(fault)),
        };
        match make_inside(alloc, with_settings(header, settings), journal) { // for the proof
            Ok(
                Inside {
                    table,
                    journal,
                    answers,
                    room,
                },
            ) => Ok(Host {
                table,
                store,
                edge,
                journal,
                answers,
                room,
                has_loaded: false,
            }),
            Err(fault) => Err(fault),
        }
    }

    /// The table, the store, the outside, and the journal's writer, if lines are still written to it.
    pub fn into_parts(self) -> (JobTable, T, E, Option<W>)
        ensures table { result.0 ≡ self.table }
        ensures store { result.1 ≡ self.store }
        ensures edge { result.2 ≡ self.edge }
        ensures journal { is_some result.3 ≡ is_writing self.journal }
        ensures bytes { is_writing self.journal ≡ true →
            held W.contents result.3 ≡ self.journal.bytes }
    {
        let Host {
            table,
            store,
            edge,
            journal,
            ..
        } = self;
        (table, store, edge, journal.into_open())
    }
}

impl<T: SettingStore, E: ChildEdge + SocketEdge, W: Write> Host<T, E, W> {
    /// The table of its jobs.
    pub fn table(&self) -> &JobTable
        ensures { result.now ≡ self.now.table }
    {
        &self.table
    }

    /// Whether the input of the last turn was a load that was accepted.
    pub fn has_loaded(&self) -> bool
        ensures { result ≡ self.now.has_loaded }
    {
        self.has_loaded
    }

    /// The outside, for what is asked of it between turns. All else of the launcher stays as it is.
    pub fn edge(&mut self) -> &mut E
        ensures* writes_back { sem 𝓛 (lends_edge T.row E.row W.row W.Write self.entry result) }
        ensures now { result.now ≡ self.old.edge }
    {
        &mut self.edge
    }

    /// Whether the journal was closed since this was asked last: true once at most.
    pub fn report_journal_closing(&mut self) -> bool
        ensures told { IsTrue result ↔ (self.old.journal.phase ≡ Phase.Closed) }
        ensures after { self.new ≡ record self.old { journal = reported self.old.journal } }
    {
        self.journal.report_closing()
    }
}
