//! The place of a launcher's store, as the system or a test has it.

ghost use Rattle.std.specs.Prelude.{◌≡◌, ℕ, IfErr, IfOk, Option};
ghost use Rattle.override_store.specs.Places.{Finds, IsAskedOnce, Keeps};

use crate::StoreFault;
use std::alloc::Global;

/// What a store reports.
#[derive(Clone, Copy)]
pub enum StoreStatus {
    /// A setting was refused, or the store could not be opened again.
    Refused(StoreFault),
    /// A setting of a new label was refused: `MOST_LABELS` have one.
    TooMany,
    /// At the end the database did not have the settings that were made, and they were written again.
    Mended,
    /// The store took a setting, or it ends: from now on each reason is logged again.
    Anew,
}

/// Which refusals of an open are reported.
#[derive(Clone, Copy)]
pub enum Telling {
    /// Those whose reason was not logged since `StoreStatus::Anew`.
    New,
    /// Not that another process has the store.
    AllButBusy,
}

/// Opens the database of a store, and again after its disk failed. A `C` is a connection to it, and an `L` is what is left of a closed one.
pub trait StorePlace<C, L> {
    /// How often it was asked for a connection. A place that does not record it has none.
    ghost asked: { Self → Option ℕ };

    /// What the next connection may find, if there is none now. A place that can't say so is not honest.
    ghost finds: { Self → Finds };

    /// What the next one may find where this connection is there.
    ghost over: { Self → C → Finds };

    /// What it may find where this is left of a connection.
    ghost after: { Self → L → Finds };

    /// The connection can be used.
    ghost is_open: { C → Type 0 };

    /// A new connection to the database. No other connection that it gave is there any more.
    fn open(&mut self, alloc: Global, telling: Telling) -> Result<C, StoreFault>
        ensures asked { IsAskedOnce (Self.asked self.old) (Self.asked self.new) }
        ensures is_open { IfOk result (λ conn. (Self.over self.new conn).IsHonest → Self.is_open conn) }
        ensures found { IfOk result (λ conn. Keeps (Self.finds self.old) (Self.over self.new conn)) }
        ensures refused { IfErr result (λ _. Keeps (Self.finds self.old) (Self.finds self.new)) };

    /// Drops what is left of a connection that it gave.
    fn leave(&mut self, left: L)
        ensures asked { Self.asked self.new ≡ Self.asked self.old }
        ensures found { Keeps (Self.after self.old left) (Self.finds self.new) };

    /// Moves what a log next to the database holds into it, and drops the connection.
    fn close(&self, conn: C);

    fn tell(&self, status: StoreStatus);
}
