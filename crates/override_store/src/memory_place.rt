//! A place in memory, whose machine stops at each opening.

ghost use Rattle.std.specs.Prelude.{IfErr, IfOk, IsTrue, None};
ghost use Rattle.sqlite.specs.Held.{state};
ghost use Rattle.sqlite.specs.Steps.{over_memory};
ghost use Rattle.sqlite.specs.Tree.{Trees};
ghost use Rattle.override_store.specs.Places.{kept_in, over_connection, over_left};

use crate::place::{StorePlace, StoreStatus, Telling};
use crate::{StoreFault, fault};
use sqlite::{Connection, MemStore};
use sqlite_trees::store::Reopen;
use std::alloc::Global;

/// The place of a database in memory. A connection finds what a stop leaves of the one before it. It shows that a place can meet what
/// `LastingSettings::keep` asks of one.
#[derive(Drop)]
pub struct MemoryPlace {
    /// What is left of the last connection. There is none while one is there.
    pub left: Option<MemStore>,
    /// Two of its connections were there at a time.
    pub is_lost: bool,
}

// A connection over the store, once a stop has hit it.
fn reopened(alloc: Global, store: MemStore) -> Result<Connection<MemStore>, (StoreFault, MemStore)>
    ensures up { IfOk result (λ c. IsTrue (state over_memory c).is_open) }
    ensures found { IfOk result (λ c. (db : Trees) → over_memory.recovers c.store db → over_memory.recovers store db) }
    ensures left { IfErr result (λ e. (db : Trees) → over_memory.recovers e.1 db → over_memory.recovers store db) }
{
    let mut store = store;
    match store.crash_and_reopen() {
        Ok(()) => {}
        Err(_) => return Err((StoreFault::Refused, store)),
    }
    match Connection::over(alloc, store) {
        Ok(conn) => Ok(conn),
        Err((error, store)) => Err((fault(error), store)),
    }
}

impl StorePlace<Connection<MemStore>, MemStore> for MemoryPlace {
    ghost asked = { λ p. None };

    ghost finds = { λ p. kept_in over_memory p.is_lost p.left };

    ghost over = { λ p conn. over_connection over_memory (kept_in over_memory p.is_lost p.left) conn };

    ghost after = { λ p left. over_left over_memory (kept_in over_memory p.is_lost p.left) left };

    ghost is_open = { λ conn. IsTrue (state over_memory conn).is_open };

    fn open(
        &mut self,
        alloc: Global,
        _telling: Telling,
    ) -> Result<Connection<MemStore>, StoreFault> {
        let store = match self.left.take() {
            Some(store) => store,
            None => return Err(StoreFault::Refused),
        };
        match reopened(alloc, store) {
            Ok(conn) => Ok(conn),
            Err((why, store)) => {
                self.left = Some(store);
                Err(why)
            }
        }
    }

    fn leave(&mut self, left: MemStore) {
        if self.left.is_some() {
            self.is_lost = true;
        }
        self.left = Some(left);
    }

    fn close(&self, conn: Connection<MemStore>) {
        drop(conn);
    }

    fn tell(&self, _status: StoreStatus) {}
}
