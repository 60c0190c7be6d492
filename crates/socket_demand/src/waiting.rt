//! The connections at a job's sockets that wait for a run.

ghost use Rattle.std.specs.Prelude.{◌≡◌, ◌==◌, ◌<◌, ◌≤◌, ◌↔◌, ℕ, [], ◌∷◌, ◌++◌, drop, filter, length, not, IfOk, OnOk, OnErr, IsOk, IsTrue, slice_get, None};
ghost use Rattle.std.specs.List.{list_any};
ghost use Rattle.history_model.specs.Search.{first};

use history_model::MAX_CONNECTIONS;
use std::alloc::{AllocError, Global};
use std::marker::Model;

/// The queue has no room for one more.
#[derive(Clone, Copy, PartialEq, Eq)]
pub struct Full;

/// Connections in order of arrival: to a contract, the list of their numbers. The room is that of `new`, and no call changes it.
#[derive(Drop)]
pub struct Waiting {
    conns: Vec<u64>,
}

impl Model for Waiting {
    ghost use Rattle.std.specs.Prelude.{List, ℕ, ◌≡◌, ◌≤◌, length, vec_capacity};

    ghost Value = { List ℕ };

    ghost view = { λ w. w.conns.items };

    ghost use Rattle.history_model.specs.declared.TheConstants.{MAX_CONNECTIONS};

    ghost invariant = { λ w. (vec_capacity w.conns ≡ MAX_CONNECTIONS)
        × (length w.conns.items ≤ MAX_CONNECTIONS) };
}

impl Waiting {
    /// No connection, and room for all that may ever wait. The one refusal is of memory.
    pub fn new(alloc: Global) -> Result<Waiting, AllocError>
        ensures { IfOk result (λ w. w ≡ []) }
    {
        let conns = Vec::with_capacity(alloc, MAX_CONNECTIONS)?;
        Ok(Waiting { conns })
    }

    /// Adds a connection after the others. Refused if `MAX_CONNECTIONS` wait already, which it then leaves as they are.
    #[tactic(auto, using(std::proofs::lemmas::List::Edits::insert_end))]
    pub fn came(&mut self, conn: u64) -> Result<(), Full>
        ensures room { IsOk result ↔ (length self.old < MAX_CONNECTIONS) }
        ensures ok { OnOk result (self.new ≡ self.old ++ conn ∷ []) }
        ensures err { OnErr result (self.new ≡ self.old) }
    {
        if self.conns.len() >= MAX_CONNECTIONS {
            return Err(Full);
        }
        // The room is there since `new`, and stays as it is: of `push` std says only that it does not shrink.
        let end = self.conns.len();
        match self.conns.insert(end, conn) {
            Ok(()) => Ok(()),
            Err(_) => unreachable!(),
        }
    }

    /// Takes a connection out, and returns whether it waited.
    pub fn left(&mut self, conn: u64) -> bool
        ensures waited { result ≡ list_any (λ c. c == conn) self.old }
        ensures rest { self.new ≡ filter (λ c. not (conn == c)) self.old }
    {
        let waited = self.contains(conn);
        self.conns.retain(|c| conn != *c);
        waited
    }

    /// Whether the connection waits.
    pub fn contains(&self, conn: u64) -> bool
        ensures { result ≡ list_any (λ c. c == conn) self.now }
    {
        self.conns.iter().any(|c| *c == conn)
    }

    /// The connection that came first.
    pub fn first(&self) -> Option<u64>
        ensures { result ≡ first self.now }
    {
        self.conns.first().copied()
    }

    /// Takes out the connection that came first.
    pub fn take(&mut self) -> Option<u64>
        ensures taken { result ≡ first self.old }
        ensures rest { self.new ≡ drop 1 self.old }
    {
        if self.conns.is_empty() {
            return None;
        }
        Some(self.conns.remove(0))
    }

    /// The connection at a position, counted from 0.
    pub fn get(&self, position: usize) -> Option<u64>
        ensures value { result ≡ slice_get self.now position }
        ensures few { MAX_CONNECTIONS ≤ position → result ≡ None }
    {
        self.conns.get(position).copied()
    }

    /// How many connections wait.
    pub fn len(&self) -> usize
        ensures count { result ≡ length self.now }
        ensures bound { result ≤ MAX_CONNECTIONS }
    {
        self.conns.len()
    }

    /// Whether none waits.
    pub fn is_empty(&self) -> bool
        ensures { IsTrue result ↔ (self.now ≡ []) }
    {
        self.conns.is_empty()
    }
}
