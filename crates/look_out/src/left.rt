//! The helpers that there are: those that are asked, and those that were killed and have not exited yet. One that a
//! file system keeps in the kernel exits only once that answers. Each stays here until it was waited for, so none
//! becomes a zombie. Without room for a further one none is started.

ghost use Rattle.std.specs.Prelude.{◌≡◌, ◌<◌, ◌≤◌, ◌+◌, ℕ, length, IsTrue, ◌↔◌, None, IfOk, IfSome};
ghost use Rattle.std.specs.Vec.{vec_capacity};

use std::alloc::{AllocError, Global};
use std::marker::Model;
use std::process::{Child, ExitStatus, OpenProcess};

/// How many helpers there are at most: the two that are asked, and those that were killed and have not exited yet.
pub const MOST: usize = 16;

/// After how many milliseconds a helper that has not exited yet is one that KILL does not end.
const STUBBORN: u64 = 1_000;

/// A helper, by a number that no other has; and the `up` at which it was killed.
#[derive(Drop)]
struct One<P: OpenProcess + Drop> {
    number: u64,
    ended: Option<u64>,
    child: Child<P>,
}

/// To a contract, how many helpers there are.
#[derive(Drop)]
pub(crate) struct LookOuts<P: OpenProcess + Drop> {
    ones: Vec<One<P>>,
    next: u64,
}

impl<P: OpenProcess + Drop> Model for LookOuts<P> {
    ghost Value = { ℕ };

    ghost view = { λ l. length l.ones.items };

    ghost invariant = { λ l. (16 ≤ vec_capacity l.ones) × (length l.ones.items ≤ 16) };
}

impl<P: OpenProcess + Drop> LookOuts<P> {
    /// None yet, with room for all.
    pub(crate) fn new(alloc: Global) -> Result<LookOuts<P>, AllocError>
        ensures { IfOk result (λ l. l ≡ 0) }
    {
        let ones = Vec::with_capacity(alloc, MOST)?;
        Ok(LookOuts { ones, next: 0 })
    }

    /// How many there are.
    pub(crate) fn len(&self) -> usize
        ensures count { result ≡ self.now }
        ensures few { self.now ≤ 16 }
    {
        self.ones.len()
    }

    /// Takes in one that was just started, and gives its number. The caller's condition: there is room for it.
    pub(crate) fn hold(&mut self, child: Child<P>) -> u64
        requires { self.old < 16 }
        ensures { self.new ≡ self.old + 1 }
    {
        let number = self.next;
        self.next = number.wrapping_add(1);
        let ended = None;
        self.ones.push_reserved(One {
            number,
            ended,
            child,
        });
        number
    }

    /// Ends it, also if it was stopped, and does not wait for that.
    pub(crate) fn end(&mut self, number: u64, up: u64)
        ensures { self.new ≡ self.old }
    {
        for one in self.ones.iter_mut() {
            if one.number == number {
                let _ = one.child.kill();
                one.ended = Some(up);
            }
        }
    }

    /// Whether it was not waited for yet.
    pub(crate) fn is_there(&self, number: u64) -> bool {
        for one in self.ones.iter() {
            if one.number == number {
                return true;
            }
        }
        false
    }

    /// Whether it was killed some time ago, and has not exited.
    pub(crate) fn is_stubborn(&self, number: u64, up: u64) -> bool {
        for one in self.ones.iter() {
            if let (true, Some(ended)) = (one.number == number, one.ended) {
                return up.saturating_sub(ended) >= STUBBORN;
            }
        }
        false
    }

    /// How many were killed and have not exited yet.
    pub(crate) fn left(&self) -> usize {
        let mut left = 0usize;
        for one in self.ones.iter() {
            left = left.saturating_add(usize::from(one.ended.is_some()));
        }
        left
    }

    /// Waits for those that were killed and have exited since; for no other.
    pub(crate) fn reap(&mut self)
        ensures fewer { self.new ≤ self.old }
        ensures few { self.new ≤ 16 }
    {
        let mut at = 0usize;
        for _ in 0..self.len() {
            at = self.reap_at(at);
        }
    }

    // The place of the next one.
    fn reap_at(&mut self, at: usize) -> usize
        ensures { self.new ≤ self.old }
    {
        if at < self.len() && self.settle(at).is_none() {
            at.saturating_add(1)
        } else {
            at
        }
    }

    // How the helper at the place exited: it was killed, has exited, and was waited for. Only then it is here no
    // longer. None: it is here still.
    fn settle(&mut self, at: usize) -> Option<ExitStatus>
        requires { at < self.old }
        ensures here { result ≡ None → self.new ≡ self.old }
        ensures gone { IfSome result (λ _. self.new + 1 ≡ self.old) }
    {
        if self.ones[at].ended.is_none() {
            return None;
        }
        let status = match self.ones[at].child.try_wait() {
            Ok(Some(status)) => status,
            _ => return None,
        };
        drop(self.ones.swap_remove(at));
        Some(status)
    }
}
