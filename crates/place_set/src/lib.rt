//! A set of places, each below a room that is made before: one bit a place, in numbers of 64 bits. The least place is found by
//! whole numbers, so a set of which few places are marked costs little to empty. Only `new` and `reserve` take memory.
#![tactic(auto)]

ghost use Rattle.std.specs.Prelude.{◌≡◌, ◌<◌, ◌≤◌, OnOk, []};
ghost use Rattle.place_set.specs.Places.{AreEmpty, IsFirstWord};

use std::alloc::{AllocError, Global};
use std::marker::Model;

/// Places. To a contract, the numbers whose bits are set for the places among them, which only `has_place` and `place_room` read.
#[derive(Drop)]
pub struct PlaceSet {
    words: Vec<u64>,
    /// At least this many numbers at the front have no bit: a search begins after them.
    passed: usize,
}

impl Model for PlaceSet {
    ghost use Rattle.place_set.specs.Places.{Places};

    ghost Value = { Places };

    ghost use Rattle.place_set.specs.Places.{AreFew, AreEmpty};

    ghost view = { λ set. record { words = set.words.items } };

    ghost invariant = { λ set. AreFew set.words.items × AreEmpty set.passed set.words.items };
}

impl PlaceSet {
    ghost use Rattle.place_set.specs.Places.{place_room, KeepsPlaces, Inserts, IsLeastTaken};

    /// No place, and no room. It takes no memory yet.
    pub fn new(alloc: Global) -> PlaceSet
        ensures { result ≡ record { words = [] } }
    {
        PlaceSet {
            words: Vec::new(alloc),
            passed: 0,
        }
    }

    /// Makes room for the places below `places`. The set stays, and the room is never less than before, also if memory runs out,
    /// which is the one refusal. A set that has the room takes no memory.
    pub fn reserve(&mut self, places: u32) -> Result<(), AllocError>
        ensures room { OnOk result (places ≤ place_room self.new) }
        ensures kept { KeepsPlaces self.old self.new }
    {
        let words = places as usize / 64 + 1;
        self.passed = 0;
        while self.words.len() < words {
            self.words.push(0)?;
        }
        Ok(())
    }

    /// Puts a place into the set. The caller's condition: there is room for it.
    pub fn insert(&mut self, place: u32)
        requires { place < place_room self.old }
        ensures { Inserts self.old self.new place }
    {
        let at = place as usize / 64;
        self.passed = self.passed.min(at);
        self.words[at] |= 1 << (place % 64);
    }

    /// Takes the least place out, and gives it. None if the set is empty.
    pub fn pop_least(&mut self) -> Option<u32>
        ensures { IsLeastTaken self.old result self.new }
    {
        let Some(at) = first_word(&self.words, self.passed) else {
            return None;
        };
        self.passed = at;
        let word = self.words[at];
        let bit = word.trailing_zeros();
        self.words[at] = word & !(1 << bit);
        Some(at as u32 * 64 + bit)
    }
}

/// The index of the first number that has a bit set; none if no number has one. The first `passed` numbers have none.
fn first_word(words: &[u64], passed: usize) -> Option<usize>
    requires { AreEmpty passed words.now }
    ensures { IsFirstWord words.now result }
{
    let mut at = passed;
    while at < words.len() {
        if words[at] != 0 {
            return Some(at);
        }
        at += 1;
    }
    None
}
