//! What hung, by its place, and the helpers that there are. A helper that waits for its file system in the kernel stays
//! until that answers. As long as it is left, nothing at its place is asked about; and then one question each ten
//! seconds.
//!
//! A disk is shut as a whole only while four helpers are left on it that a KILL did not end. A helper at a lease or a
//! FIFO exits at once. For path checks, which no lease and no FIFO holds, it is shut once four of them hung there.

ghost use Rattle.std.specs.Prelude.{◌≡◌, ◌≤◌, ◌+◌, IfOk, OnOk, OnErr};

use crate::helper::{Helper, start};
use crate::left::{LookOuts, MOST};
use crate::mounts::mount_of;
use crate::question::Asks;
use crate::shut::HungPlace;
use crate::spare::{LEAST, PATIENCE};
use std::alloc::{AllocError, Global};
use std::fs::Files;
use std::io;
use std::io::ErrorKind;
use std::marker::Model;
use std::net::Net;
use std::process::{OpenProcess, Processes};

/// How many helpers are left at most before nothing more is asked on file systems of a kind that may hang: the others
/// have room then.
const LEFT: usize = 10;

/// How many hung on a disk before it is shut as a whole.
const ON_DISK: usize = 4;

/// How many places are remembered at most, and how many of them a helper gets.
const PLACES: usize = 256;

const TOLD: usize = 64;

/// For how many milliseconds nothing is asked at a place that hung, and after how many more it is forgotten.
const PEACE: u64 = 10_000;

const MEMORY: u64 = 60_000;

/// The places that hung and have not answered since. To a contract, how many helpers there are.
#[derive(Drop)]
pub struct Hung<P: OpenProcess + Drop> {
    alloc: Global,
    look_outs: LookOuts<P>,
    places: Vec<HungPlace>,
}

impl<P: OpenProcess + Drop> Model for Hung<P> {
    ghost use Rattle.std.specs.Prelude.{ℕ};

    ghost Value = { ℕ };

    ghost view = { λ h. h.look_outs };
}

impl<P: OpenProcess + Drop> Hung<P> {
    /// Nothing hung yet.
    pub fn new(alloc: Global) -> Result<Hung<P>, AllocError>
        ensures { IfOk result (λ h. h ≡ 0) }
    {
        let look_outs = LookOuts::new(alloc)?;
        Ok(Hung {
            alloc,
            look_outs,
            places: Vec::new(alloc),
        })
    }

    /// Waits for the helpers that were killed and have exited since, so that none of them stays a zombie. It waits for
    /// none that has not exited. There are 16 at most: the two that are asked, and those that were killed and not
    /// waited for yet.
    pub fn reap(&mut self)
        ensures fewer { self.new ≤ self.old }
        ensures few { self.new ≤ 16 }
    {
        self.look_outs.reap();
    }

    // Starts a helper, if there is room for one.
    pub(crate) fn start<R: Net + Processes<Started = P>>(
        &mut self,
        rt: &R,
        is_waited_for: bool,
    ) -> io::Result<Helper>
        ensures success { OnOk result (self.new ≡ self.old + 1) }
        ensures refusal { OnErr result (self.new ≡ self.old) }
    {
        if self.look_outs.len() >= MOST {
            return Err(full());
        }
        match start(rt, self.alloc, is_waited_for) {
            Ok((child, socket)) => {
                let id = child.id();
                let number = self.look_outs.hold(child);
                let waits = 0;
                Ok(Helper {
                    number,
                    id,
                    socket,
                    waits,
                })
            }
            Err(error) => Err(error),
        }
    }

    /// Kills the helper, also one that was stopped. It is waited for later.
    pub(crate) fn end(&mut self, helper: Helper, up: u64)
        ensures { self.new ≡ self.old }
    {
        let Helper {
            number,
            id: _,
            socket,
            waits: _,
        } = helper;
        self.look_outs.end(number, up);
        drop(socket);
    }

    // Whether nothing is asked at the place now.
    fn is_place_shut(&self, place: &HungPlace, up: u64) -> bool {
        up < place.again || self.look_outs.is_there(place.number)
    }

    /// Whether the path must not be asked about at this `up`. First case: it hung, and its helper is left or its ten
    /// seconds are not over. Second case: it is on a disk that is shut. Third case: it may hang, and ten helpers are
    /// left.
    pub(crate) fn is_shut<R: AllocGlobal + Files>(
        &self,
        rt: &R,
        path: &str,
        up: u64,
        is_look: bool,
    ) -> bool {
        for place in self.places.iter() {
            if place.holds(path) && self.is_place_shut(place, up) {
                return true;
            }
        }
        let is_closed = self.is_closed();
        let on_disks = self.count_on_disks(up, is_look);
        if !is_closed && on_disks < ON_DISK {
            return false;
        }
        match mount_of(rt, self.alloc, path) {
            Ok(mount) => {
                let is_shut = if mount.may_hang {
                    is_closed
                } else {
                    self.count_on(mount.text.as_str(), up, is_look) >= ON_DISK
                };
                drop(mount);
                is_shut
            }
            Err(_) => true,
        }
    }

    // Whether the most helpers are left that may be, before nothing more is asked on file systems of a kind that may
    // hang.
    fn is_closed(&self) -> bool {
        self.look_outs.left() >= LEFT
    }

    // Whether the place counts for its disk. It must be a path alone. It counts if KILL did not end its helper, and for
    // path checks also if one hung there.
    fn counts(&self, place: &HungPlace, up: u64, is_look: bool) -> bool {
        if place.mount.may_hang {
            return false;
        }
        let has_hung = is_look && place.is_look && up < place.again;
        has_hung || self.look_outs.is_stubborn(place.number, up)
    }

    // How many count on all disks.
    fn count_on_disks(&self, up: u64, is_look: bool) -> usize {
        let mut count = 0usize;
        for place in self.places.iter() {
            if self.counts(place, up, is_look) {
                count = count.saturating_add(1);
            }
        }
        count
    }

    // How many count on this one.
    fn count_on(&self, disk: &str, up: u64, is_look: bool) -> usize {
        let mut count = 0usize;
        for place in self.places.iter() {
            if place.mount.text.as_str() == disk && self.counts(place, up, is_look) {
                count = count.saturating_add(1);
            }
        }
        count
    }

    /// Whether nothing hung, so that a helper has to learn nothing.
    pub(crate) fn is_quiet(&self) -> bool {
        self.places.is_empty()
    }

    /// Whether nothing hung, and something may be asked on each file system.
    pub(crate) fn is_calm(&self) -> bool {
        self.is_quiet() && !self.is_closed()
    }

    /// The text that says to a helper where nothing is asked at this time, and how many questions it is.
    pub(crate) fn put_told(
        &self,
        text: &mut Vec<u8>,
        up: u64,
        is_look: bool,
    ) -> Result<usize, AllocError> {
        let mut count = 1usize;
        put(text, Asks::Open, "")?;
        if self.is_closed() {
            put(text, Asks::Close, "")?;
            count = 2;
        }
        for place in self.places.iter() {
            if count >= TOLD {
                break;
            }
            if self.is_place_shut(place, up) {
                count = count.saturating_add(1);
                if place.mount.may_hang {
                    put(text, Asks::ShutMount, place.mount.text.as_str())?;
                } else if self.count_on(place.mount.text.as_str(), up, is_look) >= ON_DISK {
                    put(text, Asks::ShutMount, place.mount.text.as_str())?;
                } else {
                    put(text, Asks::ShutPath, place.path.as_str())?;
                }
            }
        }
        Ok(count)
    }

    /// Whether the path hung before, and has not answered since.
    pub(crate) fn hung_before(&self, path: &str) -> bool {
        for place in self.places.iter() {
            if place.covers(path) {
                return true;
            }
        }
        false
    }

    /// How many milliseconds are waited for an answer about the path by what came of the path itself.
    pub(crate) fn own_patience(&self, path: &str) -> u64 {
        let mut patience = PATIENCE;
        for place in self.places.iter() {
            if place.covers(path) {
                patience = patience.min(place.patience);
            }
        }
        patience
    }

    /// An answer came about the path: what hung there is open again, once its helper has exited.
    pub(crate) fn answered(&mut self, path: &str)
        ensures { self.new ≡ self.old }
    {
        let mut at = 0usize;
        for _ in 0..self.places.len() {
            let is_over = match self.places.get(at) {
                Some(place) => place.covers(path) && !self.look_outs.is_there(place.number),
                None => return,
            };
            if is_over {
                self.forget(at);
            } else {
                at = at.saturating_add(1);
            }
        }
    }

    // Only what is remembered of the place is dropped: its helper stays until it was waited for.
    fn forget(&mut self, at: usize)
        ensures { self.new ≡ self.old }
    {
        if at < self.places.len() {
            drop(self.places.swap_remove(at));
        }
    }

    /// No answer came in `waited` milliseconds about what was asked: its way had led to the path. The helper is killed
    /// and left. From now on nothing is asked at its place for ten seconds. A start there waits half as long, unless
    /// this wait was cut short by others. Without memory the place is not remembered.
    pub(crate) fn hangs<R: AllocGlobal + Files>(
        &mut self,
        rt: &R,
        asked: &str,
        path: &str,
        helper: Helper,
        up: u64,
        waited: u64,
        is_look: bool,
    )
        ensures { self.new ≡ self.old }
    {
        let number = helper.number;
        self.end(helper, up);
        let own = self.own_patience(asked).min(self.own_patience(path));
        let patience = if waited < own {
            own
        } else {
            (own / 2).max(LEAST)
        };
        let Ok(place) = self.place_of(rt, asked, path, up) else {
            return;
        };
        let mut place = place;
        place.number = number;
        place.is_look = is_look;
        place.patience = patience;
        self.make_room(&place, up);
        drop(self.places.push(place));
    }

    fn place_of<R: AllocGlobal + Files>(
        &self,
        rt: &R,
        asked: &str,
        path: &str,
        up: u64,
    ) -> Result<HungPlace, AllocError> {
        let asked = String::from_str(self.alloc, asked)?;
        let text = String::from_str(self.alloc, path)?;
        let mount = mount_of(rt, self.alloc, path)?;
        Ok(HungPlace {
            mount,
            path: text,
            asked,
            number: 0,
            is_look: false,
            again: up.saturating_add(PEACE),
            patience: PATIENCE,
        })
    }

    // Forgets what was remembered of the place, and each place that may be asked again for a minute already. Or else,
    // without room, it forgets the place that is asked again first. It does not forget one whose helper was not waited
    // for yet.
    fn make_room(&mut self, place: &HungPlace, up: u64)
        ensures { self.new ≡ self.old }
    {
        let mut at = 0usize;
        for _ in 0..self.places.len() {
            let is_over = match self.places.get(at) {
                Some(one) => {
                    !self.look_outs.is_there(one.number)
                        && (one.is_same(place) || up >= one.again.saturating_add(MEMORY))
                }
                None => break,
            };
            if is_over {
                self.forget(at);
            } else {
                at = at.saturating_add(1);
            }
        }
        if self.places.len() >= PLACES {
            self.forget_oldest();
        }
    }

    fn forget_oldest(&mut self)
        ensures { self.new ≡ self.old }
    {
        let mut oldest = usize::MAX;
        let mut least = u64::MAX;
        let mut at = 0usize;
        for place in self.places.iter() {
            if place.again < least && !self.look_outs.is_there(place.number) {
                least = place.again;
                oldest = at;
            }
            at = at.saturating_add(1);
        }
        self.forget(oldest);
    }
}

fn put(text: &mut Vec<u8>, asks: Asks, path: &str) -> Result<(), AllocError> {
    text.extend_from_slice(asks.letter().as_bytes())?;
    text.extend_from_slice(path.as_bytes())?;
    text.push(0).map_err(AllocError::from)
}

fn full() -> io::Error {
    io::Error::new(
        ErrorKind::TimedOut,
        "16 helper processes have not exited yet",
    )
}
